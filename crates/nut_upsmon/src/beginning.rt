//! What a watch begins with.

ghost use Rattle.std.specs.Prelude.{◌≡◌, [], IfOk};
ghost use Rattle.nut_monitor_spec.specs.Configuration.{configuration_of};
ghost use Rattle.nut_monitor_spec.specs.Content.{content};

use nut_conf::MonConfig;
use nut_monitor::Monitor;
use nut_monitor_sockets::NewLinks;
use std::alloc::{AllocError, Global};

/// What a watch begins with: a monitor that has heard nothing yet, and its links. All memory that a watch needs to begin
/// is in it.
#[derive(Drop)]
pub struct Beginning {
    pub monitor: Monitor,
    pub links: NewLinks,
    pub ghost untold: { monitor.content ≡ content (configuration_of monitor.config) [] },
}

impl Beginning {
    /// Makes what the watch of a configuration begins with.
    ///
    /// # Errors
    ///
    /// [`AllocError`] if memory cannot be allocated.
    pub fn of(alloc: Global, config: MonConfig) -> Result<Beginning, AllocError>
        ensures { IfOk result (λ beginning. beginning.monitor.config ≡ config) }
    {
        let Ok(monitor) = Monitor::new(alloc, config) else {
            return Err(AllocError);
        };
        let links = NewLinks::of(alloc, monitor.config())?;
        Ok(Beginning { monitor, links })
    }

    /// Returns the configuration.
    pub fn config(&self) -> &MonConfig
        ensures { result.now ≡ self.now.monitor.config }
    {
        self.monitor.config()
    }
}
