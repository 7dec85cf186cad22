//! What a changed upsmon.conf sets otherwise.

ghost use Rattle.std.specs.Prelude.{◌≡◌, ℕ, Some, None, slice_get};
ghost use Rattle.nut_conf.specs.declared.monitor.Monitored.{Monitored as Watched};

use nut_conf::{MonConfig, Monitored, UPSMON_DIRECTIVES, UpsmonDirective};
use nut_poll::text_of;
use std::alloc::{AllocError, Global};

/// What differs between two configurations, for the operator to read: as in
/// `MONITOR neu@localhost added, MINSUPPLIES changed`.
#[derive(Drop)]
pub struct Changes {
    text: String,
}

impl Changes {
    /// Compares two configurations. A directive that now sets its default has changed nothing, and neither has the order
    /// of the MONITOR lines.
    ///
    /// # Errors
    ///
    /// [`AllocError`] if memory for the text cannot be allocated.
    pub fn between(
        alloc: Global,
        former: &MonConfig,
        config: &MonConfig,
    ) -> Result<Changes, AllocError> {
        let mut changes = Changes {
            text: String::new(alloc),
        };
        changes.add_lines(&former.monitors.lines, &config.monitors.lines)?;
        for (word, directive, _) in UPSMON_DIRECTIVES {
            let is_monitor = matches!(directive, UpsmonDirective::Monitor);
            if !is_monitor && !config.agrees(former, directive) {
                changes.add(&[text_of(word), "changed"])?;
            }
        }
        Ok(changes)
    }

    /// Whether nothing differs.
    pub fn are_none(&self) -> bool {
        self.text.is_empty()
    }

    /// Returns the text.
    pub fn as_str(&self) -> &str {
        self.text.as_str()
    }

    /// Adds the MONITOR lines that are new, gone, or not the same.
    fn add_lines(&mut self, former: &[Monitored], lines: &[Monitored]) -> Result<(), AllocError> {
        for line in lines {
            match line_of(former, line) {
                None => self.add_line(line, "added")?,
                Some(before) if before != line => self.add_line(line, "changed")?,
                Some(_) => {}
            }
        }
        for line in former {
            if line_of(lines, line).is_none() {
                self.add_line(line, "removed")?;
            }
        }
        Ok(())
    }

    fn add_line(&mut self, line: &Monitored, what: &str) -> Result<(), AllocError> {
        self.add(&["MONITOR", text_of(&line.written), what])
    }

    /// Adds one change, of these words.
    fn add(&mut self, words: &[&str]) -> Result<(), AllocError> {
        if !self.text.is_empty() {
            self.text.push_str(",")?;
        }
        for word in words {
            if !self.text.is_empty() {
                self.text.push_str(" ")?;
            }
            self.text.push_str(word)?;
        }
        Ok(())
    }
}

/// Returns the line among these that watches the same UPS.
pub fn line_of<'a>(lines: &'a [Monitored], line: &Monitored) -> Option<&'a Monitored>
    ensures { result ≡ None → (i : ℕ) (other : Watched) → slice_get lines.now i ≡ Some other → other.target ≡ line.now.target → ⊥ }
{
    for other in lines {
        if other.target == line.target {
            return Some(other);
        }
    }
    None
}
