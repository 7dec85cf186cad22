//! Losses of UPSes that had no status yet, which aren't told in the first seconds.
//!
//! While a machine boots, its server may be there before the driver of a UPS is. What happens to a UPS that had a status is
//! told at once, and no decision waits for anything here.

ghost use Rattle.std.specs.Prelude.{◌≡◌, ◌≢◌, ℕ, ◌==◌, ◌-◌, ◌<◌, ◌++◌, ◌∷◌, [], length, map, true, false, IfSome, if◌then◌else◌};
ghost use Rattle.std.specs.List.{AllByRecursion, position};
ghost use Rattle.nut_monitor_sockets.specs.Handing.{HandsOn, StandFor, back, lost};
ghost use Rattle.nut_conf.specs.declared.notice.Notice.TheVariants as kinds;

use crate::herald::Herald;
use arrayvec::ArrayVec;
use nut_conf::{MONITORS_MAX, Notice as Kind};
use nut_monitor::{Monitor, Notice};

/// For how many seconds it isn't told that a UPS is lost which had no status yet.
const FIRST_SECONDS: u8 = 15;

/// The losses that aren't told yet.
#[derive(Drop)]
pub struct HeldLosses {
    /// How many of the first seconds are left.
    left: u8,
    /// The numbers of the MONITOR lines whose COMMBAD is held, the oldest first.
    lines: ArrayVec<usize, MONITORS_MAX>,
}

impl HeldLosses {
    /// Returns the state at the start: no loss is held.
    pub fn new() -> HeldLosses {
        HeldLosses {
            left: FIRST_SECONDS,
            lines: ArrayVec::new(),
        }
    }

    /// Drops all losses.
    pub fn clear(&mut self)
        ensures { self.new.lines.items ≡ [] }
    {
        self.lines.clear();
    }

    /// Reports a notice, unless it is held. The losses that are held come before SHUTDOWN.
    pub fn tell<H: Herald>(&mut self, herald: &mut H, monitor: &Monitor, notice: Notice)
        ensures { HandsOn (H.told monitor.now.config herald.old herald.new) self.old.lines.items self.new.lines.items (notice ∷ []) }
    {
        if self.holds(notice, has_status(monitor, notice)) {
            return;
        }
        if let Kind::Shutdown = notice.kind {
            self.tell_all(herald, monitor);
        }
        herald.announce(monitor, notice);
    }

    /// Counts a second that has passed. The losses that are held are reported once the first seconds are over.
    pub fn second<H: Herald>(&mut self, herald: &mut H, monitor: &Monitor)
        ensures { HandsOn (H.told monitor.now.config herald.old herald.new) self.old.lines.items self.new.lines.items [] }
    {
        self.left = self.left.saturating_sub(1);
        if self.left == 0 {
            self.tell_all(herald, monitor);
        }
    }

    /// Whether a notice isn't told now. `has_status` says whether its UPS had a status.
    ///
    /// A COMMBAD of a UPS that had no status is held in the first seconds. If COMMOK follows, neither is told.
    fn holds(&mut self, notice: Notice, has_status: bool) -> bool
        ensures first { result ≡ true → notice.kind ≡ kinds.Commbad → 0 < self.old.left }
        ensures unknown { result ≡ true → notice.kind ≡ kinds.Commbad → has_status ≡ false }
        ensures held { result ≡ true → StandFor (map lost self.new.lines.items) (map lost self.old.lines.items ++ notice ∷ []) }
        ensures told { result ≡ false → (self.new.lines.items ≡ self.old.lines.items)
            × ((line : ℕ) → notice ≡ back line → AllByRecursion (λ it. it ≢ line) self.old.lines.items) }
    {
        let Some(line) = notice.line else {
            return false;
        };
        match notice.kind {
            Kind::Commbad => self.hold(line, has_status),
            Kind::Commok => match self.place_of(line) {
                Some(place) => {
                    self.lines.remove(place);
                    true
                }
                None => false,
            },
            Kind::Online
            | Kind::Onbatt
            | Kind::Lowbatt
            | Kind::Fsd
            | Kind::Shutdown
            | Kind::Replbatt
            | Kind::Nocomm => false,
        }
    }

    /// Holds the loss of a UPS that had no status, if the first seconds aren't over. Returns whether it is held.
    fn hold(&mut self, line: usize, has_status: bool) -> bool
        ensures first { result ≡ true → 0 < self.old.left }
        ensures unknown { result ≡ true → has_status ≡ false }
        ensures kept { self.new.lines.items ≡ (if result then self.old.lines.items ++ line ∷ [] else self.old.lines.items) }
    {
        if has_status || self.left == 0 {
            return false;
        }
        self.lines.try_push(line).is_ok()
    }

    /// Returns the place of the loss of this line, if it is held.
    fn place_of(&self, line: usize) -> Option<usize>
        ensures place { result ≡ position (λ it. it == line) self.now.lines.items }
        ensures within { IfSome result (λ place. place < length self.now.lines.items) }
    {
        self.lines.iter().position(|it| *it == line)
    }

    /// Reports the losses that are held.
    fn tell_all<H: Herald>(&mut self, herald: &mut H, monitor: &Monitor)
        ensures told { H.told monitor.now.config herald.old herald.new (map lost self.old.lines.items) }
        ensures none { self.new.lines.items ≡ [] }
    {
        for line in self.lines.iter() {
            let loss = Notice {
                kind: Kind::Commbad,
                line: Some(*line),
            };
            herald.announce(monitor, loss);
        }
        self.lines.clear();
    }
}

/// Whether the UPS that a notice is about has had a status.
fn has_status(monitor: &Monitor, notice: Notice) -> bool {
    let known = match notice.line {
        Some(line) => monitor.known(line),
        None => None,
    };
    known.is_some_and(|known| known.flags.is_some())
}
