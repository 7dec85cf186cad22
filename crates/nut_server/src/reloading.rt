//! What a reload makes of UPSes.

ghost use Rattle.std.specs.Prelude.{◌≡◌};
ghost use Rattle.nut_server_spec.specs.Numbering.{is_cleared, is_to_cleared};
ghost use Rattle.nut_server_spec.specs.Reloading.{is_kept};
ghost use Rattle.nut_server.specs.inside.Fates.{fate_in, fate_is};

use crate::numbering::Numbering;

/// What a reload makes of the UPS with a number.
#[derive(Clone, Copy, PartialEq, Eq)]
pub enum Fate {
    /// It stays as it is.
    Kept,
    /// Its driver has changed: the old one is disconnected.
    Disconnected,
    /// The number is free, or another UPS has it: nothing is known of the UPS any more.
    Cleared,
}

impl Fate {
    /// Whether nothing is known of the UPS any more.
    fn is_cleared(self) -> bool
        ensures { result ≡ is_cleared (fate_is self) }
    {
        match self {
            Fate::Cleared => true,
            Fate::Kept | Fate::Disconnected => false,
        }
    }

    /// Whether the UPS stays as it is.
    pub fn is_kept(self) -> bool
        ensures { result ≡ is_kept (fate_is self) }
    {
        match self {
            Fate::Kept => true,
            Fate::Disconnected | Fate::Cleared => false,
        }
    }
}

/// A reload: the UPSes and their numbers before it and after it.
#[derive(Drop)]
pub struct Reloading<'a> {
    pub before: Numbering<'a>,
    pub after: Numbering<'a>,
}

impl<'a> Reloading<'a> {
    /// Returns what the reload makes of the UPS with this number.
    pub fn fate_of(&self, u: usize) -> Fate
        ensures { fate_is result ≡ fate_in self.now u }
    {
        let (Some(old), Some(new)) = (self.before.ups_with(u), self.after.ups_with(u)) else {
            return Fate::Cleared;
        };
        if old.name != new.name {
            Fate::Cleared
        } else if old.driver != new.driver {
            Fate::Disconnected
        } else {
            Fate::Kept
        }
    }

    /// Whether a login is to a UPS that is cleared.
    pub fn clears(&self, login: Option<usize>) -> bool
        ensures { result ≡ is_to_cleared (fate_in self.now) login }
    {
        match login {
            Some(u) => self.fate_of(u).is_cleared(),
            None => false,
        }
    }
}
