//! Pauses between attempts.

ghost use Rattle.std.specs.Prelude.{◌≡◌, ◌==◌, ◌≤◌, ◌-◌, ◌*◌, min, max};

/// The pause between two attempts, in seconds. The first is one second, and each further one is twice as long as the
/// one before, up to a bound.
#[derive(Clone, Copy)]
pub struct Pause {
    /// The length of the last pause: 0 if there was none.
    length: u8,
    /// How much of it is left.
    left: u8,
}

impl Pause {
    /// Returns the state before any attempt failed.
    pub fn none() -> Pause
        ensures { result ≡ record { length = 0; left = 0 } }
    {
        Pause { length: 0, left: 0 }
    }

    /// Returns the length of the last pause.
    pub fn length(self) -> u8
        ensures { result ≡ self.length }
    {
        self.length
    }

    /// Whether the pause is over.
    pub fn is_over(self) -> bool
        ensures { result ≡ (self.left == 0) }
    {
        self.left == 0
    }

    /// Begins the next pause, of at most `most` seconds: an attempt failed.
    pub fn begin(&mut self, most: u8)
        ensures length { self.new.length ≡ min (max (self.old.length * 2) 1) most }
        ensures left { self.new.left ≡ self.new.length }
    {
        self.length = self.length.saturating_mul(2).max(1).min(most);
        self.left = self.length;
    }

    /// Notes that an attempt begins: another one comes a second later at the earliest.
    pub fn wait(&mut self)
        ensures { self.new ≡ record self.old { left = 1 } }
    {
        self.left = 1;
    }

    /// Counts a second that has passed. At most `most` seconds are left then.
    pub fn second(&mut self, most: u8)
        ensures left { self.new.left ≡ min (self.old.left - 1) most }
        ensures length { self.new.length ≡ self.old.length }
    {
        self.left = self.left.saturating_sub(1).min(most);
    }
}
