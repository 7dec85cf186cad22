//! Which client makes way for another that calls.

ghost use Rattle.std.specs.Prelude.{◌≡◌, ◌⊎◌, Some, None, IfSome, option_map};

/// What is known of the clients that may make way and that were looked at, from the oldest on.
#[derive(Clone, Copy)]
pub struct Leaving {
    /// How many of them have sent no line.
    mutes: usize,
    /// The number of the first of these.
    first_mute: Option<u64>,
    /// The number of the one that has been silent for longest, the first of several, and the second in which it was heard last.
    silent: Option<(u64, u64)>,
}

impl Leaving {
    /// Returns the state before any was looked at.
    pub fn none() -> Leaving
        ensures { (result.first_mute ≡ None) × (result.silent ≡ None) }
    {
        Leaving {
            mutes: 0,
            first_mute: None,
            silent: None,
        }
    }

    /// Looks at another client: its number, the second in which it was heard last, and whether it has sent no line.
    pub fn look(&mut self, number: u64, heard: u64, is_mute: bool)
        ensures mute { (self.new.first_mute ≡ self.old.first_mute) ⊎ (self.new.first_mute ≡ Some number) }
        ensures silent { (self.new.silent ≡ self.old.silent) ⊎ (self.new.silent ≡ Some (number, heard)) }
    {
        if is_mute {
            self.mutes = self.mutes.saturating_add(1);
            if self.first_mute.is_none() {
                self.first_mute = Some(number);
            }
        }
        if self.silent.is_none_or(|(_, least)| heard < least) {
            self.silent = Some((number, heard));
        }
    }

    /// Returns the number of the client that makes way, where so many may be connected. If more than half of them have sent no
    /// line, it is the first of these: strangers that say nothing keep out nobody who asks, and one that has just come has time to.
    /// Else it is the one that has been silent for longest.
    pub fn chosen(&self, most: usize) -> Option<u64>
        ensures { IfSome result (λ c. (self.now.first_mute ≡ Some c) ⊎ (option_map (λ k. k.0) self.now.silent ≡ Some c)) }
    {
        if self.mutes > most / 2 {
            return self.first_mute;
        }
        let (number, _) = self.silent?;
        Some(number)
    }
}
