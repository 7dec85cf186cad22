//! The first words of steps.
ghost use Rattle.std.specs.Prelude.{◌≡◌};
ghost use Rattle.nut_play.specs.Lines.{verb_name, verb_of};

/// The first word of a step.
#[derive(Clone, Copy)]
pub enum Verb {
    Server,
    Monitor,
    Up,
    Driver,
    Down,
    Link,
    Out,
    Reach,
    Back,
    Land,
    CutServer,
    CutMonitor,
}

const VERBS: [Verb; 12] = [
    Verb::Server,
    Verb::Monitor,
    Verb::Up,
    Verb::Driver,
    Verb::Down,
    Verb::Link,
    Verb::Out,
    Verb::Reach,
    Verb::Back,
    Verb::Land,
    Verb::CutServer,
    Verb::CutMonitor,
];

impl Verb {
    /// Returns the verb that a word is, if it is one.
    #[tactic(auto, unfolding(crate::specs::Lines::verb_of))]
    pub fn of(word: &[u8]) -> Option<Verb>
        ensures { result ≡ verb_of word.now }
    {
        VERBS.iter().copied().find(|verb| word == verb.name())
    }

    fn name(self) -> &'static [u8]
        ensures { result.now ≡ verb_name self }
    {
        match self {
            Verb::Server => b"server",
            Verb::Monitor => b"monitor",
            Verb::Up => b"up",
            Verb::Driver => b"driver",
            Verb::Down => b"down",
            Verb::Link => b"link",
            Verb::Out => b"out",
            Verb::Reach => b"reach",
            Verb::Back => b"back",
            Verb::Land => b"land",
            Verb::CutServer => b"cut-server",
            Verb::CutMonitor => b"cut-monitor",
        }
    }
}
