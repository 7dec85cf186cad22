//! The first words of a driver's lines.
ghost use Rattle.std.specs.Prelude.{◌≡◌, MatchOption, Some, None};
ghost use Rattle.nut_state.specs.Verb.{says, word_of, verb_of, takes};
ghost use Rattle.nut_state.specs.Change.{asked, asked_by};

use nut_words::Words;

/// The kind of a driver's line, which its first word says.
#[derive(Clone, Copy, PartialEq, Eq)]
pub(crate) enum Verb {
    SetInfo,
    DelInfo,
    AddEnum,
    DelEnum,
    AddRange,
    DelRange,
    SetAux,
    SetFlags,
    AddCommand,
    DelCommand,
    DumpDone,
    DataOk,
    DataStale,
    Pong,
    Tracking,
}

/// Whether a word is this text, in upper or lower case.
pub(crate) fn says(text: &[u8], word: &[u8]) -> bool
    ensures { result ≡ says text.now word.now }
{
    word.eq_ignore_ascii_case(text)
}

const ALL: [Verb; 15] = [
    Verb::SetInfo,
    Verb::DelInfo,
    Verb::AddEnum,
    Verb::DelEnum,
    Verb::AddRange,
    Verb::DelRange,
    Verb::SetAux,
    Verb::SetFlags,
    Verb::AddCommand,
    Verb::DelCommand,
    Verb::DumpDone,
    Verb::DataOk,
    Verb::DataStale,
    Verb::Pong,
    Verb::Tracking,
];

impl Verb {
    fn word(self) -> &'static [u8]
        ensures { result.now ≡ word_of self }
    {
        match self {
            Verb::SetInfo => b"SETINFO",
            Verb::DelInfo => b"DELINFO",
            Verb::AddEnum => b"ADDENUM",
            Verb::DelEnum => b"DELENUM",
            Verb::AddRange => b"ADDRANGE",
            Verb::DelRange => b"DELRANGE",
            Verb::SetAux => b"SETAUX",
            Verb::SetFlags => b"SETFLAGS",
            Verb::AddCommand => b"ADDCMD",
            Verb::DelCommand => b"DELCMD",
            Verb::DumpDone => b"DUMPDONE",
            Verb::DataOk => b"DATAOK",
            Verb::DataStale => b"DATASTALE",
            Verb::Pong => b"PONG",
            Verb::Tracking => b"TRACKING",
        }
    }

    /// Returns the verb that the first word of a line says, if it says one.
    #[tactic(auto, unfolding(crate::specs::Verb::verb_of))]
    pub(crate) fn read(word: &[u8]) -> Option<Verb>
        ensures { result ≡ verb_of word.now }
    {
        ALL.iter().copied().find(|verb| says(verb.word(), word))
    }

    /// Whether a line with this verb may have `count` words, the verb included.
    pub(crate) fn takes(self, count: usize) -> bool
        ensures { result ≡ takes self count }
    {
        match self {
            Verb::SetInfo | Verb::AddEnum | Verb::DelEnum | Verb::SetAux | Verb::Tracking => count
                == 3,
            Verb::DelInfo | Verb::AddCommand | Verb::DelCommand => count == 2,
            Verb::AddRange | Verb::DelRange => count == 4,
            Verb::SetFlags => count >= 2,
            Verb::DumpDone | Verb::DataOk | Verb::DataStale | Verb::Pong => count == 1,
        }
    }

    /// Returns the verb of a line of these words, if the first word is a verb and the line has as many words as that
    /// verb takes.
    #[tactic(auto, unfolding(crate::specs::Change::asked))]
    pub(crate) fn of_line(words: &Words) -> Option<Verb>
        ensures { MatchOption result (asked words.now ≡ None) (λ verb. asked words.now ≡ Some (asked_by verb words.now)) }
    {
        let verb = Verb::read(words.get(0))?;
        if verb.takes(words.len()) {
            Some(verb)
        } else {
            None
        }
    }
}
