//! Notices: their types, their texts, and what is done with them.
ghost use Rattle.std.specs.Prelude.{◌≡◌, [], true, false, MatchOption, MatchResult};
ghost use Rattle.std.specs.List.{find, list_any};
ghost use Rattle.std.specs.Option.{option_copied};
ghost use Rattle.std.specs.Str.{bytes_eq};
ghost use Rattle.nut_conf.specs.Faults.{Reads, Spares};
ghost use Rattle.nut_conf.specs.Values.{one_of};
ghost use Rattle.nut_conf.specs.Notices.{all_notices, notice_word, notice_words, default_text as usual_text, flags, flags_in, with_flag, is_flag as flag_word, default_flags as usual_flags, is_text_of, is_handling_of};

use crate::fault::{FaultKind, Misread};
use crate::hint::{Expected, Expects};
use crate::limits::MESSAGE_MAX;
use crate::slot::{Clashes, FromValues};
use crate::text::Text;
use crate::values::Values;
use nut_words::cut;

/// A type of notice.
#[derive(Clone, Copy, Debug, PartialEq, Eq)]
pub enum Notice {
    Online,
    Onbatt,
    Lowbatt,
    Fsd,
    Commok,
    Commbad,
    Shutdown,
    Replbatt,
    Nocomm,
}

/// All types of notices.
pub const NOTICES: [Notice; 9] = [
    Notice::Online,
    Notice::Onbatt,
    Notice::Lowbatt,
    Notice::Fsd,
    Notice::Commok,
    Notice::Commbad,
    Notice::Shutdown,
    Notice::Replbatt,
    Notice::Nocomm,
];

impl Notice {
    #[tactic(auto, using(crate::proofs::Rows::row_of_word))]
    fn of(word: &[u8]) -> Option<Self>
        ensures { MatchOption result (list_any (bytes_eq word.now) notice_words ≡ false) (λ n. word.now ≡ notice_word n) }
    {
        Notice::named(word)
    }

    fn named(word: &[u8]) -> Option<Self>
        ensures { result ≡ find (λ n. bytes_eq word.now (notice_word n)) all_notices }
    {
        NOTICES.iter().copied().find(|notice| word == notice.word())
    }

    fn read(word: &[u8]) -> Result<Self, FaultKind>
        ensures reads { Reads notice_word result (one_of notice_words word.now) }
        ensures spares { Spares result }
    {
        match Notice::of(word) {
            Some(notice) => Ok(notice),
            None => Err(FaultKind::UnknownWord),
        }
    }

    /// Returns the word and the default text.
    fn row(self) -> (&'static [u8], &'static [u8])
        ensures word { result.0.now ≡ notice_word self }
        ensures text { result.1.now ≡ usual_text self }
    {
        match self {
            Notice::Online => (b"ONLINE", b"UPS %s on line power"),
            Notice::Onbatt => (b"ONBATT", b"UPS %s on battery"),
            Notice::Lowbatt => (b"LOWBATT", b"UPS %s battery is low"),
            Notice::Fsd => (b"FSD", b"UPS %s: forced shutdown in progress"),
            Notice::Commok => (b"COMMOK", b"Communications with UPS %s established"),
            Notice::Commbad => (b"COMMBAD", b"Communications with UPS %s lost"),
            Notice::Shutdown => (b"SHUTDOWN", b"Auto logout and shutdown proceeding"),
            Notice::Replbatt => (b"REPLBATT", b"UPS %s battery needs to be replaced"),
            Notice::Nocomm => (b"NOCOMM", b"UPS %s is unavailable"),
        }
    }

    /// Returns the type as upsmon.conf writes it.
    pub fn word(self) -> &'static [u8]
        ensures { result.now ≡ notice_word self }
    {
        self.row().0
    }

    /// Returns the text used if none is set. The first `%s` stands for the UPS.
    pub fn default_text(self) -> &'static [u8]
        ensures { result.now ≡ usual_text self }
    {
        self.row().1
    }
}

impl Expects for Notice {
    const EXPECTED: Expected = Expected::Notice;
}

/// The text of a type of notice.
#[derive(PartialEq, Eq, Drop)]
pub struct NoticeText {
    pub notice: Notice,
    /// The text, in which `%s` stands for the UPS.
    pub text: Text<0, MESSAGE_MAX>,
}

impl NoticeText {
    fn is_of(&self, notice: Notice) -> bool
        ensures { result ≡ is_text_of notice self.now }
    {
        notice.word() == self.notice.word()
    }
}

/// Returns the text that is set for a type of notice, if there is one.
pub fn text_of(texts: &[NoticeText], notice: Notice) -> Option<&NoticeText>
    ensures { option_copied result ≡ find (is_text_of notice) texts.now }
{
    texts.iter().find(|text| text.is_of(notice))
}

impl FromValues for NoticeText {
    ghost use Rattle.nut_conf.specs.Notices.{message_setting, message_value};

    ghost setting = { message_setting };

    ghost reads = { message_value };

    fn from_values(values: &Values<'_, '_>) -> Result<Self, Misread> {
        if values.len() != 2 {
            return Err(Misread::of_line(FaultKind::BadForm, Expected::Form));
        }
        let notice = values.told(0, Notice::read(values.get(0)))?;
        let text = values.told(1, Text::read(values.get(1)))?;
        Ok(NoticeText { notice, text })
    }
}

impl Clashes for NoticeText {
    ghost use Rattle.nut_conf.specs.Notices.{same_notice};

    ghost clashes = { same_notice };

    fn clashes(&self, other: &Self) -> bool {
        self.notice.word() == other.notice.word()
    }
}

fn is_flag(word: &[u8]) -> bool
    ensures { result ≡ flag_word word.now }
{
    word == b"SYSLOG".as_slice()
        || word == b"WALL".as_slice()
        || word == b"EXEC".as_slice()
        || word == b"IGNORE".as_slice()
}

/// What is done with a notice (NOTIFYFLAG of upsmon.conf(5)). A flag is true if the line names it.
#[derive(Clone, Copy, PartialEq, Eq)]
pub struct NoticeFlags {
    /// `SYSLOG`: the notice is printed. It is printed once even if `WALL` is set too.
    pub syslog: bool,
    /// `WALL`: as `SYSLOG`.
    pub wall: bool,
    /// `EXEC`: NOTIFYCMD is run with the notice.
    pub exec: bool,
    /// `IGNORE`: nothing is printed or run, whatever the other flags are.
    pub ignore: bool,
}

impl NoticeFlags {
    /// Returns the flags used if none are set: `SYSLOG+WALL`.
    pub fn default_flags() -> Self
        ensures { result ≡ usual_flags }
    {
        NoticeFlags {
            syslog: true,
            wall: true,
            exec: false,
            ignore: false,
        }
    }

    fn none() -> Self
        ensures { result ≡ flags_in [] }
    {
        NoticeFlags {
            syslog: false,
            wall: false,
            exec: false,
            ignore: false,
        }
    }

    /// Adds the flag with this word. Returns `UnknownWord` if there is none.
    fn add(&mut self, word: &[u8]) -> Result<(), FaultKind>
        ensures { MatchResult result (λ _. (flag_word word.now ≡ true) × (self.new ≡ with_flag word.now self.old))
            (λ fault. (flag_word word.now ≡ false) × (fault ≡ FaultKind.UnknownWord)) }
    {
        if !is_flag(word) {
            return Err(FaultKind::UnknownWord);
        }
        self.syslog = self.syslog || b"SYSLOG".as_slice() == word;
        self.wall = self.wall || b"WALL".as_slice() == word;
        self.exec = self.exec || b"EXEC".as_slice() == word;
        self.ignore = self.ignore || b"IGNORE".as_slice() == word;
        Ok(())
    }

    /// Reads flags with plus signs between them.
    ///
    /// # Errors
    ///
    /// `UnknownWord` for anything else.
    pub fn read(bytes: &[u8]) -> Result<Self, FaultKind>
        ensures reads { Reads (λ f. f) result (flags bytes.now) }
        ensures spares { Spares result }
    {
        let mut flags = NoticeFlags::none();
        let mut rest = Some(bytes);
        while let Some(text) = rest {
            let (word, behind) = cut(b'+', text);
            rest = behind;
            flags.add(word)?;
        }
        Ok(flags)
    }
}

impl Expects for NoticeFlags {
    const EXPECTED: Expected = Expected::Flags;
}

/// The flags of a type of notice.
#[derive(Clone, Copy, PartialEq, Eq)]
pub struct NoticeHandling {
    pub notice: Notice,
    /// What is done with such a notice.
    pub flags: NoticeFlags,
}

impl NoticeHandling {
    fn is_of(&self, notice: Notice) -> bool
        ensures { result ≡ is_handling_of notice self.now }
    {
        notice.word() == self.notice.word()
    }
}

/// Returns the flags that are set for a type of notice, if there are any.
pub fn handling_of(handlings: &[NoticeHandling], notice: Notice) -> Option<&NoticeHandling>
    ensures { option_copied result ≡ find (is_handling_of notice) handlings.now }
{
    handlings.iter().find(|handling| handling.is_of(notice))
}

impl FromValues for NoticeHandling {
    ghost use Rattle.nut_conf.specs.Notices.{handling_setting, flags_value};

    ghost setting = { handling_setting };

    ghost reads = { flags_value };

    fn from_values(values: &Values<'_, '_>) -> Result<Self, Misread> {
        if values.len() != 2 {
            return Err(Misread::of_line(FaultKind::BadForm, Expected::Form));
        }
        let notice = values.told(0, Notice::read(values.get(0)))?;
        let flags = values.told(1, NoticeFlags::read(values.get(1)))?;
        Ok(NoticeHandling { notice, flags })
    }
}

impl Clashes for NoticeHandling {
    ghost use Rattle.nut_conf.specs.Notices.{same_notice};

    ghost clashes = { same_notice };

    fn clashes(&self, other: &Self) -> bool {
        self.notice.word() == other.notice.word()
    }
}
