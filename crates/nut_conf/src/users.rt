//! The file upsd.users.
ghost use Rattle.std.specs.Prelude.{◌≡◌, [], IfErr, map, codes};
ghost use Rattle.std.specs.Str.{bytes_eq};
ghost use Rattle.std.specs.Char.{to_ascii_lowercase};
ghost use Rattle.std.specs.Option.{option_copied};
ghost use Rattle.nut_conf.specs.Files.{Means, read_file};
ghost use Rattle.nut_conf.specs.Memory.{MayRunOut};
ghost use Rattle.nut_conf.specs.Users.{UsersConfHolds, users_fault, users_conf_grows, user_named, has_password as password_is, may_act as may_take, may_command as may_give, covers as covers_name, action_word};
ghost use Rattle.nut_conf.specs.Rows.{lengths_of};
ghost use Rattle.nut_conf.specs.declared.users.User.{User as UserFields};

use crate::directives::Directives;
use crate::draft::Draft;
use crate::fault::{ConfFault, FaultKind, Misread};
use crate::file::read_draft;
use crate::hint::{Expected, Expects};
use crate::limits::{INSTCMDS_MAX, PASSWORD_MAX, USERS_MAX};
use crate::line::Line;
use crate::sections::Sections;
use crate::slot::{FromValues, listed, once};
use crate::text::{Name, Text};
use crate::values::{Form, Values};
use nut_words::NAME_MAX;
use std::alloc::Global;

/// A user: a section of upsd.users.
#[derive(Drop)]
pub struct User {
    /// The password. A user without one can't log in.
    pub password: Option<Text<1, PASSWORD_MAX>>,
    /// The values of `actions`, in the order of the file.
    pub actions: Vec<Action>,
    /// The values of `instcmds`: the commands that the user may give, or all.
    pub instcmds: Vec<Commands>,
    /// The role in which a monitor may log in as this user, if one may.
    pub upsmon: Option<Role>,
}

/// The configuration of upsd.users: at most [`USERS_MAX`] users by name, in the order of the file.
pub struct UsersConf {
    /// The users, each under its name.
    pub users: Sections<User, USERS_MAX>,
}

// A derived drop would be proved again in each crate that drops a value, with those of its parts.
impl Drop for UsersConf {
    fn drop(self) {
        let UsersConf { users: _users } = self;
    }
}

/// An action that a user may take.
#[derive(Clone, Copy, PartialEq, Eq)]
pub enum Action {
    /// Setting variables.
    Set,
    /// Beginning a forced shutdown.
    Fsd,
}

/// The commands that a user may give.
#[derive(PartialEq, Eq, Drop)]
pub enum Commands {
    All,
    Named(Name<NAME_MAX>),
}

/// The role of a monitor for a UPS.
#[derive(Clone, Copy, PartialEq, Eq)]
pub enum Role {
    /// It shuts the UPS down, after all others.
    Primary,
    /// It is fed by the UPS, and doesn't shut it down.
    Secondary,
}

impl Action {
    fn word(self) -> &'static [u8]
        ensures { result.now ≡ action_word self }
    {
        match self {
            Action::Set => b"SET",
            Action::Fsd => b"FSD",
        }
    }
}

impl Commands {
    fn covers(&self, name: &[u8]) -> bool
        ensures { result ≡ covers_name name.now self.now }
    {
        match self {
            Commands::All => true,
            Commands::Named(command) => name == command.as_bytes(),
        }
    }
}

impl User {
    /// Whether this is the user's password. For a user without a password it is always false.
    pub fn has_password(&self, password: &[u8]) -> bool
        ensures { result ≡ password_is password.now self.now }
    {
        match &self.password {
            Some(own) => password == own.as_bytes(),
            None => false,
        }
    }

    /// Whether the user may take the action.
    pub fn may_act(&self, action: Action) -> bool
        ensures { result ≡ may_take action self.now }
    {
        self.actions.iter().any(|own| action.word() == own.word())
    }

    /// Whether the user may give the command with this name.
    pub fn may_command(&self, name: &[u8]) -> bool
        ensures { result ≡ may_give name.now self.now }
    {
        self.instcmds.iter().any(|commands| commands.covers(name))
    }
}

impl UsersConf {
    /// Returns a configuration without users, like that of an empty file.
    pub fn new(alloc: Global) -> Self
        ensures { UsersConfHolds result [] }
    {
        UsersConf {
            users: Sections::new(alloc),
        }
    }

    /// Returns the user with this name, if there is one. Allocates no memory. The time it takes doesn't grow with the
    /// number of users.
    pub fn find(&self, name: &[u8]) -> Option<&User>
        ensures { option_copied result ≡ user_named name.now self.now }
    {
        match Name::read(name) {
            Ok(name) => self.users.by_name.get(&name),
            Err(_) => None,
        }
    }
}

/// States a law and does nothing when called: the least and the greatest length of a password.
pub fn user_limits()
    ensures { lengths_of (λ (u : UserFields). u.password) ≡ (1, 128) }
{}

/// The directives of a section.
#[derive(Clone, Copy)]
pub enum UserDirective {
    Password,
    Actions,
    Instcmds,
    Upsmon,
}

/// Each directive, with its word and what its lines look like.
const DIRECTIVES: [(&[u8], UserDirective, &str); 4] = [
    (b"password", UserDirective::Password, "password = \"TEXT\""),
    (
        b"actions",
        UserDirective::Actions,
        "actions = SET or actions = FSD",
    ),
    (
        b"instcmds",
        UserDirective::Instcmds,
        "instcmds = COMMAND or instcmds = ALL",
    ),
    (
        b"upsmon",
        UserDirective::Upsmon,
        "upsmon primary or upsmon secondary",
    ),
];

impl Expects for Action {
    const EXPECTED: Expected = Expected::Either("ACTION", "SET", "FSD");
}

impl Expects for Role {
    const EXPECTED: Expected = Expected::Either("ROLE", "primary", "secondary");
}

impl FromValues for Action {
    ghost use Rattle.std.specs.Prelude.{[], ◌∷◌, codes};
    ghost use Rattle.nut_conf.specs.Users.{action_setting, action_value};

    ghost setting = { action_setting };

    ghost reads = { action_value };

    fn from_values(values: &Values<'_, '_>) -> Result<Self, Misread> {
        let word = values.one()?;
        if word == b"SET".as_slice() {
            Ok(Action::Set)
        } else if word == b"FSD".as_slice() {
            Ok(Action::Fsd)
        } else {
            values.told(0, Err(FaultKind::UnknownWord))
        }
    }
}

fn is_all(word: &[u8]) -> bool
    ensures { result ≡ bytes_eq (map to_ascii_lowercase word.now) (codes "all") }
{
    word.eq_ignore_ascii_case(b"all")
}

impl FromValues for Commands {
    ghost use Rattle.nut_conf.specs.Users.{commands_setting, commands_value};

    ghost setting = { commands_setting };

    ghost reads = { commands_value };

    fn from_values(values: &Values<'_, '_>) -> Result<Self, Misread> {
        let word = values.one()?;
        if is_all(word) {
            Ok(Commands::All)
        } else {
            let name = values.told(0, Name::read(word))?;
            Ok(Commands::Named(name))
        }
    }
}

impl Role {
    ghost use Rattle.std.specs.Prelude.{[], ◌∷◌};
    ghost use Rattle.nut_conf.specs.Faults.{Reads, Spares};
    ghost use Rattle.nut_conf.specs.Values.{one_of};
    ghost use Rattle.nut_conf.specs.Users.{role_word};

    /// Reads `primary` or `secondary`.
    ///
    /// # Errors
    ///
    /// `UnknownWord` for anything else.
    pub fn read(word: &[u8]) -> Result<Self, FaultKind>
        ensures reads { Reads role_word result (one_of (codes "primary" ∷ codes "secondary" ∷ []) word.now) }
        ensures spares { Spares result }
    {
        if word == b"primary".as_slice() {
            Ok(Role::Primary)
        } else if word == b"secondary".as_slice() {
            Ok(Role::Secondary)
        } else {
            Err(FaultKind::UnknownWord)
        }
    }
}

impl FromValues for Role {
    ghost use Rattle.std.specs.Prelude.{[], ◌∷◌, codes};
    ghost use Rattle.nut_conf.specs.Users.{role_setting, role_value};

    ghost setting = { role_setting };

    ghost reads = { role_value };

    fn from_values(values: &Values<'_, '_>) -> Result<Self, Misread> {
        values.told(0, Role::read(values.one()?))
    }
}

impl Directives for User {
    ghost use Rattle.nut_conf.specs.Users.{user_row, user_rows};
    ghost use Rattle.nut_conf.specs.inside.Found.{user_found};

    type Directive = UserDirective;

    ghost all = { user_rows };

    ghost table = { user_row };

    ghost found = { user_found };

    fn rows() -> &'static [(&'static [u8], UserDirective, &'static str)] {
        &DIRECTIVES
    }

    fn unset(alloc: Global) -> Self {
        User {
            password: None,
            actions: Vec::new(alloc),
            instcmds: Vec::new(alloc),
            upsmon: None,
        }
    }

    fn set(&mut self, directive: UserDirective, line: &Line<'_>) -> Result<(), Misread> {
        match directive {
            UserDirective::Password => once(&mut self.password, Form::Assigned, line),
            UserDirective::Actions => listed(&mut self.actions, Form::Assigned, line, None),
            UserDirective::Instcmds => {
                listed(&mut self.instcmds, Form::Assigned, line, Some(INSTCMDS_MAX))
            }
            UserDirective::Upsmon => once(&mut self.upsmon, Form::Plain, line),
        }
    }
}

/// Reads upsd.users (NUT manual page upsd.users(5)). Returns the configuration that its lines set.
///
/// # Errors
///
/// `PastLimit` at line 0 if the file has more than [`FILE_MAX`](crate::limits::FILE_MAX) bytes. Otherwise the first
/// fault of the first line that has a fault. `Memory` comes only at a line with a backslash, or at a line without a
/// fault that begins a section or has `actions` or `instcmds`.
pub fn read_users(alloc: Global, bytes: &[u8]) -> Result<UsersConf, ConfFault>
    ensures means { Means (read_file users_fault bytes.now) UsersConfHolds result }
    ensures memory { IfErr result (λ fault. fault.kind ≡ FaultKind.Memory → MayRunOut users_fault users_conf_grows bytes.now fault.line) }
{
    let users = read_draft(alloc, bytes)?;
    Ok(UsersConf { users })
}
