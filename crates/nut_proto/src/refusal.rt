//! Why the server refuses a request.
ghost use Rattle.std.specs.Prelude.{◌≡◌};
ghost use Rattle.nut_proto.specs.Refusals.{refusal_name};

/// Why the server refuses a request (RFC 9271; NUT developer guide, 9.16).
#[derive(Clone, Copy, Debug, PartialEq, Eq)]
pub enum Refusal {
    /// There is no such user, the password is wrong, or the user lacks the right.
    AccessDenied,
    /// No UPS has the name.
    UnknownUps,
    /// The UPS has no variable with this name.
    VarNotSupported,
    /// The UPS has no command with this name.
    CmdNotSupported,
    /// The line is no request: it has more than [`LINE_MAX`](nut_words::LINE_MAX) bytes, can't be read as words, or its
    /// words fit no form.
    InvalidArgument,
    /// The driver's queue has no room for the request, or the request would be tracked and all tracking numbers have
    /// been given.
    InstCmdFailed,
    /// The driver's queue has no room for the request, or the request would be tracked and all tracking numbers have
    /// been given.
    SetFailed,
    /// Clients may not set the variable.
    ReadOnly,
    /// The value is longer than the variable allows, or the value or a command's parameter has more than
    /// [`VALUE_MAX`](nut_words::VALUE_MAX) bytes.
    TooLong,
    /// The variable doesn't allow the value.
    InvalidValue,
    /// The server doesn't have this feature.
    FeatureNotConfigured,
    /// No driver of the UPS is connected.
    DriverNotConnected,
    /// The driver is connected, but its data aren't current.
    DataStale,
    /// The connection is already logged in to a UPS.
    AlreadyLoggedIn,
    /// The connection has already given a password.
    AlreadySetPassword,
    /// The connection has already given a user name.
    AlreadySetUsername,
    /// The request needs a user name, and none was given.
    UsernameRequired,
    /// The request needs a password, and none was given.
    PasswordRequired,
    /// The first word is no command.
    UnknownCommand,
}

impl Refusal {
    /// Returns the name that follows `ERR` on the wire.
    #[tactic(auto, unfolding(crate::specs::Refusals::refusal_name))]
    pub fn name(self) -> &'static [u8]
        ensures { result.now ≡ refusal_name self }
    {
        match self {
            Refusal::AccessDenied => b"ACCESS-DENIED",
            Refusal::UnknownUps => b"UNKNOWN-UPS",
            Refusal::VarNotSupported => b"VAR-NOT-SUPPORTED",
            Refusal::CmdNotSupported => b"CMD-NOT-SUPPORTED",
            Refusal::InvalidArgument => b"INVALID-ARGUMENT",
            Refusal::InstCmdFailed => b"INSTCMD-FAILED",
            Refusal::SetFailed => b"SET-FAILED",
            Refusal::ReadOnly => b"READONLY",
            Refusal::TooLong => b"TOO-LONG",
            Refusal::InvalidValue => b"INVALID-VALUE",
            Refusal::FeatureNotConfigured => b"FEATURE-NOT-CONFIGURED",
            Refusal::DriverNotConnected => b"DRIVER-NOT-CONNECTED",
            Refusal::DataStale => b"DATA-STALE",
            Refusal::AlreadyLoggedIn => b"ALREADY-LOGGED-IN",
            Refusal::AlreadySetPassword => b"ALREADY-SET-PASSWORD",
            Refusal::AlreadySetUsername => b"ALREADY-SET-USERNAME",
            Refusal::UsernameRequired => b"USERNAME-REQUIRED",
            Refusal::PasswordRequired => b"PASSWORD-REQUIRED",
            Refusal::UnknownCommand => b"UNKNOWN-COMMAND",
        }
    }
}
