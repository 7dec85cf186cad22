//! The command words of a client's line.
ghost use Rattle.std.specs.Prelude.{◌≡◌};
ghost use Rattle.nut_proto.specs.Keywords.{command_name, command_of, is_named};

/// The command that the first word of a request names.
#[derive(Clone, Copy)]
pub enum Command {
    Get,
    List,
    Set,
    InstCmd,
    Username,
    Password,
    Login,
    Primary,
    Fsd,
    Logout,
    Ver,
    NetVer,
    Help,
    StartTls,
}

const COMMANDS: [Command; 14] = [
    Command::Get,
    Command::List,
    Command::Set,
    Command::InstCmd,
    Command::Username,
    Command::Password,
    Command::Login,
    Command::Primary,
    Command::Fsd,
    Command::Logout,
    Command::Ver,
    Command::NetVer,
    Command::Help,
    Command::StartTls,
];

/// Whether the word is `name`, without regard to ASCII case.
pub fn is_named(word: &[u8], name: &[u8]) -> bool
    ensures { result ≡ is_named word.now name.now }
{
    word.eq_ignore_ascii_case(name)
}

impl Command {
    /// Returns the command that the word names, if it names one.
    #[tactic(auto, unfolding(crate::specs::Keywords::command_of))]
    pub fn of(word: &[u8]) -> Option<Command>
        ensures { result ≡ command_of word.now }
    {
        COMMANDS
            .iter()
            .copied()
            .find(|command| is_named(word, command.name()))
    }

    fn name(self) -> &'static [u8]
        ensures { result.now ≡ command_name self }
    {
        match self {
            Command::Get => b"GET",
            Command::List => b"LIST",
            Command::Set => b"SET",
            Command::InstCmd => b"INSTCMD",
            Command::Username => b"USERNAME",
            Command::Password => b"PASSWORD",
            Command::Login => b"LOGIN",
            Command::Primary => b"PRIMARY",
            Command::Fsd => b"FSD",
            Command::Logout => b"LOGOUT",
            Command::Ver => b"VER",
            Command::NetVer => b"NETVER",
            Command::Help => b"HELP",
            Command::StartTls => b"STARTTLS",
        }
    }
}
