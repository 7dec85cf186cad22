//! The instant commands of a dummy driver, and what they set: this project's own.
ghost use Rattle.std.specs.Prelude.{◌≡◌, IsTrue};
ghost use Rattle.nut_dummy.specs.Command.{command_name, variable_set, value_set, command_of};
ghost use Rattle.nut_dummy.specs.Item.{is_value};

use crate::text::Text;

/// An instant command that the driver knows.
#[derive(Clone, Copy, PartialEq, Eq)]
pub enum KnownCommand {
    BeeperDisable,
    BeeperEnable,
    LoadOff,
    LoadOn,
    BatteryTestStart,
    BatteryTestStop,
    FailureStart,
    FailureStop,
}

const ALL: [KnownCommand; 8] = [
    KnownCommand::BeeperDisable,
    KnownCommand::BeeperEnable,
    KnownCommand::LoadOff,
    KnownCommand::LoadOn,
    KnownCommand::BatteryTestStart,
    KnownCommand::BatteryTestStop,
    KnownCommand::FailureStart,
    KnownCommand::FailureStop,
];

impl KnownCommand {
    fn name(self) -> &'static [u8]
        ensures { result.now ≡ command_name self }
    {
        match self {
            KnownCommand::BeeperDisable => b"beeper.disable",
            KnownCommand::BeeperEnable => b"beeper.enable",
            KnownCommand::LoadOff => b"load.off",
            KnownCommand::LoadOn => b"load.on",
            KnownCommand::BatteryTestStart => b"test.battery.start",
            KnownCommand::BatteryTestStop => b"test.battery.stop",
            KnownCommand::FailureStart => b"test.failure.start",
            KnownCommand::FailureStop => b"test.failure.stop",
        }
    }

    /// Returns the command of this name, if there is one.
    #[tactic(auto, unfolding(crate::specs::Command::command_of))]
    pub fn of(name: &[u8]) -> Option<KnownCommand>
        ensures { result ≡ command_of name.now }
    {
        ALL.iter().copied().find(|c| c.name() == name)
    }

    /// Returns the name of the variable that it sets.
    pub fn variable(self) -> &'static [u8]
        ensures { result.now ≡ variable_set self }
    {
        match self {
            KnownCommand::BeeperDisable | KnownCommand::BeeperEnable => b"ups.beeper.status",
            KnownCommand::LoadOff
            | KnownCommand::LoadOn
            | KnownCommand::FailureStart
            | KnownCommand::FailureStop => b"ups.status",
            KnownCommand::BatteryTestStart | KnownCommand::BatteryTestStop => b"ups.test.result",
        }
    }

    fn bytes(self) -> &'static [u8]
        ensures value { result.now ≡ value_set self }
        ensures valued { IsTrue (is_value result.now) }
    {
        match self {
            KnownCommand::BeeperDisable => b"disabled",
            KnownCommand::BeeperEnable => b"enabled",
            KnownCommand::LoadOff => b"OFF",
            KnownCommand::LoadOn | KnownCommand::FailureStop => b"OL",
            KnownCommand::BatteryTestStart => b"In progress",
            KnownCommand::BatteryTestStop => b"Aborted",
            KnownCommand::FailureStart => b"OB",
        }
    }

    /// Returns the value that it sets.
    pub fn value(self) -> Text
        ensures { result ≡ value_set self }
    {
        Text::new(self.bytes())
    }
}
