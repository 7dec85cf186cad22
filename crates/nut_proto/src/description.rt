//! Descriptions of variables and commands for people. The texts are this project's own.
ghost use Rattle.std.specs.Prelude.{◌≡◌, ◌≤◌, IfSome, IsTrue, find, length, map};
ghost use Rattle.std.specs.List.{list_all};
ghost use Rattle.std.specs.Option.{option_map};
ghost use Rattle.std.specs.Str.{bytes_eq};
ghost use Rattle.nut_words.specs.Spelling.{is_printing};
ghost use Rattle.nut_proto.specs.Descriptions.{beside, described_variables, described_commands};

/// A name, and its description.
type Described = (&'static [u8], &'static [u8]);

const VARIABLES: [Described; 9] = [
    (b"battery.charge", b"Battery charge (percent)"),
    (b"battery.charge.low", b"Low battery level (percent)"),
    (b"battery.runtime.low", b"Low battery runtime (seconds)"),
    (b"input.sensitivity", b"Input sensitivity"),
    (b"ups.beeper.status", b"Beeper status"),
    (b"ups.delay.shutdown", b"Delay before shutdown (seconds)"),
    (b"ups.id", b"Identifier of the UPS"),
    (b"ups.status", b"Status of the UPS"),
    (b"ups.test.result", b"Result of the last test"),
];

const COMMANDS: [Described; 8] = [
    (b"beeper.disable", b"Disable the beeper"),
    (b"beeper.enable", b"Enable the beeper"),
    (b"load.off", b"Turn off the load"),
    (b"load.on", b"Turn on the load"),
    (b"test.battery.start", b"Start a battery test"),
    (b"test.battery.stop", b"Stop the battery test"),
    (b"test.failure.start", b"Simulate a power failure"),
    (b"test.failure.stop", b"Stop the simulated failure"),
];

fn is_name(name: &[u8], known: &[u8]) -> bool
    ensures { result ≡ bytes_eq name.now known.now }
{
    name == known
}

/// Returns the first row with this name.
fn row_of(name: &[u8], table: &[Described]) -> Option<Described>
    ensures { result ≡ find (λ row. bytes_eq name.now row.0.now) table.now }
{
    table.iter().copied().find(|row| is_name(name, row.0))
}

/// Returns the text beside this name, if it is in the table.
fn text_beside(name: &[u8], table: &[Described]) -> Option<&'static [u8]>
    ensures { option_map (λ t. t.now) result ≡ beside name.now (map (λ row. (row.0.now, row.1.now)) table.now) }
{
    match row_of(name, table) {
        Some((_, text)) => Some(text),
        None => None,
    }
}

/// What a variable means, for people to read: at most 31 printing bytes. `None` for a name without a text of
/// this project.
pub fn variable_description(name: &[u8]) -> Option<&'static [u8]>
    ensures value { option_map (λ t. t.now) result ≡ beside name.now described_variables }
    ensures few { IfSome result (λ t. length t.now ≤ 31) }
    ensures printing { IfSome result (λ t. IsTrue (list_all is_printing t.now)) }
{
    text_beside(name, &VARIABLES)
}

/// What a command does, for people to read: at most 31 printing bytes. `None` for a name without a text of
/// this project.
pub fn command_description(name: &[u8]) -> Option<&'static [u8]>
    ensures value { option_map (λ t. t.now) result ≡ beside name.now described_commands }
    ensures few { IfSome result (λ t. length t.now ≤ 31) }
    ensures printing { IfSome result (λ t. IsTrue (list_all is_printing t.now)) }
{
    text_beside(name, &COMMANDS)
}
