//! Commands for the shell.

ghost use Rattle.std.specs.Prelude.{◌≡◌, [], ◌∷◌, ◌++◌, IfOk, OnOk, codes};
ghost use Rattle.std.specs.Process.{command_program, command_args};

use std::alloc::{AllocError, Allocator};
use std::process::{Command, Stdio};

/// The shell, by its path. The directories of PATH aren't searched for it, since one of them may be on a server that doesn't
/// answer.
const SHELL: &str = "/bin/sh";

/// The script of a command of the operator's, with this literal behind its first words. By these the script and what it
/// runs ignore the signals TTIN and TTOU. They would suspend a command in the background that uses its terminal, and the
/// program that started it, which is in the same process group.
#[macro_export]
macro_rules! unstopped {
    ($rest:literal) => {
        concat!("trap '' TTIN TTOU; ", $rest)
    };
}

/// Returns the command by which the shell runs a script without input: `/bin/sh -c SCRIPT sh ARGUMENT`. The argument is
/// `$1` there, and no byte of it is read as a command.
///
/// A program that the script names is looked for by the shell. So if a directory of PATH doesn't answer, the shell waits, and
/// not the process that starts the command.
///
/// # Errors
///
/// [`AllocError`] if memory cannot be allocated.
pub fn shell_command<A: Allocator + Clone>(
    alloc: A,
    script: &str,
    argument: &str,
) -> Result<Command<A>, AllocError>
    ensures program { IfOk result (λ c. command_program c ≡ codes "/bin/sh") }
    ensures arguments { IfOk result
        (λ c. command_args c ≡ codes "-c" ∷ script.now ∷ codes "sh" ∷ argument.now ∷ []) }
{
    let mut command = Command::new(alloc, SHELL)?;
    // `and` drops `command` if that failed
    put_words(&mut command, script, argument).and(Ok(command))
}

/// Gives the shell its words.
fn put_words<A: Allocator + Clone>(
    command: &mut Command<A>,
    script: &str,
    argument: &str,
) -> Result<(), AllocError>
    ensures program { OnOk result (command_program command.new ≡ command_program command.old) }
    ensures arguments { OnOk result (command_args command.new ≡ command_args command.old ++ (codes "-c" ∷ script.now ∷ codes "sh" ∷ argument.now ∷ [])) }
{
    command.stdin(Stdio::null());
    command.arg("-c")?.arg(script)?;
    command.arg("sh")?.arg(argument)?;
    Ok(())
}
