//! How a tool asks a server, and tells the result.
ghost use Rattle.std.specs.Prelude.{◌≡◌, ◌≤◌, ◌⊎◌, [], Err, IfErr, drop, length};
ghost use Rattle.std.specs.IoError.{error_kind};
ghost use Rattle.clap.specs.Words.{kind_of};
ghost use Rattle.nut_client.specs.Output.{HasText, Puts, written};
ghost use Rattle.nut_client.specs.inside.Reading.{TellsRefusal};
ghost use Rattle.nut_client.specs.Script.{script};
ghost use Rattle.nut_client.specs.Tool.{Ends, Explains, Reports, Tells, error_text, is_asked_for as asked_for, words_failure};
ghost use Rattle.nut_client.specs.declared.failure.ToolFailure.TheVariants.{ConnectionLost, Memory};

use crate::command_line::Refusal;
use crate::conversation::Conversation;
use crate::failure::ToolFailure;
use crate::output::Output;
use crate::stream::{Moved, Stream};
use crate::wanted::Wanted;
use clap::error::ErrorKind;
use nut_link::Text;
use nut_program::UNKNOWN_OPTION;
use nut_proto::Word;
use std::alloc::{AllocError, Global};
use std::io;
use std::time::Clock;

/// Asks a server what is wanted of the UPS of this name. Returns the text to print once the last answer has come.
///
/// # Errors
///
/// `Refused` with the name of the error if the server refuses a query; `BadAnswer` if a line doesn't answer the query, or
/// has more than [`LINE_MAX`](nut_words::LINE_MAX) bytes already; `Untracked` if a request that is to be tracked gets no
/// number; `Unconfirmed` if it failed, is forgotten, or is still pending after ten pauses; `BadQuery` if a query isn't
/// writable; `ConnectionLost` if the connection ends or fails before the last answer; `Memory` if memory cannot be
/// allocated.
pub fn ask_server<S: Stream>(
    rt: &impl Clock,
    alloc: Global,
    ups: Word<'_>,
    wanted: Wanted<'_>,
    stream: &mut S,
) -> Result<Text, ToolFailure>
    ensures ends { Ends (script ups.entry wanted.entry) result
        (S.remaining stream.old) (S.remaining stream.new) (S.taken stream.old) (S.taken stream.new) }
    ensures lost { IfErr result (λ failure. failure ≡ ConnectionLost → S.has_ended stream.new) }
{
    let mut conversation = Conversation::new(alloc);
    conversation.answer(rt, stream, ups, wanted)
}

/// Returns the bytes from this place on.
fn rest_from(bytes: &[u8], at: usize) -> &[u8]
    requires { at ≤ length bytes.now }
    ensures { result.now ≡ drop at bytes.now }
{
    &bytes[at..]
}

/// Writes these bytes. Returns whether all were written; if not, a beginning of them was, and the output has failed.
pub(crate) fn put_all<O: Output>(output: &mut O, bytes: &[u8]) -> bool
    ensures { Puts result bytes.now (written O.contents O.has_failed output.old output.new) }
{
    let mut at = 0usize;
    loop {
        if at == bytes.len() {
            return output.flush();
        }
        match output.write(rest_from(bytes, at)) {
            Moved::Bytes(n) => at += n,
            Moved::Again => {}
            Moved::Lost => return false,
        }
    }
}

/// Writes to the error output why there is no output, or only a part of it.
fn put_failure<E: Output>(err: &mut E, failure: &ToolFailure)
    ensures { HasText (error_text failure.now) (written E.contents E.has_failed err.old err.new) }
{
    if !put_all(err, b"Error: ") {
        return;
    }
    if !put_all(err, failure.reason()) {
        return;
    }
    put_all(err, b"\n");
}

/// Writes to the error output why there is no output, or only a part of it. Returns the exit status.
pub(crate) fn fail<E: Output>(failure: ToolFailure, err: &mut E) -> u8
    ensures { Reports failure result (written E.contents E.has_failed err.old err.new) }
{
    put_failure(err, &failure);
    failure.status()
}

/// Prints the text of a tool, or writes why there is none. Returns the exit status.
pub(crate) fn tell<O: Output, E: Output>(
    printed: Result<Text, ToolFailure>,
    out: &mut O,
    err: &mut E,
) -> u8
    ensures { Tells printed result (written O.contents O.has_failed out.old out.new) (written E.contents E.has_failed err.old err.new) }
{
    match printed {
        Ok(text) => {
            if put_all(out, text.as_bytes()) {
                return 0;
            }
            fail(ToolFailure::OutputFailed, err)
        }
        Err(failure) => fail(failure, err),
    }
}

/// Writes why a command line gives no options to the tool of this name. Returns the exit status.
pub(crate) fn tell_refusal<O: Output, E: Output>(
    alloc: Global,
    name: &str,
    refusal: Refusal,
    out: &mut O,
    err: &mut E,
) -> u8
    ensures { TellsRefusal refusal result
        (written O.contents O.has_failed out.old out.new) (written E.contents E.has_failed err.old err.new) }
{
    match refusal {
        Refusal::Failed(failure) => tell(Err(failure), out, err),
        Refusal::Usage(error) => tell_usage(alloc, name, &error, out, err),
    }
}

/// Whether clap's text was asked for: the help or the version.
fn is_asked_for(error: &clap::Error) -> bool
    ensures { result ≡ asked_for (kind_of error.now) }
{
    matches!(
        error.kind(),
        ErrorKind::DisplayHelp | ErrorKind::DisplayVersion
    )
}

/// Writes to `err` clap's text for a command line that clap refuses. Returns status 2.
fn tell_fault<E: Output>(text: &Text, err: &mut E) -> u8
    ensures status { result ≡ 2 }
    ensures text { HasText text.now (written E.contents E.has_failed err.old err.new) }
{
    put_all(err, text.as_bytes());
    2
}

/// Returns clap's text, as the tool of this name writes it. If a word is unknown, a last line says where to read about the
/// options of NUT that are not supported.
fn clap_text(alloc: Global, name: &str, error: &clap::Error) -> Result<Text, AllocError> {
    let mut text = nut_program::clap_text(alloc, error)?;
    if error.kind() == ErrorKind::UnknownArgument {
        writeln!(text, "{name}: {UNKNOWN_OPTION}")?;
    }
    Ok(Text::of(text.into_bytes()))
}

/// Writes clap's text for the tool of this name: the help and the version to `out`, as a tool's output is written, and a
/// fault to `err`, with status 2. If memory for the text cannot be allocated, writes that to `err`, with status 1.
fn tell_usage<O: Output, E: Output>(
    alloc: Global,
    name: &str,
    error: &clap::Error,
    out: &mut O,
    err: &mut E,
) -> u8
    ensures { Explains (asked_for (kind_of error.now)) result
        (written O.contents O.has_failed out.old out.new) (written E.contents E.has_failed err.old err.new)
        ⊎ Tells (Err Memory) result
        (written O.contents O.has_failed out.old out.new) (written E.contents E.has_failed err.old err.new) }
{
    let Ok(text) = clap_text(alloc, name, error) else {
        return tell(Err(ToolFailure::Memory), out, err);
    };
    if is_asked_for(error) {
        tell(Ok(text), out, err)
    } else {
        tell_fault(&text, err)
    }
}

/// Returns why the words of the command line are not available.
fn words_failure(error: &io::Error) -> ToolFailure
    ensures { result ≡ words_failure (error_kind error.now) }
{
    match error.kind() {
        io::ErrorKind::OutOfMemory => ToolFailure::Memory,
        _ => ToolFailure::BadArguments,
    }
}

/// Writes why the words of the command line are not available. Returns the exit status: 1 if memory cannot be
/// allocated, and 2 for any other error, such as a word that isn't UTF-8.
pub fn refuse_words<E: Output>(error: &io::Error, err: &mut E) -> u8
    ensures { Reports (words_failure (error_kind error.now)) result (written E.contents E.has_failed err.old err.new) }
{
    fail(words_failure(error), err)
}
