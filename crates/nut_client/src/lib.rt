//! The tools upsc, upsrw and upscmd: what a command line asks for, what a tool asks a server, and, by what the server
//! answers, what the tool prints and how it ends.
//!
//! The command lines are in `specs/CommandLine.antt`, what each of them asks and prints in `specs/Script.antt`, how a
//! tool runs and ends in `specs/Tool.antt`. A tool asks over a link of `nut_link`.
#![tactic(auto)]

mod answers;
mod asking;
mod command_line;
mod conversation;
mod deeds;
mod destination;
mod dialing;
mod engine;
mod examples;
mod failure;
mod forcing;
mod json;
mod laws;
mod output;
mod parameter;
mod password;
mod printing;
mod program;
mod stream;
mod timed_stream;
mod tool;
mod unread;
mod upsc;
mod upscmd;
mod upsrw;
mod wanted;

pub use destination::Destination;
pub use engine::{ask_server, refuse_words};
pub use examples::worked_examples;
pub use failure::ToolFailure;
pub use forcing::{force_shutdown, log_in};
pub use laws::{all_bytes_decide, more_bytes_are_ignored};
pub use nut_conf::{NameFault, Target, split_name};
pub use nut_link::{Link, LinkFault, Outcome, Text};
pub use output::{Output, WriterOutput};
pub use printing::{AllowedValues, RowForm};
pub use program::run_tool;
pub use stream::{ByteStream, MemoryStream, Moved, Stream};
pub use timed_stream::TimedStream;
pub use tool::Tool;
pub use upsc::{run_upsc, upsc_target};
pub use upscmd::{run_upscmd, upscmd_target};
pub use upsrw::{run_upsrw, upsrw_target};
pub use wanted::{Until, UpsDeed, Wanted};
