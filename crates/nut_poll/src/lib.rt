//! What the sockets of a server, of a monitor and of a dummy driver share. These are a connection's end whose reads and
//! writes don't block, the sockets that may be ready, rounds over them, and whole seconds. Also programs that are asked and
//! the shell that starts them, look-ups of hosts, and lines to an operator that never wait for a reader.
#![tactic(auto)]

mod lateness;
mod link;
mod look_ups;
mod lossy_lines;
mod questions;
mod ready;
mod reports;
mod rounds;
mod seconds;
mod shell;
mod text;
mod turns;

pub use lateness::note_written;
pub use link::{Heard, Link};
pub use look_ups::{ADDRESSES_MAX, Found, HOST_UNKNOWN, LookUps};
pub use lossy_lines::{ErrorLines, LossyLines, Outlet, OutputLines};
pub use questions::{Program, Question, Questions};
pub use ready::{Ready, SOCKETS_MAX};
pub use reports::Reports;
pub use rounds::Rounds;
pub use seconds::Seconds;
pub use shell::shell_command;
pub use text::text_of;
pub use turns::nobody_is_passed_over;
