//! Dummy drivers of Network UPS Tools (manual page dummy-ups(8)): scripts, and the driver that plays them.
//!
//! A script says which variables a UPS has and when they change, so that a room of servers and monitors can be rehearsed
//! without a UPS. [`Script::read`] reads a script or returns its first fault. A [`Dummy`] holds the values that the script,
//! clients and commands set. It speaks the drivers' protocol with one server at a time (NUT developer guide, chapter 5). It
//! answers `DUMPALL` with all that it holds, and from then on reports what changes. A call does all that it says or nothing.
//! The one exception is a piece of bytes: if memory cannot be allocated at one of its lines, the lines before it took effect,
//! and the link is cut.
//!
//! Definitions are in `specs/`. `Item.antt` has what a line of a script says, `Script.antt` what a script means,
//! and `Due.antt` which value is due. `Writable.antt` and `Command.antt` have what clients may set and what
//! commands do. `Telling.antt` and `Teller.antt` have the lines that the driver sends, and when it sends them.
//! `History.antt` has what each call leads to, by looking back over all calls, and `Dump.antt` what a server makes of a
//! dump.
#![tactic(auto)]

mod begin;
mod command;
mod due;
mod dummy;
mod fault;
mod item;
mod laws;
mod limits;
mod script;
mod teller;
mod telling;
mod text;
mod timeline;
mod trim;
mod variable;
mod writable;

pub use dummy::{Dummy, DummyFault};
pub use fault::{ScriptFault, ScriptFaultKind};
pub use item::ScriptKind;
pub use laws::{dump_is_the_table, looks_back, script_limits, told_lines_are_heard};
pub use limits::{SCRIPT_LINE_MAX, SCRIPT_VARIABLES_MAX, STEPS_MAX, TIMER_MAX};
pub use script::Script;
pub use variable::Variable;
