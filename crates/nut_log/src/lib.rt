//! Lines to an operator: how much each matters, and what it begins with. In systemd's journal that is a priority, elsewhere
//! the program's name.
#![tactic(auto)]

mod journal;
mod level;
mod lines;
mod style;

pub use level::{Level, Leveled};
pub use lines::{Lines, LogStream};
pub use style::{Head, Style};
