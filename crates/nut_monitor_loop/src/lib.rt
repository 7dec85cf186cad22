//! The outer loop of a monitor over a world that gives events, takes bytes and is handed notices; and such a world over
//! memory.
#![tactic(auto)]

mod memory;
mod replay;
mod types;
mod watching;
mod world;

pub use memory::MemoryMonWorld;
pub use replay::watch_memory;
pub use types::{Given, Next, Note};
pub use watching::watch;
pub use world::MonWorld;
