//! The outer loop of a server: it asks a world for arrivals and writes bytes to it. With it come two worlds, one over
//! memory and one over standard streams.
#![tactic(auto)]

mod laws;
mod memory;
mod peer;
mod replay;
mod serving;
mod settling;
mod streams;
mod types;
mod world;

pub use laws::answers_are_offered;
pub use memory::MemoryWorld;
pub use replay::serve_memory;
pub use serving::serve;
pub use streams::{StreamWorld, WorldStream};
pub use types::{Given, Next, Note, Peer};
pub use world::World;
