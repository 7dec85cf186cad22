//! What a server's world and a monitor's share: pieces of bytes, the outcome of a write, and the fault of a world.
#![tactic(auto)]

mod piece;
mod streams;
mod types;

pub use piece::Piece;
pub use streams::{read_piece, write_some};
pub use types::{Fault, ServeFault, Written};
