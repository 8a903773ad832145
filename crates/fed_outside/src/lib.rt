//! The outside of a run as traits: files to load, places to put text, connections to serve. Each has a count of faults
//! that never falls, and may tell what it holds. What is over memory tells; what is over a file or a terminal doesn't.
#![tactic(auto)]

mod door;
mod file_shelf;
mod mem_door;
mod mem_peer;
mod mem_shelf;
mod mem_sink;
mod peer;
mod plan;
mod shelf;
mod sink;
mod std_sink;

pub use door::Door;
pub use file_shelf::FileShelf;
pub use mem_door::MemDoor;
pub use mem_peer::MemPeer;
pub use mem_shelf::{MemFile, MemShelf};
pub use mem_sink::MemSink;
pub use peer::Peer;
pub use plan::FailingCall;
pub use shelf::{Loaded, Shelf};
pub use sink::Sink;
pub use std_sink::StdSink;

#[cfg(test)]
mod tests;
