//! The queue of a broker: its copies by rising number, each ready or held, and marked once a flush stored it.
#![tactic(auto)]

mod copies;
mod queue;
mod rows;
mod tally;

pub use queue::Queue;
pub use rows::{CopyNo, Hold, Holder, Row};
