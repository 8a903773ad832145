//! The listing: what `fedrun` prints of the state that a journal reached.
#![tactic(auto)]

mod binding_line;
pub mod fault;
mod link_line;
pub mod listing;
mod queue_line;
