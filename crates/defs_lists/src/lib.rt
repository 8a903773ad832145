//! The lists of a definitions file.
#![tactic(auto)]

pub mod bindings;
pub mod clusters;
pub mod exchanges;
pub mod names;
pub mod parameters;
pub mod placed;
pub mod policies;
pub mod queues;
pub mod vhosts;
