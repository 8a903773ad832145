//! The world of a run: one event after another, each as its rule says.
#![tactic(auto)]

pub mod kept;
pub mod limits;
pub mod reason;
pub mod row;
pub mod rows;
pub mod world;
