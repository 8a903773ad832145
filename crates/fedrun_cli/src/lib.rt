//! The commands of `fedrun`: what its words ask for, what it prints and how it ends.
#![tactic(auto)]

pub mod command;
pub mod ending;
mod report;
pub mod words;
