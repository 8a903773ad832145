//! The lines of a schedule, from events: what is written is read back as the event.
#![tactic(auto)]

pub mod clients;
pub mod laws;
pub mod lines;
pub mod words;
