//! The questions that a journal answers, computed by scanning its entries: plain, and slow on a long journal.
#![tactic(auto)]

pub mod configuration;
pub mod copies;
pub mod flight;
pub mod holds;
pub mod links;
pub mod phases;
pub mod routing;
mod standing;
