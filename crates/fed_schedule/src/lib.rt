//! The schedule language: the brokers of a run and its events, a line each.
#![tactic(auto)]

pub mod copies;
pub mod forms;
pub mod keyword;
pub mod messages;
pub mod options;
pub mod reading;
pub mod reasons;
pub mod schedule;
pub mod script;
pub mod shovels;
pub mod statement;
pub mod times;
