//! The journal of a run: the events of clients, links, brokers and operators, the entries that they
//! append, and the questions that a journal answers.
#![tactic(auto)]

pub mod entry;
pub mod event;
pub mod journal;
pub mod link;
pub mod message;
pub mod page;
pub mod place;
pub mod reason;
pub mod text;
