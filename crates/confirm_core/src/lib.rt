//! What the publisher confirms of a broker wait for: each open publication, with the copies that are not stored yet.
#![tactic(auto)]

mod ledger;
mod numbers;
mod openings;
mod publication;

pub use ledger::Ledger;
