//! What brokers hold after a journal: virtual hosts that follow its entries, and answer for them.
#![tactic(auto)]

pub mod answers;
pub mod brokers;
pub mod host;
pub mod run;
pub mod tell;
