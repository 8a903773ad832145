//! What a broker keeps of one channel: its delivery tags, the prefetch windows, and what is unacknowledged.
#![tactic(auto)]

mod channel;
mod delivery;
mod shares;
mod tags;

pub use channel::{Channel, SettleFault};
pub use delivery::{Consumer, CopyNo, Delivery};
