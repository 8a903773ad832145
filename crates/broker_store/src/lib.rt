//! What a virtual host of a broker keeps: its queues with their copies and messages, its exchanges, clients and consumers,
//! and the confirms that it owes to links.
#![tactic(auto)]

mod account;
mod clients;
mod confirms;
mod consumer;
mod exchanges;
mod mailbox;
mod messages;
mod queues;
mod standing;

pub use account::Account;
pub use clients::Clients;
pub use confirms::Confirms;
pub use consumer::{Consumer, find_consumer, is_consumer};
pub use exchanges::Exchanges;
pub use mailbox::{CopyMessage, Mailbox, Sweep};
pub use messages::{Kept, Messages};
pub use queues::Queues;
pub use standing::StandingQueue;
