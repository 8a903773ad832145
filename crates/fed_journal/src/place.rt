//! Where queues stand, and who is connected there.
use amqp_props::Text;
pub use client_rules::{Client, ExchangeShape};

/// A broker, by its run name, and a virtual host of it.
#[derive(Clone, Drop, PartialEq, Eq)]
pub struct Place {
    pub broker: Text,
    pub vhost: Text,
}
