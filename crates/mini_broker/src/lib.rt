//! The calls of a broker: what clients ask of the queues, exchanges, bindings, consumers and messages of a virtual host.
#![tactic(auto)]

mod bind;
mod close;
mod consume;
mod declare;
mod deliver;
mod fault;
mod publish;
mod record;
mod settle;
mod vhost;

pub use broker_store::Consumer;
pub use client_rules::{Client, ExchangeShape};
pub use deliver::Delivered;
pub use fault::ClientFault;
pub use publish::Accepted;
pub use vhost::Vhost;
