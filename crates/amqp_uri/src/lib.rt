//! AMQP URIs, as RabbitMQ's "AMQP URI Specification" gives them.
#![tactic(auto)]

mod escape;
mod fault;
mod parts;
mod uri;

pub use fault::UriFault;
pub use uri::AmqpUri;
