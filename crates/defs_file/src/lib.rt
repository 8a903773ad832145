//! Definitions files as RabbitMQ exports them.
#![tactic(auto)]

mod assembly;
mod definitions;
mod kept_text;

pub use definitions::Definitions;
