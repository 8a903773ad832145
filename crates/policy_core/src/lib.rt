//! Policies as RabbitMQ has them: patterns, what they apply to, and which of several applies.
#![tactic(auto)]

mod pattern;
mod policy;

pub use pattern::{Pattern, PatternFault};
pub use policy::{Apply, ObjectKind, PolicyText, choose};
