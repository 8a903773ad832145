//! The router of a virtual host: exchanges, queues and bindings, and the queues that a message reaches.
#![tactic(auto)]

mod binding;
mod chains;
mod fault;
mod laws;
mod object;
mod router;
mod routes;
mod taking;
mod walking;

pub use binding::Binding;
pub use fault::RouteFault;
pub use laws::rounds_are_walks;
pub use object::{Node, Object, QueueNo, Sort};
pub use router::Router;
