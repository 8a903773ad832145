//! The values of upstreams, sets of upstreams, shovels, policies and arguments.
#![tactic(auto)]

pub mod arguments;
pub mod fault;
pub mod inert;
pub mod keys;
pub mod parameters;
pub mod paths;
pub mod policies;
pub mod props;
pub mod setting;
pub mod settings;
pub mod shovel;
pub mod upstream;
pub mod uris;
pub mod value;

pub use fault::{DefFault, ValueFault};
pub use shovel::read_shovel;
pub use upstream::read_upstream;
