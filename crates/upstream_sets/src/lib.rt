//! The links that a configuration of brokers asks for.
#![tactic(auto)]

mod choices;
mod fault;
mod federation;
mod kept;
mod links;
mod name;
mod places;
mod scope;
mod table;

pub use fault::LinksFault;
pub use kept::MAX_LINKS;
pub use links::links_of;
