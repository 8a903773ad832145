//! The configuration of brokers, and which links it asks for.
#![tactic(auto)]

mod config;
mod federation;
mod lists;
mod shovel;
mod upstream;
mod uris;

pub use config::{
    BindingDef, BrokerConfig, Config, ExchangeDef, ParameterDef, ParameterValue, PolicyDef,
    QueueDef, SetMember, VhostConfig,
};
pub use federation::{Choice, Owner};
pub use lists::{Sequence, SharedPattern};
pub use shovel::{ShovelDef, no_props};
pub use upstream::{Overrides, UpstreamDef};
pub use uris::{UriRead, Uris};
