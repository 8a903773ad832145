//! The configuration of brokers: what their definitions hold.

use crate::lists::{Sequence, SharedPattern};
use crate::shovel::ShovelDef;
use crate::upstream::{Overrides, UpstreamDef};
use amqp_props::{ExchangeKind, FieldTable, QueueOptions, Text};
use policy_core::Apply;

/// The brokers of a run, in their order.
#[derive(Drop)]
pub struct Config {
    /// The brokers; a place names its broker by the index here, from 0.
    pub brokers: Sequence<BrokerConfig>,
}

/// A broker and what its definitions hold.
#[derive(Drop)]
pub struct BrokerConfig {
    /// The name by which the run and its URIs know the broker.
    pub name: Text,
    /// The name of its cluster (RabbitMQ, the global parameter `cluster_name`).
    pub cluster: Text,
    /// Its virtual hosts.
    pub vhosts: Sequence<VhostConfig>,
    /// What is kept of its definitions file, as compact JSON.
    pub kept: Text,
}

/// A virtual host and its objects, policies and parameters, each list in order of making or setting.
#[derive(Drop)]
pub struct VhostConfig {
    /// The name of the virtual host.
    pub name: Text,
    /// Its exchanges but the predeclared ones.
    pub exchanges: Sequence<ExchangeDef>,
    /// Its queues.
    pub queues: Sequence<QueueDef>,
    /// Its bindings.
    pub bindings: Sequence<BindingDef>,
    /// Its policies.
    pub policies: Sequence<PolicyDef>,
    /// Its upstreams, sets of upstreams and shovels.
    pub parameters: Sequence<ParameterDef>,
}

/// An exchange (AMQP 0-9-1, exchange.declare).
#[derive(Drop)]
pub struct ExchangeDef {
    /// Its name.
    pub name: Text,
    /// Its type.
    pub kind: ExchangeKind,
    /// It outlives a restart of its broker.
    pub durable: bool,
    /// Clients can't publish to it (RabbitMQ, the field `internal` of an exchange).
    pub internal: bool,
}

/// A queue (AMQP 0-9-1, queue.declare).
#[derive(Drop)]
pub struct QueueDef {
    /// Its name.
    pub name: Text,
    /// Its type is `quorum` and not `classic`, which policies tell apart (RabbitMQ, the argument `x-queue-type`).
    pub quorum: bool,
    /// Its options.
    pub options: QueueOptions,
}

/// A binding (AMQP 0-9-1, queue.bind; RabbitMQ, exchange.bind).
#[derive(Drop)]
pub struct BindingDef {
    /// The name of the exchange that it leaves.
    pub source: Text,
    /// It leads to an exchange and not to a queue.
    pub to_exchange: bool,
    /// The name of what it leads to.
    pub dest: Text,
    /// The routing key.
    pub key: Text,
    /// The arguments.
    pub args: FieldTable,
}

/// A policy (RabbitMQ, "Parameters and Policies").
#[derive(Drop)]
pub struct PolicyDef {
    /// Its name.
    pub name: Text,
    /// What is searched for in the names of objects.
    pub pattern: SharedPattern,
    /// `apply-to`: the objects that it may apply to.
    pub apply: Apply,
    /// Of the policies that fit an object, one of the greatest priority applies.
    pub priority: i64,
    /// `federation-upstream`: the name of one upstream.
    pub upstream: Option<Text>,
    /// `federation-upstream-set`: the name of a set of upstreams, or `all`.
    pub set: Option<Text>,
    /// `federation-upstream-pattern`: what is searched for in the names of upstreams.
    pub upstream_pattern: Option<SharedPattern>,
}

/// A parameter of a virtual host (RabbitMQ, "Parameters and Policies").
#[derive(Drop)]
pub struct ParameterDef {
    /// Its name, which no other parameter of its component has.
    pub name: Text,
    /// Its component and value.
    pub value: ParameterValue,
}

/// The value of a parameter, by its component.
#[derive(Drop)]
pub enum ParameterValue {
    /// The component `federation-upstream`.
    Upstream(UpstreamDef),
    /// The component `federation-upstream-set`: the members in their order.
    Set(Sequence<SetMember>),
    /// The component `shovel`.
    Shovel(ShovelDef),
}

/// A member of a set of upstreams (RabbitMQ, the parameter `federation-upstream-set`).
#[derive(Drop)]
pub struct SetMember {
    /// The name of the upstream.
    pub upstream: Text,
    /// The keys of the upstream that it overrides.
    pub own: Overrides,
}
