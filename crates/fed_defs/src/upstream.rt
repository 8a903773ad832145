//! Upstreams, and the members of sets, which override them.

use crate::uris::Uris;
use amqp_props::{AckMode, Text};

/// What an upstream, or the member of a set of upstreams, says of its links.
#[derive(Debug, Drop)]
pub struct Overrides {
    /// `ack-mode`.
    pub mode: Option<AckMode>,
    /// `prefetch-count`; 0 is no limit.
    pub prefetch: Option<u16>,
    /// `reconnect-delay`.
    pub delay: Option<u64>,
    /// `max-hops`.
    pub max_hops: Option<u32>,
    /// `exchange`, the name of the upstream exchange.
    pub exchange: Option<Text>,
    /// `queue`, the name of the upstream queue.
    pub queue: Option<Text>,
}

/// An upstream (RabbitMQ, the parameter `federation-upstream`).
#[derive(Debug, Drop)]
pub struct UpstreamDef {
    /// `uri`: where it is reached.
    pub uris: Uris,
    /// What it says of its links.
    pub own: Overrides,
}
