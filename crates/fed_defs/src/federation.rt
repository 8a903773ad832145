//! What the definition of links speaks of: who owns a link, and which upstreams it may have.

use crate::upstream::Overrides;
use amqp_props::{Place, Text};

/// The place whose configuration sets a link, and the name by which the run knows its broker.
#[derive(Drop)]
pub struct Owner {
    /// The run's name of the broker.
    pub broker: Text,
    /// The place.
    pub place: Place,
}

/// An upstream that a policy chooses for an object.
#[derive(Drop)]
pub struct Choice {
    /// The name of the upstream.
    pub upstream: Text,
    /// Where it is; none where none of its URIs names a place of the run.
    pub source: Option<Place>,
    /// What it says of its links, with what the member of a set overrides.
    pub own: Overrides,
}
