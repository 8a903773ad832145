//! Entries of hop headers.

use field_tables::Text;

/// A place as headers name it: a cluster and a virtual host of it.
#[derive(Clone, PartialEq, Drop)]
pub struct PlaceName {
    /// The name of the cluster.
    pub cluster: Text,
    /// The virtual host.
    pub vhost: Text,
}

/// What a message was taken from.
#[derive(Clone, PartialEq, Drop)]
pub enum HopObject {
    /// An exchange, by an exchange link.
    Exchange(Text),
    /// A queue, by a queue link.
    Queue(Text),
    /// The entry names neither.
    Neither,
}

/// One entry of an `x-received-from`.
#[derive(Clone, PartialEq, Drop)]
pub struct HopEntry {
    /// The upstream place.
    pub place: PlaceName,
    /// The exchange or queue there.
    pub object: HopObject,
    /// Whether the message had been delivered before.
    pub redelivered: bool,
    /// How often the message came by this queue; 0 where the entry has no such count.
    pub visits: u32,
}
