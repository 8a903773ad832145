//! What the journal records.
use crate::event::Shovel;
use crate::place::{Client, ExchangeShape, Place};
use crate::text::Names;
use amqp_props::{Message, QueueOptions, Text};
use route_core::Binding;

/// Who published a message.
#[derive(Drop)]
pub enum Publisher {
    Client(Client),
    /// A session of a link, from a copy that it took.
    Link { link: Text, session: u32, copy: u64 },
}

/// A publication and the queues that it was routed to.
#[derive(Drop)]
pub struct Publication {
    pub place: Place,
    pub number: u64,
    pub by: Publisher,
    pub message: Message,
    /// The greatest limit of a gate on its way; 0 without gates.
    pub limit: u32,
    /// The number of its first copy; 0 if it has none. The others follow in the order of the queues.
    pub first: u64,
    pub queues: Names,
}

/// One fact of a run. Sessions are numbered from 1 for each link, copies and publications from 1
/// over the whole run.
#[derive(Drop)]
pub enum Entry {
    /// A broker of the run, with its cluster name and its kept definitions.
    Begun {
        broker: Text,
        cluster: Text,
        kept: Text,
    },
    /// A queue was declared.
    MadeQueue {
        place: Place,
        queue: Text,
        options: QueueOptions,
        /// The connection that has an exclusive queue to itself.
        owner: Option<u32>,
    },
    /// An exchange was declared.
    MadeExchange {
        place: Place,
        exchange: Text,
        shape: ExchangeShape,
    },
    /// A queue is gone, with its bindings, its consumers and its copies.
    GoneQueue {
        place: Place,
        queue: Text,
    },
    /// A queue or an exchange was bound to an exchange.
    Bound {
        place: Place,
        binding: Binding,
    },
    /// A binding was removed.
    Unbound {
        place: Place,
        binding: Binding,
    },
    Published(Publication),
    /// The broker stored what it holds.
    Flushed {
        broker: Text,
    },
    Took {
        link: Text,
        session: u32,
        copy: u64,
    },
    Sent {
        link: Text,
        session: u32,
        copy: u64,
    },
    /// The target's publisher confirm came back to the link.
    Confirmed {
        link: Text,
        session: u32,
        publication: u64,
    },
    /// The link acknowledged the copy.
    Noted {
        link: Text,
        session: u32,
        copy: u64,
    },
    /// The source removed the copy.
    Settled {
        link: Text,
        session: u32,
        copy: u64,
    },
    /// The link connected to both ends; `ready` copies were ready at its source.
    Opened {
        link: Text,
        session: u32,
        ready: u64,
    },
    /// A client consumes from the queue, under a tag of its own. It may hold `prefetch` unacknowledged
    /// copies of it, and any number where that is 0.
    Consumed {
        place: Place,
        client: Client,
        queue: Text,
        tag: Text,
        no_ack: bool,
        prefetch: u16,
    },
    /// The client's consumer of that tag ended.
    Cancelled {
        place: Place,
        client: Client,
        tag: Text,
    },
    /// A copy was handed to a client: to its consumer of that tag, or, where the tag is empty, as it
    /// asked for one.
    Delivered {
        place: Place,
        client: Client,
        tag: Text,
        queue: Text,
        copy: u64,
        no_ack: bool,
    },
    /// The client acknowledged the copy, which is gone.
    Acked {
        place: Place,
        client: Client,
        copy: u64,
    },
    /// The client rejected the copy, which is gone.
    Rejected {
        place: Place,
        client: Client,
        copy: u64,
    },
    /// The client gave the copy back to its queue.
    Requeued {
        place: Place,
        client: Client,
        copy: u64,
    },
    /// The ready copies of the queue are gone.
    Purged {
        place: Place,
        queue: Text,
    },
    /// The connection ended, with its consumers; what it held is ready again.
    Closed {
        place: Place,
        connection: u32,
    },
    /// A shovel's parameter was set.
    ShovelSet {
        place: Place,
        name: Text,
        shovel: Shovel,
    },
}
