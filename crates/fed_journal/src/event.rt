//! The single steps of a run.
use crate::link::AckMode;
use crate::place::{ExchangeShape, Place};
use amqp_props::{Message, QueueOptions, Text};
use route_core::Binding;

/// A shovel as its parameter sets it (RabbitMQ, dynamic shovels): the run names of the brokers that
/// its URIs name, its queues and its mode.
#[derive(Clone, Drop)]
pub struct Shovel {
    pub source: Text,
    pub source_queue: Text,
    pub target: Text,
    pub target_queue: Text,
    pub mode: AckMode,
}

/// One action of one actor. A client's number is that of its connection, whose channel is 1.
#[derive(Drop)]
pub enum Event {
    /// queue.declare by a client.
    DeclareQueue {
        place: Place,
        client: u16,
        queue: Text,
        options: QueueOptions,
    },
    /// exchange.declare by a client.
    DeclareExchange {
        place: Place,
        client: u16,
        exchange: Text,
        shape: ExchangeShape,
    },
    /// queue.bind or exchange.bind by a client.
    Bind {
        place: Place,
        client: u16,
        binding: Binding,
    },
    /// queue.unbind or exchange.unbind by a client.
    Unbind {
        place: Place,
        client: u16,
        binding: Binding,
    },
    /// basic.publish by a client.
    Publish {
        place: Place,
        client: u16,
        message: Message,
    },
    /// basic.consume by a client. It may hold `prefetch` unacknowledged copies, any number where that is 0.
    Consume {
        place: Place,
        client: u16,
        queue: Text,
        tag: Text,
        no_ack: bool,
        prefetch: u16,
    },
    /// basic.cancel by a client.
    Cancel {
        place: Place,
        client: u16,
        tag: Text,
    },
    /// The broker sends basic.deliver to a client's consumer.
    Deliver {
        place: Place,
        client: u16,
        tag: Text,
    },
    /// basic.get by a client.
    Get {
        place: Place,
        client: u16,
        queue: Text,
        no_ack: bool,
    },
    /// basic.ack by a client.
    Ack {
        place: Place,
        client: u16,
        copy: u64,
    },
    /// basic.reject without requeue by a client.
    Reject {
        place: Place,
        client: u16,
        copy: u64,
    },
    /// basic.reject with requeue by a client.
    Requeue {
        place: Place,
        client: u16,
        copy: u64,
    },
    /// queue.purge by a client.
    Purge {
        place: Place,
        client: u16,
        queue: Text,
    },
    /// A client's connection ends.
    Close {
        place: Place,
        client: u16,
    },
    /// The broker stores what it holds.
    Flush {
        broker: Text,
    },
    /// An operator sets a shovel's parameter.
    SetShovel {
        place: Place,
        name: Text,
        shovel: Shovel,
    },
    /// The link connects to both of its ends.
    Open {
        link: Text,
    },
    /// The source hands a copy to the link.
    Take {
        link: Text,
    },
    /// The link sends a message to the target.
    Send {
        link: Text,
    },
    /// The target publishes what was sent.
    Accept {
        link: Text,
    },
    /// The target confirms a publication.
    Confirm {
        link: Text,
    },
    /// The link acknowledges a copy.
    Note {
        link: Text,
    },
    /// The source removes an acknowledged copy.
    Settle {
        link: Text,
    },
    /// The listing is printed.
    Show,
}
