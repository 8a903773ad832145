//! A queue as it stands in a virtual host.

use amqp_props::QueueOptions;
use route_core::QueueNo;

/// A queue that was declared.
#[derive(Drop)]
pub struct StandingQueue<B> {
    /// Its number among the queues of the virtual host, in the order of making.
    pub number: QueueNo,
    /// What it was declared with.
    pub options: QueueOptions,
    /// The connection that has it to itself.
    pub owner: Option<u32>,
    /// Its copies.
    pub mail: B,
}
