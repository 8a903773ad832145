//! A link between two brokers, as its configuration describes it.
use crate::place::Place;
use amqp_props::Text;

/// How many copies a link's session may hold where nothing else is asked for (RabbitMQ, shovels:
/// `src-prefetch-count`).
pub const DEFAULT_PREFETCH: u16 = 1_000;

/// When a link removes a copy from its source (RabbitMQ, shovels: `ack-mode`).
#[derive(Clone, Copy)]
pub enum AckMode {
    /// After the target broker has confirmed the publication.
    OnConfirm,
}

/// Whether a configured link can be opened.
#[derive(Clone, Copy)]
pub enum StartState {
    Start,
    /// A URI names no place of the run.
    NoBroker,
    /// Its name has over 230 octets.
    NameTooLong,
}

/// What is left of a link's last session.
#[derive(Clone, Copy)]
pub enum Phase {
    Gone,
    /// Both ends live.
    Open,
}

/// The description of a shovel (RabbitMQ, dynamic shovels).
#[derive(Drop)]
pub struct LinkSpec {
    pub name: Text,
    pub start: StartState,
    /// The place whose parameter sets the link.
    pub owner: Place,
    /// None where its URI names no place of the run.
    pub source: Option<Place>,
    /// None where its URI names no place of the run.
    pub target: Option<Place>,
    pub source_queue: Text,
    pub target_queue: Text,
    pub mode: AckMode,
    /// How many copies a session may hold; 0 is no limit.
    pub prefetch: u16,
}
