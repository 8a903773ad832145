//! Why an event doesn't happen.

/// Why an event doesn't happen now.
#[derive(Clone, Copy)]
pub enum Reason {
    /// No such broker or place.
    NoPlace,
    /// No configuration asks for such a link.
    NoLink,
    /// A URI of the link names no place of the run.
    NoBroker,
    /// The link's name has over 230 octets.
    NameTooLong,
    /// The link has a session.
    Live,
    /// A client's connection has the link's source queue to itself.
    NoSource,
    /// The end that the event needs doesn't live.
    NotOpen,
    /// The session holds as many copies as the link asks for.
    Full,
    /// Nothing is there to be handled.
    Empty,
    /// No publication that waits is secured.
    Unsecured,
    /// The client has no consumer of that tag.
    NoConsumer,
    /// The consumer holds as many unacknowledged copies as it asked for.
    Busy,
    /// The client doesn't hold the copy.
    NotHeld,
    /// The broker refuses with this reply code (AMQP 0-9-1, 1.2).
    Refused(u16),
}
