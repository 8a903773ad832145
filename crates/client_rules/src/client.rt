//! A client, what it declares an exchange as, and which queues are its own.
ghost use Rattle.std.specs.Prelude.{◌≡◌};
ghost use Rattle.client_rules.specs.Owners as owners;

use amqp_props::{ExchangeKind, QueueOptions};

/// A client of a virtual host: a connection to it, and a channel of that connection (AMQP 0-9-1, 2.1.1).
#[derive(Clone, Copy, PartialEq, Eq)]
pub struct Client {
    pub connection: u32,
    pub channel: u16,
}

/// What an exchange is declared as (AMQP 0-9-1, exchange.declare).
#[derive(Clone, Copy, PartialEq, Eq)]
pub struct ExchangeShape {
    pub kind: ExchangeKind,
    /// It outlives a restart of its broker.
    pub durable: bool,
    /// Clients can't publish to it; only bindings lead there.
    pub internal: bool,
}

/// The connection that has a queue of these options to itself where this client declares it; None where it is shared
/// (AMQP 0-9-1, queue.declare: exclusive).
pub fn owner_of(who: Client, options: QueueOptions) -> Option<u32>
    ensures { result ≡ owners.owner_of who options }
{
    if options.exclusive {
        Some(who.connection)
    } else {
        None
    }
}

/// Whether another connection than the client's has the queue to itself (AMQP 0-9-1, queue.declare: exclusive).
pub fn is_anothers(who: Client, owner: Option<u32>) -> bool
    ensures { result ≡ owners.is_anothers who owner }
{
    match owner {
        Some(connection) => connection != who.connection,
        None => false,
    }
}
