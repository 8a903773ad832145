//! Why a client's call isn't done.

ghost use Rattle.std.specs.Prelude.{◌≡◌};
ghost use Rattle.mini_broker.specs.declared.fault.ClientFault.TheVariants.{Memory};

use std::alloc::{AllocError, AllocFailed};
use thiserror::Error;

/// Why a client's call isn't done; the broker is then as it was.
#[derive(Error, Clone, Copy, Debug, PartialEq, Eq)]
pub enum ClientFault {
    /// A reply code of AMQP, as 404 for a queue that isn't there.
    #[error("refused with reply code {0}")]
    Refused(u16),
    /// The client has no consumer of that tag.
    #[error("no consumer of that tag")]
    NoConsumer,
    /// The consumer holds as many copies as its prefetch count lets it.
    #[error("as many copies as the prefetch count are unacknowledged")]
    Busy,
    /// No copy is ready in the queue.
    #[error("no copy is ready")]
    Empty,
    /// Memory ran out.
    #[error("out of memory")]
    Memory,
}

impl From<AllocError> for ClientFault {
    ghost from_gives = { λ _ e. e ≡ Memory };

    fn from(_e: AllocError) -> ClientFault {
        ClientFault::Memory
    }
}

impl<T: Drop> From<AllocFailed<T>> for ClientFault {
    ghost from_gives = { λ _ e. e ≡ Memory };

    fn from(_e: AllocFailed<T>) -> ClientFault {
        ClientFault::Memory
    }
}
