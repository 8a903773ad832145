//! Why a frame makes no command.
use amqp_methods::MethodFault;
use amqp_props::PropsFault;
use std::alloc::{AllocError, AllocFailed};
use thiserror::Error;

/// What is wrong with a frame on its channel (AMQP 0-9-1, sections 2.3.5 and 4.2.6).
#[derive(Clone, Copy, Debug, PartialEq, Eq, Error)]
pub enum ContentFault {
    /// A frame of this type can't stand there on its channel.
    #[error("unexpected frame of type {0}")]
    Unexpected(u8),
    /// A content header announces so large a body, over `MAX_BODY`; or the body frames so far have so many octets, over
    /// the announced size.
    #[error("body of {0} octets")]
    Size(u64),
    /// The payload is no content header.
    #[error("malformed content header: {0}")]
    Header(PropsFault),
    /// The payload is no method.
    #[error("malformed method: {0}")]
    Method(MethodFault),
    /// Memory ran out.
    #[error("out of memory")]
    Memory,
}

impl From<AllocError> for ContentFault {
    ghost use Rattle.std.specs.Prelude.{◌≡◌};
    ghost use Rattle.amqp_content.specs.declared.fault.ContentFault.TheVariants.{Memory};

    ghost from_gives = { λ _ fault. fault ≡ Memory };

    fn from(_error: AllocError) -> ContentFault {
        ContentFault::Memory
    }
}

impl<T: Drop> From<AllocFailed<T>> for ContentFault {
    ghost use Rattle.std.specs.Prelude.{◌≡◌};
    ghost use Rattle.amqp_content.specs.declared.fault.ContentFault.TheVariants.{Memory};

    ghost from_gives = { λ _ fault. fault ≡ Memory };

    fn from(_error: AllocFailed<T>) -> ContentFault {
        ContentFault::Memory
    }
}

impl From<MethodFault> for ContentFault {
    ghost use Rattle.std.specs.Prelude.{◌≡◌};
    ghost use Rattle.amqp_content.specs.Faults.{of_method};

    ghost from_gives = { λ error fault. fault ≡ of_method error };

    fn from(error: MethodFault) -> ContentFault {
        match error {
            MethodFault::Memory => ContentFault::Memory,
            fault => ContentFault::Method(fault),
        }
    }
}

impl From<PropsFault> for ContentFault {
    ghost use Rattle.std.specs.Prelude.{◌≡◌};
    ghost use Rattle.amqp_content.specs.Faults.{of_header};

    ghost from_gives = { λ error fault. fault ≡ of_header error };

    fn from(error: PropsFault) -> ContentFault {
        match error {
            PropsFault::Memory => ContentFault::Memory,
            fault => ContentFault::Header(fault),
        }
    }
}
