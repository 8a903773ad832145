use std::alloc::AllocError;
use thiserror::Error;

/// Why a stream has no further frame (AMQP 0-9-1, sections 2.3.5 and 4.2.2). `at` is the offset in the stream, from 0,
/// of the first octet of the frame (or protocol header) that has the fault; `u64::MAX` stands for each greater one.
#[derive(Clone, Copy, Debug, PartialEq, Eq, Error)]
pub enum FrameFault {
    /// An octet that differs from the protocol header's.
    #[error("bad protocol header at octet {at}")]
    BadHeader { at: u64 },
    /// A frame's first octet isn't 1, 2, 3 or 8.
    #[error("bad frame type {octet} at octet {at}")]
    BadKind { at: u64, octet: u8 },
    /// A frame announces a payload of over 131,064 octets.
    #[error("frame of {size} octets of payload at octet {at}")]
    TooLarge { at: u64, size: u32 },
    /// The octet behind a frame's payload isn't `ce`.
    #[error("bad frame end {octet} in the frame at octet {at}")]
    BadEnd { at: u64, octet: u8 },
    /// The stream had a fault before, in the frame (or header) at this offset.
    #[error("the stream failed at octet {at}")]
    Failed { at: u64 },
    /// Memory ran out.
    #[error("out of memory")]
    Memory,
}

impl From<AllocError> for FrameFault {
    ghost use Rattle.std.specs.Prelude.{◌≡◌};
    ghost use Rattle.amqp_frames.specs.declared.fault.FrameFault.TheVariants.{Memory};

    ghost from_gives = { λ _ fault. fault ≡ Memory };

    fn from(_: AllocError) -> FrameFault {
        FrameFault::Memory
    }
}
