//! Why a content header could not be read.

ghost use Rattle.std.specs.Prelude.{◌≡◌};
ghost use Rattle.amqp_props.specs.declared.fault.PropsFault.TheVariants.{Memory};

use std::alloc::{AllocError, AllocFailed};
use thiserror::Error;

/// What is wrong with a payload: the first fault from left to right.
#[derive(Error, Clone, Copy, Debug, PartialEq, Eq)]
pub enum PropsFault {
    /// It has fewer than the 14 octets of class, weight, body size and flags.
    #[error("a content header ends early")]
    Short,
    /// The class is another than basic, 60.
    #[error("a content header of class {0}")]
    Class(u16),
    /// The weight isn't 0.
    #[error("a content header of weight {0}")]
    Weight(u16),
    /// A flag that belongs to no property is set: bit 1 or 0.
    #[error("a content header with the flags {0}")]
    Flags(u16),
    /// No spelling of the property at this place, from 0, in `PROPERTIES` stands where it should.
    #[error("property {0} of a content header can't be read")]
    Field(usize),
    /// So many octets are left over.
    #[error("{0} octets behind a content header")]
    Trailing(usize),
    /// Memory ran out.
    #[error("out of memory")]
    Memory,
}

impl From<AllocError> for PropsFault {
    ghost from_gives = { λ _ e. e ≡ Memory };

    fn from(_e: AllocError) -> PropsFault {
        PropsFault::Memory
    }
}

impl<T: Drop> From<AllocFailed<T>> for PropsFault {
    ghost from_gives = { λ _ e. e ≡ Memory };

    fn from(_e: AllocFailed<T>) -> PropsFault {
        PropsFault::Memory
    }
}
