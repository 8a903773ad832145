//! Why a payload spells no method.

ghost use Rattle.std.specs.Prelude.{◌≡◌};
ghost use Rattle.amqp_methods.specs.declared.fault.MethodFault.TheVariants.{Memory};

use std::alloc::AllocError;
use thiserror::Error;

/// What is wrong with a payload: the first fault from left to right.
#[derive(Error, Clone, Copy, Debug, PartialEq, Eq)]
pub enum MethodFault {
    /// The payload ends before its class and id do.
    #[error("a method ends before its class and id")]
    Short,
    /// No method has this class and id.
    #[error("no method has class {0} and id {1}")]
    Unknown(u16, u16),
    /// No spelling of this argument begins in its place. Arguments are counted from 0, each bit as one; for a missing
    /// octet of bits it is their first.
    #[error("argument {0} of a method is malformed")]
    Field(usize),
    /// So many octets stand after the last argument.
    #[error("{0} octets stand after a method")]
    Trailing(usize),
    /// Memory ran out.
    #[error("out of memory")]
    Memory,
}

impl From<AllocError> for MethodFault {
    ghost from_gives = { λ _ e. e ≡ Memory };

    fn from(_e: AllocError) -> MethodFault {
        MethodFault::Memory
    }
}
