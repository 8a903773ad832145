//! Why a field table could not be read.

ghost use Rattle.std.specs.Prelude.{◌≡◌};
ghost use Rattle.field_tables.specs.declared.fault.TableFault.TheVariants.{Memory};

use std::alloc::{AllocError, AllocFailed};
use thiserror::Error;

/// What is wrong with the octets: the first fault from left to right.
#[derive(Error, Clone, Copy, Debug, PartialEq, Eq)]
pub enum TableFault {
    /// A part passes the end of the octets, or of the array or table that it stands in.
    #[error("a field table ends early")]
    Short,
    /// No field type has this octet.
    #[error("no field type has the octet {0}")]
    BadKind(u8),
    /// A truth value is neither 0 nor 1.
    #[error("a truth value is the octet {0}")]
    BadBool(u8),
    /// A name is not UTF-8.
    #[error("a name in a field table is not UTF-8")]
    BadText,
    /// A value stands more than 32 levels deep.
    #[error("a field table is nested too deep")]
    Deep,
    /// Memory ran out.
    #[error("out of memory")]
    Memory,
}

impl From<AllocError> for TableFault {
    ghost from_gives = { λ _ e. e ≡ Memory };

    fn from(_e: AllocError) -> TableFault {
        TableFault::Memory
    }
}

impl<T: Drop> From<AllocFailed<T>> for TableFault {
    ghost from_gives = { λ _ e. e ≡ Memory };

    fn from(_e: AllocFailed<T>) -> TableFault {
        TableFault::Memory
    }
}
