//! Why a text isn't appended.

ghost use Rattle.std.specs.Prelude.{◌≡◌};
ghost use Rattle.fed_status.specs.declared.fault.TextFault.TheVariants.{Memory};

use std::alloc::AllocError;
use thiserror::Error;

/// Why a text isn't appended to a page, which is then as it was.
#[derive(Debug, Drop, Error)]
pub enum TextFault {
    /// The page would have over 67,108,864 octets.
    #[error("over 67,108,864 octets")]
    Long,
    /// Memory is wanting.
    #[error("memory")]
    Memory,
}

impl From<AllocError> for TextFault {
    ghost from_gives = { λ _ e. e ≡ Memory };

    fn from(_e: AllocError) -> TextFault {
        TextFault::Memory
    }
}
