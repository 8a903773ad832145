//! Why a configuration has no list of links.
use std::alloc::{AllocError, AllocFailed};
use thiserror::Error;

/// Why a configuration has no list of links.
#[derive(Clone, Copy, Debug, PartialEq, Eq, Error)]
pub enum LinksFault {
    /// It asks for over 4,096 links.
    #[error("over 4,096 links")]
    Links,
    /// Memory ran out.
    #[error("out of memory")]
    Memory,
}

impl From<AllocError> for LinksFault {
    ghost use Rattle.std.specs.Prelude.{◌≡◌};
    ghost use Rattle.upstream_sets.specs.declared.fault.LinksFault.TheVariants.{Memory};

    ghost from_gives = { λ _ fault. fault ≡ Memory };

    fn from(_: AllocError) -> LinksFault {
        LinksFault::Memory
    }
}

impl<T: Drop> From<AllocFailed<T>> for LinksFault {
    ghost use Rattle.std.specs.Prelude.{◌≡◌};
    ghost use Rattle.upstream_sets.specs.declared.fault.LinksFault.TheVariants.{Memory};

    ghost from_gives = { λ _ fault. fault ≡ Memory };

    fn from(_: AllocFailed<T>) -> LinksFault {
        LinksFault::Memory
    }
}
