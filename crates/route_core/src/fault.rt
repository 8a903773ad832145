//! Why a message has no routes.

ghost use Rattle.std.specs.Prelude.{◌≡◌};
ghost use Rattle.route_core.specs.declared.fault.RouteFault.TheVariants.{Memory};

use std::alloc::{AllocError, AllocFailed};
use thiserror::Error;

/// Why the router gives no routes.
#[derive(Error, Clone, Copy, Debug, PartialEq, Eq)]
pub enum RouteFault {
    /// The virtual host has no exchange of that name.
    #[error("no exchange of that name")]
    NoExchange,
    /// Memory ran out.
    #[error("out of memory")]
    Memory,
}

impl From<AllocError> for RouteFault {
    ghost from_gives = { λ _ e. e ≡ Memory };

    fn from(_e: AllocError) -> RouteFault {
        RouteFault::Memory
    }
}

impl<T: Drop> From<AllocFailed<T>> for RouteFault {
    ghost from_gives = { λ _ e. e ≡ Memory };

    fn from(_e: AllocFailed<T>) -> RouteFault {
        RouteFault::Memory
    }
}
