use std::alloc::AllocError;
use thiserror::Error;

/// Why a text is no AMQP URI. Places count bytes from 0 at the front of the text.
#[derive(Clone, Copy, Debug, PartialEq, Eq, Error)]
pub enum UriFault {
    /// The text doesn't begin with `amqp://`.
    #[error("the URI does not begin with amqp://")]
    Scheme,
    /// A `%` without two hexadecimal digits, or the first `%` of a part that decodes to no UTF-8.
    #[error("bad escape at byte {0}")]
    Escape(usize),
    /// The host has a byte other than letters, digits, `-`, `.` and `_`.
    #[error("bad host")]
    Host,
    /// The port is no number from 1 to 65,535.
    #[error("bad port")]
    Port,
    /// A `#` or a second `/` before the query.
    #[error("nothing but a query may follow the virtual host, at byte {0}")]
    Rest(usize),
    /// Memory ran out.
    #[error("out of memory")]
    Memory,
}

impl From<AllocError> for UriFault {
    ghost use Rattle.std.specs.Prelude.{◌≡◌};
    ghost use Rattle.amqp_uri.specs.declared.fault.UriFault.TheVariants.{Memory};

    ghost from_gives = { λ _ fault. fault ≡ Memory };

    fn from(_: AllocError) -> UriFault {
        UriFault::Memory
    }
}
