//! Why the value of a parameter is refused.
ghost use Rattle.std.specs.Prelude.{◌≡◌};
ghost use Rattle.defs_values.specs.Faults.{why_refused};

use amqp_props::Text;
use std::alloc::{AllocError, AllocFailed};
use thiserror::Error;

/// Why the value of a key is refused.
#[derive(Clone, Copy, Debug, PartialEq, Eq, Error)]
pub enum Refusal {
    /// It is missing, or of another kind or range.
    #[error("not a value of the key")]
    Shape,
    /// It is a floating-point number.
    #[error("a floating-point number")]
    Float,
    /// It is over its limit: 255 octets for a text, 32 levels for an argument, 32,768 octets for arguments.
    #[error("over its limit")]
    Limit,
    /// It is no regular expression.
    #[error("not a regular expression")]
    Pattern,
    /// It is no virtual host of the file.
    #[error("not a virtual host of the file")]
    Vhost,
    /// Memory ran out.
    #[error("out of memory")]
    Memory,
}

/// The first key whose value is refused.
#[derive(Debug, Drop, Error)]
pub enum KeyFault {
    /// The path to the value, which begins with its key, and why.
    #[error("a key is refused: {1}")]
    Refused(Text, Refusal),
    /// Memory ran out.
    #[error("out of memory")]
    Memory,
}

/// Why a text holds no definitions. A path names the place, as `policies[0].priority`.
#[derive(Debug, Drop, Error)]
pub enum DefFault {
    /// It isn't JSON, or nests deeper than 127.
    #[error("not JSON")]
    NotJson,
    /// A key is missing or its value is of another kind or range, a name stands twice, or an end of a binding isn't there.
    /// The path is `-` where the text is no object.
    #[error("not a value of the key at {0:?}")]
    Shape(Text),
    /// A floating-point number.
    #[error("a floating-point number at {0:?}")]
    Float(Text),
    /// What is no regular expression, or nests too deep for one.
    #[error("not a regular expression at {0:?}")]
    BadPattern(Text),
    /// A virtual host that the text doesn't have.
    #[error("not a virtual host of the definitions at {0:?}")]
    UnknownVhost(Text),
    /// A text over 255 octets, an argument nested over 32, or arguments over 32,768 octets.
    #[error("over its limit at {0:?}")]
    Limit(Text),
    /// Memory ran out.
    #[error("out of memory")]
    Memory,
}

/// Why a value is no upstream or no shovel.
#[derive(Debug, Drop, Error)]
pub enum ValueFault {
    /// The first key, by its octets, that is missing or whose value isn't allowed.
    #[error("a key is missing or has a value that is not allowed")]
    Key(Text),
    /// Memory ran out.
    #[error("out of memory")]
    Memory,
}

impl From<AllocError> for Refusal {
    ghost use Rattle.std.specs.Prelude.{◌≡◌};
    ghost use Rattle.defs_values.specs.declared.fault.Refusal.TheVariants.{Memory};

    ghost from_gives = { λ _ why. why ≡ Memory };

    fn from(_: AllocError) -> Refusal {
        Refusal::Memory
    }
}

impl From<AllocError> for KeyFault {
    ghost use Rattle.std.specs.Prelude.{◌≡◌};
    ghost use Rattle.defs_values.specs.declared.fault.KeyFault.TheVariants.{Memory};

    ghost from_gives = { λ _ fault. fault ≡ Memory };

    fn from(_: AllocError) -> KeyFault {
        KeyFault::Memory
    }
}

impl<T: Drop> From<AllocFailed<T>> for Refusal {
    ghost use Rattle.std.specs.Prelude.{◌≡◌};
    ghost use Rattle.defs_values.specs.declared.fault.Refusal.TheVariants.{Memory};

    ghost from_gives = { λ _ why. why ≡ Memory };

    fn from(_: AllocFailed<T>) -> Refusal {
        Refusal::Memory
    }
}

impl<T: Drop> From<AllocFailed<T>> for KeyFault {
    ghost use Rattle.std.specs.Prelude.{◌≡◌};
    ghost use Rattle.defs_values.specs.declared.fault.KeyFault.TheVariants.{Memory};

    ghost from_gives = { λ _ fault. fault ≡ Memory };

    fn from(_: AllocFailed<T>) -> KeyFault {
        KeyFault::Memory
    }
}

/// Why a path is refused.
fn why_refused(path: Text, why: Refusal) -> DefFault
    ensures { result ≡ why_refused path why }
{
    match why {
        Refusal::Shape => DefFault::Shape(path),
        Refusal::Float => DefFault::Float(path),
        Refusal::Limit => DefFault::Limit(path),
        Refusal::Pattern => DefFault::BadPattern(path),
        Refusal::Vhost => DefFault::UnknownVhost(path),
        Refusal::Memory => DefFault::Memory,
    }
}

impl From<KeyFault> for DefFault {
    ghost use Rattle.std.specs.Prelude.{◌≡◌};
    ghost use Rattle.defs_values.specs.Faults.{named_fault};

    ghost from_gives = { λ fault named. named ≡ named_fault fault };

    fn from(fault: KeyFault) -> DefFault {
        match fault {
            KeyFault::Refused(path, why) => why_refused(path, why),
            KeyFault::Memory => DefFault::Memory,
        }
    }
}

impl From<AllocError> for DefFault {
    ghost use Rattle.std.specs.Prelude.{◌≡◌};
    ghost use Rattle.defs_values.specs.declared.fault.DefFault.TheVariants.{Memory};

    ghost from_gives = { λ _ fault. fault ≡ Memory };

    fn from(_: AllocError) -> DefFault {
        DefFault::Memory
    }
}
