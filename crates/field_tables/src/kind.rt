//! The kinds of field values and the octets that name them.

ghost use Rattle.std.specs.Prelude.{◌≡◌};
ghost use Rattle.field_tables.specs.Tables.{kind_octet, fixed_octet, counted_octet};
ghost use Rattle.field_tables.specs.Reading.{kind_at};

use crate::fault::TableFault;

/// A field type, as RabbitMQ's table of field types has them.
#[derive(Clone, Copy, Debug, PartialEq, Eq)]
pub enum Kind {
    /// The value has a fixed size.
    Fixed(Fixed),
    /// The number of its octets stands before the value.
    Counted(Counted),
}

/// A field type whose values stand behind the number of their octets.
#[derive(Clone, Copy, Debug, PartialEq, Eq)]
pub enum Counted {
    /// `S`
    LongString,
    /// `A`
    Array,
    /// `F`
    Table,
    /// `x`
    ByteArray,
}

/// A field type whose values have a fixed size.
#[derive(Clone, Copy, Debug, PartialEq, Eq)]
pub enum Fixed {
    /// `t`
    Boolean,
    /// `b`
    SignedOctet,
    /// `B`
    Octet,
    /// `s`
    SignedShort,
    /// `u`
    Short,
    /// `I`
    SignedLong,
    /// `i`
    Long,
    /// `l`
    SignedLongLong,
    /// `f`
    Float,
    /// `d`
    Double,
    /// `D`
    Decimal,
    /// `T`
    Timestamp,
    /// `V`
    Void,
}

impl Kind {
    /// The kind that an octet names; `BadKind` exactly where it names none.
    #[tactic(auto, unfolding(crate::specs::Reading::kind_at))]
    pub fn of(octet: u8) -> Result<Kind, TableFault>
        ensures { result ≡ kind_at octet }
    {
        match octet {
            b't' => Ok(Kind::Fixed(Fixed::Boolean)),
            b'b' => Ok(Kind::Fixed(Fixed::SignedOctet)),
            b'B' => Ok(Kind::Fixed(Fixed::Octet)),
            b's' => Ok(Kind::Fixed(Fixed::SignedShort)),
            b'u' => Ok(Kind::Fixed(Fixed::Short)),
            b'I' => Ok(Kind::Fixed(Fixed::SignedLong)),
            b'i' => Ok(Kind::Fixed(Fixed::Long)),
            b'l' => Ok(Kind::Fixed(Fixed::SignedLongLong)),
            b'f' => Ok(Kind::Fixed(Fixed::Float)),
            b'd' => Ok(Kind::Fixed(Fixed::Double)),
            b'D' => Ok(Kind::Fixed(Fixed::Decimal)),
            b'S' => Ok(Kind::Counted(Counted::LongString)),
            b'A' => Ok(Kind::Counted(Counted::Array)),
            b'T' => Ok(Kind::Fixed(Fixed::Timestamp)),
            b'F' => Ok(Kind::Counted(Counted::Table)),
            b'V' => Ok(Kind::Fixed(Fixed::Void)),
            b'x' => Ok(Kind::Counted(Counted::ByteArray)),
            _ => Err(TableFault::BadKind(octet)),
        }
    }

    /// The octet that names the kind.
    pub fn octet(self) -> u8
        ensures { result ≡ kind_octet self }
    {
        match self {
            Kind::Fixed(fixed) => fixed.octet(),
            Kind::Counted(counted) => counted.octet(),
        }
    }
}

impl Fixed {
    /// The octet that names the kind.
    pub fn octet(self) -> u8
        ensures { result ≡ fixed_octet self }
    {
        match self {
            Fixed::Boolean => b't',
            Fixed::SignedOctet => b'b',
            Fixed::Octet => b'B',
            Fixed::SignedShort => b's',
            Fixed::Short => b'u',
            Fixed::SignedLong => b'I',
            Fixed::Long => b'i',
            Fixed::SignedLongLong => b'l',
            Fixed::Float => b'f',
            Fixed::Double => b'd',
            Fixed::Decimal => b'D',
            Fixed::Timestamp => b'T',
            Fixed::Void => b'V',
        }
    }
}

impl Counted {
    /// The octet that names the kind.
    pub fn octet(self) -> u8
        ensures { result ≡ counted_octet self }
    {
        match self {
            Counted::LongString => b'S',
            Counted::Array => b'A',
            Counted::Table => b'F',
            Counted::ByteArray => b'x',
        }
    }
}
