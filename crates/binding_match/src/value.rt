//! When a header has the value that an argument asks for.

ghost use Rattle.std.specs.Prelude.{◌≡◌};
ghost use Rattle.field_tables.specs.View.{field_view};
ghost use Rattle.binding_match.specs.Values.{number_of as number_of_field, same_value as values_are_same};

use field_tables::FieldValue;

/// The number that a whole number of any width is.
pub(crate) fn number_of(value: &FieldValue) -> Option<i64>
    ensures { result ≡ number_of_field (field_view value.now) }
{
    match value {
        FieldValue::I8(n) => Some(i64::from(*n)),
        FieldValue::U8(n) => Some(i64::from(*n)),
        FieldValue::I16(n) => Some(i64::from(*n)),
        FieldValue::U16(n) => Some(i64::from(*n)),
        FieldValue::I32(n) => Some(i64::from(*n)),
        FieldValue::U32(n) => Some(i64::from(*n)),
        FieldValue::I64(n) => Some(*n),
        FieldValue::Bool(_)
        | FieldValue::F32(_)
        | FieldValue::F64(_)
        | FieldValue::Decimal(_)
        | FieldValue::Text(_)
        | FieldValue::Array(_)
        | FieldValue::Time(_)
        | FieldValue::Table(_)
        | FieldValue::Void
        | FieldValue::Bytes(_) => None,
    }
}

/// Whether a header has the value that is asked for: whole numbers compare as numbers, other
/// values by their kind and octets.
pub(crate) fn same_value(asked: &FieldValue, there: &FieldValue) -> bool
    ensures { result ≡ values_are_same (field_view asked.now) (field_view there.now) }
{
    match (number_of(asked), number_of(there)) {
        (Some(a), Some(b)) => a == b,
        (None, None) => asked == there,
        _ => false,
    }
}
