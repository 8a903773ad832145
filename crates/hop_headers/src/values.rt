//! Texts, arrays and tables among the values of a table.

ghost use Rattle.std.specs.Prelude.{◌≡◌, option_map};
ghost use Rattle.field_tables.specs.View.{field_view, fields_view, table_view};
ghost use Rattle.hop_headers.specs.Names.{name_text};
ghost use Rattle.hop_headers.specs.Hops.{if_utf8, text_of as text_of_field, array_of as array_of_field, table_of as table_of_field, text_at as text_of_name, array_at as array_of_name};

use crate::names::FieldName;
use field_tables::{FieldValue, Table};

fn as_utf8(octets: &[u8]) -> Option<&str>
    ensures { option_map (λ t. t.now) result ≡ if_utf8 octets.now }
{
    match std::str::from_utf8(octets) {
        Ok(text) => Some(text),
        Err(_) => None,
    }
}

fn text_of(value: &FieldValue) -> Option<&str>
    ensures { option_map (λ t. t.now) result ≡ text_of_field (field_view value.now) }
{
    match value {
        FieldValue::Text(octets) => as_utf8(octets.as_slice()),
        _ => None,
    }
}

fn array_of(value: &FieldValue) -> Option<&[FieldValue]>
    ensures { option_map (λ v. fields_view v.now) result ≡ array_of_field (field_view value.now) }
{
    match value {
        FieldValue::Array(values) => Some(values.as_slice()),
        _ => None,
    }
}

/// The table that a value is.
pub(crate) fn table_of(value: &FieldValue) -> Option<&Table>
    ensures { option_map (λ t. table_view t.now) result ≡ table_of_field (field_view value.now) }
{
    match value {
        FieldValue::Table(table) => Some(table),
        _ => None,
    }
}

/// The text of a name; of equal names the first counts.
#[tactic(auto, unfolding(crate::specs::Hops::text_at))]
pub(crate) fn text_at(name: FieldName, table: &Table) -> Option<&str>
    ensures { option_map (λ t. t.now) result ≡ text_of_name (name_text name) (table_view table.now) }
{
    match table.get(name.text()) {
        Some(value) => text_of(value),
        None => None,
    }
}

/// The array of a name; of equal names the first counts.
#[tactic(auto, unfolding(crate::specs::Hops::array_at))]
pub(crate) fn array_at(name: FieldName, table: &Table) -> Option<&[FieldValue]>
    ensures { option_map (λ v. fields_view v.now) result
        ≡ array_of_name (name_text name) (table_view table.now) }
{
    match table.get(name.text()) {
        Some(value) => array_of(value),
        None => None,
    }
}
