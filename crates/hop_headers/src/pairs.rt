//! Tables that are made from others.

ghost use Rattle.std.specs.Prelude.{◌≡◌, ◌++◌, ◌∷◌, [], ◌+◌, ◌<◌, IfOk, OnOk, IfSome, IfNone, length, take, drop};
ghost use Rattle.field_tables.specs.Fields.{Field, long_string, array, table};
ghost use Rattle.field_tables.specs.View.{fields_of, pairs_of, field_view, fields_view, pairs_view, table_view};
ghost use Rattle.hop_headers.specs.Names.{name_text};
ghost use Rattle.hop_headers.specs.Stamps.{set_first, with_header as table_with_header};

use crate::names::FieldName;
use field_tables::{FieldValue, Table};
use std::alloc::{AllocError, Global};

/// The names and values of a table.
pub(crate) type Pairs = Vec<(String, FieldValue)>;

pub(crate) fn text_value(alloc: Global, text: &str) -> Result<FieldValue, AllocError>
    ensures { IfOk result (λ v. field_view v ≡ long_string text.now) }
{
    Ok(FieldValue::Text(Vec::from_slice(alloc, text.as_bytes())?))
}

pub(crate) fn table_value(pairs: Pairs) -> FieldValue
    ensures { field_view result ≡ table (pairs_of (pairs_view pairs.items)) }
{
    FieldValue::Table(Table { pairs })
}

pub(crate) fn array_value(values: Vec<FieldValue>) -> FieldValue
    ensures { field_view result ≡ array (fields_of (fields_view values.items)) }
{
    FieldValue::Array(values)
}

/// Adds a name and its value.
pub(crate) fn put(name: FieldName, value: FieldValue, to: &mut Pairs) -> Result<(), AllocError>
    ensures { OnOk result (pairs_view to.new.items
        ≡ pairs_view to.old.items ++ (name_text name, field_view value) ∷ []) }
{
    let name = String::from_str(*to.allocator(), name.text())?;
    to.push((name, value))?;
    Ok(())
}

/// Adds copies of all these names and values.
pub(crate) fn copy_pairs(from: &[(String, FieldValue)], to: &mut Pairs) -> Result<(), AllocError>
    ensures { OnOk result (pairs_view to.new.items ≡ pairs_view to.old.items ++ pairs_view from.now) }
{
    for (name, value) in from {
        let name = name.clone()?;
        to.push((name, value.clone()?))?;
    }
    Ok(())
}

/// Adds copies of all these values.
pub(crate) fn copy_values(from: &[FieldValue], to: &mut Vec<FieldValue>) -> Result<(), AllocError>
    ensures { OnOk result (fields_view to.new.items ≡ fields_view to.old.items ++ fields_view from.now) }
{
    for value in from {
        to.push(value.clone()?)?;
    }
    Ok(())
}

/// Where the first of a name stands.
fn index_of(name: FieldName, pairs: &[(String, FieldValue)]) -> Option<usize>
    ensures found { IfSome result (λ i. (i < length pairs.now) × ((v : Field)
        → set_first (name_text name) v (pairs_view pairs.now)
        ≡ pairs_view (take i pairs.now) ++ (name_text name, v) ∷ pairs_view (drop (i + 1) pairs.now))) }
    ensures none { IfNone result ((v : Field) → set_first (name_text name) v (pairs_view pairs.now)
        ≡ pairs_view pairs.now ++ (name_text name, v) ∷ []) }
{
    for (i, (key, _)) in pairs.iter().enumerate() {
        if key.as_str() == name.text() {
            return Some(i);
        }
    }
    None
}

/// Adds copies of the names and values, where the first of a name takes the value, or it comes last.
fn put_first(
    name: FieldName,
    value: FieldValue,
    from: &[(String, FieldValue)],
    to: &mut Pairs,
) -> Result<(), AllocError>
    ensures { OnOk result (pairs_view to.new.items ≡ pairs_view to.old.items
        ++ set_first (name_text name) (field_view value) (pairs_view from.now)) }
{
    match index_of(name, from) {
        Some(i) => {
            copy_pairs(&from[..i], to)?;
            put(name, value, to)?;
            copy_pairs(&from[i + 1..], to)
        }
        None => {
            copy_pairs(from, to)?;
            put(name, value, to)
        }
    }
}

/// The table with a value under a name: the first of that name takes it where it stands, else it comes last.
#[tactic(auto, unfolding(crate::specs::Stamps::with_header), using(crate::proofs::Views::listed))]
pub(crate) fn with_header(
    alloc: Global,
    headers: &Table,
    name: FieldName,
    value: FieldValue,
) -> Result<Table, AllocError>
    ensures { IfOk result (λ t. table_view t
        ≡ table_with_header (name_text name) (field_view value) (table_view headers.now)) }
{
    let mut pairs = Vec::with_capacity(alloc, headers.pairs.len())?;
    put_first(name, value, headers.pairs.as_slice(), &mut pairs)?;
    Ok(Table { pairs })
}
