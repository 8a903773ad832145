//! `==`, written out, since a derived one says nothing of a type that holds itself.

ghost use Rattle.std.specs.Prelude.{◌≡◌, ◌↔◌, IsTrue};
ghost use Rattle.std.specs.Cmp.{on_per, on_equiv, partial_equiv_from_equiv};
ghost use Rattle.field_tables.specs.View.{fields_of, pairs_of, field_view, fields_view, pairs_view, table_view};
ghost use Rattle.field_tables.specs.Same.{same_field as fields_are_same, same_fields as arrays_are_same, same_pairs as tables_are_same};
ghost use Rattle.field_tables.specs.SameLaws.{one_field_laws, one_table_laws};

use crate::value::{FieldValue, Table};

impl PartialEq for FieldValue {
    ghost eq = { λ one other. fields_are_same (field_view one) (field_view other) };

    ghost laws = { on_per (λ value. field_view value) (partial_equiv_from_equiv one_field_laws) };

    fn eq(&self, other: &FieldValue) -> bool
        ensures tested { result ≡ fields_are_same (field_view self.now) (field_view other.now) }
        ensures same { IsTrue result ↔ (field_view self.now ≡ field_view other.now) }
    {
        same_field(self, other)
    }
}

impl Eq for FieldValue {
    ghost laws = { on_equiv (λ value. field_view value) one_field_laws };
}

impl PartialEq for Table {
    ghost eq = { λ one other. tables_are_same (table_view one) (table_view other) };

    ghost laws = { on_per (λ table. table_view table) (partial_equiv_from_equiv one_table_laws) };

    fn eq(&self, other: &Table) -> bool
        ensures tested { result ≡ tables_are_same (table_view self.now) (table_view other.now) }
        ensures same { IsTrue result ↔ (table_view self.now ≡ table_view other.now) }
    {
        same_pairs(&self.pairs, &other.pairs)
    }
}

impl Eq for Table {
    ghost laws = { on_equiv (λ table. table_view table) one_table_laws };
}

#[cycle(same)]
#[tactic(auto, unfolding(crate::specs::Same::same_field))]
fn same_field(one: &FieldValue, other: &FieldValue) -> bool
    ensures { result ≡ fields_are_same (field_view one.now) (field_view other.now) }
{
    match (one, other) {
        (FieldValue::Bool(a), FieldValue::Bool(b)) => a == b,
        (FieldValue::I8(a), FieldValue::I8(b)) => a == b,
        (FieldValue::U8(a), FieldValue::U8(b)) => a == b,
        (FieldValue::I16(a), FieldValue::I16(b)) => a == b,
        (FieldValue::U16(a), FieldValue::U16(b)) => a == b,
        (FieldValue::I32(a), FieldValue::I32(b)) => a == b,
        (FieldValue::U32(a), FieldValue::U32(b)) => a == b,
        (FieldValue::I64(a), FieldValue::I64(b)) => a == b,
        (FieldValue::F32(a), FieldValue::F32(b)) => a == b,
        (FieldValue::F64(a), FieldValue::F64(b)) => a == b,
        (FieldValue::Decimal(a), FieldValue::Decimal(b)) => a == b,
        (FieldValue::Text(a), FieldValue::Text(b)) => a.as_slice() == b.as_slice(),
        (FieldValue::Array(a), FieldValue::Array(b)) => same_fields(a, b),
        (FieldValue::Time(a), FieldValue::Time(b)) => a == b,
        (FieldValue::Table(a), FieldValue::Table(b)) => same_pairs(&a.pairs, &b.pairs),
        (FieldValue::Void, FieldValue::Void) => true,
        (FieldValue::Bytes(a), FieldValue::Bytes(b)) => a.as_slice() == b.as_slice(),
        _ => false,
    }
}

#[cycle(same)]
fn same_fields(one: &Vec<FieldValue>, other: &Vec<FieldValue>) -> bool
    ensures { result ≡ arrays_are_same (fields_of (fields_view one.now.items))
        (fields_of (fields_view other.now.items)) }
{
    if one.len() != other.len() {
        return false;
    }
    for (i, value) in one.iter().enumerate() {
        if !same_field(value, &other[i]) {
            return false;
        }
    }
    true
}

#[cycle(same)]
fn same_pairs(one: &Vec<(String, FieldValue)>, other: &Vec<(String, FieldValue)>) -> bool
    ensures { result ≡ tables_are_same (pairs_of (pairs_view one.now.items))
        (pairs_of (pairs_view other.now.items)) }
{
    if one.len() != other.len() {
        return false;
    }
    for (i, pair) in one.iter().enumerate() {
        let (name, value) = pair;
        let (key, other) = &other[i];
        if name.as_str() != key.as_str() || !same_field(value, other) {
            return false;
        }
    }
    true
}
