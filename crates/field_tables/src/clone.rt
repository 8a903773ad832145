//! `clone`, written out, since a derived one says nothing of a type that holds itself.

ghost use Rattle.std.specs.Prelude.{◌≡◌, IfOk};
ghost use Rattle.field_tables.specs.View.{field_view, fields_view, pairs_view, table_view};

use crate::value::{FieldValue, Table};
use std::alloc::AllocError;

impl Clone for FieldValue {
    ghost is_clone = { λ value copy. field_view copy ≡ field_view value };

    fn clone(&self) -> Result<FieldValue, AllocError> {
        copy(self)
    }
}

impl Clone for Table {
    ghost is_clone = { λ table copy. table_view copy ≡ table_view table };

    fn clone(&self) -> Result<Table, AllocError> {
        let pairs = copy_pairs(&self.pairs)?;
        Ok(Table { pairs })
    }
}

fn copy_octets(octets: &Vec<u8>) -> Result<Vec<u8>, AllocError>
    ensures { IfOk result (λ v. v.items ≡ octets.now.items) }
{
    Vec::from_slice(*octets.allocator(), octets)
}

#[cycle(copy)]
fn copy(value: &FieldValue) -> Result<FieldValue, AllocError>
    ensures { IfOk result (λ v. field_view v ≡ field_view value.now) }
{
    match value {
        FieldValue::Bool(b) => Ok(FieldValue::Bool(*b)),
        FieldValue::I8(n) => Ok(FieldValue::I8(*n)),
        FieldValue::U8(n) => Ok(FieldValue::U8(*n)),
        FieldValue::I16(n) => Ok(FieldValue::I16(*n)),
        FieldValue::U16(n) => Ok(FieldValue::U16(*n)),
        FieldValue::I32(n) => Ok(FieldValue::I32(*n)),
        FieldValue::U32(n) => Ok(FieldValue::U32(*n)),
        FieldValue::I64(n) => Ok(FieldValue::I64(*n)),
        FieldValue::F32(octets) => Ok(FieldValue::F32(*octets)),
        FieldValue::F64(octets) => Ok(FieldValue::F64(*octets)),
        FieldValue::Decimal(octets) => Ok(FieldValue::Decimal(*octets)),
        FieldValue::Text(octets) => Ok(FieldValue::Text(copy_octets(octets)?)),
        FieldValue::Array(values) => Ok(FieldValue::Array(copy_fields(values)?)),
        FieldValue::Time(n) => Ok(FieldValue::Time(*n)),
        FieldValue::Table(table) => {
            let pairs = copy_pairs(&table.pairs)?;
            Ok(FieldValue::Table(Table { pairs }))
        }
        FieldValue::Void => Ok(FieldValue::Void),
        FieldValue::Bytes(octets) => Ok(FieldValue::Bytes(copy_octets(octets)?)),
    }
}

#[cycle(copy)]
fn copy_fields(values: &Vec<FieldValue>) -> Result<Vec<FieldValue>, AllocError>
    ensures { IfOk result (λ v. fields_view v.items ≡ fields_view values.now.items) }
{
    let mut copies = Vec::with_capacity(*values.allocator(), values.len())?;
    for value in values {
        copies.push(copy(value)?)?;
    }
    Ok(copies)
}

#[cycle(copy)]
fn copy_pairs(pairs: &Vec<(String, FieldValue)>) -> Result<Vec<(String, FieldValue)>, AllocError>
    ensures { IfOk result (λ v. pairs_view v.items ≡ pairs_view pairs.now.items) }
{
    let mut copies = Vec::with_capacity(*pairs.allocator(), pairs.len())?;
    for (name, value) in pairs {
        let name = name.clone()?;
        copies.push((name, copy(value)?))?;
    }
    Ok(copies)
}
