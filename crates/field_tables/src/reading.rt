//! Field tables from octets.

ghost use Rattle.std.specs.Prelude.{◌≡◌, ◌++◌, ◌≤◌, List, ℕ, length, take, map, IfOk, Ok, string_bytes};
ghost use Rattle.std.specs.Int.{w8, w16, w32, w64};
ghost use Rattle.field_tables.specs.Fields.{Pairs};
ghost use Rattle.field_tables.specs.Tables.{IsTable, table_spelling};
ghost use Rattle.field_tables.specs.View.{field_view, fields_view, pairs_view, table_view};
ghost use Rattle.field_tables.specs.Reading.{Gives, GivesTable, octets_at, octet_at, number_at, boolean_at, signed, counted_at, text_at, name_at, fields_at, pairs_at, fixed_at, inside_at, value_at, table_at};

use crate::fault::TableFault;
use crate::kind::{Counted, Fixed, Kind};
use crate::value::{FieldValue, Table};
use std::alloc::Global;

/// How deep values nest; a value that stands in the table itself is at depth 1.
const MAX_DEPTH: u32 = 32;

#[tactic(auto, unfolding(crate::specs::Reading::octets_at))]
fn octets_of(count: usize, bytes: &[u8]) -> Result<(&[u8], &[u8]), TableFault>
    ensures { Gives (λ x. (x.0.now, x.1.now)) result (octets_at count bytes.now) }
{
    if bytes.len() < count {
        return Err(TableFault::Short);
    }
    Ok(bytes.split_at(count))
}

#[tactic(auto, unfolding(crate::specs::Reading::octets_at))]
fn array_of<const N: usize>(bytes: &[u8]) -> Result<([u8; N], &[u8]), TableFault>
    ensures { Gives (λ x. (x.0, x.1.now)) result (octets_at N bytes.now) }
{
    match bytes.split_first_chunk::<N>() {
        Some((front, rest)) => Ok((*front, rest)),
        None => Err(TableFault::Short),
    }
}

#[tactic(auto, unfolding(crate::specs::Reading::octet_at))]
fn octet_of(bytes: &[u8]) -> Result<(u8, &[u8]), TableFault>
    ensures { Gives (λ x. (x.0, x.1.now)) result (octet_at bytes.now) }
{
    match bytes {
        [] => Err(TableFault::Short),
        [octet, rest @ ..] => Ok((*octet, rest)),
    }
}

#[tactic(auto, unfolding(crate::specs::Reading::number_at))]
fn short_of(bytes: &[u8]) -> Result<(u16, &[u8]), TableFault>
    ensures { Gives (λ x. (x.0, x.1.now)) result (number_at w16 bytes.now) }
{
    let (front, rest) = array_of::<2>(bytes)?;
    Ok((u16::from_be_bytes(front), rest))
}

#[tactic(auto, unfolding(crate::specs::Reading::number_at))]
fn long_of(bytes: &[u8]) -> Result<(u32, &[u8]), TableFault>
    ensures { Gives (λ x. (x.0, x.1.now)) result (number_at w32 bytes.now) }
{
    let (front, rest) = array_of::<4>(bytes)?;
    Ok((u32::from_be_bytes(front), rest))
}

#[tactic(auto, unfolding(crate::specs::Reading::number_at))]
fn longlong_of(bytes: &[u8]) -> Result<(u64, &[u8]), TableFault>
    ensures { Gives (λ x. (x.0, x.1.now)) result (number_at w64 bytes.now) }
{
    let (front, rest) = array_of::<8>(bytes)?;
    Ok((u64::from_be_bytes(front), rest))
}

fn signed_octet_of(bytes: &[u8]) -> Result<(i8, &[u8]), TableFault>
    ensures { Gives (λ x. (x.0, x.1.now)) result (signed w8 (octet_at bytes.now)) }
{
    let (number, rest) = octet_of(bytes)?;
    Ok((number.cast_signed(), rest))
}

fn signed_short_of(bytes: &[u8]) -> Result<(i16, &[u8]), TableFault>
    ensures { Gives (λ x. (x.0, x.1.now)) result (signed w16 (number_at w16 bytes.now)) }
{
    let (number, rest) = short_of(bytes)?;
    Ok((number.cast_signed(), rest))
}

fn signed_long_of(bytes: &[u8]) -> Result<(i32, &[u8]), TableFault>
    ensures { Gives (λ x. (x.0, x.1.now)) result (signed w32 (number_at w32 bytes.now)) }
{
    let (number, rest) = long_of(bytes)?;
    Ok((number.cast_signed(), rest))
}

fn signed_longlong_of(bytes: &[u8]) -> Result<(i64, &[u8]), TableFault>
    ensures { Gives (λ x. (x.0, x.1.now)) result (signed w64 (number_at w64 bytes.now)) }
{
    let (number, rest) = longlong_of(bytes)?;
    Ok((number.cast_signed(), rest))
}

#[tactic(auto, unfolding(crate::specs::Reading::boolean_at))]
fn boolean_of(bytes: &[u8]) -> Result<(bool, &[u8]), TableFault>
    ensures { Gives (λ x. (x.0, x.1.now)) result (boolean_at bytes.now) }
{
    match bytes {
        [] => Err(TableFault::Short),
        [0, rest @ ..] => Ok((false, rest)),
        [1, rest @ ..] => Ok((true, rest)),
        [octet, ..] => Err(TableFault::BadBool(*octet)),
    }
}

#[tactic(auto, unfolding(crate::specs::Reading::counted_at))]
fn counted_of(bytes: &[u8]) -> Result<(&[u8], &[u8]), TableFault>
    ensures { Gives (λ x. (x.0.now, x.1.now)) result (counted_at bytes.now) }
{
    let (count, rest) = long_of(bytes)?;
    octets_of(count as usize, rest)
}

fn text_of(name: &[u8]) -> Result<&str, TableFault>
    ensures { Gives (λ x. x.now) result (text_at name.now) }
{
    match std::str::from_utf8(name) {
        Ok(text) => Ok(text),
        Err(_) => Err(TableFault::BadText),
    }
}

#[tactic(auto, unfolding(crate::specs::Reading::name_at))]
fn name_of(alloc: Global, bytes: &[u8]) -> Result<(String, &[u8]), TableFault>
    ensures { Gives (λ x. (string_bytes x.0, x.1.now)) result (name_at bytes.now) }
{
    let (count, rest) = octet_of(bytes)?;
    let (name, rest) = octets_of(count as usize, rest)?;
    let name = text_of(name)?;
    Ok((String::from_str(alloc, name)?, rest))
}

/// What `$read` reads, as a variant of `FieldValue`.
macro_rules! as_value {
    ($variant:path, $read:expr) => {{
        let (value, rest) = $read?;
        Ok(($variant(value), rest))
    }};
}

#[tactic(auto, unfolding(crate::specs::Reading::fixed_at))]
fn fixed_of(kind: Fixed, bytes: &[u8]) -> Result<(FieldValue, &[u8]), TableFault>
    ensures { Gives (λ x. (field_view x.0, x.1.now)) result (fixed_at kind bytes.now) }
{
    match kind {
        Fixed::Boolean => as_value!(FieldValue::Bool, boolean_of(bytes)),
        Fixed::SignedOctet => as_value!(FieldValue::I8, signed_octet_of(bytes)),
        Fixed::Octet => as_value!(FieldValue::U8, octet_of(bytes)),
        Fixed::SignedShort => as_value!(FieldValue::I16, signed_short_of(bytes)),
        Fixed::Short => as_value!(FieldValue::U16, short_of(bytes)),
        Fixed::SignedLong => as_value!(FieldValue::I32, signed_long_of(bytes)),
        Fixed::Long => as_value!(FieldValue::U32, long_of(bytes)),
        Fixed::SignedLongLong => as_value!(FieldValue::I64, signed_longlong_of(bytes)),
        Fixed::Float => as_value!(FieldValue::F32, array_of::<4>(bytes)),
        Fixed::Double => as_value!(FieldValue::F64, array_of::<8>(bytes)),
        Fixed::Decimal => as_value!(FieldValue::Decimal, array_of::<5>(bytes)),
        Fixed::Timestamp => as_value!(FieldValue::Time, longlong_of(bytes)),
        Fixed::Void => Ok((FieldValue::Void, bytes)),
    }
}

#[cycle(read)]
#[tactic(auto, unfolding(crate::specs::Reading::value_at, crate::specs::Reading::content_at))]
fn value_of(alloc: Global, depth: u32, bytes: &[u8]) -> Result<(FieldValue, &[u8]), TableFault>
    ensures { Gives (λ x. (field_view x.0, x.1.now)) result (value_at depth bytes.now) }
{
    let (octet, rest) = octet_of(bytes)?;
    if depth == 0 {
        return Err(TableFault::Deep);
    }
    match Kind::of(octet)? {
        Kind::Fixed(kind) => fixed_of(kind, rest),
        Kind::Counted(kind) => {
            let (content, rest) = counted_of(rest)?;
            Ok((inside_of(alloc, depth - 1, kind, content)?, rest))
        }
    }
}

#[cycle(read)]
#[tactic(auto, unfolding(crate::specs::Reading::inside_at))]
fn inside_of(
    alloc: Global,
    depth: u32,
    kind: Counted,
    bytes: &[u8],
) -> Result<FieldValue, TableFault>
    ensures { Gives field_view result (inside_at (value_at depth) kind bytes.now) }
{
    match kind {
        Counted::LongString => Ok(FieldValue::Text(Vec::from_slice(alloc, bytes)?)),
        Counted::ByteArray => Ok(FieldValue::Bytes(Vec::from_slice(alloc, bytes)?)),
        Counted::Array => Ok(FieldValue::Array(fields_of(alloc, depth, bytes)?)),
        Counted::Table => {
            let pairs = pairs_of(alloc, depth, bytes)?;
            Ok(FieldValue::Table(Table { pairs }))
        }
    }
}

#[cycle(read)]
fn fields_of(alloc: Global, depth: u32, bytes: &[u8]) -> Result<Vec<FieldValue>, TableFault>
    ensures { Gives (λ v. fields_view v.items) result
        (fields_at (value_at depth) (length bytes.now) bytes.now) }
{
    let mut fields = Vec::new(alloc);
    let mut rest = bytes;
    'fields: while !rest.is_empty() {
        let (value, after) = value_of(alloc, depth, rest)?;
        fields.push(value)?;
        rest = after;
    }
    Ok(fields)
}

#[cycle(read)]
fn pairs_of(
    alloc: Global,
    depth: u32,
    bytes: &[u8],
) -> Result<Vec<(String, FieldValue)>, TableFault>
    ensures { Gives (λ v. pairs_view v.items) result
        (pairs_at (value_at depth) (length bytes.now) bytes.now) }
{
    let mut pairs = Vec::new(alloc);
    let mut rest = bytes;
    'pairs: while !rest.is_empty() {
        let (name, after_name) = name_of(alloc, rest)?;
        let (value, after) = value_of(alloc, depth, after_name)?;
        pairs.push((name, value))?;
        rest = after;
    }
    Ok(pairs)
}

#[tactic(auto, unfolding(crate::specs::Reading::table_at))]
fn table_of(alloc: Global, bytes: &[u8]) -> Result<(Table, usize), TableFault>
    ensures { Gives (λ x. (table_view x.0, x.1)) result (table_at bytes.now) }
{
    let (content, rest) = counted_of(bytes)?;
    let pairs = pairs_of(alloc, MAX_DEPTH, content)?;
    Ok((Table { pairs }, 4 + content.len()))
}

/// The table that the octets begin with, and how many octets it takes; others may follow it.
///
/// One pass over the octets; names, texts and byte arrays are copied. AMQP 0-9-1, 4.2.5.5 "Field
/// Tables", with the field types of RabbitMQ's errata.
pub fn read_table(alloc: Global, bytes: &[u8]) -> Result<(Table, usize), TableFault>
    // What is read is spelled so.
    ensures found { IfOk result (λ x. IsTable (table_view x.0) × (x.1 ≤ length bytes.now)
        × (take x.1 bytes.now ≡ table_spelling (table_view x.0))) }

    // What is spelled so is read, whatever follows it, unless memory runs out.
    ensures only { (ps : Pairs) (rest : List ℕ) → IsTable ps
        → bytes.now ≡ table_spelling ps ++ rest
        → GivesTable result ps (length (table_spelling ps)) }

    // Which fault it is: the first from left to right.
    ensures exact { Gives (λ x. (table_view x.0, x.1)) result (table_at bytes.now) }
{
    table_of(alloc, bytes)
}
