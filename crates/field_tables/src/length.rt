//! How many octets field tables have, told without writing them.
//!
//! A walk over the table counts down from the octets that there is room for, so no sum can run over.

ghost use Rattle.std.specs.Prelude.{◌≡◌, ◌+◌, length};
ghost use Rattle.field_tables.specs.Lengths.{room_after, flat_length, inner_length, value_length, fields_length, pairs_length, table_length, is_within as table_is_within};
ghost use Rattle.field_tables.specs.Tables.{IsTable, table_spelling};
ghost use Rattle.field_tables.specs.View.{fields_of, pairs_of, field_view, fields_view, pairs_view, table_view};

use crate::value::{FieldValue, Table};

#[tactic(auto, unfolding(crate::specs::Lengths::room_after))]
fn take(room: usize, count: usize) -> Option<usize>
    ensures { result ≡ room_after room count }
{
    if count <= room {
        Some(room - count)
    } else {
        None
    }
}

fn take_more(room: usize, first: usize, count: usize) -> Option<usize>
    ensures { result ≡ room_after room (first + count) }
{
    match take(room, first) {
        Some(left) => take(left, count),
        None => None,
    }
}

fn after_octets(octets: &[u8], first: usize, room: usize) -> Option<usize>
    ensures { result ≡ room_after room (first + length octets.now) }
{
    take_more(room, first, octets.len())
}

/// What is left after a value, the values in it apart: its type is one octet, a number of octets four.
#[tactic(auto, unfolding(crate::specs::Lengths::flat_length))]
fn after_flat(value: &FieldValue, room: usize) -> Option<usize>
    ensures { result ≡ room_after room (flat_length (field_view value.now)) }
{
    match value {
        FieldValue::Bool(_) | FieldValue::I8(_) | FieldValue::U8(_) => take(room, 2),
        FieldValue::I16(_) | FieldValue::U16(_) => take(room, 3),
        FieldValue::I32(_) | FieldValue::U32(_) => take(room, 5),
        FieldValue::I64(_) | FieldValue::Time(_) => take(room, 9),
        FieldValue::F32(octets) => after_octets(octets, 1, room),
        FieldValue::F64(octets) => after_octets(octets, 1, room),
        FieldValue::Decimal(octets) => after_octets(octets, 1, room),
        FieldValue::Text(octets) | FieldValue::Bytes(octets) => after_octets(octets, 5, room),
        FieldValue::Array(_) | FieldValue::Table(_) => take(room, 5),
        FieldValue::Void => take(room, 1),
    }
}

#[cycle(room)]
fn after_value(value: &FieldValue, room: usize) -> Option<usize>
    ensures { result ≡ room_after room (value_length (field_view value.now)) }
{
    match after_flat(value, room) {
        Some(left) => after_inner(value, left),
        None => None,
    }
}

/// What is left after the values in a value.
#[cycle(room)]
fn after_inner(value: &FieldValue, room: usize) -> Option<usize>
    ensures { result ≡ room_after room (inner_length (field_view value.now)) }
{
    match value {
        FieldValue::Array(values) => after_values(values, room),
        FieldValue::Table(table) => after_pairs(&table.pairs, room),
        FieldValue::Bool(_)
        | FieldValue::I8(_)
        | FieldValue::U8(_)
        | FieldValue::I16(_)
        | FieldValue::U16(_)
        | FieldValue::I32(_)
        | FieldValue::U32(_)
        | FieldValue::I64(_)
        | FieldValue::F32(_)
        | FieldValue::F64(_)
        | FieldValue::Decimal(_)
        | FieldValue::Text(_)
        | FieldValue::Time(_)
        | FieldValue::Void
        | FieldValue::Bytes(_) => take(room, 0),
    }
}

#[cycle(room)]
fn after_values(values: &Vec<FieldValue>, room: usize) -> Option<usize>
    ensures { result
        ≡ room_after room (fields_length (fields_of (fields_view values.now.items))) }
{
    let mut left = room;
    for value in values {
        left = after_value(value, left)?;
    }
    Some(left)
}

#[cycle(room)]
fn after_pair(name: &str, value: &FieldValue, room: usize) -> Option<usize>
    ensures { result ≡ room_after room (1 + length name.now + value_length (field_view value.now)) }
{
    match take_more(room, 1, name.len()) {
        Some(left) => after_value(value, left),
        None => None,
    }
}

#[cycle(room)]
fn after_pairs(pairs: &Vec<(String, FieldValue)>, room: usize) -> Option<usize>
    ensures { result
        ≡ room_after room (pairs_length (pairs_of (pairs_view pairs.now.items))) }
{
    let mut left = room;
    for (name, value) in pairs {
        left = after_pair(name, value, left)?;
    }
    Some(left)
}

/// What is left after a table, the four octets of its count among it.
fn after_table(table: &Table, room: usize) -> Option<usize>
    ensures { result ≡ room_after room (table_length (table_view table.now)) }
{
    match take(room, 4) {
        Some(left) => after_pairs(&table.pairs, left),
        None => None,
    }
}

/// Whether the spelling of a table, the four octets of its count among it, has at most so many
/// octets. It takes no memory, and looks no further once they are passed.
///
/// AMQP 0-9-1, 4.2.5.5 "Field Tables".
pub fn is_within(table: &Table, most: usize) -> bool
    ensures { result ≡ table_is_within (table_view table.now) most }
{
    after_table(table, most).is_some()
}

/// How many octets `write_table` appends for a table that has a spelling, the four of its count
/// among them. It takes no memory.
///
/// AMQP 0-9-1, 4.2.5.5 "Field Tables".
pub fn table_len(table: &Table) -> usize
    requires { IsTable (table_view table.now) }
    ensures { result ≡ length (table_spelling (table_view table.now)) }
{
    match after_table(table, usize::MAX) {
        Some(left) => usize::MAX - left,
        None => unreachable!(),
    }
}
