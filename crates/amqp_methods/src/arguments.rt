//! The arguments of methods from octets, a function for each kind.

ghost use Rattle.std.specs.Prelude.{◌≡◌, ◌<◌, List, ℕ, [], true, false, string_bytes};
ghost use Rattle.std.specs.Int.{w16, w32, w64};
ghost use Rattle.field_tables.specs.Reading.{octets_at, octet_at, number_at, counted_at, text_at, name_at, table_at};
ghost use Rattle.field_tables.specs.View.{table_view};
ghost use Rattle.amqp_methods.specs.Arguments.{has_bit};
ghost use Rattle.amqp_methods.specs.Reading.{Gives, in_place, otherwise, rest_after, end_at};

use crate::fault::MethodFault;
use field_tables::{Table, TableFault, read_table};
use std::alloc::Global;

/// An octet, and the octets after it.
#[tactic(auto, unfolding(field_tables::specs::Reading::octet_at))]
pub fn octet_of(bytes: &[u8], place: usize) -> Result<(u8, &[u8]), MethodFault>
    ensures { Gives false (λ x. (x.0, x.1.now)) result (in_place place (octet_at bytes.now)) }
{
    match bytes {
        [] => Err(MethodFault::Field(place)),
        [octet, rest @ ..] => Ok((*octet, rest)),
    }
}

/// A short, and the octets after it.
#[tactic(auto, unfolding(field_tables::specs::Reading::octets_at, field_tables::specs::Reading::number_at))]
pub fn short_of(bytes: &[u8], place: usize) -> Result<(u16, &[u8]), MethodFault>
    ensures { Gives false (λ x. (x.0, x.1.now)) result (in_place place (number_at w16 bytes.now)) }
{
    match bytes.split_first_chunk::<2>() {
        Some((front, rest)) => Ok((u16::from_be_bytes(*front), rest)),
        None => Err(MethodFault::Field(place)),
    }
}

/// A long, and the octets after it.
#[tactic(auto, unfolding(field_tables::specs::Reading::octets_at, field_tables::specs::Reading::number_at))]
pub fn long_of(bytes: &[u8], place: usize) -> Result<(u32, &[u8]), MethodFault>
    ensures { Gives false (λ x. (x.0, x.1.now)) result (in_place place (number_at w32 bytes.now)) }
{
    match bytes.split_first_chunk::<4>() {
        Some((front, rest)) => Ok((u32::from_be_bytes(*front), rest)),
        None => Err(MethodFault::Field(place)),
    }
}

/// A long-long, and the octets after it.
#[tactic(auto, unfolding(field_tables::specs::Reading::octets_at, field_tables::specs::Reading::number_at))]
pub fn longlong_of(bytes: &[u8], place: usize) -> Result<(u64, &[u8]), MethodFault>
    ensures { Gives false (λ x. (x.0, x.1.now)) result (in_place place (number_at w64 bytes.now)) }
{
    match bytes.split_first_chunk::<8>() {
        Some((front, rest)) => Ok((u64::from_be_bytes(*front), rest)),
        None => Err(MethodFault::Field(place)),
    }
}

/// So many octets, and those after them.
#[tactic(auto, unfolding(field_tables::specs::Reading::octets_at))]
fn octets_of(count: usize, bytes: &[u8], place: usize) -> Result<(&[u8], &[u8]), MethodFault>
    ensures { Gives false (λ x. (x.0.now, x.1.now)) result (in_place place (octets_at count bytes.now)) }
{
    if bytes.len() < count {
        return Err(MethodFault::Field(place));
    }
    Ok(bytes.split_at(count))
}

/// A long string, and the octets after it.
#[tactic(auto, unfolding(field_tables::specs::Reading::counted_at))]
pub fn long_string_of(bytes: &[u8], place: usize) -> Result<(&[u8], &[u8]), MethodFault>
    ensures { Gives false (λ x. (x.0.now, x.1.now)) result (in_place place (counted_at bytes.now)) }
{
    let (count, rest) = long_of(bytes, place)?;
    octets_of(count as usize, rest, place)
}

fn text_of(name: &[u8], place: usize) -> Result<&str, MethodFault>
    ensures { Gives false (λ x. x.now) result (in_place place (text_at name.now)) }
{
    match std::str::from_utf8(name) {
        Ok(text) => Ok(text),
        Err(_) => Err(MethodFault::Field(place)),
    }
}

/// A short string, and the octets after it.
#[tactic(auto, unfolding(field_tables::specs::Reading::name_at))]
pub fn short_string_of(bytes: &[u8], place: usize) -> Result<(&str, &[u8]), MethodFault>
    ensures { Gives false (λ x. (x.0.now, x.1.now)) result (in_place place (name_at bytes.now)) }
{
    let (count, rest) = octet_of(bytes, place)?;
    let (name, rest) = octets_of(count as usize, rest, place)?;
    Ok((text_of(name, place)?, rest))
}

/// A short string of its own, and the octets after it.
pub fn string_of(alloc: Global, bytes: &[u8], place: usize) -> Result<(String, &[u8]), MethodFault>
    ensures { Gives true (λ x. (string_bytes x.0, x.1.now)) result (in_place place (name_at bytes.now)) }
{
    let (text, rest) = short_string_of(bytes, place)?;
    Ok((String::from_str(alloc, text)?, rest))
}

/// A long string of its own, and the octets after it.
pub fn vec_of(alloc: Global, bytes: &[u8], place: usize) -> Result<(Vec<u8>, &[u8]), MethodFault>
    ensures { Gives true (λ x. (x.0.items, x.1.now)) result (in_place place (counted_at bytes.now)) }
{
    let (octets, rest) = long_string_of(bytes, place)?;
    Ok((Vec::from_slice(alloc, octets)?, rest))
}

/// A table, and the octets after it.
pub fn table_of(alloc: Global, bytes: &[u8], place: usize) -> Result<(Table, &[u8]), MethodFault>
    ensures { Gives true (λ x. (table_view x.0, x.1.now)) result
        (rest_after bytes.now (in_place place (table_at bytes.now))) }
{
    match read_table(alloc, bytes) {
        Ok((table, len)) => Ok((table, &bytes[len..])),
        Err(TableFault::Memory) => Err(MethodFault::Memory),
        Err(_) => Err(MethodFault::Field(place)),
    }
}

/// A bit of an octet; the lowest one is number 0.
#[tactic(auto, unfolding(crate::specs::Arguments::has_bit))]
pub fn bit_of(shared: u8, number: u32) -> bool
    requires { number < 8 }
    ensures { result ≡ has_bit number shared }
{
    (shared >> number) % 2 == 1
}

/// Whether nothing is left.
#[tactic(auto, unfolding(crate::specs::Reading::end_at))]
pub fn end_of(bytes: &[u8]) -> Result<(), MethodFault>
    ensures { Gives false (λ _. []) result (end_at bytes.now) }
{
    if bytes.is_empty() {
        Ok(())
    } else {
        Err(MethodFault::Trailing(bytes.len()))
    }
}
