//! Content headers from octets.

ghost use Rattle.std.specs.Prelude.{◌≡◌, ◌+◌, ◌<◌, ◌≤◌, ◌^◌, ℕ, length, not, ◌==◌, if◌then◌else◌, option_map, IfOk, Ok};
ghost use Rattle.std.specs.Str.{is_utf8};
ghost use Rattle.std.specs.Int.{w16, w64, bit_at};
ghost use Rattle.amqp_props.specs.declared.properties.Properties.{Properties};
ghost use Rattle.amqp_props.specs.declared.row.PropertyKind.TheVariants as kinds;
ghost use Rattle.amqp_props.specs.ContentHeader.{property_rows, short_string, field_table, octet, longlong, values_of, header_spelling, IsHeader, AreShort};
ghost use Rattle.amqp_props.specs.HeaderReading.{Gives, found_at, text_at, property_at, properties_at, number_at, fixed_at, ended_at, header_at};

use crate::fault::PropsFault;
use crate::properties::Properties;
use crate::row::with_properties;
use crate::text::FieldTable;
use field_tables::{TableFault, Text, read_table};
use std::alloc::Global;

/// The number of two octets behind so many.
fn short_at(octets: &[u8], at: usize) -> u16
    requires { at + 2 ≤ length octets.now }
    ensures { result ≡ number_at w16 at octets.now }
{
    match octets[at..].first_chunk::<2>() {
        Some(front) => u16::from_be_bytes(*front),
        None => 0,
    }
}

/// The number of eight octets behind so many.
fn longlong_at(octets: &[u8], at: usize) -> u64
    requires { at + 8 ≤ length octets.now }
    ensures { result ≡ number_at w64 at octets.now }
{
    match octets[at..].first_chunk::<8>() {
        Some(front) => u64::from_be_bytes(*front),
        None => 0,
    }
}

/// The size of the body, the flags, and the octets behind them.
#[tactic(auto, unfolding(crate::specs::HeaderReading::fixed_at))]
fn fixed_of(octets: &[u8]) -> Result<(u64, u16, &[u8]), PropsFault>
    ensures { Gives (λ x. (x.0, x.1, x.2.now)) result (fixed_at octets.now) }
{
    if octets.len() < 14 {
        return Err(PropsFault::Short);
    }
    let class = short_at(octets, 0);
    if class != 60 {
        return Err(PropsFault::Class(class));
    }
    let weight = short_at(octets, 2);
    if weight != 0 {
        return Err(PropsFault::Weight(weight));
    }
    let flags = short_at(octets, 12);
    if flags % 4 != 0 {
        return Err(PropsFault::Flags(flags));
    }
    Ok((longlong_at(octets, 4), flags, &octets[14..]))
}

/// Whether the flag of that bit is set.
fn is_set(flags: u16, bit: u32) -> bool
    requires { bit < 16 }
    ensures { result ≡ not (bit_at flags bit == 0) }
{
    (flags >> bit) % 2 != 0
}

/// The octets as a text, if they are one.
fn utf8_of(octets: &[u8]) -> Option<&str>
    ensures { option_map (λ text. text.now) result
        ≡ (if is_utf8 octets.now then Some octets.now else None) }
{
    match std::str::from_utf8(octets) {
        Ok(text) => Some(text),
        Err(_) => None,
    }
}

/// A text, where the octets begin with its spelling.
#[tactic(auto, unfolding(crate::specs::HeaderReading::text_at))]
fn text_of(alloc: Global, place: usize, octets: &[u8]) -> Result<(Text, &[u8]), PropsFault>
    ensures { Gives (λ x. (Some (short_string x.0), x.1.now)) result
        (found_at place short_string (text_at octets.now)) }
{
    let [count, octets @ ..] = octets else {
        return Err(PropsFault::Field(place));
    };
    let count = *count as usize;
    if octets.len() < count {
        return Err(PropsFault::Field(place));
    }
    let (text, octets) = octets.split_at(count);
    match utf8_of(text) {
        Some(text) => Ok((Text::from_str(alloc, text)?, octets)),
        None => Err(PropsFault::Field(place)),
    }
}

#[tactic(auto, unfolding(crate::specs::HeaderReading::property_at, crate::specs::HeaderReading::value_at))]
fn read_text_at(
    alloc: Global,
    flags: u16,
    bit: u32,
    place: usize,
    octets: &[u8],
) -> Result<(Option<Text>, &[u8]), PropsFault>
    requires { bit < 16 }
    ensures { Gives (λ x. (option_map short_string x.0, x.1.now)) result
        (property_at flags place bit kinds.ShortString octets.now) }
{
    if !is_set(flags, bit) {
        return Ok((None, octets));
    }
    let (text, octets) = text_of(alloc, place, octets)?;
    Ok((Some(text), octets))
}

#[tactic(auto, unfolding(crate::specs::HeaderReading::property_at, crate::specs::HeaderReading::value_at))]
fn read_table_at(
    alloc: Global,
    flags: u16,
    bit: u32,
    place: usize,
    octets: &[u8],
) -> Result<(Option<FieldTable>, &[u8]), PropsFault>
    requires { bit < 16 }
    ensures { Gives (λ x. (option_map field_table x.0, x.1.now)) result
        (property_at flags place bit kinds.Table octets.now) }
{
    if !is_set(flags, bit) {
        return Ok((None, octets));
    }
    match read_table(alloc, octets) {
        Ok((table, count)) => Ok((Some(FieldTable::new(alloc, table)?), &octets[count..])),
        Err(TableFault::Memory) => Err(PropsFault::Memory),
        Err(_) => Err(PropsFault::Field(place)),
    }
}

#[tactic(auto, unfolding(crate::specs::HeaderReading::property_at, crate::specs::HeaderReading::value_at, crate::specs::HeaderReading::octet_at))]
fn read_octet_at(
    flags: u16,
    bit: u32,
    place: usize,
    octets: &[u8],
) -> Result<(Option<u8>, &[u8]), PropsFault>
    requires { bit < 16 }
    ensures { Gives (λ x. (option_map octet x.0, x.1.now)) result
        (property_at flags place bit kinds.Octet octets.now) }
{
    if !is_set(flags, bit) {
        return Ok((None, octets));
    }
    match octets {
        [] => Err(PropsFault::Field(place)),
        [number, rest @ ..] => Ok((Some(*number), rest)),
    }
}

#[tactic(auto, unfolding(crate::specs::HeaderReading::property_at, crate::specs::HeaderReading::value_at, crate::specs::HeaderReading::longlong_at))]
fn read_long_at(
    flags: u16,
    bit: u32,
    place: usize,
    octets: &[u8],
) -> Result<(Option<u64>, &[u8]), PropsFault>
    requires { bit < 16 }
    ensures { Gives (λ x. (option_map longlong x.0, x.1.now)) result
        (property_at flags place bit kinds.LongLong octets.now) }
{
    if !is_set(flags, bit) {
        return Ok((None, octets));
    }
    match octets.split_first_chunk::<8>() {
        Some((front, rest)) => Ok((Some(u64::from_be_bytes(*front)), rest)),
        None => Err(PropsFault::Field(place)),
    }
}

/// What reads a property of a kind.
macro_rules! read_kind {
    (ShortString $alloc:ident $flags:ident $bit:literal $place:literal $octets:ident) => {
        read_text_at($alloc, $flags, $bit, $place, $octets)
    };
    (Table $alloc:ident $flags:ident $bit:literal $place:literal $octets:ident) => {
        read_table_at($alloc, $flags, $bit, $place, $octets)
    };
    (Octet $alloc:ident $flags:ident $bit:literal $place:literal $octets:ident) => {
        read_octet_at($flags, $bit, $place, $octets)
    };
    (LongLong $alloc:ident $flags:ident $bit:literal $place:literal $octets:ident) => {
        read_long_at($flags, $bit, $place, $octets)
    };
}

/// Reads each property after the other.
macro_rules! read_each {
    ([$alloc:ident $flags:ident $octets:ident] $($field:ident $place:literal $bit:literal $kind:ident $name:literal,)*) => {{
        $(let ($field, $octets) = read_kind!($kind $alloc $flags $bit $place $octets)?;)*
        Ok((Properties { $($field),* }, $octets))
    }};
}

/// The properties whose flags are set, and the octets behind them.
#[tactic(auto, unfolding(crate::specs::HeaderReading::properties_at, crate::specs::ContentHeader::values_of))]
fn properties_of(
    alloc: Global,
    flags: u16,
    octets: &[u8],
) -> Result<(Properties, &[u8]), PropsFault>
    ensures { Gives (λ x. (values_of x.0, x.1.now)) result
        (properties_at flags 0 property_rows octets.now) }
{
    with_properties!(read_each alloc flags octets)
}

/// Nothing, where nothing is left over.
fn ended_of(octets: &[u8]) -> Result<(), PropsFault>
    ensures { Gives (λ x. x) result (ended_at octets.now) }
{
    match octets {
        [] => Ok(()),
        [_, ..] => Err(PropsFault::Trailing(octets.len())),
    }
}

/// The size of the body, and the properties, of a content header that is all of the octets.
#[tactic(auto, unfolding(crate::specs::HeaderReading::header_at))]
fn header_of(alloc: Global, octets: &[u8]) -> Result<(u64, Properties), PropsFault>
    ensures { Gives (λ x. (x.0, values_of x.1)) result (header_at octets.now) }
{
    let (size, flags, octets) = fixed_of(octets)?;
    let (props, octets) = properties_of(alloc, flags, octets)?;
    ended_of(octets)?;
    Ok((size, props))
}

/// The size of the body, and the properties, of a content header that is all of the payload.
///
/// One pass over the octets; texts and the names, texts and byte arrays of the headers are copied. AMQP 0-9-1, 4.2.6.1
/// "The Content Header".
pub fn read_header(alloc: Global, payload: &[u8]) -> Result<(u64, Properties), PropsFault>
    // What is read is spelled so.
    ensures found { IfOk result (λ x. IsHeader x.0 x.1 × (payload.now ≡ header_spelling x.0 x.1)) }

    // What is read can be written again.
    ensures short { IfOk result (λ x. AreShort x.1) }

    // What is spelled so is read, unless memory runs out.
    ensures only { (size : ℕ) (props : Properties) → IsHeader size props
        → payload.now ≡ header_spelling size props → Gives (λ x. x) result (Ok (size, props)) }

    // Which fault it is: the first from left to right.
    ensures exact { Gives (λ x. (x.0, values_of x.1)) result (header_at payload.now) }
{
    header_of(alloc, payload)
}
