//! How many octets a content header has, told without writing it.

ghost use Rattle.std.specs.Prelude.{◌≡◌, ℕ, ◌+◌, ◌≤◌, ◌^◌, length, option_map, IfSome};
ghost use Rattle.field_tables.specs.Tables.{IsTable};
ghost use Rattle.amqp_props.specs.ContentHeader.{short_string, field_table, octet, longlong, optional_spelling, header_spelling, IsShort, AreShort};

use crate::properties::Properties;
use crate::row::with_properties;
use crate::text::FieldTable;
use field_tables::{Text, table_len};

/// A text and the octet of its length, if there is one.
fn text_len(text: &Option<Text>) -> usize
    requires { IsShort text.now }
    ensures exact { result ≡ length (optional_spelling (option_map short_string text.now)) }
    ensures most { result ≤ 256 }
{
    match text {
        Some(text) => 1 + text.as_str().len(),
        None => 0,
    }
}

fn headers_len(table: &Option<FieldTable>) -> usize
    requires { IfSome table.now IsTable }
    ensures exact { result ≡ length (optional_spelling (option_map field_table table.now)) }
    ensures most { result ≤ 4 + 2 ^ 32 }
{
    match table {
        Some(table) => table_len(table.as_table()),
        None => 0,
    }
}

fn octet_len(number: &Option<u8>) -> usize
    ensures exact { result ≡ length (optional_spelling (option_map octet number.now)) }
    ensures most { result ≤ 1 }
{
    if number.is_some() { 1 } else { 0 }
}

fn long_len(number: &Option<u64>) -> usize
    ensures exact { result ≡ length (optional_spelling (option_map longlong number.now)) }
    ensures most { result ≤ 8 }
{
    if number.is_some() { 8 } else { 0 }
}

/// What tells the octets of a property of a kind.
macro_rules! kind_len {
    (ShortString $value:expr) => {
        text_len($value)
    };
    (Table $value:expr) => {
        headers_len($value)
    };
    (Octet $value:expr) => {
        octet_len($value)
    };
    (LongLong $value:expr) => {
        long_len($value)
    };
}

/// The 14 octets of class, weight, body size and flags, and those of each property.
macro_rules! sum_of_lens {
    ([$props:ident] $($field:ident $place:literal $bit:literal $kind:ident $name:literal,)*) => {
        14 $(+ kind_len!($kind &$props.$field))*
    };
}

/// How many octets `write_header` appends for these properties, whatever the size of the body.
/// It takes no memory.
///
/// AMQP 0-9-1, 4.2.6.1 "The Content Header".
#[tactic(auto, unfolding(crate::specs::ContentHeader::values_of, crate::specs::ContentHeader::payload_of))]
pub fn header_len(props: &Properties) -> usize
    requires { AreShort props.now }
    ensures exact { (size : ℕ) → result ≡ length (header_spelling size props.now) }
    ensures most { result ≤ 2 ^ 33 }
{
    with_properties!(sum_of_lens props)
}
