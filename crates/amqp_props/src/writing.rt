//! Content headers as octets.

ghost use Rattle.std.specs.Prelude.{◌≡◌, ◌++◌, ◌≤◌, if◌then◌else◌, option_map, IfSome, length, take, OnOk, OnErr};
ghost use Rattle.field_tables.specs.Tables.{IsTable};
ghost use Rattle.amqp_props.specs.ContentHeader.{property_rows, short_string, field_table, octet, longlong, HasSpelling, HaveSpelling, optional_spelling, values_of, flags_of, values_spelling, header_spelling, IsHeader, IsShort, AreShort};

use crate::properties::Properties;
use crate::row::with_properties;
use crate::text::FieldTable;
use field_tables::{Text, write_table};
use std::alloc::AllocError;

/// The flag of a property, if it is present.
fn flag(is_present: bool, mask: u16) -> u16
    ensures exact { result ≡ (if is_present then mask else 0) }
    ensures most { result ≤ mask }
{
    if is_present { mask } else { 0 }
}

/// The sum of the flags of the properties that are present.
macro_rules! sum_of_flags {
    ([$props:ident] $($field:ident $place:literal $bit:literal $kind:ident $name:literal,)*) => {
        0 $(+ flag($props.$field.is_some(), 1 << $bit))*
    };
}

/// The flags of the properties that are present.
#[tactic(auto, unfolding(crate::specs::ContentHeader::values_of))]
fn flags_of(props: &Properties) -> u16
    ensures { result ≡ flags_of property_rows (values_of props.now) }
{
    with_properties!(sum_of_flags props)
}

#[tactic(auto, using(field_tables::proofs::Kept::kept))]
fn put_text(text: &Option<Text>, out: &mut Vec<u8>) -> Result<(), AllocError>
    requires { IsShort text.now }
    ensures ok { OnOk result (IfSome (option_map short_string text.now) HasSpelling
        × (out.new.items ≡ out.old.items ++ optional_spelling (option_map short_string text.now))) }
    ensures kept { take (length out.old.items) out.new.items ≡ out.old.items }
{
    if let Some(text) = text {
        let text = text.as_str();
        out.push(text.len() as u8)?;
        out.extend_from_slice(text.as_bytes())?;
    }
    Ok(())
}

#[tactic(auto, using(field_tables::proofs::Kept::kept))]
fn put_table(table: &Option<FieldTable>, out: &mut Vec<u8>) -> Result<(), AllocError>
    requires { IfSome table.now IsTable }
    ensures ok { OnOk result (IfSome (option_map field_table table.now) HasSpelling
        × (out.new.items ≡ out.old.items ++ optional_spelling (option_map field_table table.now))) }
    ensures kept { take (length out.old.items) out.new.items ≡ out.old.items }
{
    match table {
        Some(table) => write_table(table.as_table(), out),
        None => Ok(()),
    }
}

#[tactic(auto, using(field_tables::proofs::Kept::kept))]
fn put_octet(number: &Option<u8>, out: &mut Vec<u8>) -> Result<(), AllocError>
    ensures ok { OnOk result (IfSome (option_map octet number.now) HasSpelling
        × (out.new.items ≡ out.old.items ++ optional_spelling (option_map octet number.now))) }
    ensures kept { take (length out.old.items) out.new.items ≡ out.old.items }
{
    if let Some(number) = *number {
        out.push(number)?;
    }
    Ok(())
}

#[tactic(auto, using(field_tables::proofs::Kept::kept))]
fn put_long(number: &Option<u64>, out: &mut Vec<u8>) -> Result<(), AllocError>
    ensures ok { OnOk result (IfSome (option_map longlong number.now) HasSpelling
        × (out.new.items ≡ out.old.items ++ optional_spelling (option_map longlong number.now))) }
    ensures kept { take (length out.old.items) out.new.items ≡ out.old.items }
{
    match *number {
        Some(number) => out.extend_from_slice(&number.to_be_bytes()),
        None => Ok(()),
    }
}

#[tactic(auto, using(field_tables::proofs::Kept::kept))]
fn put_octets(octets: &[u8], out: &mut Vec<u8>) -> Result<(), AllocError>
    ensures ok { OnOk result (out.new.items ≡ out.old.items ++ octets.now) }
    ensures kept { take (length out.old.items) out.new.items ≡ out.old.items }
{
    out.extend_from_slice(octets)
}

/// What writes a property of a kind.
macro_rules! put_kind {
    (ShortString $value:expr, $out:expr) => {
        put_text($value, $out)
    };
    (Table $value:expr, $out:expr) => {
        put_table($value, $out)
    };
    (Octet $value:expr, $out:expr) => {
        put_octet($value, $out)
    };
    (LongLong $value:expr, $out:expr) => {
        put_long($value, $out)
    };
}

/// Writes each property after the other.
macro_rules! put_each {
    ([$props:ident $out:ident] $($field:ident $place:literal $bit:literal $kind:ident $name:literal,)*) => {{
        $(put_kind!($kind &$props.$field, $out)?;)*
        Ok(())
    }};
}

#[tactic(auto, unfolding(crate::specs::ContentHeader::values_of))]
fn put_properties(props: &Properties, out: &mut Vec<u8>) -> Result<(), AllocError>
    requires { AreShort props.now }
    ensures ok { OnOk result (HaveSpelling (values_of props.now)
        × (out.new.items ≡ out.old.items ++ values_spelling (values_of props.now))) }
    ensures kept { take (length out.old.items) out.new.items ≡ out.old.items }
{
    with_properties!(put_each props out)
}

#[tactic(auto, unfolding(crate::specs::ContentHeader::payload_of))]
fn put_header(size: u64, props: &Properties, out: &mut Vec<u8>) -> Result<(), AllocError>
    requires { AreShort props.now }
    ensures ok { OnOk result (IsHeader size props.now
        × (out.new.items ≡ out.old.items ++ header_spelling size props.now)) }
    ensures kept { take (length out.old.items) out.new.items ≡ out.old.items }
{
    put_octets(&60u16.to_be_bytes(), out)?;
    put_octets(&0u16.to_be_bytes(), out)?;
    put_octets(&size.to_be_bytes(), out)?;
    put_octets(&flags_of(props).to_be_bytes(), out)?;
    put_properties(props, out)?;
    Ok(())
}

/// Appends the one spelling of the content header of a body of `size` octets with these properties; after an error
/// `out` is as it was. `read_header` reads it back whole.
///
/// One pass, straight into `out`, which is cut back where memory runs out. AMQP 0-9-1, 4.2.6.1 "The Content Header".
pub fn write_header(size: u64, props: &Properties, out: &mut Vec<u8>) -> Result<(), AllocError>
    requires { AreShort props.now }
    ensures ok { OnOk result (IsHeader size props.now
        × (out.new.items ≡ out.old.items ++ header_spelling size props.now)) }
    ensures err { OnErr result (out.new.items ≡ out.old.items) }
{
    let start = out.len();
    let written = put_header(size, props, out);
    if written.is_err() {
        out.truncate(start);
    }
    written
}
