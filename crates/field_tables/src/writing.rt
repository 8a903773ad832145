//! Field tables as octets.

ghost use Rattle.std.specs.Prelude.{◌≡◌, ◌+◌, ◌-◌, ◌≤◌, ◌<◌, ◌^◌, ◌++◌, ◌∷◌, [], length, take, drop, OnOk, OnErr};
ghost use Rattle.field_tables.specs.Writing.{Appends};
ghost use Rattle.std.specs.Int.{w32, to_be_bytes};
ghost use Rattle.field_tables.specs.Tables.{IsTable, IsCounted, IsName, HasSpelling, HaveSpelling, ArePairs, kind_of as kind_of_field, content_spelling, value_spelling, fields_spelling, pairs_spelling, name_spelling, counted_spelling, table_spelling};
ghost use Rattle.field_tables.specs.View.{fields_of, pairs_of, field_view, fields_view, pairs_view, table_view};

use crate::kind::{Counted, Fixed, Kind};
use crate::value::{FieldValue, Table};
use std::alloc::AllocError;

fn kind_of(value: &FieldValue) -> Kind
    ensures { result ≡ kind_of_field (field_view value.now) }
{
    match value {
        FieldValue::Bool(_) => Kind::Fixed(Fixed::Boolean),
        FieldValue::I8(_) => Kind::Fixed(Fixed::SignedOctet),
        FieldValue::U8(_) => Kind::Fixed(Fixed::Octet),
        FieldValue::I16(_) => Kind::Fixed(Fixed::SignedShort),
        FieldValue::U16(_) => Kind::Fixed(Fixed::Short),
        FieldValue::I32(_) => Kind::Fixed(Fixed::SignedLong),
        FieldValue::U32(_) => Kind::Fixed(Fixed::Long),
        FieldValue::I64(_) => Kind::Fixed(Fixed::SignedLongLong),
        FieldValue::F32(_) => Kind::Fixed(Fixed::Float),
        FieldValue::F64(_) => Kind::Fixed(Fixed::Double),
        FieldValue::Decimal(_) => Kind::Fixed(Fixed::Decimal),
        FieldValue::Text(_) => Kind::Counted(Counted::LongString),
        FieldValue::Array(_) => Kind::Counted(Counted::Array),
        FieldValue::Time(_) => Kind::Fixed(Fixed::Timestamp),
        FieldValue::Table(_) => Kind::Counted(Counted::Table),
        FieldValue::Void => Kind::Fixed(Fixed::Void),
        FieldValue::Bytes(_) => Kind::Counted(Counted::ByteArray),
    }
}

#[tactic(auto, using(crate::proofs::Kept::kept))]
fn put_octet(octet: u8, out: &mut Vec<u8>) -> Result<(), AllocError>
    ensures { Appends result out.old.items out.new.items (octet ∷ []) }
{
    out.push(octet)?;
    Ok(())
}

#[tactic(auto, using(crate::proofs::Kept::kept))]
fn put_octets(octets: &[u8], out: &mut Vec<u8>) -> Result<(), AllocError>
    ensures { Appends result out.old.items out.new.items (octets.now) }
{
    out.extend_from_slice(octets)
}

#[tactic(auto, using(crate::proofs::Kept::kept))]
fn put_counted(octets: &[u8], out: &mut Vec<u8>) -> Result<(), AllocError>
    requires { IsCounted octets.now }
    ensures { Appends result out.old.items out.new.items (counted_spelling octets.now) }
{
    out.extend_from_slice(&(octets.len() as u32).to_be_bytes())?;
    out.extend_from_slice(octets)
}

#[tactic(auto, using(crate::proofs::Kept::kept))]
fn put_name(name: &str, out: &mut Vec<u8>) -> Result<(), AllocError>
    requires { length name.now < 256 }
    ensures { Appends result out.old.items out.new.items (name_spelling name.now) }
{
    out.push(name.len() as u8)?;
    out.extend_from_slice(name.as_bytes())
}

/// Writes the number of the octets from `start + 4` on into the four at `start`.
fn set_count(start: usize, out: &mut Vec<u8>)
    requires there { start + 4 ≤ length out.old.items }
    requires counted { length (drop (start + 4) out.old.items) < 2 ^ 32 }
    ensures { out.new.items ≡ take start out.old.items
        ++ counted_spelling (drop (start + 4) out.old.items) }
{
    let count = (out.len() - start - 4) as u32;
    let octets = count.to_be_bytes();
    out[start] = octets[0];
    out[start + 1] = octets[1];
    out[start + 2] = octets[2];
    out[start + 3] = octets[3];
}

#[cycle(write)]
#[tactic(auto, using(crate::proofs::Kept::kept))]
fn put_value(value: &FieldValue, out: &mut Vec<u8>) -> Result<(), AllocError>
    requires { HasSpelling (field_view value.now) }
    ensures { Appends result out.old.items out.new.items (value_spelling (field_view value.now)) }
{
    put_octet(kind_of(value).octet(), out)?;
    put_content(value, out)?;
    Ok(())
}

#[cycle(write)]
#[tactic(auto, using(crate::proofs::Kept::kept))]
fn put_content(value: &FieldValue, out: &mut Vec<u8>) -> Result<(), AllocError>
    requires { HasSpelling (field_view value.now) }
    ensures { Appends result out.old.items out.new.items (content_spelling (field_view value.now)) }
{
    match value {
        FieldValue::Bool(b) => put_octet(u8::from(*b), out),
        FieldValue::I8(n) => put_octet(n.cast_unsigned(), out),
        FieldValue::U8(n) => put_octet(*n, out),
        FieldValue::I16(n) => put_octets(&n.to_be_bytes(), out),
        FieldValue::U16(n) => put_octets(&n.to_be_bytes(), out),
        FieldValue::I32(n) => put_octets(&n.to_be_bytes(), out),
        FieldValue::U32(n) => put_octets(&n.to_be_bytes(), out),
        FieldValue::I64(n) => put_octets(&n.to_be_bytes(), out),
        FieldValue::F32(octets) => put_octets(octets, out),
        FieldValue::F64(octets) => put_octets(octets, out),
        FieldValue::Decimal(octets) => put_octets(octets, out),
        FieldValue::Text(octets) => put_counted(octets, out),
        FieldValue::Array(values) => put_fields(values, out),
        FieldValue::Time(n) => put_octets(&n.to_be_bytes(), out),
        FieldValue::Table(table) => put_pairs(&table.pairs, out),
        FieldValue::Void => Ok(()),
        FieldValue::Bytes(octets) => put_counted(octets, out),
    }
}

#[cycle(write)]
#[tactic(auto, using(crate::proofs::Kept::kept))]
fn put_fields(values: &Vec<FieldValue>, out: &mut Vec<u8>) -> Result<(), AllocError>
    requires values { HaveSpelling (fields_of (fields_view values.now.items)) }
    requires counted { IsCounted (fields_spelling (fields_of (fields_view values.now.items))) }
    ensures { Appends result out.old.items out.new.items (counted_spelling (fields_spelling (fields_of (fields_view values.now.items)))) }
{
    let start = out.len();
    out.extend_from_slice(&[0; 4])?;
    for value in values {
        put_value(value, out)?;
    }
    set_count(start, out);
    Ok(())
}

#[cycle(write)]
#[tactic(auto, using(crate::proofs::Kept::kept))]
fn put_pairs(pairs: &Vec<(String, FieldValue)>, out: &mut Vec<u8>) -> Result<(), AllocError>
    requires pairs { ArePairs (pairs_of (pairs_view pairs.now.items)) }
    requires counted { IsCounted (pairs_spelling (pairs_of (pairs_view pairs.now.items))) }
    ensures { Appends result out.old.items out.new.items (table_spelling (pairs_of (pairs_view pairs.now.items))) }
{
    let start = out.len();
    out.extend_from_slice(&[0; 4])?;
    for (name, value) in pairs {
        put_name(name, out)?;
        put_value(value, out)?;
    }
    set_count(start, out);
    Ok(())
}

/// Appends the one spelling of a table that has one; after an error `out` is as it was.
///
/// One pass, straight into `out`, which is cut back where memory runs out. AMQP 0-9-1, 4.2.5.5 "Field Tables".
pub fn write_table(table: &Table, out: &mut Vec<u8>) -> Result<(), AllocError>
    requires { IsTable (table_view table.now) }
    ensures ok { OnOk result
        (out.new.items ≡ out.old.items ++ table_spelling (table_view table.now)) }
    ensures err { OnErr result (out.new.items ≡ out.old.items) }
{
    let start = out.len();
    let written = put_pairs(&table.pairs, out);
    if written.is_err() {
        out.truncate(start);
    }
    written
}
