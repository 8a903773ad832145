//! The arguments of methods as octets, a function for each kind.

ghost use Rattle.std.specs.Prelude.{◌≡◌, ◌≤◌, ◌<◌, ◌^◌, ◌++◌, ◌∷◌, [], length, drop};
ghost use Rattle.std.specs.Int.{w16, w32, w64, to_be_bytes};
ghost use Rattle.field_tables.specs.Tables.{IsTable, IsName, IsCounted, name_spelling, counted_spelling, table_spelling};
ghost use Rattle.field_tables.specs.View.{table_view};
ghost use Rattle.field_tables.specs.Writing.{Appends};
ghost use Rattle.std.specs.List.{AllByRecursion};
ghost use Rattle.amqp_methods.specs.Arguments.{bits_octet, HasSpelling, written, arguments_spelling};
ghost use Rattle.amqp_methods.specs.Methods.{FitArguments, call, call_spelling};
ghost use Rattle.amqp_methods.specs.Lent.{argument_view, argument_views};

use field_tables::{Table, write_table};
use std::alloc::AllocError;

/// An argument of a method, as the method lends it.
#[derive(Clone, Copy)]
pub enum Argument<'method, 'bits> {
    /// An octet.
    Octet(u8),
    /// A short.
    Short(u16),
    /// A long.
    Long(u32),
    /// A long-long.
    LongLong(u64),
    /// A short string.
    ShortString(&'method str),
    /// A long string.
    LongString(&'method [u8]),
    /// A table.
    Table(&'method Table),
    /// Adjacent bits, which share an octet.
    Bits(&'bits [bool]),
    /// A reserved short.
    ReservedShort,
    /// A reserved short string.
    ReservedShortString,
    /// A reserved long string.
    ReservedLongString,
    /// A reserved bit that shares its octet with no other.
    ReservedBit,
}

/// An octet.
#[tactic(auto, using(field_tables::proofs::Kept::kept))]
fn put_octet(octet: u8, out: &mut Vec<u8>) -> Result<(), AllocError>
    ensures { Appends result out.old.items out.new.items (octet ∷ []) }
{
    out.push(octet)?;
    Ok(())
}

/// A short, the high octet first.
#[tactic(auto, using(field_tables::proofs::Kept::kept))]
fn put_short(number: u16, out: &mut Vec<u8>) -> Result<(), AllocError>
    ensures { Appends result out.old.items out.new.items (to_be_bytes w16 number) }
{
    out.extend_from_slice(&number.to_be_bytes())
}

/// A long, the high octet first.
#[tactic(auto, using(field_tables::proofs::Kept::kept))]
fn put_long(number: u32, out: &mut Vec<u8>) -> Result<(), AllocError>
    ensures { Appends result out.old.items out.new.items (to_be_bytes w32 number) }
{
    out.extend_from_slice(&number.to_be_bytes())
}

/// A long-long, the high octet first.
#[tactic(auto, using(field_tables::proofs::Kept::kept))]
fn put_longlong(number: u64, out: &mut Vec<u8>) -> Result<(), AllocError>
    ensures { Appends result out.old.items out.new.items (to_be_bytes w64 number) }
{
    out.extend_from_slice(&number.to_be_bytes())
}

/// A short string behind its length.
#[tactic(auto, using(field_tables::proofs::Kept::kept))]
fn put_short_string(text: &str, out: &mut Vec<u8>) -> Result<(), AllocError>
    requires { IsName text.now }
    ensures { Appends result out.old.items out.new.items (name_spelling text.now) }
{
    out.push(text.len() as u8)?;
    out.extend_from_slice(text.as_bytes())
}

/// A long string behind its length.
#[tactic(auto, using(field_tables::proofs::Kept::kept))]
fn put_long_string(octets: &[u8], out: &mut Vec<u8>) -> Result<(), AllocError>
    requires { IsCounted octets.now }
    ensures { Appends result out.old.items out.new.items (counted_spelling octets.now) }
{
    out.extend_from_slice(&(octets.len() as u32).to_be_bytes())?;
    out.extend_from_slice(octets)
}

/// The octet that adjacent bits share, the first one lowest.
fn octet_of_bits(bits: &[bool]) -> u8
    requires { length bits.now ≤ 8 }
    ensures octet { result ≡ bits_octet bits.now }
    ensures below { result < 2 ^ length bits.now }
{
    match bits {
        [] => 0,
        [first, rest @ ..] => u8::from(*first) + 2 * octet_of_bits(rest),
    }
}

/// Adjacent bits.
#[tactic(auto, using(field_tables::proofs::Kept::kept))]
fn put_bits(bits: &[bool], out: &mut Vec<u8>) -> Result<(), AllocError>
    requires { length bits.now ≤ 8 }
    ensures { Appends result out.old.items out.new.items (bits_octet bits.now ∷ []) }
{
    put_octet(octet_of_bits(bits), out)
}

#[tactic(auto, using(field_tables::proofs::Kept::kept))]
fn put_argument(argument: &Argument, out: &mut Vec<u8>) -> Result<(), AllocError>
    requires { HasSpelling (argument_view argument.now) }
    ensures { Appends result out.old.items out.new.items (written (argument_view argument.now)) }
{
    match argument {
        Argument::Octet(octet) => put_octet(*octet, out),
        Argument::Short(number) => put_short(*number, out),
        Argument::Long(number) => put_long(*number, out),
        Argument::LongLong(number) => put_longlong(*number, out),
        Argument::ShortString(text) => put_short_string(text, out),
        Argument::LongString(octets) => put_long_string(octets, out),
        Argument::Table(table) => write_table(table, out),
        Argument::Bits(bits) => put_bits(bits, out),
        Argument::ReservedShort => put_short(0, out),
        Argument::ReservedShortString => put_octet(0, out),
        Argument::ReservedLongString => put_long(0, out),
        Argument::ReservedBit => put_octet(0, out),
    }
}

#[tactic(auto, using(field_tables::proofs::Kept::kept))]
fn put_arguments(arguments: &[Argument], out: &mut Vec<u8>) -> Result<(), AllocError>
    requires { AllByRecursion HasSpelling (argument_views arguments.now) }
    ensures { Appends result out.old.items out.new.items
        (arguments_spelling (argument_views arguments.now)) }
{
    for argument in arguments {
        put_argument(argument, out)?;
    }
    Ok(())
}

/// The class and id of a method, and its arguments one after the other.
#[tactic(auto, using(field_tables::proofs::Kept::kept))]
pub fn put_call(
    class: u16,
    id: u16,
    arguments: &[Argument],
    out: &mut Vec<u8>,
) -> Result<(), AllocError>
    requires { FitArguments (call class id (argument_views arguments.now)) }
    ensures { Appends result out.old.items out.new.items
        (call_spelling (call class id (argument_views arguments.now))) }
{
    put_short(class, out)?;
    put_short(id, out)?;
    put_arguments(arguments, out)?;
    Ok(())
}
