//! Arguments and header fields: words NAME=VALUE.
ghost use Rattle.std.specs.Prelude.{◌≡◌, ◌∷◌, ◌<◌, ◌≤◌, IfOk, IfSome, length, string_bytes, option_map};
ghost use Rattle.std.specs.Result.{result_ok};
ghost use Rattle.std.specs.List.{list_any, position};
ghost use Rattle.hex.specs.Hex.{decode_of};
ghost use Rattle.std.specs.Option.{unwrap_or};
ghost use Rattle.field_tables.specs.Fields.{signed_long, signed_longlong, long_string, void};
ghost use Rattle.field_tables.specs.Tables.{counted_spelling};
ghost use Rattle.field_tables.specs.Reading.{table_at};
ghost use Rattle.field_tables.specs.View.{field_view, table_view};
ghost use Rattle.schedule_words.specs.Words.{octets_of};
ghost use Rattle.schedule_words.specs.Numbers.{long_of, longlong_of};
ghost use Rattle.schedule_words.specs.Values.{max_header, is_octet, cut_at, truth_of, void_of, table_in, only_value, spelled_value, raw_of, typed_value, value_of, is_bad_number_of, is_bad_value_number, named_value, is_no_argument, is_bad_argument_number, is_bad_argument_name, is_bad_argument_value, argument_of, arguments_of};

use crate::fields::is_long;
use crate::numbers::{long_of, longlong_of};
use crate::words::{decode, is_word, string_of, text_of};
use amqp_props::{FieldTable, Octets};
use field_tables::{FieldValue, Table, TableFault, read_table};
use hex::FromHexError;
use std::alloc::{AllocError, Global};

/// The most octets of a content header's payload.
pub const MAX_HEADER: usize = 131_064;

/// What stands before a separator and what stands after it.
type Parts<'a> = (&'a [u8], &'a [u8]);

/// Where the first separator stands.
fn place_of_first(separator: u8, word: &[u8]) -> Option<usize>
    ensures place { result ≡ position (is_octet separator) word.now }
    ensures within { IfSome result (λ at. at < length word.now) }
{
    word.iter().position(|octet| *octet == separator)
}

/// What stands before the first separator, and what stands after it.
#[tactic(auto, unfolding(crate::specs::Values::cut_at))]
fn cut(separator: u8, word: &[u8]) -> Option<Parts<'_>>
    ensures { option_map (λ parts. (parts.0.now, parts.1.now)) result ≡ cut_at separator word.now }
{
    match place_of_first(separator, word) {
        Some(at) => Some((&word[..at], &word[at + 1..])),
        None => None,
    }
}

fn text_value(alloc: Global, word: &[u8]) -> Result<FieldValue, AllocError>
    ensures { IfOk result (λ v. field_view v ≡ long_string (octets_of word.now)) }
{
    let octets = decode(alloc, word)?;
    Ok(FieldValue::Text(octets))
}

fn long_value(word: &[u8]) -> Option<FieldValue>
    ensures { option_map field_view result ≡ option_map signed_long (long_of word.now) }
{
    match long_of(word) {
        Some(number) => Some(FieldValue::I32(number)),
        None => None,
    }
}

fn longlong_value(word: &[u8]) -> Option<FieldValue>
    ensures { option_map field_view result ≡ option_map signed_longlong (longlong_of word.now) }
{
    match longlong_of(word) {
        Some(number) => Some(FieldValue::I64(number)),
        None => None,
    }
}

#[tactic(auto, unfolding(crate::specs::Values::truth_of))]
fn truth_value(word: &[u8]) -> Option<FieldValue>
    ensures { option_map field_view result ≡ truth_of word.now }
{
    if is_word(word, "0") {
        return Some(FieldValue::Bool(false));
    }
    if is_word(word, "1") {
        return Some(FieldValue::Bool(true));
    }
    None
}

#[tactic(auto, unfolding(crate::specs::Values::void_of))]
fn void_value(word: &[u8]) -> Option<FieldValue>
    ensures { option_map field_view result ≡ void_of word.now }
{
    if word.is_empty() {
        return Some(FieldValue::Void);
    }
    None
}

/// The octets of a table of one value under the empty name.
fn table_of_one(alloc: Global, value: &[u8]) -> Result<Vec<u8>, AllocError>
    requires { length value.now ≤ max_header }
    ensures { IfOk result (λ octets. octets.items ≡ counted_spelling (0 ∷ value.now)) }
{
    let mut octets = Vec::new(alloc);
    octets.extend_from_slice(&(value.len() as u32 + 1).to_be_bytes())?;
    octets.push(0)?;
    octets.extend_from_slice(value)?;
    Ok(octets)
}

/// The value of a table that has just one.
#[tactic(auto, using(crate::proofs::Views::only_one, crate::proofs::Views::only_other))]
fn only_value(table: Table) -> Option<FieldValue>
    ensures { option_map field_view result ≡ only_value (table_view table) }
{
    let mut pairs = table.pairs;
    if pairs.len() != 1 {
        return None;
    }
    match pairs.pop() {
        Some((_, value)) => Some(value),
        None => None,
    }
}

/// The table that the octets begin with, if they begin with one.
fn table_in(alloc: Global, octets: &[u8]) -> Result<Option<Table>, AllocError>
    ensures { IfOk result (λ table. option_map table_view table ≡ table_in (table_at octets.now)) }
{
    match read_table(alloc, octets) {
        Ok((table, _)) => Ok(Some(table)),
        Err(TableFault::Memory) => Err(AllocError),
        Err(_) => Ok(None),
    }
}

/// The value whose field type and spelling the octets are.
#[tactic(auto, unfolding(crate::specs::Values::spelled_value), using(crate::proofs::Spelled::spelled_from))]
fn spelled_value(alloc: Global, octets: &[u8]) -> Result<Option<FieldValue>, AllocError>
    ensures { IfOk result (λ v. option_map field_view v ≡ spelled_value octets.now) }
{
    if octets.len() > MAX_HEADER {
        return Ok(None);
    }
    let spelling = table_of_one(alloc, octets)?;
    match table_in(alloc, spelling.as_slice())? {
        Some(table) => Ok(only_value(table)),
        None => Ok(None),
    }
}

/// The octets that the digits write.
fn octets_of_digits(alloc: Global, digits: &[u8]) -> Result<Option<Vec<u8>>, AllocError>
    ensures { IfOk result (λ octets. option_map (λ v. v.items) octets ≡ result_ok (decode_of digits.now)) }
{
    match hex::decode(alloc, digits) {
        Ok(octets) => Ok(Some(octets)),
        Err(FromHexError::OutOfMemory) => Err(AllocError),
        Err(_) => Ok(None),
    }
}

#[tactic(auto, unfolding(crate::specs::Values::raw_of))]
fn raw_value(alloc: Global, word: &[u8]) -> Result<Option<FieldValue>, AllocError>
    ensures { IfOk result (λ v. option_map field_view v ≡ raw_of word.now) }
{
    match octets_of_digits(alloc, word)? {
        Some(octets) => spelled_value(alloc, octets.as_slice()),
        None => Ok(None),
    }
}

/// The value of that field type that the word writes.
#[tactic(auto, unfolding(crate::specs::Values::typed_value))]
fn typed_value(
    alloc: Global,
    field_type: &[u8],
    word: &[u8],
) -> Result<Option<FieldValue>, AllocError>
    ensures { IfOk result (λ v. option_map field_view v ≡ typed_value field_type.now word.now) }
{
    if is_word(field_type, "S") {
        return Ok(Some(text_value(alloc, word)?));
    }
    if is_word(field_type, "I") {
        return Ok(long_value(word));
    }
    if is_word(field_type, "l") {
        return Ok(longlong_value(word));
    }
    if is_word(field_type, "t") {
        return Ok(truth_value(word));
    }
    if is_word(field_type, "V") {
        return Ok(void_value(word));
    }
    if is_word(field_type, "raw") {
        return raw_value(alloc, word);
    }
    Ok(None)
}

/// The value that a word VALUE writes.
#[tactic(auto, unfolding(crate::specs::Values::value_of))]
fn value_of(alloc: Global, word: &[u8]) -> Result<Option<FieldValue>, AllocError>
    ensures { IfOk result (λ v. option_map field_view v ≡ value_of word.now) }
{
    match cut(b':', word) {
        Some((field_type, value)) => typed_value(alloc, field_type, value),
        None => Ok(None),
    }
}

fn is_bad_number_of(field_type: &[u8], word: &[u8]) -> bool
    ensures { result ≡ is_bad_number_of field_type.now word.now }
{
    if is_word(field_type, "I") {
        return long_of(word).is_none();
    }
    is_word(field_type, "l") && longlong_of(word).is_none()
}

/// Whether the number of a word VALUE is none.
#[tactic(auto, unfolding(crate::specs::Values::is_bad_value_number))]
fn is_bad_value_number(word: &[u8]) -> bool
    ensures { result ≡ is_bad_value_number word.now }
{
    match cut(b':', word) {
        Some((field_type, number)) => is_bad_number_of(field_type, number),
        None => false,
    }
}

/// NAME and VALUE of a word that begins so.
#[tactic(auto, unfolding(crate::specs::Values::named_value))]
fn named_value<'a>(front: &str, word: &'a [u8]) -> Option<Parts<'a>>
    ensures { option_map (λ parts. (parts.0.now, parts.1.now)) result ≡ named_value front.now word.now }
{
    match word.strip_prefix(front.as_bytes()) {
        Some(rest) => cut(b'=', rest),
        None => None,
    }
}

/// Whether one of the words has no `=`, or begins otherwise.
pub fn has_no_argument(front: &str, words: &[Octets]) -> bool
    ensures { result ≡ list_any (is_no_argument front.now) words.now }
{
    words
        .iter()
        .any(|word| named_value(front, word.as_slice()).is_none())
}

fn is_bad_argument_number(front: &str, word: &[u8]) -> bool
    ensures { result ≡ is_bad_argument_number front.now word.now }
{
    match named_value(front, word) {
        Some((_, value)) => is_bad_value_number(value),
        None => false,
    }
}

/// Whether a number in one of the words is none.
pub fn has_bad_argument_number(front: &str, words: &[Octets]) -> bool
    ensures { result ≡ list_any (is_bad_argument_number front.now) words.now }
{
    words
        .iter()
        .any(|word| is_bad_argument_number(front, word.as_slice()))
}

fn is_bad_argument_name(alloc: Global, front: &str, word: &[u8]) -> Result<bool, AllocError>
    ensures { IfOk result (λ bad. bad ≡ is_bad_argument_name front.now word.now) }
{
    match named_value(front, word) {
        Some((name, _)) => {
            let name = text_of(alloc, name)?;
            Ok(is_long(&name))
        }
        None => Ok(false),
    }
}

/// Whether a name in one of the words is too long.
pub fn has_bad_argument_name(
    alloc: Global,
    front: &str,
    words: &[Octets],
) -> Result<bool, AllocError>
    ensures { IfOk result (λ bad. bad ≡ list_any (is_bad_argument_name front.now) words.now) }
{
    for word in words {
        if is_bad_argument_name(alloc, front, word.as_slice())? {
            return Ok(true);
        }
    }
    Ok(false)
}

fn is_bad_argument_value(alloc: Global, front: &str, word: &[u8]) -> Result<bool, AllocError>
    ensures { IfOk result (λ bad. bad ≡ is_bad_argument_value front.now word.now) }
{
    match named_value(front, word) {
        Some((_, value)) => {
            let value = value_of(alloc, value)?;
            Ok(value.is_none())
        }
        None => Ok(false),
    }
}

/// Whether a value in one of the words is none.
pub fn has_bad_argument_value(
    alloc: Global,
    front: &str,
    words: &[Octets],
) -> Result<bool, AllocError>
    ensures { IfOk result (λ bad. bad ≡ list_any (is_bad_argument_value front.now) words.now) }
{
    for word in words {
        if is_bad_argument_value(alloc, front, word.as_slice())? {
            return Ok(true);
        }
    }
    Ok(false)
}

/// No value, where a word writes none.
fn value_or_void(value: Option<FieldValue>) -> FieldValue
    ensures { field_view result ≡ unwrap_or (option_map field_view value) void }
{
    match value {
        Some(value) => value,
        None => FieldValue::Void,
    }
}

/// The name and the value of a word that begins so.
#[tactic(auto, unfolding(crate::specs::Values::argument_of))]
fn argument_of(alloc: Global, front: &str, word: &[u8]) -> Result<(String, FieldValue), AllocError>
    ensures { IfOk result (λ a. (string_bytes a.0, field_view a.1) ≡ argument_of front.now word.now) }
{
    match named_value(front, word) {
        Some((name, value)) => {
            let name = string_of(alloc, name)?;
            let value = value_or_void(value_of(alloc, value)?);
            Ok((name, value))
        }
        None => Ok((String::new(alloc), FieldValue::Void)),
    }
}

/// The table of the words, which begin so.
#[tactic(auto, unfolding(crate::specs::Values::arguments_of))]
pub fn arguments_of(alloc: Global, front: &str, words: &[Octets]) -> Result<FieldTable, AllocError>
    ensures { IfOk result (λ table. table ≡ arguments_of front.now words.now) }
{
    let mut pairs = Vec::new(alloc);
    for word in words {
        pairs.push(argument_of(alloc, front, word.as_slice())?)?;
    }
    FieldTable::new(alloc, Table { pairs })
}
