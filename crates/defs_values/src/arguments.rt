//! The arguments of bindings, read as field tables.
ghost use Rattle.std.specs.Prelude.{◌≡◌, ◌≢◌, ◌+◌, [], None, Some, IfOk, OnOk, IfErr, option_map, length, min, nat_lt};
ghost use Rattle.std.specs.Option.{option_or};
ghost use Rattle.serde_json.specs.Data.{string};
ghost use Rattle.field_tables.specs.Fields.{signed_longlong};
ghost use Rattle.serde_json.specs.View.{view, items_view, members_view};
ghost use Rattle.serde_json.specs.Find.{as_object};
ghost use Rattle.field_tables.specs.Tables.{max_depth, table_spelling};
ghost use Rattle.field_tables.specs.View.{field_view, fields_view, pairs_view, pairs_of, table_view};
ghost use Rattle.defs_values.specs.Arguments as arguments;
ghost use Rattle.defs_values.specs.Paths.{within, key_step};

use crate::fault::{KeyFault, Refusal};
use crate::keys::value_of;
use crate::paths::{here, in_index, in_key, within};
use crate::value::misfit;
use amqp_props::FieldTable;
use field_tables::{FieldValue, Table};
use serde_json::{Map, Value};
use std::alloc::Global;

/// A value that holds no others, where so many more levels are allowed.
fn leaf(alloc: Global, levels: u32, field: FieldValue) -> Result<FieldValue, KeyFault>
    ensures read { IfOk result (λ leaf. leaf ≡ field) }
    ensures ok { OnOk result (arguments.leaf_fault levels None ≡ None) }
    ensures fault { IfErr result (λ fault. fault ≢ KeyFault.Memory → arguments.leaf_fault levels None ≡ Some fault) }
{
    if levels == 0 {
        return Err(here(alloc, Refusal::Limit));
    }
    Ok(field)
}

/// Reads a text.
fn read_text(alloc: Global, levels: u32, text: &str) -> Result<FieldValue, KeyFault>
    ensures read { IfOk result (λ field. field_view field ≡ arguments.field_of (string text.now)) }
    ensures ok { OnOk result (arguments.leaf_fault levels None ≡ None) }
    ensures fault { IfErr result (λ fault. fault ≢ KeyFault.Memory → arguments.leaf_fault levels None ≡ Some fault) }
{
    if levels == 0 {
        return Err(here(alloc, Refusal::Limit));
    }
    let octets = Vec::from_slice(alloc, text.as_bytes())?;
    Ok(FieldValue::Text(octets))
}

/// Reads a number.
fn read_number(alloc: Global, levels: u32, value: &Value) -> Result<FieldValue, KeyFault>
    ensures read { IfOk result (λ field. field_view field ≡ signed_longlong (arguments.signed_of (view value.now))) }
    ensures ok { OnOk result (arguments.leaf_fault levels (arguments.number_refusal (view value.now)) ≡ None) }
    ensures fault { IfErr result (λ fault. fault ≢ KeyFault.Memory
        → arguments.leaf_fault levels (arguments.number_refusal (view value.now)) ≡ Some fault) }
{
    let Some(number) = value.as_i64() else {
        return Err(here(alloc, misfit(value)));
    };
    leaf(alloc, levels, FieldValue::I64(number))
}

/// Reads a value, where so many more levels are allowed.
#[cycle(arguments)]
fn read_field(alloc: Global, levels: u32, value: &Value) -> Result<FieldValue, KeyFault>
    ensures read { IfOk result (λ field. field_view field ≡ arguments.field_of (view value.now)) }
    ensures ok { OnOk result (arguments.field_fault levels (view value.now) ≡ None) }
    ensures fault { IfErr result (λ fault. fault ≢ KeyFault.Memory
        → arguments.field_fault levels (view value.now) ≡ Some fault) }
{
    match value {
        Value::Null => leaf(alloc, levels, FieldValue::Void),
        Value::Bool(b) => leaf(alloc, levels, FieldValue::Bool(*b)),
        Value::Number(_) => read_number(alloc, levels, value),
        Value::String(text) => read_text(alloc, levels, text.as_str()),
        Value::Array(items) => {
            if levels == 0 {
                return Err(here(alloc, Refusal::Limit));
            }
            let fields = read_items(alloc, levels - 1, items)?;
            Ok(FieldValue::Array(fields))
        }
        Value::Object(map) => {
            if levels == 0 {
                return Err(here(alloc, Refusal::Limit));
            }
            let pairs = read_members(alloc, levels - 1, map)?;
            Ok(FieldValue::Table(Table { pairs }))
        }
    }
}

/// Reads the items of a list.
#[cycle(arguments)]
fn read_items(alloc: Global, levels: u32, items: &Vec<Value>) -> Result<Vec<FieldValue>, KeyFault>
    ensures read { IfOk result (λ fields. fields_view fields.items ≡ arguments.items_fields (items_view items.now.items)) }
    ensures ok { OnOk result (arguments.items_fault levels 0 (items_view items.now.items) ≡ None) }
    ensures fault { IfErr result (λ fault. fault ≢ KeyFault.Memory
        → arguments.items_fault levels 0 (items_view items.now.items) ≡ Some fault) }
{
    let mut fields = Vec::new(alloc);
    for (index, item) in items.iter().enumerate() {
        match read_field(alloc, levels, item) {
            Ok(field) => fields.push(field)?,
            Err(fault) => return Err(in_index(alloc, index, fault)),
        }
    }
    Ok(fields)
}

/// Reads a key and its value.
#[cycle(arguments)]
fn read_pair(alloc: Global, levels: u32, key: &str, value: &Value) -> Result<FieldValue, KeyFault>
    ensures read { IfOk result (λ field. field_view field ≡ arguments.field_of (view value.now)) }
    ensures ok { OnOk result (option_map (within (key_step key.now))
        (option_or (arguments.field_fault levels (view value.now)) (arguments.key_fault key.now)) ≡ None) }
    ensures fault { IfErr result (λ fault. fault ≢ KeyFault.Memory
        → option_map (within (key_step key.now))
        (option_or (arguments.field_fault levels (view value.now)) (arguments.key_fault key.now)) ≡ Some fault) }
{
    match read_field(alloc, levels, value) {
        Ok(field) => {
            if key.len() > 255 {
                return Err(in_key(alloc, key, here(alloc, Refusal::Limit)));
            }
            Ok(field)
        }
        Err(fault) => Err(in_key(alloc, key, fault)),
    }
}

/// Reads the keys and values of an object.
#[cycle(arguments)]
fn read_members(
    alloc: Global,
    levels: u32,
    map: &Map<String, Value>,
) -> Result<Vec<(String, FieldValue)>, KeyFault>
    ensures read { IfOk result (λ pairs. pairs_view pairs.items ≡ arguments.members_pairs (members_view map.now.entries)) }
    ensures ok { OnOk result (arguments.members_fault levels (members_view map.now.entries) ≡ None) }
    ensures fault { IfErr result (λ fault. fault ≢ KeyFault.Memory
        → arguments.members_fault levels (members_view map.now.entries) ≡ Some fault) }
{
    let mut pairs = Vec::new(alloc);
    for (key, value) in map.iter() {
        let field = read_pair(alloc, levels, key.as_str(), value)?;
        let name = key.clone()?;
        pairs.push((name, field))?;
    }
    Ok(pairs)
}

/// One more than the octets that a table may take. Counts stop there.
const OVER: u32 = 32_769;

/// The sum of two counts.
fn sum(count: u32, more: u32) -> u32
    ensures { result ≡ min 32769 (count + more) }
{
    count.saturating_add(more).min(OVER)
}

/// How many octets the text has.
fn text_octets(text: &str) -> u32
    ensures { result ≡ min 32769 (length text.now) }
{
    match u32::try_from(text.len()) {
        Ok(count) => count.min(OVER),
        Err(_) => OVER,
    }
}

/// How many octets a value takes in a field table.
#[cycle(octets)]
fn octets_of(value: &Value) -> u32
    ensures { result ≡ min 32769 (arguments.octets_of (view value.now)) }
{
    match value {
        Value::Null => 1,
        Value::Bool(_) => 2,
        Value::Number(_) => 9,
        Value::String(text) => sum(5, text_octets(text.as_str())),
        Value::Array(items) => sum(5, items_octets(items)),
        Value::Object(map) => sum(5, members_octets(map)),
    }
}

/// How many octets the items of a list take.
#[cycle(octets)]
#[tactic(auto, using(crate::proofs::OctetLemmas::next_count, crate::proofs::OctetLemmas::last_count))]
fn items_octets(items: &Vec<Value>) -> u32
    ensures { result ≡ min 32769 (arguments.items_octets (items_view items.now.items)) }
{
    let mut count = 0;
    for item in items {
        count = sum(count, octets_of(item));
    }
    count
}

/// How many octets a key and its value take.
#[cycle(octets)]
fn pair_octets(key: &str, value: &Value) -> u32
    ensures { result ≡ min 32769 (1 + length key.now + arguments.octets_of (view value.now)) }
{
    sum(sum(1, text_octets(key)), octets_of(value))
}

/// How many octets the keys and values of an object take.
#[cycle(octets)]
#[tactic(auto, using(crate::proofs::OctetLemmas::next_count, crate::proofs::OctetLemmas::last_count))]
fn members_octets(map: &Map<String, Value>) -> u32
    ensures { result ≡ min 32769 (arguments.members_octets (members_view map.now.entries)) }
{
    let mut count = 0;
    for (key, value) in map.iter() {
        count = sum(count, pair_octets(key.as_str(), value));
    }
    count
}

/// Whether a table of these keys and values takes too many octets.
#[tactic(auto, using(crate::proofs::OctetLemmas::over))]
fn is_over(map: &Map<String, Value>) -> bool
    ensures { result ≡ nat_lt arguments.most_octets (length (table_spelling (pairs_of (arguments.members_pairs (members_view map.now.entries))))) }
{
    sum(4, members_octets(map)) == OVER
}

/// Reads an object as a table.
#[tactic(auto, unfolding(crate::specs::Arguments::size_fault))]
fn read_table(alloc: Global, map: &Map<String, Value>) -> Result<Table, KeyFault>
    ensures read { IfOk result (λ table. table_view table ≡ pairs_of (arguments.members_pairs (members_view map.now.entries))) }
    ensures ok { OnOk result (option_or (arguments.members_fault max_depth (members_view map.now.entries))
        (arguments.size_fault (pairs_of (arguments.members_pairs (members_view map.now.entries)))) ≡ None) }
    ensures fault { IfErr result (λ fault. fault ≢ KeyFault.Memory
        → option_or (arguments.members_fault max_depth (members_view map.now.entries))
        (arguments.size_fault (pairs_of (arguments.members_pairs (members_view map.now.entries)))) ≡ Some fault) }
{
    let pairs = read_members(alloc, 32, map)?;
    if is_over(map) {
        return Err(here(alloc, Refusal::Limit));
    }
    Ok(Table { pairs })
}

/// Reads the value of `arguments`.
fn read_arguments(alloc: Global, value: &Value) -> Result<Table, KeyFault>
    ensures read { IfOk result (λ table. table_view table ≡ arguments.table_from (as_object (view value.now))) }
    ensures ok { OnOk result (arguments.table_fault (view value.now) (as_object (view value.now)) ≡ None) }
    ensures fault { IfErr result (λ fault. fault ≢ KeyFault.Memory
        → arguments.table_fault (view value.now) (as_object (view value.now)) ≡ Some fault) }
{
    match value.as_object() {
        Some(map) => read_table(alloc, map),
        None => Err(here(alloc, misfit(value))),
    }
}

/// Reads the arguments of a binding.
#[tactic(auto, unfolding(crate::specs::Arguments::arguments_of, crate::specs::Arguments::arguments_fault))]
pub fn arguments_at(alloc: Global, value: &Value) -> Result<FieldTable, KeyFault>
    ensures read { IfOk result (λ table. table ≡ arguments.arguments_of (view value.now)) }
    ensures ok { OnOk result (arguments.arguments_fault (view value.now) ≡ None) }
    ensures fault { IfErr result (λ fault. fault ≢ KeyFault.Memory
        → arguments.arguments_fault (view value.now) ≡ Some fault) }
{
    let Some(found) = value_of(value, "arguments") else {
        let none = Table {
            pairs: Vec::new(alloc),
        };
        return Ok(FieldTable::new(alloc, none)?);
    };
    match read_arguments(alloc, found) {
        Ok(table) => Ok(FieldTable::new(alloc, table)?),
        Err(fault) => Err(within(alloc, "arguments", fault)),
    }
}
