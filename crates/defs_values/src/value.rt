//! What single values may be.
ghost use Rattle.std.specs.Prelude.{◌≡◌, ◌≢◌, ◌≤◌, None, Some, IfOk, OnOk, IfErr, MatchResult};
ghost use Rattle.serde_json.specs.View.{view, items_view, members_view};
ghost use Rattle.serde_json.specs.Find.{as_str};
ghost use Rattle.serde_json.specs.Written as written;
ghost use Rattle.defs_values.specs.Values as values;
ghost use Rattle.fed_defs.specs.Texts as texts;

use crate::fault::Refusal;
use amqp_props::{AckMode, Text};
use serde_json::{Map, Value};
use std::alloc::Global;

/// Why a value of another kind is refused.
pub fn misfit(value: &Value) -> Refusal
    ensures { result ≡ values.misfit (view value.now) }
{
    if value.is_f64() {
        Refusal::Float
    } else {
        Refusal::Shape
    }
}

/// Whether a value has a floating-point number in it, at any depth.
#[cycle(floats)]
pub fn has_float(value: &Value) -> bool
    ensures { result ≡ written.has_float (view value.now) }
{
    match value {
        Value::Null | Value::Bool(_) | Value::String(_) => false,
        Value::Number(_) => value.is_f64(),
        Value::Array(items) => items_have_float(items),
        Value::Object(map) => members_have_float(map),
    }
}

/// Whether an item of a list has one.
#[cycle(floats)]
fn items_have_float(items: &Vec<Value>) -> bool
    ensures { result ≡ written.items_have_float (items_view items.now.items) }
{
    for item in items {
        if has_float(item) {
            return true;
        }
    }
    false
}

/// Whether a value of an object has one.
#[cycle(floats)]
fn members_have_float(map: &Map<String, Value>) -> bool
    ensures { result ≡ written.members_have_float (members_view map.now.entries) }
{
    for (_, value) in map.iter() {
        if has_float(value) {
            return true;
        }
    }
    false
}

/// Why a value of another kind is refused within a list or an object that is read.
pub fn deep_misfit(value: &Value) -> Refusal
    ensures { result ≡ values.deep_misfit (view value.now) }
{
    if has_float(value) {
        Refusal::Float
    } else {
        Refusal::Shape
    }
}

/// Whether the text is this word.
pub fn is_word(text: &str, word: &str) -> bool
    ensures { result ≡ texts.same_text text.now word.now }
{
    text.as_bytes() == word.as_bytes()
}

/// The mode that the word says.
#[tactic(auto, unfolding(crate::specs::Values::mode_of))]
fn mode_of(text: &str) -> Option<AckMode>
    ensures { result ≡ values.mode_of text.now }
{
    if is_word(text, "on-confirm") {
        return Some(AckMode::OnConfirm);
    }
    if is_word(text, "on-publish") {
        return Some(AckMode::OnPublish);
    }
    if is_word(text, "no-ack") {
        return Some(AckMode::NoAck);
    }
    None
}

/// Reads a mode.
#[tactic(auto, unfolding(crate::specs::Values::mode_refusal))]
pub fn read_mode(value: &Value) -> Result<AckMode, Refusal>
    ensures read { IfOk result (λ mode. values.mode_at (view value.now) ≡ Some mode) }
    ensures refused { MatchResult result (λ _. values.mode_refusal (view value.now) ≡ None)
        (λ why. values.mode_refusal (view value.now) ≡ Some why) }
{
    match value.as_str().and_then(mode_of) {
        Some(mode) => Ok(mode),
        None => Err(misfit(value)),
    }
}

/// Reads a whole number from the least to the most that is allowed.
#[tactic(auto, unfolding(crate::specs::Values::number_refusal))]
pub fn read_number(value: &Value, least: u64, most: u64) -> Result<u64, Refusal>
    ensures read { IfOk result (λ number. values.number_in least most (view value.now) ≡ Some number) }
    ensures most { IfOk result (λ number. number ≤ most) }
    ensures refused { MatchResult result (λ _. values.number_refusal least most (view value.now) ≡ None)
        (λ why. values.number_refusal least most (view value.now) ≡ Some why) }
{
    match value.as_u64() {
        Some(number) if least <= number && number <= most => Ok(number),
        _ => Err(misfit(value)),
    }
}

/// Whether the name is one that users may give: not empty, and not reserved for links.
fn is_free_name(text: &str) -> bool
    ensures { result ≡ texts.is_free_name text.now }
{
    !text.is_empty() && !text.as_bytes().starts_with(b"federation: ")
}

/// Reads a name.
#[tactic(auto, unfolding(crate::specs::Values::name_refusal))]
pub fn read_name(alloc: Global, value: &Value) -> Result<Text, Refusal>
    ensures read { IfOk result (λ name. as_str (view value.now) ≡ Some name) }
    ensures ok { OnOk result (values.name_refusal (view value.now) ≡ None) }
    ensures refused { IfErr result (λ why. why ≢ Refusal.Memory → values.name_refusal (view value.now) ≡ Some why) }
{
    let Some(text) = value.as_str() else {
        return Err(misfit(value));
    };
    if !is_free_name(text) {
        return Err(Refusal::Shape);
    }
    if text.len() > 255 {
        return Err(Refusal::Limit);
    }
    let name = Text::from_str(alloc, text)?;
    Ok(name)
}
