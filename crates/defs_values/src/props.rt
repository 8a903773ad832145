//! The properties that a shovel sets on each message.
ghost use Rattle.std.specs.Prelude.{◌≡◌, ◌≢◌, ◌≤◌, None, Some, IfOk, OnOk, IfErr, option_map};
ghost use Rattle.serde_json.specs.View.{view, members_view};
ghost use Rattle.serde_json.specs.Find.{as_str};
ghost use Rattle.defs_values.specs.Values as values;
ghost use Rattle.defs_values.specs.Shovels as shovels;
ghost use Rattle.defs_values.specs.Keys.{value_at};
ghost use Rattle.defs_values.specs.Paths.{key_step};
ghost use Rattle.defs_values.specs.declared.fault.KeyFault.TheVariants as variant;

use crate::fault::{KeyFault, Refusal};
use crate::keys::value_of;
use crate::paths::{at_key, here};
use crate::value::{has_float, is_word, misfit};
use amqp_props::{Properties, Text};
use serde_json::{Map, Value};
use std::alloc::{AllocError, Global};

/// Why the value is refused as a text.
#[tactic(auto, unfolding(crate::specs::Shovels::short_text_refusal))]
pub fn short_text_refusal(value: &Value) -> Option<Refusal>
    ensures { result ≡ shovels.short_text_refusal (view value.now) }
{
    match value.as_str() {
        Some(text) => {
            if text.len() > 255 {
                Some(Refusal::Limit)
            } else {
                None
            }
        }
        None => Some(misfit(value)),
    }
}

/// Why the value is refused as a whole number within a range.
#[tactic(auto, unfolding(crate::specs::Values::number_refusal))]
fn number_refusal(value: &Value, least: u64, most: u64) -> Option<Refusal>
    ensures { result ≡ values.number_refusal least most (view value.now) }
{
    match value.as_u64() {
        Some(number) if least <= number && number <= most => None,
        _ => Some(misfit(value)),
    }
}

/// Why the value is refused as a whole number.
#[tactic(auto, unfolding(crate::specs::Shovels::count_refusal))]
fn count_refusal(value: &Value) -> Option<Refusal>
    ensures { result ≡ shovels.count_refusal (view value.now) }
{
    match value.as_u64() {
        Some(_) => None,
        None => Some(misfit(value)),
    }
}

/// Whether the property is the type or an identity.
fn is_identity(key: &str) -> bool
    ensures { result ≡ shovels.is_identity key.now }
{
    is_word(key, "message_id")
        || is_word(key, "type")
        || is_word(key, "user_id")
        || is_word(key, "app_id")
}

/// Whether the property is a text.
#[tactic(auto, unfolding(crate::specs::Shovels::is_text_property))]
fn is_text_property(key: &str) -> bool
    ensures { result ≡ shovels.is_text_property key.now }
{
    is_word(key, "content_type")
        || is_word(key, "content_encoding")
        || is_word(key, "correlation_id")
        || is_word(key, "reply_to")
        || is_word(key, "expiration")
        || is_identity(key)
}

/// Why a property without a floating-point number is refused.
#[tactic(auto, unfolding(crate::specs::Shovels::plain_refusal))]
fn plain_refusal(key: &str, value: &Value) -> Option<Refusal>
    ensures { result ≡ shovels.plain_refusal key.now (view value.now) }
{
    if is_text_property(key) {
        return short_text_refusal(value);
    }
    if is_word(key, "priority") {
        return number_refusal(value, 0, 255);
    }
    if is_word(key, "timestamp") {
        return count_refusal(value);
    }
    if is_word(key, "delivery_mode") {
        return number_refusal(value, 2, 2);
    }
    Some(Refusal::Shape)
}

/// Why a property is refused.
#[tactic(auto, unfolding(crate::specs::Shovels::property_refusal))]
fn property_refusal(key: &str, value: &Value) -> Option<Refusal>
    ensures { result ≡ shovels.property_refusal key.now (view value.now) }
{
    if has_float(value) {
        return Some(Refusal::Float);
    }
    plain_refusal(key, value)
}

/// Checks a property.
fn check_property(alloc: Global, key: &str, value: &Value) -> Result<(), KeyFault>
    ensures ok { OnOk result (option_map (variant.Refused (key_step key.now))
        (shovels.property_refusal key.now (view value.now)) ≡ None) }
    ensures fault { IfErr result (λ fault. fault ≢ KeyFault.Memory → option_map (variant.Refused (key_step key.now))
        (shovels.property_refusal key.now (view value.now)) ≡ Some fault) }
{
    match property_refusal(key, value) {
        None => Ok(()),
        Some(why) => Err(at_key(alloc, key, why)),
    }
}

/// Checks the properties of an object.
fn check_properties(alloc: Global, map: &Map<String, Value>) -> Result<(), KeyFault>
    ensures ok { OnOk result (shovels.properties_fault (members_view map.now.entries) ≡ None) }
    ensures fault { IfErr result (λ fault. fault ≢ KeyFault.Memory
        → shovels.properties_fault (members_view map.now.entries) ≡ Some fault) }
{
    for (key, value) in map.iter() {
        check_property(alloc, key.as_str(), value)?;
    }
    Ok(())
}

/// Checks an object of properties. The path of a fault begins at the value.
#[tactic(auto, unfolding(crate::specs::Shovels::props_fault))]
pub fn check_props(alloc: Global, value: &Value) -> Result<(), KeyFault>
    ensures ok { OnOk result (shovels.props_fault (view value.now) ≡ None) }
    ensures fault { IfErr result (λ fault. fault ≢ KeyFault.Memory
        → shovels.props_fault (view value.now) ≡ Some fault) }
{
    match value.as_object() {
        Some(map) => check_properties(alloc, map),
        None => Err(here(alloc, misfit(value))),
    }
}

/// The text at the key, if one stands there.
fn text_at(alloc: Global, value: &Value, key: &str) -> Result<Option<Text>, AllocError>
    ensures { IfOk result (λ text. text ≡ value_at as_str key.now (view value.now)) }
{
    match value_of(value, key).and_then(Value::as_str) {
        Some(text) => Ok(Some(Text::from_str(alloc, text)?)),
        None => Ok(None),
    }
}

/// The whole number at the key, if one within the range stands there.
fn octet_at(value: &Value, key: &str, least: u64, most: u64) -> Option<u8>
    requires { most ≤ 255 }
    ensures { result ≡ value_at (values.number_in least most) key.now (view value.now) }
{
    match value_of(value, key).and_then(Value::as_u64) {
        Some(number) if least <= number && number <= most => Some(number as u8),
        _ => None,
    }
}

/// The whole number at the key, if one stands there.
fn whole_at(value: &Value, key: &str) -> Option<u64>
    ensures { result ≡ value_at shovels.whole_at key.now (view value.now) }
{
    value_of(value, key).and_then(Value::as_u64)
}

/// Reads the properties that an object names.
#[tactic(auto, unfolding(crate::specs::Shovels::props_of))]
pub fn props_of(alloc: Global, value: &Value) -> Result<Properties, AllocError>
    ensures { IfOk result (λ props. props ≡ shovels.props_of (view value.now)) }
{
    Ok(Properties {
        content_type: text_at(alloc, value, "content_type")?,
        content_encoding: text_at(alloc, value, "content_encoding")?,
        headers: None,
        delivery_mode: octet_at(value, "delivery_mode", 2, 2),
        priority: octet_at(value, "priority", 0, 255),
        correlation_id: text_at(alloc, value, "correlation_id")?,
        reply_to: text_at(alloc, value, "reply_to")?,
        expiration: text_at(alloc, value, "expiration")?,
        message_id: text_at(alloc, value, "message_id")?,
        timestamp: whole_at(value, "timestamp"),
        type_name: text_at(alloc, value, "type")?,
        user_id: text_at(alloc, value, "user_id")?,
        app_id: text_at(alloc, value, "app_id")?,
        reserved: None,
    })
}
