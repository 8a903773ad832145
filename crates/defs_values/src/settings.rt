//! The values of a shovel's keys.
ghost use Rattle.std.specs.Prelude.{◌≡◌, ◌≢◌, None, Some, IfOk, OnOk, IfErr};
ghost use Rattle.serde_json.specs.View.{view};
ghost use Rattle.serde_json.specs.Find.{as_str, as_bool};
ghost use Rattle.defs_values.specs.Values as values;
ghost use Rattle.defs_values.specs.Shovels as shovels;
ghost use Rattle.defs_values.specs.Keys.{value_at, optional_fault, optional_within};
ghost use Rattle.defs_values.specs.Shovels.{value_with, value_without, fault_with, fault_without, within_without};

use crate::fault::KeyFault;
use crate::keys::{number_at, refused, value_of};
use crate::paths::within;
use crate::props::check_props;
use crate::setting::{check_protocol, read_delete, read_exchange, read_flag, read_short_text};
use amqp_props::{DeleteAfter, Text};
use serde_json::Value;
use std::alloc::Global;

/// Whether the key stands in the object.
pub fn has_key(value: &Value, key: &str) -> bool
    ensures { result ≡ shovels.has_key key.now (view value.now) }
{
    value_of(value, key).is_some()
}

/// Reads a truth value at the key.
#[tactic(auto, unfolding(crate::specs::Keys::optional_fault))]
pub fn flag_at(alloc: Global, value: &Value, key: &str) -> Result<Option<bool>, KeyFault>
    ensures read { IfOk result (λ found. found ≡ value_at as_bool key.now (view value.now)) }
    ensures ok { OnOk result (optional_fault shovels.flag_refusal key.now (view value.now) ≡ None) }
    ensures fault { IfErr result (λ fault. fault ≢ KeyFault.Memory
        → optional_fault shovels.flag_refusal key.now (view value.now) ≡ Some fault) }
{
    let Some(found) = value_of(value, key) else {
        return Ok(None);
    };
    match read_flag(found) {
        Ok(meant) => Ok(Some(meant)),
        Err(why) => Err(refused(alloc, key, why)),
    }
}

/// Reads when the shovel removes itself at the key.
#[tactic(auto, unfolding(crate::specs::Keys::optional_fault))]
pub fn delete_at(alloc: Global, value: &Value, key: &str) -> Result<Option<DeleteAfter>, KeyFault>
    ensures read { IfOk result (λ found. found ≡ value_at shovels.delete_at key.now (view value.now)) }
    ensures ok { OnOk result (optional_fault shovels.delete_refusal key.now (view value.now) ≡ None) }
    ensures fault { IfErr result (λ fault. fault ≢ KeyFault.Memory
        → optional_fault shovels.delete_refusal key.now (view value.now) ≡ Some fault) }
{
    let Some(found) = value_of(value, key) else {
        return Ok(None);
    };
    match read_delete(found) {
        Ok(meant) => Ok(Some(meant)),
        Err(why) => Err(refused(alloc, key, why)),
    }
}

/// Reads the name of an exchange at the key.
#[tactic(auto, unfolding(crate::specs::Keys::optional_fault))]
pub fn exchange_at(alloc: Global, value: &Value, key: &str) -> Result<Option<Text>, KeyFault>
    ensures read { IfOk result (λ found. found ≡ value_at as_str key.now (view value.now)) }
    ensures ok { OnOk result (optional_fault shovels.exchange_refusal key.now (view value.now) ≡ None) }
    ensures fault { IfErr result (λ fault. fault ≢ KeyFault.Memory
        → optional_fault shovels.exchange_refusal key.now (view value.now) ≡ Some fault) }
{
    let Some(found) = value_of(value, key) else {
        return Ok(None);
    };
    match read_exchange(alloc, found) {
        Ok(meant) => Ok(Some(meant)),
        Err(why) => Err(refused(alloc, key, why)),
    }
}

/// Reads a text at the key.
#[tactic(auto, unfolding(crate::specs::Keys::optional_fault))]
pub fn short_text_at(alloc: Global, value: &Value, key: &str) -> Result<Option<Text>, KeyFault>
    ensures read { IfOk result (λ found. found ≡ value_at as_str key.now (view value.now)) }
    ensures ok { OnOk result (optional_fault shovels.short_text_refusal key.now (view value.now) ≡ None) }
    ensures fault { IfErr result (λ fault. fault ≢ KeyFault.Memory
        → optional_fault shovels.short_text_refusal key.now (view value.now) ≡ Some fault) }
{
    let Some(found) = value_of(value, key) else {
        return Ok(None);
    };
    match read_short_text(alloc, found) {
        Ok(meant) => Ok(Some(meant)),
        Err(why) => Err(refused(alloc, key, why)),
    }
}

/// Checks the properties at the key.
#[tactic(auto, unfolding(crate::specs::Keys::optional_within))]
pub fn check_props_at(alloc: Global, value: &Value, key: &str) -> Result<(), KeyFault>
    ensures ok { OnOk result (optional_within shovels.props_fault key.now (view value.now) ≡ None) }
    ensures fault { IfErr result (λ fault. fault ≢ KeyFault.Memory
        → optional_within shovels.props_fault key.now (view value.now) ≡ Some fault) }
{
    let Some(found) = value_of(value, key) else {
        return Ok(());
    };
    match check_props(alloc, found) {
        Ok(()) => Ok(()),
        Err(fault) => Err(within(alloc, key, fault)),
    }
}

/// Checks the protocol at the key.
#[tactic(auto, unfolding(crate::specs::Keys::optional_fault))]
pub fn check_protocol_at(alloc: Global, value: &Value, key: &str) -> Result<(), KeyFault>
    ensures ok { OnOk result (optional_fault shovels.protocol_refusal key.now (view value.now) ≡ None) }
    ensures fault { IfErr result (λ fault. fault ≢ KeyFault.Memory
        → optional_fault shovels.protocol_refusal key.now (view value.now) ≡ Some fault) }
{
    let Some(found) = value_of(value, key) else {
        return Ok(());
    };
    match check_protocol(found) {
        Ok(()) => Ok(()),
        Err(why) => Err(refused(alloc, key, why)),
    }
}

/// Reads a truth value at the key, which is looked at only where the other key isn't there.
#[tactic(auto, unfolding(crate::specs::Shovels::fault_without))]
pub fn flag_without(
    alloc: Global,
    value: &Value,
    other: &str,
    key: &str,
) -> Result<Option<bool>, KeyFault>
    ensures read { IfOk result (λ found. found
        ≡ value_without as_bool other.now key.now (view value.now)) }
    ensures ok { OnOk result (fault_without shovels.flag_refusal other.now key.now (view value.now) ≡ None) }
    ensures fault { IfErr result (λ fault. fault ≢ KeyFault.Memory
        → fault_without shovels.flag_refusal other.now key.now (view value.now) ≡ Some fault) }
{
    if has_key(value, other) {
        return Ok(None);
    }
    flag_at(alloc, value, key)
}

/// Reads when the shovel removes itself at the key, which is looked at only where the other key isn't there.
#[tactic(auto, unfolding(crate::specs::Shovels::fault_without))]
pub fn delete_without(
    alloc: Global,
    value: &Value,
    other: &str,
    key: &str,
) -> Result<Option<DeleteAfter>, KeyFault>
    ensures read { IfOk result (λ found. found
        ≡ value_without shovels.delete_at other.now key.now (view value.now)) }
    ensures ok { OnOk result (fault_without shovels.delete_refusal other.now key.now (view value.now) ≡ None) }
    ensures fault { IfErr result (λ fault. fault ≢ KeyFault.Memory
        → fault_without shovels.delete_refusal other.now key.now (view value.now) ≡ Some fault) }
{
    if has_key(value, other) {
        return Ok(None);
    }
    delete_at(alloc, value, key)
}

/// Reads a number of copies at the key, which is looked at only where the other key isn't there.
#[tactic(auto, unfolding(crate::specs::Shovels::fault_without))]
pub fn prefetch_without(
    alloc: Global,
    value: &Value,
    other: &str,
    key: &str,
) -> Result<Option<u64>, KeyFault>
    ensures read { IfOk result (λ found. found
        ≡ value_without (values.number_in 0 65535) other.now key.now (view value.now)) }
    ensures most { IfOk result (λ found. values.IsAtMost 65535 found) }
    ensures ok { OnOk result (fault_without (values.number_refusal 0 65535) other.now key.now (view value.now) ≡ None) }
    ensures fault { IfErr result (λ fault. fault ≢ KeyFault.Memory
        → fault_without (values.number_refusal 0 65535) other.now key.now (view value.now) ≡ Some fault) }
{
    if has_key(value, other) {
        return Ok(None);
    }
    number_at(alloc, value, key, 0, 65_535)
}

/// Checks the properties at the key, which is looked at only where the other key isn't there.
#[tactic(auto, unfolding(crate::specs::Shovels::within_without))]
pub fn check_props_without(
    alloc: Global,
    value: &Value,
    other: &str,
    key: &str,
) -> Result<(), KeyFault>
    ensures ok { OnOk result (within_without shovels.props_fault other.now key.now (view value.now) ≡ None) }
    ensures fault { IfErr result (λ fault. fault ≢ KeyFault.Memory
        → within_without shovels.props_fault other.now key.now (view value.now) ≡ Some fault) }
{
    if has_key(value, other) {
        return Ok(());
    }
    check_props_at(alloc, value, key)
}

/// Reads a text at the key, which is looked at only where the other key is there.
#[tactic(auto, unfolding(crate::specs::Shovels::fault_with))]
pub fn text_with(
    alloc: Global,
    value: &Value,
    other: &str,
    key: &str,
) -> Result<Option<Text>, KeyFault>
    ensures read { IfOk result (λ found. found
        ≡ value_with as_str other.now key.now (view value.now)) }
    ensures ok { OnOk result (fault_with shovels.short_text_refusal other.now key.now (view value.now) ≡ None) }
    ensures fault { IfErr result (λ fault. fault ≢ KeyFault.Memory
        → fault_with shovels.short_text_refusal other.now key.now (view value.now) ≡ Some fault) }
{
    if !has_key(value, other) {
        return Ok(None);
    }
    short_text_at(alloc, value, key)
}
