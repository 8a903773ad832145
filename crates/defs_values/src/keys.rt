//! Values by their keys.
ghost use Rattle.std.specs.Prelude.{◌≡◌, ◌≢◌, ◌<◌, ◌==◌, None, Some, IfOk, OnOk, IfErr, option_map};
ghost use Rattle.serde_json.specs.View.{view};
ghost use Rattle.serde_json.specs.Find.{get, as_str};
ghost use Rattle.defs_values.specs.Uris as uris;
ghost use Rattle.defs_values.specs.Values as values;
ghost use Rattle.defs_values.specs.Keys.{value_at, named, first_key, optional_fault, required_fault, required_within};
ghost use Rattle.std.specs.List.{before_first};
ghost use Rattle.defs_values.specs.Shovels as shovels;
ghost use Rattle.defs_values.specs.Texts as hosts;

use crate::fault::{KeyFault, Refusal, ValueFault};
use crate::paths::{here, within};
use crate::props::short_text_refusal;
use crate::setting::read_short_text;
use crate::uris::read_uris;
use crate::value::{is_word, misfit, read_mode, read_name, read_number};
use amqp_props::{AckMode, Text};
use fed_defs::Uris;
use serde_json::Value;
use std::alloc::Global;

/// The value of the key, where it stands there.
pub fn value_of<'v>(value: &'v Value, key: &str) -> Option<&'v Value>
    ensures { option_map (λ v. view v.now) result ≡ get key.now (view value.now) }
{
    value.get(key)
}

/// The fault of a key whose value is refused.
pub fn refused(alloc: Global, key: &str, why: Refusal) -> KeyFault
    ensures memory { result ≢ KeyFault.Memory → why ≢ Refusal.Memory }
    ensures key { result ≢ KeyFault.Memory → result ≡ KeyFault.Refused key.now why }
{
    if why == Refusal::Memory {
        return KeyFault::Memory;
    }
    match Text::from_str(alloc, key) {
        Ok(key) => KeyFault::Refused(key, why),
        Err(_) => KeyFault::Memory,
    }
}

/// What stands before the first such octet of ASCII, or all where there is none.
fn before(text: &str, mark: char) -> &str
    requires { mark < 128 }
    ensures { result.now ≡ before_first (λ b. b == mark) text.now }
{
    match text.split_once(mark) {
        Some((front, _)) => front,
        None => text,
    }
}

/// The key that a path begins with.
#[tactic(auto, unfolding(crate::specs::Keys::first_key))]
fn first_key(path: &str) -> &str
    ensures { result.now ≡ first_key path.now }
{
    before(before(path, '['), '.')
}

/// The refused key alone.
pub fn named(alloc: Global, fault: &KeyFault) -> ValueFault
    ensures memory { result ≢ ValueFault.Memory → fault.now ≢ KeyFault.Memory }
    ensures key { result ≢ ValueFault.Memory → result ≡ named fault.now }
{
    match fault {
        KeyFault::Refused(path, _) => match Text::from_str(alloc, first_key(path.as_str())) {
            Ok(key) => ValueFault::Key(key),
            Err(_) => ValueFault::Memory,
        },
        KeyFault::Memory => ValueFault::Memory,
    }
}

/// Reads a mode at the key.
#[tactic(auto, unfolding(crate::specs::Keys::optional_fault))]
pub fn mode_at(alloc: Global, value: &Value, key: &str) -> Result<Option<AckMode>, KeyFault>
    ensures read { IfOk result (λ mode. mode ≡ value_at values.mode_at key.now (view value.now)) }
    ensures ok { OnOk result (optional_fault values.mode_refusal key.now (view value.now) ≡ None) }
    ensures fault { IfErr result (λ fault. fault ≢ KeyFault.Memory
        → optional_fault values.mode_refusal key.now (view value.now) ≡ Some fault) }
{
    let Some(found) = value_of(value, key) else {
        return Ok(None);
    };
    match read_mode(found) {
        Ok(mode) => Ok(Some(mode)),
        Err(why) => Err(refused(alloc, key, why)),
    }
}

/// Reads a whole number at the key.
#[tactic(auto, unfolding(crate::specs::Keys::optional_fault))]
pub fn number_at(
    alloc: Global,
    value: &Value,
    key: &str,
    least: u64,
    most: u64,
) -> Result<Option<u64>, KeyFault>
    ensures read { IfOk result (λ number. number ≡ value_at (values.number_in least most) key.now (view value.now)) }
    ensures most { IfOk result (λ number. values.IsAtMost most number) }
    ensures ok { OnOk result (optional_fault (values.number_refusal least most) key.now (view value.now) ≡ None) }
    ensures fault { IfErr result (λ fault. fault ≢ KeyFault.Memory
        → optional_fault (values.number_refusal least most) key.now (view value.now) ≡ Some fault) }
{
    let Some(found) = value_of(value, key) else {
        return Ok(None);
    };
    match read_number(found, least, most) {
        Ok(number) => Ok(Some(number)),
        Err(why) => Err(refused(alloc, key, why)),
    }
}

/// Reads a name at the key.
#[tactic(auto, unfolding(crate::specs::Keys::optional_fault))]
pub fn name_at(alloc: Global, value: &Value, key: &str) -> Result<Option<Text>, KeyFault>
    ensures read { IfOk result (λ name. name ≡ value_at as_str key.now (view value.now)) }
    ensures ok { OnOk result (optional_fault values.name_refusal key.now (view value.now) ≡ None) }
    ensures fault { IfErr result (λ fault. fault ≢ KeyFault.Memory
        → optional_fault values.name_refusal key.now (view value.now) ≡ Some fault) }
{
    let Some(found) = value_of(value, key) else {
        return Ok(None);
    };
    match read_name(alloc, found) {
        Ok(name) => Ok(Some(name)),
        Err(why) => Err(refused(alloc, key, why)),
    }
}

/// Reads the URIs at the key, which has to be there.
#[tactic(auto, unfolding(crate::specs::Keys::required_within))]
pub fn uris_at(alloc: Global, value: &Value, key: &str) -> Result<Uris, KeyFault>
    ensures read { IfOk result (λ list. list ≡ uris.uris_at key.now (view value.now)) }
    ensures ok { OnOk result (required_within uris.uris_fault key.now (view value.now) ≡ None) }
    ensures fault { IfErr result (λ fault. fault ≢ KeyFault.Memory
        → required_within uris.uris_fault key.now (view value.now) ≡ Some fault) }
{
    let Some(found) = value_of(value, key) else {
        return Err(within(alloc, key, here(alloc, Refusal::Shape)));
    };
    match read_uris(alloc, found) {
        Ok(uris) => Ok(uris),
        Err(fault) => Err(within(alloc, key, fault)),
    }
}

/// Reads a text at the key, which has to be there.
#[tactic(auto, unfolding(crate::specs::Keys::required_fault))]
pub fn text_at(alloc: Global, value: &Value, key: &str) -> Result<Text, KeyFault>
    ensures read { IfOk result (λ text. text ≡ hosts.text_at key.now (view value.now)) }
    ensures ok { OnOk result (required_fault shovels.short_text_refusal key.now (view value.now) ≡ None) }
    ensures fault { IfErr result (λ fault. fault ≢ KeyFault.Memory
        → required_fault shovels.short_text_refusal key.now (view value.now) ≡ Some fault) }
{
    let Some(found) = value_of(value, key) else {
        return Err(refused(alloc, key, Refusal::Shape));
    };
    match read_short_text(alloc, found) {
        Ok(text) => Ok(text),
        Err(why) => Err(refused(alloc, key, why)),
    }
}

/// Reads a text that isn't empty.
#[tactic(auto, unfolding(crate::specs::Texts::filled_refusal))]
fn read_filled(alloc: Global, value: &Value) -> Result<Text, Refusal>
    ensures read { IfOk result (λ name. as_str (view value.now) ≡ Some name) }
    ensures ok { OnOk result (hosts.filled_refusal (view value.now) ≡ None) }
    ensures refused { IfErr result (λ why. why ≢ Refusal.Memory
        → hosts.filled_refusal (view value.now) ≡ Some why) }
{
    let Some(text) = value.as_str() else {
        return Err(misfit(value));
    };
    if is_word(text, "") {
        return Err(Refusal::Shape);
    }
    if text.len() > 255 {
        return Err(Refusal::Limit);
    }
    let name = Text::from_str(alloc, text)?;
    Ok(name)
}

/// Reads a text that isn't empty at the key, which has to be there.
#[tactic(auto, unfolding(crate::specs::Keys::required_fault))]
pub fn filled_at(alloc: Global, value: &Value, key: &str) -> Result<Text, KeyFault>
    ensures read { IfOk result (λ name. name ≡ hosts.text_at key.now (view value.now)) }
    ensures ok { OnOk result (required_fault hosts.filled_refusal key.now (view value.now) ≡ None) }
    ensures fault { IfErr result (λ fault. fault ≢ KeyFault.Memory
        → required_fault hosts.filled_refusal key.now (view value.now) ≡ Some fault) }
{
    let Some(found) = value_of(value, key) else {
        return Err(refused(alloc, key, Refusal::Shape));
    };
    match read_filled(alloc, found) {
        Ok(name) => Ok(name),
        Err(why) => Err(refused(alloc, key, why)),
    }
}
