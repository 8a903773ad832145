//! What the single values of a shovel may be.
ghost use Rattle.std.specs.Prelude.{◌≡◌, ◌≢◌, None, Some, IfOk, OnOk, IfErr, MatchResult};
ghost use Rattle.serde_json.specs.View.{view};
ghost use Rattle.serde_json.specs.Find.{as_str, as_bool};
ghost use Rattle.defs_values.specs.Shovels as shovels;

use crate::fault::Refusal;
use crate::value::{is_word, misfit};
use amqp_props::{DeleteAfter, Text};
use serde_json::Value;
use std::alloc::Global;

/// Reads a truth value.
#[tactic(auto, unfolding(crate::specs::Shovels::flag_refusal))]
pub fn read_flag(value: &Value) -> Result<bool, Refusal>
    ensures read { IfOk result (λ flag. as_bool (view value.now) ≡ Some flag) }
    ensures refused { MatchResult result (λ _. shovels.flag_refusal (view value.now) ≡ None)
        (λ why. shovels.flag_refusal (view value.now) ≡ Some why) }
{
    match value.as_bool() {
        Some(flag) => Ok(flag),
        None => Err(misfit(value)),
    }
}

/// What the word says of the end of a shovel.
#[tactic(auto, unfolding(crate::specs::Shovels::delete_word))]
fn delete_word(text: &str) -> Option<DeleteAfter>
    ensures { result ≡ shovels.delete_word text.now }
{
    if is_word(text, "never") {
        return Some(DeleteAfter::Never);
    }
    if is_word(text, "queue-length") {
        return Some(DeleteAfter::QueueLength);
    }
    None
}

/// Reads when a shovel removes itself.
#[tactic(auto, unfolding(crate::specs::Shovels::delete_refusal))]
pub fn read_delete(value: &Value) -> Result<DeleteAfter, Refusal>
    ensures read { IfOk result (λ after. shovels.delete_at (view value.now) ≡ Some after) }
    ensures refused { MatchResult result (λ _. shovels.delete_refusal (view value.now) ≡ None)
        (λ why. shovels.delete_refusal (view value.now) ≡ Some why) }
{
    match value.as_str() {
        Some(text) => match delete_word(text) {
            Some(after) => Ok(after),
            None => Err(misfit(value)),
        },
        None => match value.as_u64() {
            Some(count) => Ok(DeleteAfter::Count(count)),
            None => Err(misfit(value)),
        },
    }
}

/// Whether the name may be that of an exchange: it isn't reserved for links.
fn is_exchange_name(text: &str) -> bool
    ensures { result ≡ shovels.is_exchange_name text.now }
{
    !text.as_bytes().starts_with(b"federation: ")
}

/// Reads the name of an exchange, which is empty for the default one.
#[tactic(auto, unfolding(crate::specs::Shovels::exchange_refusal))]
pub fn read_exchange(alloc: Global, value: &Value) -> Result<Text, Refusal>
    ensures read { IfOk result (λ name. as_str (view value.now) ≡ Some name) }
    ensures ok { OnOk result (shovels.exchange_refusal (view value.now) ≡ None) }
    ensures refused { IfErr result (λ why. why ≢ Refusal.Memory
        → shovels.exchange_refusal (view value.now) ≡ Some why) }
{
    let Some(text) = value.as_str() else {
        return Err(misfit(value));
    };
    if !is_exchange_name(text) {
        return Err(Refusal::Shape);
    }
    if text.len() > 255 {
        return Err(Refusal::Limit);
    }
    let name = Text::from_str(alloc, text)?;
    Ok(name)
}

/// Reads a text of at most 255 octets.
#[tactic(auto, unfolding(crate::specs::Shovels::short_text_refusal))]
pub fn read_short_text(alloc: Global, value: &Value) -> Result<Text, Refusal>
    ensures read { IfOk result (λ text. as_str (view value.now) ≡ Some text) }
    ensures ok { OnOk result (shovels.short_text_refusal (view value.now) ≡ None) }
    ensures refused { IfErr result (λ why. why ≢ Refusal.Memory
        → shovels.short_text_refusal (view value.now) ≡ Some why) }
{
    let Some(text) = value.as_str() else {
        return Err(misfit(value));
    };
    if text.len() > 255 {
        return Err(Refusal::Limit);
    }
    let text = Text::from_str(alloc, text)?;
    Ok(text)
}

/// Checks that the protocol is AMQP 0-9-1.
#[tactic(auto, unfolding(crate::specs::Shovels::protocol_refusal))]
pub fn check_protocol(value: &Value) -> Result<(), Refusal>
    ensures { MatchResult result (λ _. shovels.protocol_refusal (view value.now) ≡ None)
        (λ why. shovels.protocol_refusal (view value.now) ≡ Some why) }
{
    match value.as_str() {
        Some(text) => {
            if is_word(text, "amqp091") {
                Ok(())
            } else {
                Err(Refusal::Shape)
            }
        }
        None => Err(misfit(value)),
    }
}
