//! The keys that have no meaning here, which are counted.
ghost use Rattle.std.specs.Prelude.{◌≡◌, ◌+◌, IfOk, IfErr};
ghost use Rattle.serde_json.specs.View.{view, members_view};
ghost use Rattle.defs_values.specs.Inert as inert;

use crate::fault::KeyFault;
use crate::keys::value_of;
use crate::settings::has_key;
use crate::value::is_word;
use serde_json::{Map, Value};

/// What the keys of an object belong to.
#[derive(Clone, Copy, Debug, PartialEq, Eq)]
pub enum KeySet {
    /// The arguments of a queue or an exchange.
    Arguments,
    /// The definition of a policy.
    Policy,
    /// An upstream.
    Upstream,
    /// A member of a set of upstreams.
    Member,
    /// A shovel.
    Shovel,
}

/// The sum of two counts. One past 32 bits, which no file within its limit can reach, is answered as want of memory.
pub fn add(count: u32, more: u32) -> Result<u32, KeyFault>
    ensures sum { IfOk result (λ sum. sum ≡ count + more) }
    ensures fault { IfErr result (λ fault. fault ≡ KeyFault.Memory) }
{
    match count.checked_add(more) {
        Some(sum) => Ok(sum),
        None => Err(KeyFault::Memory),
    }
}

#[tactic(auto, unfolding(crate::specs::Inert::is_argument))]
fn is_argument(key: &str) -> bool
    ensures { result ≡ inert.is_argument key.now }
{
    is_word(key, "x-queue-type")
}

#[tactic(auto, unfolding(crate::specs::Inert::is_policy_key))]
fn is_policy_key(key: &str) -> bool
    ensures { result ≡ inert.is_policy_key key.now }
{
    is_word(key, "federation-upstream")
        || is_word(key, "federation-upstream-pattern")
        || is_word(key, "federation-upstream-set")
}

#[tactic(auto, unfolding(crate::specs::Inert::is_override))]
fn is_override(key: &str) -> bool
    ensures { result ≡ inert.is_override key.now }
{
    is_word(key, "ack-mode")
        || is_word(key, "exchange")
        || is_word(key, "max-hops")
        || is_word(key, "prefetch-count")
        || is_word(key, "queue")
        || is_word(key, "reconnect-delay")
}

#[tactic(auto, unfolding(crate::specs::Inert::is_shovel_setting))]
fn is_shovel_setting(key: &str) -> bool
    ensures { result ≡ inert.is_shovel_setting key.now }
{
    is_word(key, "ack-mode")
        || is_word(key, "reconnect-delay")
        || is_word(key, "src-delete-after")
        || is_word(key, "delete-after")
        || is_word(key, "src-prefetch-count")
        || is_word(key, "prefetch-count")
}

#[tactic(auto, unfolding(crate::specs::Inert::is_shovel_header))]
fn is_shovel_header(key: &str) -> bool
    ensures { result ≡ inert.is_shovel_header key.now }
{
    is_word(key, "dest-add-forward-headers")
        || is_word(key, "add-forward-headers")
        || is_word(key, "dest-publish-properties")
        || is_word(key, "publish-properties")
}

#[tactic(auto, unfolding(crate::specs::Inert::is_shovel_source))]
fn is_shovel_source(key: &str) -> bool
    ensures { result ≡ inert.is_shovel_source key.now }
{
    is_word(key, "src-uri")
        || is_word(key, "src-queue")
        || is_word(key, "src-exchange")
        || is_word(key, "src-exchange-key")
        || is_word(key, "src-protocol")
}

#[tactic(auto, unfolding(crate::specs::Inert::is_shovel_target))]
fn is_shovel_target(key: &str) -> bool
    ensures { result ≡ inert.is_shovel_target key.now }
{
    is_word(key, "dest-uri")
        || is_word(key, "dest-queue")
        || is_word(key, "dest-exchange")
        || is_word(key, "dest-exchange-key")
        || is_word(key, "dest-protocol")
}

impl KeySet {
    /// Whether the key has a meaning.
    #[tactic(auto, unfolding(crate::specs::Inert::is_read))]
    pub fn is_read(self, key: &str) -> bool
        ensures { result ≡ inert.is_read self key.now }
    {
        match self {
            KeySet::Arguments => is_argument(key),
            KeySet::Policy => is_policy_key(key),
            KeySet::Upstream => is_override(key) || is_word(key, "uri"),
            KeySet::Member => is_override(key) || is_word(key, "upstream"),
            KeySet::Shovel => {
                is_shovel_setting(key)
                    || is_shovel_header(key)
                    || is_shovel_source(key)
                    || is_shovel_target(key)
            }
        }
    }
}

/// How many keys are inert.
fn inert_members(set: KeySet, map: &Map<String, Value>) -> Result<u32, KeyFault>
    ensures count { IfOk result (λ count. count ≡ inert.inert_members set (members_view map.now.entries)) }
    ensures fault { IfErr result (λ fault. fault ≡ KeyFault.Memory) }
{
    let mut count = 0;
    for (key, _) in map.iter() {
        if !set.is_read(key.as_str()) {
            count = add(count, 1)?;
        }
    }
    Ok(count)
}

/// How many keys of the object are inert.
pub fn inert_of(set: KeySet, value: &Value) -> Result<u32, KeyFault>
    ensures count { IfOk result (λ count. count ≡ inert.inert_of set (view value.now)) }
    ensures fault { IfErr result (λ fault. fault ≡ KeyFault.Memory) }
{
    match value.as_object() {
        Some(map) => inert_members(set, map),
        None => Ok(0),
    }
}

/// How many keys of the object at the key are inert.
pub fn inert_at(set: KeySet, value: &Value, key: &str) -> Result<u32, KeyFault>
    ensures count { IfOk result (λ count. count ≡ inert.inert_at set key.now (view value.now)) }
    ensures fault { IfErr result (λ fault. fault ≡ KeyFault.Memory) }
{
    match value_of(value, key) {
        Some(found) => inert_of(set, found),
        None => Ok(0),
    }
}

/// Whether a routing key stands without its exchange, as a number.
fn inert_without(value: &Value, exchange: &str, key: &str) -> u32
    ensures { result ≡ inert.inert_without exchange.now key.now (view value.now) }
{
    if has_key(value, exchange) {
        0
    } else if has_key(value, key) {
        1
    } else {
        0
    }
}

/// How many keys of a shovel are inert.
#[tactic(auto, unfolding(crate::specs::Inert::shovel_inert))]
pub fn shovel_inert(value: &Value) -> Result<u32, KeyFault>
    ensures count { IfOk result (λ count. count ≡ inert.shovel_inert (view value.now)) }
    ensures fault { IfErr result (λ fault. fault ≡ KeyFault.Memory) }
{
    let unknown = inert_of(KeySet::Shovel, value)?;
    let source = add(
        unknown,
        inert_without(value, "src-exchange", "src-exchange-key"),
    )?;
    add(
        source,
        inert_without(value, "dest-exchange", "dest-exchange-key"),
    )
}
