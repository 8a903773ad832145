//! The policies of a definitions file.
ghost use Rattle.std.specs.Prelude.{◌≡◌, ◌≢◌, None, Some, true, false, IfOk, OnOk, IfErr, codes, pos, unwrap_or};
ghost use Rattle.serde_json.specs.View.{view};
ghost use Rattle.serde_json.specs.Find.{get, as_str};
ghost use Rattle.defs_values.specs.Policies as policies;
ghost use Rattle.defs_values.specs.Texts as hosts;
ghost use Rattle.defs_values.specs.Keys.{value_at, optional_fault, required_fault};

use crate::fault::{KeyFault, Refusal};
use crate::keys::{refused, text_at, value_of};
use crate::paths::below;
use crate::settings::short_text_at;
use crate::value::{is_word, misfit};
use amqp_props::Text;
use fed_defs::SharedPattern;
use policy_core::{Apply, Pattern, PatternFault};
use serde_json::Value;
use std::alloc::Global;

/// Builds a pattern.
#[tactic(auto, using(crate::proofs::PatternLemmas::bad_pattern, crate::proofs::PatternLemmas::good_pattern))]
fn build_pattern(alloc: Global, text: &str) -> Result<Pattern, Refusal>
    ensures text { IfOk result (λ pattern. pattern ≡ text.now) }
    ensures ok { OnOk result (policies.is_pattern text.now ≡ true) }
    ensures why { IfErr result (λ why. why ≢ Refusal.Memory → why ≡ Refusal.Pattern) }
    ensures bad { IfErr result (λ why. why ≢ Refusal.Memory → policies.is_pattern text.now ≡ false) }
{
    match Pattern::build(alloc, text) {
        Ok(pattern) => Ok(pattern),
        Err(PatternFault::Bad) => Err(Refusal::Pattern),
        Err(PatternFault::Memory) => Err(Refusal::Memory),
    }
}

/// Reads a pattern.
#[tactic(auto, unfolding(crate::specs::Policies::pattern_refusal))]
fn read_pattern(alloc: Global, value: &Value) -> Result<SharedPattern, Refusal>
    ensures read { IfOk result (λ pattern. as_str (view value.now) ≡ Some pattern) }
    ensures ok { OnOk result (policies.pattern_refusal (view value.now) ≡ None) }
    ensures refused { IfErr result (λ why. why ≢ Refusal.Memory
        → policies.pattern_refusal (view value.now) ≡ Some why) }
{
    let Some(text) = value.as_str() else {
        return Err(misfit(value));
    };
    let pattern = build_pattern(alloc, text)?;
    let shared = SharedPattern::new(alloc, pattern)?;
    Ok(shared)
}

/// Reads a pattern at the key, which has to be there.
#[tactic(auto, unfolding(crate::specs::Keys::required_fault))]
pub fn pattern_at(alloc: Global, value: &Value, key: &str) -> Result<SharedPattern, KeyFault>
    ensures read { IfOk result (λ pattern. pattern ≡ hosts.text_at key.now (view value.now)) }
    ensures ok { OnOk result (required_fault policies.pattern_refusal key.now (view value.now) ≡ None) }
    ensures fault { IfErr result (λ fault. fault ≢ KeyFault.Memory
        → required_fault policies.pattern_refusal key.now (view value.now) ≡ Some fault) }
{
    let Some(found) = value_of(value, key) else {
        return Err(refused(alloc, key, Refusal::Shape));
    };
    match read_pattern(alloc, found) {
        Ok(pattern) => Ok(pattern),
        Err(why) => Err(refused(alloc, key, why)),
    }
}

/// Reads a pattern at the key, where one stands there.
#[tactic(auto, unfolding(crate::specs::Keys::optional_fault))]
fn optional_pattern_at(
    alloc: Global,
    value: &Value,
    key: &str,
) -> Result<Option<SharedPattern>, KeyFault>
    ensures read { IfOk result (λ pattern. pattern ≡ value_at as_str key.now (view value.now)) }
    ensures ok { OnOk result (optional_fault policies.pattern_refusal key.now (view value.now) ≡ None) }
    ensures fault { IfErr result (λ fault. fault ≢ KeyFault.Memory
        → optional_fault policies.pattern_refusal key.now (view value.now) ≡ Some fault) }
{
    let Some(found) = value_of(value, key) else {
        return Ok(None);
    };
    match read_pattern(alloc, found) {
        Ok(pattern) => Ok(Some(pattern)),
        Err(why) => Err(refused(alloc, key, why)),
    }
}

/// What the word says of the objects that a policy applies to.
#[tactic(auto, unfolding(crate::specs::Policies::apply_word))]
fn apply_word(text: &str) -> Option<Apply>
    ensures { result ≡ policies.apply_word text.now }
{
    if is_word(text, "all") {
        return Some(Apply::All);
    }
    if is_word(text, "exchanges") {
        return Some(Apply::Exchanges);
    }
    if is_word(text, "queues") {
        return Some(Apply::Queues);
    }
    if is_word(text, "classic_queues") {
        return Some(Apply::Classic);
    }
    if is_word(text, "quorum_queues") {
        return Some(Apply::Quorum);
    }
    if is_word(text, "streams") {
        return Some(Apply::Streams);
    }
    None
}

/// Reads what a policy applies to.
#[tactic(auto, unfolding(crate::specs::Keys::optional_fault, crate::specs::Policies::apply_refusal))]
pub fn apply_at(alloc: Global, value: &Value) -> Result<Apply, KeyFault>
    ensures read { IfOk result (λ apply. apply
        ≡ unwrap_or (value_at policies.apply_at (codes "apply-to") (view value.now)) Apply.All) }
    ensures ok { OnOk result (optional_fault policies.apply_refusal (codes "apply-to") (view value.now) ≡ None) }
    ensures fault { IfErr result (λ fault. fault ≢ KeyFault.Memory
        → optional_fault policies.apply_refusal (codes "apply-to") (view value.now) ≡ Some fault) }
{
    let Some(found) = value_of(value, "apply-to") else {
        return Ok(Apply::All);
    };
    match found.as_str().and_then(apply_word) {
        Some(apply) => Ok(apply),
        None => Err(refused(alloc, "apply-to", misfit(found))),
    }
}

/// Reads a priority.
#[tactic(auto, unfolding(crate::specs::Keys::optional_fault, crate::specs::Policies::priority_refusal))]
pub fn priority_at(alloc: Global, value: &Value) -> Result<i64, KeyFault>
    ensures read { IfOk result (λ priority. priority
        ≡ unwrap_or (value_at policies.signed_at (codes "priority") (view value.now)) (pos 0)) }
    ensures ok { OnOk result (optional_fault policies.priority_refusal (codes "priority") (view value.now) ≡ None) }
    ensures fault { IfErr result (λ fault. fault ≢ KeyFault.Memory
        → optional_fault policies.priority_refusal (codes "priority") (view value.now) ≡ Some fault) }
{
    let Some(found) = value_of(value, "priority") else {
        return Ok(0);
    };
    match found.as_i64() {
        Some(priority) => Ok(priority),
        None => Err(refused(alloc, "priority", misfit(found))),
    }
}

/// The federation keys of a definition.
#[derive(Drop)]
pub struct Definition {
    /// `federation-upstream`: the name of one upstream.
    pub upstream: Option<Text>,
    /// `federation-upstream-pattern`: what is searched for in the names of upstreams.
    pub upstream_pattern: Option<SharedPattern>,
    /// `federation-upstream-set`: the name of a set of upstreams, or `all`.
    pub set: Option<Text>,
}

/// Reads the keys of a definition.
#[tactic(auto, unfolding(crate::specs::Policies::definition_fault))]
fn read_definition(alloc: Global, value: &Value) -> Result<Definition, KeyFault>
    ensures upstream { IfOk result (λ definition. definition.upstream
        ≡ value_at as_str (codes "federation-upstream") (view value.now)) }
    ensures pattern { IfOk result (λ definition. definition.upstream_pattern
        ≡ value_at as_str (codes "federation-upstream-pattern") (view value.now)) }
    ensures set { IfOk result (λ definition. definition.set
        ≡ value_at as_str (codes "federation-upstream-set") (view value.now)) }
    ensures ok { OnOk result (policies.definition_fault (view value.now) ≡ None) }
    ensures fault { IfErr result (λ fault. fault ≢ KeyFault.Memory
        → policies.definition_fault (view value.now) ≡ Some fault) }
{
    let upstream = short_text_at(alloc, value, "federation-upstream")?;
    let upstream_pattern = optional_pattern_at(alloc, value, "federation-upstream-pattern")?;
    let set = short_text_at(alloc, value, "federation-upstream-set")?;
    Ok(Definition {
        upstream,
        upstream_pattern,
        set,
    })
}

/// Reads the definition of a policy, which has to be there.
#[tactic(auto, unfolding(crate::specs::Paths::object_fault))]
pub fn definition_at(alloc: Global, value: &Value) -> Result<Definition, KeyFault>
    ensures upstream { IfOk result (λ definition. definition.upstream
        ≡ policies.defined_at (codes "federation-upstream") (view value.now)) }
    ensures pattern { IfOk result (λ definition. definition.upstream_pattern
        ≡ policies.defined_at (codes "federation-upstream-pattern") (view value.now)) }
    ensures set { IfOk result (λ definition. definition.set
        ≡ policies.defined_at (codes "federation-upstream-set") (view value.now)) }
    ensures ok { OnOk result (policies.required_object policies.definition_fault (codes "definition")
        (get (codes "definition") (view value.now)) ≡ None) }
    ensures fault { IfErr result (λ fault. fault ≢ KeyFault.Memory
        → policies.required_object policies.definition_fault (codes "definition")
        (get (codes "definition") (view value.now)) ≡ Some fault) }
{
    let Some(found) = value_of(value, "definition") else {
        return Err(refused(alloc, "definition", Refusal::Shape));
    };
    if !found.is_object() {
        return Err(refused(alloc, "definition", misfit(found)));
    }
    match read_definition(alloc, found) {
        Ok(definition) => Ok(definition),
        Err(fault) => Err(below(alloc, "definition", fault)),
    }
}
