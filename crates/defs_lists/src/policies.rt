//! The policies of a definitions file.
ghost use Rattle.std.specs.Option.{option_or};
ghost use Rattle.std.specs.Prelude.{◌≡◌, ◌≢◌, ◌++◌, ◌∷◌, [], None, Some, IfOk, OnOk, IfErr, codes, unwrap_or};
ghost use Rattle.serde_json.specs.View.{view, items_view};
ghost use Rattle.defs_lists.specs.PolicyItems as policies;
ghost use Rattle.defs_values.specs.Policies as policy_values;
ghost use Rattle.defs_lists.specs.Vhosts as hosts;
ghost use Rattle.defs_values.specs.Texts as texts;
ghost use Rattle.defs_values.specs.Keys.{value_at};
ghost use Rattle.defs_lists.specs.Names.{has_name};
ghost use Rattle.defs_values.specs.Paths.{whole_fault};
ghost use Rattle.defs_lists.specs.Queues.{object_name};

use crate::names::{Names, once};
use crate::placed::Placed;
use crate::queues::object_name;
use crate::vhosts::own_vhost;
use amqp_props::Text;
use defs_values::fault::KeyFault;
use defs_values::inert::{KeySet, add, inert_at};
use defs_values::keys::text_at;
use defs_values::paths::{at_item, in_item};
use defs_values::policies::{apply_at, definition_at, pattern_at, priority_at};
use defs_values::value::misfit;
use fed_defs::{PolicyDef, SharedPattern};
use policy_core::Apply;
use serde_json::Value;
use std::alloc::Global;

/// What the first keys of a policy say.
#[derive(Drop)]
struct Front {
    vhost: Text,
    name: Text,
    pattern: SharedPattern,
    apply: Apply,
}

/// Reads the keys up to `apply-to`.
#[tactic(auto, unfolding(crate::specs::PolicyItems::policy_front_fault))]
fn read_front(alloc: Global, vhosts: &Names, value: &Value) -> Result<Front, KeyFault>
    ensures vhost { IfOk result (λ front. front.vhost ≡ hosts.vhost_at (view value.now)) }
    ensures name { IfOk result (λ front. front.name ≡ texts.text_at (codes "name") (view value.now)) }
    ensures pattern { IfOk result (λ front. front.pattern ≡ texts.text_at (codes "pattern") (view value.now)) }
    ensures apply { IfOk result (λ front. front.apply
        ≡ unwrap_or (value_at policy_values.apply_at (codes "apply-to") (view value.now)) Apply.All) }
    ensures ok { OnOk result (policies.policy_front_fault vhosts.now (view value.now) ≡ None) }
    ensures fault { IfErr result (λ fault. fault ≢ KeyFault.Memory
        → policies.policy_front_fault vhosts.now (view value.now) ≡ Some fault) }
{
    let vhost = own_vhost(alloc, vhosts, value)?;
    let name = text_at(alloc, value, "name")?;
    let pattern = pattern_at(alloc, value, "pattern")?;
    let apply = apply_at(alloc, value)?;
    Ok(Front {
        vhost,
        name,
        pattern,
        apply,
    })
}

/// Reads the keys of a policy.
#[tactic(auto, unfolding(crate::specs::PolicyItems::policy_all_fault, crate::specs::PolicyItems::policy_of))]
fn read_all(alloc: Global, vhosts: &Names, value: &Value) -> Result<Placed<PolicyDef>, KeyFault>
    ensures read { IfOk result (λ policy. policy ≡ policies.policy_of (view value.now)) }
    ensures ok { OnOk result (policies.policy_all_fault vhosts.now (view value.now) ≡ None) }
    ensures fault { IfErr result (λ fault. fault ≢ KeyFault.Memory
        → policies.policy_all_fault vhosts.now (view value.now) ≡ Some fault) }
{
    let front = read_front(alloc, vhosts, value)?;
    let definition = definition_at(alloc, value)?;
    let priority = priority_at(alloc, value)?;
    let item = PolicyDef {
        name: front.name,
        pattern: front.pattern,
        apply: front.apply,
        priority,
        upstream: definition.upstream,
        set: definition.set,
        upstream_pattern: definition.upstream_pattern,
    };
    Ok(Placed {
        vhost: front.vhost,
        item,
    })
}

/// Reads a policy.
#[tactic(auto, unfolding(crate::specs::PolicyItems::policy_fault, defs_values::specs::Paths::item_fault))]
fn read_policy(
    alloc: Global,
    vhosts: &Names,
    index: usize,
    value: &Value,
) -> Result<Placed<PolicyDef>, KeyFault>
    ensures read { IfOk result (λ policy. policy ≡ policies.policy_of (view value.now)) }
    ensures ok { OnOk result (policies.policy_fault vhosts.now index (view value.now) ≡ None) }
    ensures fault { IfErr result (λ fault. fault ≢ KeyFault.Memory
        → policies.policy_fault vhosts.now index (view value.now) ≡ Some fault) }
{
    if !value.is_object() {
        return Err(at_item(alloc, "policies", index, misfit(value)));
    }
    match read_all(alloc, vhosts, value) {
        Ok(policy) => Ok(policy),
        Err(fault) => Err(in_item(alloc, "policies", index, fault)),
    }
}

/// How many keys of a policy are inert.
#[tactic(auto, unfolding(crate::specs::PolicyItems::policy_inert))]
fn policy_inert(value: &Value) -> Result<u32, KeyFault>
    ensures count { IfOk result (λ count. count ≡ policies.policy_inert (view value.now)) }
    ensures fault { IfErr result (λ fault. fault ≡ KeyFault.Memory) }
{
    inert_at(KeySet::Policy, value, "definition")
}

/// Reads a policy whose name doesn't stand among those before it, and puts its name behind them.
fn take_policy(
    alloc: Global,
    vhosts: &Names,
    names: &mut Names,
    index: usize,
    value: &Value,
) -> Result<Placed<PolicyDef>, KeyFault>
    ensures read { IfOk result (λ policy. policy ≡ policies.policy_of (view value.now)) }
    ensures named { OnOk result (names.new ≡ names.old ++ object_name (view value.now) ∷ []) }
    ensures ok { OnOk result (policies.policy_fault vhosts.now index (view value.now) ≡ None) }
    ensures once { OnOk result (whole_fault (codes "policies") index (has_name (object_name (view value.now)) names.old) ≡ None) }
    ensures fault { IfErr result (λ fault. fault ≢ KeyFault.Memory
        → option_or (policies.policy_fault vhosts.now index (view value.now))
        (whole_fault (codes "policies") index (has_name (object_name (view value.now)) names.old)) ≡ Some fault) }
{
    let policy = read_policy(alloc, vhosts, index, value)?;
    let name = object_name(alloc, value)?;
    once(alloc, names, &name, "policies", index)?;
    names.add(name)?;
    Ok(policy)
}

/// What the list of policies holds.
#[derive(Drop)]
pub struct PolicyList {
    /// The policies.
    pub kept: Vec<Placed<PolicyDef>>,
    /// How many keys are inert.
    pub inert: u32,
}

/// Reads the list of policies.
pub fn read_policies(alloc: Global, vhosts: &Names, items: &[Value]) -> Result<PolicyList, KeyFault>
    ensures kept { IfOk result (λ list. list.kept.items ≡ policies.policies_of (items_view items.now)) }
    ensures inert { IfOk result (λ list. list.inert ≡ policies.policies_inert (items_view items.now)) }
    ensures ok { OnOk result (policies.policies_fault vhosts.now [] 0 (items_view items.now) ≡ None) }
    ensures fault { IfErr result (λ fault. fault ≢ KeyFault.Memory
        → policies.policies_fault vhosts.now [] 0 (items_view items.now) ≡ Some fault) }
{
    let mut kept = Vec::new(alloc);
    let mut names = Names::new(alloc);
    let mut inert = 0;
    for (index, value) in items.iter().enumerate() {
        let policy = take_policy(alloc, vhosts, &mut names, index, value)?;
        kept.push(policy)?;
        inert = add(inert, policy_inert(value)?)?;
    }
    Ok(PolicyList { kept, inert })
}
