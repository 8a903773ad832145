//! A virtual host whose links are made, and its policies.
ghost use Rattle.std.specs.Prelude.{◌≡◌, map, IfOk};
ghost use Rattle.std.specs.List.{list_any};
ghost use Rattle.std.specs.Option.{option_copied};
ghost use Rattle.policy_core.specs.Policies.{policy_of};
ghost use Rattle.fed_defs.specs.Policies.{rule_of, policy_in};
ghost use Rattle.upstream_sets.specs.declared.table.Component.TheVariants as component;
ghost use Rattle.upstream_sets.specs.Fitting.{has_one_key, could_choose};
ghost use Rattle.upstream_sets.specs.Tables.{IsTableOf, IsTableOf-prop};

use crate::table::{Component, ParameterTable};
use fed_defs::{Config, Owner, PolicyDef, VhostConfig};
use policy_core::{ObjectKind, PolicyText, choose};
use std::alloc::{AllocError, Global};

/// A virtual host whose links are made, and what they are made from.
#[derive(Drop)]
pub(crate) struct Scope<'a> {
    /// Where memory is taken.
    pub(crate) alloc: Global,
    /// The brokers of the run.
    pub(crate) config: &'a Config,
    /// The virtual host as the owner of links.
    pub(crate) owner: &'a Owner,
    /// The virtual host.
    pub(crate) vhost: &'a VhostConfig,
    /// What decides between its policies, in their order.
    pub(crate) rules: &'a [PolicyText],
    /// Its upstreams under their names.
    pub(crate) upstreams: ParameterTable<'a>,
    /// Its sets of upstreams under their names.
    pub(crate) sets: ParameterTable<'a>,
    ghost ruled: { map policy_of rules.now ≡ map rule_of vhost.now.policies },
    ghost tabled: { IsTableOf component.Upstream upstreams vhost.now.parameters } by { IsTableOf-prop component.Upstream upstreams vhost.now.parameters },
    ghost tabled_sets: { IsTableOf component.Set sets vhost.now.parameters } by { IsTableOf-prop component.Set sets vhost.now.parameters },
}

/// What decides between a policy and others.
fn rule_of(alloc: Global, policy: &PolicyDef) -> Result<PolicyText, AllocError>
    ensures { IfOk result (λ rule. policy_of rule ≡ rule_of policy.now) }
{
    let name = String::from_str(alloc, policy.name.as_str())?;
    let pattern = policy.pattern.share()?;
    Ok(PolicyText {
        name,
        pattern,
        apply: policy.apply,
        priority: policy.priority,
    })
}

/// What decides between the policies of a virtual host.
pub(crate) fn rules_of(alloc: Global, vhost: &VhostConfig) -> Result<Vec<PolicyText>, AllocError>
    ensures { IfOk result (λ rules. map policy_of rules.items ≡ map rule_of vhost.now.policies) }
{
    let mut rules = Vec::new(alloc);
    for policy in vhost.policies.as_slice() {
        let rule = rule_of(alloc, policy)?;
        rules.push(rule)?;
    }
    Ok(rules)
}

/// The policy that applies to the object of this kind and name.
#[tactic(auto, unfolding(fed_defs::specs::Policies::policy_in))]
pub(crate) fn policy_in<'a>(
    scope: &Scope<'a>,
    kind: ObjectKind,
    name: &str,
) -> Result<Option<&'a PolicyDef>, AllocError>
    ensures { IfOk result (λ policy. option_copied policy ≡ policy_in scope.now.vhost.now kind name.now) }
{
    match choose(scope.alloc, scope.rules, kind, name)? {
        Some(index) => Ok(scope.vhost.policies.as_slice().get(index)),
        None => Ok(None),
    }
}

/// Whether the policy has exactly one of the three keys that choose upstreams.
fn has_one_key(policy: &PolicyDef) -> bool
    ensures { result ≡ has_one_key policy.now }
{
    match (&policy.upstream, &policy.set, &policy.upstream_pattern) {
        (Some(_), None, None) => true,
        (None, Some(_), None) => true,
        (None, None, Some(_)) => true,
        _ => false,
    }
}

/// Whether the policy chooses upstreams and fits the object.
#[tactic(auto, unfolding(crate::specs::Fitting::could_choose, policy_core::specs::Policies::fits))]
fn could_choose(
    alloc: Global,
    kind: ObjectKind,
    name: &str,
    policy: &PolicyDef,
) -> Result<bool, AllocError>
    ensures { IfOk result (λ answer. answer ≡ could_choose kind name.now policy.now) }
{
    if has_one_key(policy) && policy.apply.applies_to(kind) {
        policy.pattern.found(alloc, name)
    } else {
        Ok(false)
    }
}

/// Whether one of the policies could choose upstreams for the object. Few policies of many choose upstreams, so this
/// spares the search for the one that applies.
pub(crate) fn any_could_choose(
    scope: &Scope,
    kind: ObjectKind,
    name: &str,
) -> Result<bool, AllocError>
    ensures { IfOk result (λ answer. answer
        ≡ list_any (could_choose kind name.now) scope.now.vhost.now.policies) }
{
    for policy in scope.vhost.policies.as_slice() {
        if could_choose(scope.alloc, kind, name, policy)? {
            return Ok(true);
        }
    }
    Ok(false)
}
