//! The upstreams that policies choose.
ghost use Rattle.std.specs.Prelude.{◌≡◌, [], IfOk, None, unwrap_or};
ghost use Rattle.std.specs.Option.{option_copied, option_or};
ghost use Rattle.fed_defs.specs.Choices as choices;
ghost use Rattle.fed_defs.specs.Choices.{no_overrides};

use crate::places::first_place;
use crate::scope::Scope;
use amqp_props::Text;
use fed_defs::{
    Choice, Overrides, ParameterDef, ParameterValue, PolicyDef, SetMember, SharedPattern,
    UpstreamDef,
};
use std::alloc::AllocError;

/// The upstream that the parameter is.
fn upstream_in(parameter: &ParameterDef) -> Option<&UpstreamDef>
    ensures { option_copied result ≡ choices.upstream_value parameter.now.value }
{
    match &parameter.value {
        ParameterValue::Upstream(upstream) => Some(upstream),
        _ => None,
    }
}

/// The members of the set that the parameter is.
fn members_in(parameter: &ParameterDef) -> &[SetMember]
    ensures { result.now ≡ unwrap_or (choices.set_value parameter.now.value) [] }
{
    match &parameter.value {
        ParameterValue::Set(members) => members.as_slice(),
        _ => &[],
    }
}

/// The upstream of that name.
fn upstream_named<'a>(scope: &Scope<'a>, name: &Text) -> Option<&'a UpstreamDef>
    ensures { option_copied result ≡ choices.upstream_named scope.now.vhost.now name.now }
{
    match scope.upstreams.find(name.as_str()) {
        Some(parameter) => upstream_in(parameter),
        None => None,
    }
}

/// The members of the set of that name; none where there is no such set.
fn members_of<'a>(scope: &Scope<'a>, name: &Text) -> &'a [SetMember]
    ensures { result.now ≡ choices.members_of scope.now.vhost.now name.now }
{
    match scope.sets.find(name.as_str()) {
        Some(parameter) => members_in(parameter),
        None => &[],
    }
}

/// A copy of the first text, or of the other where it is absent.
fn first_text(one: &Option<Text>, other: &Option<Text>) -> Result<Option<Text>, AllocError>
    ensures { IfOk result (λ copy. copy ≡ option_or one.now other.now) }
{
    match (one, other) {
        (Some(text), _) => Ok(Some(text.clone()?)),
        (None, Some(text)) => Ok(Some(text.clone()?)),
        (None, None) => Ok(None),
    }
}

/// The keys of an upstream, of which those of a set's member win.
#[tactic(auto, unfolding(fed_defs::specs::Choices::overridden))]
fn overridden(member: &Overrides, upstream: &Overrides) -> Result<Overrides, AllocError>
    ensures { IfOk result (λ own. own ≡ choices.overridden member.now upstream.now) }
{
    let exchange = first_text(&member.exchange, &upstream.exchange)?;
    let queue = first_text(&member.queue, &upstream.queue)?;
    Ok(Overrides {
        mode: member.mode.or(upstream.mode),
        prefetch: member.prefetch.or(upstream.prefetch),
        delay: member.delay.or(upstream.delay),
        max_hops: member.max_hops.or(upstream.max_hops),
        exchange,
        queue,
    })
}

/// No key of an upstream is overridden.
const fn no_overrides() -> Overrides
    ensures { result ≡ no_overrides }
{
    Overrides {
        mode: None,
        prefetch: None,
        delay: None,
        max_hops: None,
        exchange: None,
        queue: None,
    }
}

/// An upstream that is chosen.
#[tactic(auto, unfolding(fed_defs::specs::Choices::choice))]
fn choice(
    scope: &Scope,
    member: &Overrides,
    name: &Text,
    upstream: &UpstreamDef,
) -> Result<Choice, AllocError>
    ensures { IfOk result (λ choice. choice
        ≡ choices.choice scope.now.config.now scope.now.owner.now member.now name.now upstream.now) }
{
    let source = first_place(scope.alloc, scope.config, scope.owner, &upstream.uris)?;
    let own = overridden(member, &upstream.own)?;
    let upstream = name.clone()?;
    Ok(Choice {
        upstream,
        source,
        own,
    })
}

/// The upstream of that name, if there is one.
#[tactic(auto, unfolding(fed_defs::specs::Choices::choice_named))]
fn choice_named(
    scope: &Scope,
    member: &Overrides,
    name: &Text,
) -> Result<Option<Choice>, AllocError>
    ensures { IfOk result (λ choice. choice
        ≡ choices.choice_named scope.now.config.now scope.now.owner.now scope.now.vhost.now
        member.now name.now) }
{
    match upstream_named(scope, name) {
        Some(upstream) => Ok(Some(choice(scope, member, name, upstream)?)),
        None => Ok(None),
    }
}

/// The choice of a parameter that is an upstream.
#[tactic(auto, unfolding(fed_defs::specs::Choices::upstream_choice))]
fn upstream_choice(scope: &Scope, parameter: &ParameterDef) -> Result<Option<Choice>, AllocError>
    ensures { IfOk result (λ choice. choice
        ≡ choices.upstream_choice scope.now.config.now scope.now.owner.now parameter.now) }
{
    let ParameterValue::Upstream(upstream) = &parameter.value else {
        return Ok(None);
    };
    let member = no_overrides();
    let choice = choice(scope, &member, &parameter.name, upstream)?;
    Ok(Some(choice))
}

/// Every upstream of the virtual host, in the order in which they were set.
#[tactic(auto, unfolding(fed_defs::specs::Choices::all_choices))]
fn all_choices(scope: &Scope) -> Result<Vec<Choice>, AllocError>
    ensures { IfOk result (λ list. list.items
        ≡ choices.all_choices scope.now.config.now scope.now.owner.now scope.now.vhost.now) }
{
    let mut list = Vec::new(scope.alloc);
    for parameter in scope.vhost.parameters.as_slice() {
        if let Some(choice) = upstream_choice(scope, parameter)? {
            list.push(choice)?;
        }
    }
    Ok(list)
}

/// The upstreams of a set, in the order of its members.
#[tactic(auto, unfolding(fed_defs::specs::Choices::member_choices, fed_defs::specs::Choices::member_choice))]
fn member_choices(scope: &Scope, set: &Text) -> Result<Vec<Choice>, AllocError>
    ensures { IfOk result (λ list. list.items
        ≡ choices.member_choices scope.now.config.now scope.now.owner.now scope.now.vhost.now set.now) }
{
    let mut list = Vec::new(scope.alloc);
    for member in members_of(scope, set) {
        let choice = choice_named(scope, &member.own, &member.upstream)?;
        if let Some(choice) = choice {
            list.push(choice)?;
        }
    }
    Ok(list)
}

/// The upstream of `federation-upstream`.
#[tactic(auto, unfolding(fed_defs::specs::Choices::named_choices))]
fn named_choices(scope: &Scope, name: &Text) -> Result<Vec<Choice>, AllocError>
    ensures { IfOk result (λ list. list.items
        ≡ choices.named_choices scope.now.config.now scope.now.owner.now scope.now.vhost.now name.now) }
{
    let mut list = Vec::new(scope.alloc);
    let member = no_overrides();
    if let Some(choice) = choice_named(scope, &member, name)? {
        list.push(choice)?;
    }
    Ok(list)
}

/// The upstreams of `federation-upstream-set`.
#[tactic(auto, unfolding(fed_defs::specs::Choices::set_choices))]
fn set_choices(scope: &Scope, set: &Text) -> Result<Vec<Choice>, AllocError>
    ensures { IfOk result (λ list. list.items
        ≡ choices.set_choices scope.now.config.now scope.now.owner.now scope.now.vhost.now set.now) }
{
    if set.as_str() == "all" {
        all_choices(scope)
    } else {
        member_choices(scope, set)
    }
}

/// The choice of a parameter that is an upstream and in whose name the pattern is found.
#[tactic(auto, unfolding(fed_defs::specs::Choices::pattern_choice))]
fn pattern_choice(
    scope: &Scope,
    pattern: &SharedPattern,
    parameter: &ParameterDef,
) -> Result<Option<Choice>, AllocError>
    ensures { IfOk result (λ choice. choice
        ≡ choices.pattern_choice scope.now.config.now scope.now.owner.now pattern.now parameter.now) }
{
    if pattern.found(scope.alloc, parameter.name.as_str())? {
        upstream_choice(scope, parameter)
    } else {
        Ok(None)
    }
}

/// The upstreams of `federation-upstream-pattern`.
#[tactic(auto, unfolding(fed_defs::specs::Choices::pattern_choices))]
fn pattern_choices(scope: &Scope, pattern: &SharedPattern) -> Result<Vec<Choice>, AllocError>
    ensures { IfOk result (λ list. list.items
        ≡ choices.pattern_choices scope.now.config.now scope.now.owner.now scope.now.vhost.now pattern.now) }
{
    let mut list = Vec::new(scope.alloc);
    for parameter in scope.vhost.parameters.as_slice() {
        if let Some(choice) = pattern_choice(scope, pattern, parameter)? {
            list.push(choice)?;
        }
    }
    Ok(list)
}

/// The upstreams that a policy chooses: those of its one key of the three.
#[tactic(auto, unfolding(fed_defs::specs::Choices::policy_choices))]
pub(crate) fn policy_choices(scope: &Scope, policy: &PolicyDef) -> Result<Vec<Choice>, AllocError>
    ensures { IfOk result (λ list. list.items
        ≡ choices.policy_choices scope.now.config.now scope.now.owner.now scope.now.vhost.now
        policy.now) }
{
    match (&policy.upstream, &policy.set, &policy.upstream_pattern) {
        (Some(name), None, None) => named_choices(scope, name),
        (None, Some(set), None) => set_choices(scope, set),
        (None, None, Some(pattern)) => pattern_choices(scope, pattern),
        _ => Ok(Vec::new(scope.alloc)),
    }
}
