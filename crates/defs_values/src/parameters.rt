//! The parameters of a definitions file.
ghost use Rattle.std.specs.Prelude.{◌≡◌, ◌≢◌, None, Some, IfOk, OnOk, IfErr, codes};
ghost use Rattle.serde_json.specs.View.{view, items_view};
ghost use Rattle.serde_json.specs.Find.{get, as_str};
ghost use Rattle.defs_values.specs.Parameters as parameters;
ghost use Rattle.defs_values.specs.Keys.{required_fault};
ghost use Rattle.defs_values.specs.Paths.{item_fault};

use crate::fault::{KeyFault, Refusal};
use crate::inert::{KeySet, add, inert_of, shovel_inert};
use crate::keys::{refused, text_at, value_of};
use crate::paths::{at_item, below, in_item};
use crate::shovel;
use crate::upstream::{self, read_overrides};
use crate::value::{is_word, misfit};
use fed_defs::{ParameterValue, Sequence, SetMember};
use serde_json::Value;
use std::alloc::Global;

/// The components whose parameters have a meaning.
#[derive(Clone, Copy, Debug, PartialEq, Eq)]
pub enum Component {
    /// `federation-upstream`.
    Upstream,
    /// `federation-upstream-set`.
    Set,
    /// `shovel`.
    Shovel,
}

/// The component that the word says.
#[tactic(auto, unfolding(crate::specs::Parameters::component_word))]
fn component_word(text: &str) -> Option<Component>
    ensures { result ≡ parameters.component_word text.now }
{
    if is_word(text, "federation-upstream") {
        return Some(Component::Upstream);
    }
    if is_word(text, "federation-upstream-set") {
        return Some(Component::Set);
    }
    if is_word(text, "shovel") {
        return Some(Component::Shovel);
    }
    None
}

/// Whether the parameter is of another component.
#[tactic(auto, unfolding(crate::specs::Parameters::is_other_component))]
pub fn is_other_component(value: &Value) -> bool
    ensures { result ≡ parameters.is_other_component (view value.now) }
{
    match value_of(value, "component").and_then(Value::as_str) {
        Some(text) => component_word(text).is_none(),
        None => false,
    }
}

/// The component of a parameter that is kept.
pub fn own_component(value: &Value) -> Component
    ensures { result ≡ parameters.own_component (view value.now) }
{
    let component = value_of(value, "component").and_then(Value::as_str);
    component
        .and_then(component_word)
        .unwrap_or(Component::Upstream)
}

/// Reads a member of a set.
#[tactic(auto, unfolding(crate::specs::Parameters::member_of, crate::specs::Parameters::member_fault))]
fn read_member(alloc: Global, value: &Value) -> Result<SetMember, KeyFault>
    ensures read { IfOk result (λ member. member ≡ parameters.member_of (view value.now)) }
    ensures ok { OnOk result (parameters.member_fault (view value.now) ≡ None) }
    ensures fault { IfErr result (λ fault. fault ≢ KeyFault.Memory
        → parameters.member_fault (view value.now) ≡ Some fault) }
{
    let own = read_overrides(alloc, value)?;
    let upstream = text_at(alloc, value, "upstream")?;
    Ok(SetMember { upstream, own })
}

/// Reads an item of a set.
#[tactic(auto, unfolding(crate::specs::Paths::item_fault))]
fn read_item(alloc: Global, index: usize, value: &Value) -> Result<SetMember, KeyFault>
    ensures read { IfOk result (λ member. member ≡ parameters.member_of (view value.now)) }
    ensures ok { OnOk result (item_fault (codes "value") index (view value.now) (parameters.member_fault (view value.now)) ≡ None) }
    ensures fault { IfErr result (λ fault. fault ≢ KeyFault.Memory
        → item_fault (codes "value") index (view value.now) (parameters.member_fault (view value.now)) ≡ Some fault) }
{
    if !value.is_object() {
        return Err(at_item(alloc, "value", index, misfit(value)));
    }
    match read_member(alloc, value) {
        Ok(member) => Ok(member),
        Err(fault) => Err(in_item(alloc, "value", index, fault)),
    }
}

/// Reads the members of a set.
fn read_members(alloc: Global, items: &[Value]) -> Result<Vec<SetMember>, KeyFault>
    ensures read { IfOk result (λ members. members.items ≡ parameters.members_of (items_view items.now)) }
    ensures ok { OnOk result (parameters.members_fault 0 (items_view items.now) ≡ None) }
    ensures fault { IfErr result (λ fault. fault ≢ KeyFault.Memory
        → parameters.members_fault 0 (items_view items.now) ≡ Some fault) }
{
    let mut members = Vec::new(alloc);
    for (index, value) in items.iter().enumerate() {
        let member = read_item(alloc, index, value)?;
        members.push(member)?;
    }
    Ok(members)
}

/// Reads a set of upstreams.
#[tactic(auto, unfolding(crate::specs::Parameters::set_of, crate::specs::Parameters::set_fault))]
fn read_set(alloc: Global, value: &Value) -> Result<Sequence<SetMember>, KeyFault>
    ensures read { IfOk result (λ members. members ≡ parameters.set_of (view value.now)) }
    ensures ok { OnOk result (parameters.set_fault (view value.now) ≡ None) }
    ensures fault { IfErr result (λ fault. fault ≢ KeyFault.Memory
        → parameters.set_fault (view value.now) ≡ Some fault) }
{
    let Some(items) = value.as_array() else {
        return Err(refused(alloc, "value", misfit(value)));
    };
    let members = read_members(alloc, items.as_slice())?;
    Ok(Sequence::new(members))
}

/// Reads an upstream, which has to be an object.
#[tactic(auto, unfolding(crate::specs::Paths::object_fault))]
fn read_upstream(alloc: Global, value: &Value) -> Result<ParameterValue, KeyFault>
    ensures read { IfOk result (λ meant. meant ≡ parameters.value_of Component.Upstream (view value.now)) }
    ensures ok { OnOk result (parameters.value_fault Component.Upstream (view value.now) ≡ None) }
    ensures fault { IfErr result (λ fault. fault ≢ KeyFault.Memory
        → parameters.value_fault Component.Upstream (view value.now) ≡ Some fault) }
{
    if !value.is_object() {
        return Err(refused(alloc, "value", misfit(value)));
    }
    match upstream::read_keys(alloc, value) {
        Ok(upstream) => Ok(ParameterValue::Upstream(upstream)),
        Err(fault) => Err(below(alloc, "value", fault)),
    }
}

/// Reads a shovel, which has to be an object.
#[tactic(auto, unfolding(crate::specs::Paths::object_fault))]
fn read_shovel(alloc: Global, value: &Value) -> Result<ParameterValue, KeyFault>
    ensures read { IfOk result (λ meant. meant ≡ parameters.value_of Component.Shovel (view value.now)) }
    ensures ok { OnOk result (parameters.value_fault Component.Shovel (view value.now) ≡ None) }
    ensures fault { IfErr result (λ fault. fault ≢ KeyFault.Memory
        → parameters.value_fault Component.Shovel (view value.now) ≡ Some fault) }
{
    if !value.is_object() {
        return Err(refused(alloc, "value", misfit(value)));
    }
    match shovel::read_keys(alloc, value) {
        Ok(shovel) => Ok(ParameterValue::Shovel(shovel)),
        Err(fault) => Err(below(alloc, "value", fault)),
    }
}

/// Reads the value of a parameter.
fn read_value(
    alloc: Global,
    component: Component,
    value: &Value,
) -> Result<ParameterValue, KeyFault>
    ensures read { IfOk result (λ meant. meant ≡ parameters.value_of component (view value.now)) }
    ensures ok { OnOk result (parameters.value_fault component (view value.now) ≡ None) }
    ensures fault { IfErr result (λ fault. fault ≢ KeyFault.Memory
        → parameters.value_fault component (view value.now) ≡ Some fault) }
{
    match component {
        Component::Upstream => read_upstream(alloc, value),
        Component::Set => {
            let members = read_set(alloc, value)?;
            Ok(ParameterValue::Set(members))
        }
        Component::Shovel => read_shovel(alloc, value),
    }
}

/// How many keys of the members are inert.
fn members_inert(items: &[Value]) -> Result<u32, KeyFault>
    ensures count { IfOk result (λ count. count ≡ parameters.members_inert (items_view items.now)) }
    ensures fault { IfErr result (λ fault. fault ≡ KeyFault.Memory) }
{
    let mut count = 0;
    for item in items {
        count = add(count, inert_of(KeySet::Member, item)?)?;
    }
    Ok(count)
}

/// How many keys of a parameter's value are inert.
pub fn value_inert(component: Component, value: &Value) -> Result<u32, KeyFault>
    ensures count { IfOk result (λ count. count ≡ parameters.value_inert component (view value.now)) }
    ensures fault { IfErr result (λ fault. fault ≡ KeyFault.Memory) }
{
    match component {
        Component::Upstream => inert_of(KeySet::Upstream, value),
        Component::Set => match value.as_array() {
            Some(items) => members_inert(items.as_slice()),
            None => Ok(0),
        },
        Component::Shovel => shovel_inert(value),
    }
}

/// Checks that a text stands at the key.
#[tactic(auto, unfolding(crate::specs::Keys::required_fault, crate::specs::Parameters::component_refusal))]
pub fn check_text(alloc: Global, value: &Value, key: &str) -> Result<(), KeyFault>
    ensures ok { OnOk result (required_fault parameters.component_refusal key.now (view value.now) ≡ None) }
    ensures fault { IfErr result (λ fault. fault ≢ KeyFault.Memory
        → required_fault parameters.component_refusal key.now (view value.now) ≡ Some fault) }
{
    let Some(found) = value_of(value, key) else {
        return Err(refused(alloc, key, Refusal::Shape));
    };
    match found.as_str() {
        Some(_) => Ok(()),
        None => Err(refused(alloc, key, misfit(found))),
    }
}

/// Reads the value of a parameter, which has to be there.
pub fn own_value(
    alloc: Global,
    component: Component,
    value: &Value,
) -> Result<ParameterValue, KeyFault>
    ensures read { IfOk result (λ meant. meant ≡ parameters.value_of component (parameters.own_value (view value.now))) }
    ensures ok { OnOk result (parameters.own_value_fault component (get (codes "value") (view value.now)) ≡ None) }
    ensures fault { IfErr result (λ fault. fault ≢ KeyFault.Memory
        → parameters.own_value_fault component (get (codes "value") (view value.now)) ≡ Some fault) }
{
    let Some(found) = value_of(value, "value") else {
        return Err(refused(alloc, "value", Refusal::Shape));
    };
    read_value(alloc, component, found)
}
