//! Parameters in the kept configuration.
ghost use Rattle.std.specs.Prelude.{◌≡◌, IfOk, OnOk, option_map, codes};
ghost use Rattle.serde_json.specs.Find.{get};
ghost use Rattle.serde_json.specs.View.{view, items_view, members_view};
ghost use Rattle.defs_kept.specs.Kept as kept;
ghost use Rattle.defs_values.specs.Parameters.{is_other_component, own_component};
ghost use Rattle.defs_lists.specs.Vhosts.{no_item};

use crate::kept::{Members, keep, keep_beside, keep_either, put};
use defs_values::keys::value_of;
use defs_values::parameters::{Component, is_other_component, own_component};
use serde_json::{Map, Value};
use std::alloc::{AllocError, Global};

/// Keeps what an upstream says beside its URIs, and the member of a set beside its upstream.
#[tactic(auto, unfolding(crate::specs::Kept::kept_overrides))]
fn keep_overrides(alloc: Global, members: &mut Members, value: &Value) -> Result<(), AllocError>
    ensures { OnOk result (members_view members.new.entries ≡ kept.kept_overrides (view value.now) (members_view members.old.entries)) }
{
    keep(alloc, members, value, "ack-mode")?;
    keep(alloc, members, value, "exchange")?;
    keep(alloc, members, value, "max-hops")?;
    keep(alloc, members, value, "prefetch-count")?;
    keep(alloc, members, value, "queue")?;
    keep(alloc, members, value, "reconnect-delay")
}

/// An upstream.
#[tactic(auto, unfolding(crate::specs::Kept::kept_upstream))]
fn kept_upstream(alloc: Global, value: &Value) -> Result<Value, AllocError>
    ensures { IfOk result (λ v. view v ≡ kept.kept_upstream (view value.now)) }
{
    let mut members = Map::new(alloc);
    keep_overrides(alloc, &mut members, value)?;
    keep(alloc, &mut members, value, "uri")?;
    Ok(Value::from(members))
}

/// A member of a set of upstreams.
#[tactic(auto, unfolding(crate::specs::Kept::kept_member))]
fn kept_member(alloc: Global, value: &Value) -> Result<Value, AllocError>
    ensures { IfOk result (λ v. view v ≡ kept.kept_member (view value.now)) }
{
    let mut members = Map::new(alloc);
    keep_overrides(alloc, &mut members, value)?;
    keep(alloc, &mut members, value, "upstream")?;
    Ok(Value::from(members))
}

/// The members of a set.
fn kept_members(alloc: Global, items: &[Value]) -> Result<Value, AllocError>
    ensures { IfOk result (λ v. view v ≡ kept.kept_items no_item kept.kept_member (items_view items.now)) }
{
    let mut list = Vec::new(alloc);
    for item in items {
        list.push(kept_member(alloc, item)?)?;
    }
    Ok(Value::from(list))
}

/// A set of upstreams.
#[tactic(auto, unfolding(crate::specs::Kept::kept_set))]
fn kept_set(alloc: Global, value: &Value) -> Result<Value, AllocError>
    ensures { IfOk result (λ v. view v ≡ kept.kept_set (view value.now)) }
{
    match value.as_array() {
        Some(items) => kept_members(alloc, items.as_slice()),
        None => kept_members(alloc, &[]),
    }
}

/// Keeps what a shovel does with messages.
#[tactic(auto, unfolding(crate::specs::Kept::kept_settings))]
fn keep_settings(alloc: Global, members: &mut Members, value: &Value) -> Result<(), AllocError>
    ensures { OnOk result (members_view members.new.entries ≡ kept.kept_settings (view value.now) (members_view members.old.entries)) }
{
    keep(alloc, members, value, "ack-mode")?;
    keep(alloc, members, value, "reconnect-delay")?;
    keep_either(
        alloc,
        members,
        value,
        "src-prefetch-count",
        "prefetch-count",
    )?;
    keep_either(alloc, members, value, "src-delete-after", "delete-after")?;
    keep_either(
        alloc,
        members,
        value,
        "dest-add-forward-headers",
        "add-forward-headers",
    )?;
    keep_either(
        alloc,
        members,
        value,
        "dest-publish-properties",
        "publish-properties",
    )
}

/// Keeps where a shovel takes from.
#[tactic(auto, unfolding(crate::specs::Kept::kept_source))]
fn keep_source(alloc: Global, members: &mut Members, value: &Value) -> Result<(), AllocError>
    ensures { OnOk result (members_view members.new.entries ≡ kept.kept_source (view value.now) (members_view members.old.entries)) }
{
    keep(alloc, members, value, "src-exchange")?;
    keep(alloc, members, value, "src-protocol")?;
    keep(alloc, members, value, "src-queue")?;
    keep(alloc, members, value, "src-uri")?;
    keep_beside(alloc, members, value, "src-exchange", "src-exchange-key")
}

/// Keeps where a shovel publishes.
#[tactic(auto, unfolding(crate::specs::Kept::kept_target))]
fn keep_target(alloc: Global, members: &mut Members, value: &Value) -> Result<(), AllocError>
    ensures { OnOk result (members_view members.new.entries ≡ kept.kept_target (view value.now) (members_view members.old.entries)) }
{
    keep(alloc, members, value, "dest-exchange")?;
    keep(alloc, members, value, "dest-protocol")?;
    keep(alloc, members, value, "dest-queue")?;
    keep(alloc, members, value, "dest-uri")?;
    keep_beside(alloc, members, value, "dest-exchange", "dest-exchange-key")
}

/// A shovel.
#[tactic(auto, unfolding(crate::specs::Kept::kept_shovel))]
fn kept_shovel(alloc: Global, value: &Value) -> Result<Value, AllocError>
    ensures { IfOk result (λ v. view v ≡ kept.kept_shovel (view value.now)) }
{
    let mut members = Map::new(alloc);
    keep_settings(alloc, &mut members, value)?;
    keep_source(alloc, &mut members, value)?;
    keep_target(alloc, &mut members, value)?;
    Ok(Value::from(members))
}

/// The value of a parameter.
fn kept_value(alloc: Global, component: Component, value: &Value) -> Result<Value, AllocError>
    ensures { IfOk result (λ v. view v ≡ kept.kept_value component (view value.now)) }
{
    match component {
        Component::Upstream => kept_upstream(alloc, value),
        Component::Set => kept_set(alloc, value),
        Component::Shovel => kept_shovel(alloc, value),
    }
}

/// The value at the key of a parameter, where it stands there.
fn kept_value_at(alloc: Global, value: &Value) -> Result<Option<Value>, AllocError>
    ensures { IfOk result (λ v. option_map view v
        ≡ option_map (kept.kept_value (own_component (view value.now))) (get (codes "value") (view value.now))) }
{
    match value_of(value, "value") {
        Some(found) => Ok(Some(kept_value(alloc, own_component(value), found)?)),
        None => Ok(None),
    }
}

/// A parameter.
#[tactic(auto, unfolding(crate::specs::Kept::kept_parameter))]
fn kept_parameter(alloc: Global, value: &Value) -> Result<Value, AllocError>
    ensures { IfOk result (λ v. view v ≡ kept.kept_parameter (view value.now)) }
{
    let mut members = Map::new(alloc);
    keep(alloc, &mut members, value, "component")?;
    keep(alloc, &mut members, value, "name")?;
    keep(alloc, &mut members, value, "vhost")?;
    put(alloc, &mut members, "value", kept_value_at(alloc, value)?)?;
    Ok(Value::from(members))
}

/// The parameters but those of other components.
pub fn kept_parameters(alloc: Global, items: &[Value]) -> Result<Value, AllocError>
    ensures { IfOk result (λ v. view v ≡ kept.kept_items is_other_component kept.kept_parameter (items_view items.now)) }
{
    let mut list = Vec::new(alloc);
    for item in items {
        if !is_other_component(item) {
            list.push(kept_parameter(alloc, item)?)?;
        }
    }
    Ok(Value::from(list))
}
