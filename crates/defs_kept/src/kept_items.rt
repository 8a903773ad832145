//! The other items of a definitions file in the kept configuration.
ghost use Rattle.std.specs.Prelude.{◌≡◌, false, IfOk, OnOk, option_map, codes};
ghost use Rattle.serde_json.specs.Find.{get};
ghost use Rattle.serde_json.specs.View.{view, items_view, members_view};
ghost use Rattle.defs_lists.specs.Bindings as bindings;
ghost use Rattle.defs_lists.specs.Clusters as clusters;
ghost use Rattle.defs_lists.specs.Exchanges as exchanges;
ghost use Rattle.defs_kept.specs.Kept as kept;
ghost use Rattle.defs_lists.specs.Queues as queues;
ghost use Rattle.defs_lists.specs.Vhosts.{no_item};

use crate::kept::{Members, keep, put};
use defs_lists::bindings::{Objects, is_passed_item};
use defs_lists::clusters::is_other_global;
use defs_lists::exchanges::is_passed_exchange;
use defs_lists::queues::is_passed_queue;
use defs_values::keys::value_of;
use serde_json::{Map, Value};
use std::alloc::{AllocError, Global};

/// A virtual host.
#[tactic(auto, unfolding(crate::specs::Kept::kept_vhost))]
fn kept_vhost(alloc: Global, value: &Value) -> Result<Value, AllocError>
    ensures { IfOk result (λ v. view v ≡ kept.kept_vhost (view value.now)) }
{
    let mut members = Map::new(alloc);
    keep(alloc, &mut members, value, "name")?;
    Ok(Value::from(members))
}

/// The virtual hosts.
pub fn kept_vhosts(alloc: Global, items: &[Value]) -> Result<Value, AllocError>
    ensures { IfOk result (λ v. view v ≡ kept.kept_items no_item kept.kept_vhost (items_view items.now)) }
{
    let mut list = Vec::new(alloc);
    for item in items {
        list.push(kept_vhost(alloc, item)?)?;
    }
    Ok(Value::from(list))
}

/// A global parameter.
#[tactic(auto, unfolding(crate::specs::Kept::kept_global))]
fn kept_global(alloc: Global, value: &Value) -> Result<Value, AllocError>
    ensures { IfOk result (λ v. view v ≡ kept.kept_global (view value.now)) }
{
    let mut members = Map::new(alloc);
    keep(alloc, &mut members, value, "name")?;
    keep(alloc, &mut members, value, "value")?;
    Ok(Value::from(members))
}

/// The global parameters that are read.
pub fn kept_globals(alloc: Global, items: &[Value]) -> Result<Value, AllocError>
    ensures { IfOk result (λ v. view v ≡ kept.kept_items clusters.is_other_global kept.kept_global (items_view items.now)) }
{
    let mut list = Vec::new(alloc);
    for item in items {
        if !is_other_global(item) {
            list.push(kept_global(alloc, item)?)?;
        }
    }
    Ok(Value::from(list))
}

/// What the definition of a policy says.
#[tactic(auto, unfolding(crate::specs::Kept::kept_definition))]
fn kept_definition(alloc: Global, value: &Value) -> Result<Value, AllocError>
    ensures { IfOk result (λ v. view v ≡ kept.kept_definition (view value.now)) }
{
    let mut members = Map::new(alloc);
    keep(alloc, &mut members, value, "federation-upstream")?;
    keep(alloc, &mut members, value, "federation-upstream-pattern")?;
    keep(alloc, &mut members, value, "federation-upstream-set")?;
    Ok(Value::from(members))
}

/// The definition of a policy, where it stands there.
fn kept_definition_at(alloc: Global, value: &Value) -> Result<Option<Value>, AllocError>
    ensures { IfOk result (λ v. option_map view v
        ≡ option_map kept.kept_definition (get (codes "definition") (view value.now))) }
{
    match value_of(value, "definition") {
        Some(found) => Ok(Some(kept_definition(alloc, found)?)),
        None => Ok(None),
    }
}

/// A policy.
#[tactic(auto, unfolding(crate::specs::Kept::kept_policy))]
fn kept_policy(alloc: Global, value: &Value) -> Result<Value, AllocError>
    ensures { IfOk result (λ v. view v ≡ kept.kept_policy (view value.now)) }
{
    let mut members = Map::new(alloc);
    keep(alloc, &mut members, value, "apply-to")?;
    keep(alloc, &mut members, value, "name")?;
    keep(alloc, &mut members, value, "pattern")?;
    keep(alloc, &mut members, value, "priority")?;
    keep(alloc, &mut members, value, "vhost")?;
    put(
        alloc,
        &mut members,
        "definition",
        kept_definition_at(alloc, value)?,
    )?;
    Ok(Value::from(members))
}

/// The policies.
pub fn kept_policies(alloc: Global, items: &[Value]) -> Result<Value, AllocError>
    ensures { IfOk result (λ v. view v ≡ kept.kept_items no_item kept.kept_policy (items_view items.now)) }
{
    let mut list = Vec::new(alloc);
    for item in items {
        list.push(kept_policy(alloc, item)?)?;
    }
    Ok(Value::from(list))
}

/// The arguments of a queue: its type.
#[tactic(auto, unfolding(crate::specs::Kept::kept_arguments))]
fn kept_arguments(alloc: Global, value: &Value) -> Result<Value, AllocError>
    ensures { IfOk result (λ v. view v ≡ kept.kept_arguments (view value.now)) }
{
    let mut members = Map::new(alloc);
    keep(alloc, &mut members, value, "x-queue-type")?;
    Ok(Value::from(members))
}

/// The arguments of a queue, where they stand there.
fn kept_arguments_at(alloc: Global, value: &Value) -> Result<Option<Value>, AllocError>
    ensures { IfOk result (λ v. option_map view v
        ≡ option_map kept.kept_arguments (get (codes "arguments") (view value.now))) }
{
    match value_of(value, "arguments") {
        Some(found) => Ok(Some(kept_arguments(alloc, found)?)),
        None => Ok(None),
    }
}

/// A queue.
#[tactic(auto, unfolding(crate::specs::Kept::kept_queue))]
fn kept_queue(alloc: Global, value: &Value) -> Result<Value, AllocError>
    ensures { IfOk result (λ v. view v ≡ kept.kept_queue (view value.now)) }
{
    let mut members = Map::new(alloc);
    keep(alloc, &mut members, value, "auto_delete")?;
    keep(alloc, &mut members, value, "durable")?;
    keep(alloc, &mut members, value, "name")?;
    keep(alloc, &mut members, value, "vhost")?;
    put(
        alloc,
        &mut members,
        "arguments",
        kept_arguments_at(alloc, value)?,
    )?;
    Ok(Value::from(members))
}

/// The queues but those that are passed over.
pub fn kept_queues(alloc: Global, items: &[Value]) -> Result<Value, AllocError>
    ensures { IfOk result (λ v. view v ≡ kept.kept_items queues.is_passed_queue kept.kept_queue (items_view items.now)) }
{
    let mut list = Vec::new(alloc);
    for item in items {
        if !is_passed_queue(item) {
            list.push(kept_queue(alloc, item)?)?;
        }
    }
    Ok(Value::from(list))
}

/// The arguments of an exchange, where they stand there: none of them.
#[tactic(auto, unfolding(crate::specs::Kept::no_arguments))]
fn no_arguments_at(alloc: Global, value: &Value) -> Option<Value>
    ensures { option_map view result
        ≡ option_map kept.no_arguments (get (codes "arguments") (view value.now)) }
{
    value_of(value, "arguments")?;
    Some(Value::from(Map::new(alloc)))
}

/// Whether the exchange is an auto-delete one.
fn is_auto_delete(value: &Value) -> bool
    ensures { result ≡ queues.flag_at (codes "auto_delete") false (view value.now) }
{
    let flag = value_of(value, "auto_delete").and_then(Value::as_bool);
    flag.unwrap_or(false)
}

/// Keeps that an exchange is no auto-delete one.
#[tactic(auto, unfolding(crate::specs::Kept::kept_auto_delete))]
fn keep_auto_delete(alloc: Global, members: &mut Members, value: &Value) -> Result<(), AllocError>
    ensures { OnOk result (members_view members.new.entries ≡ kept.with_some (codes "auto_delete") (kept.kept_auto_delete (view value.now)) (members_view members.old.entries)) }
{
    if is_auto_delete(value) {
        return Ok(());
    }
    keep(alloc, members, value, "auto_delete")
}

/// An exchange.
#[tactic(auto, unfolding(crate::specs::Kept::kept_exchange))]
fn kept_exchange(alloc: Global, value: &Value) -> Result<Value, AllocError>
    ensures { IfOk result (λ v. view v ≡ kept.kept_exchange (view value.now)) }
{
    let mut members = Map::new(alloc);
    keep(alloc, &mut members, value, "durable")?;
    keep(alloc, &mut members, value, "internal")?;
    keep(alloc, &mut members, value, "name")?;
    keep(alloc, &mut members, value, "type")?;
    keep(alloc, &mut members, value, "vhost")?;
    put(
        alloc,
        &mut members,
        "arguments",
        no_arguments_at(alloc, value),
    )?;
    keep_auto_delete(alloc, &mut members, value)?;
    Ok(Value::from(members))
}

/// The exchanges but those that are passed over or read over.
pub fn kept_exchanges(alloc: Global, items: &[Value]) -> Result<Value, AllocError>
    ensures { IfOk result (λ v. view v ≡ kept.kept_items exchanges.is_passed_exchange kept.kept_exchange (items_view items.now)) }
{
    let mut list = Vec::new(alloc);
    for item in items {
        if !is_passed_exchange(item) {
            list.push(kept_exchange(alloc, item)?)?;
        }
    }
    Ok(Value::from(list))
}

/// A binding.
#[tactic(auto, unfolding(crate::specs::Kept::kept_binding))]
fn kept_binding(alloc: Global, value: &Value) -> Result<Value, AllocError>
    ensures { IfOk result (λ v. view v ≡ kept.kept_binding (view value.now)) }
{
    let mut members = Map::new(alloc);
    keep(alloc, &mut members, value, "arguments")?;
    keep(alloc, &mut members, value, "destination")?;
    keep(alloc, &mut members, value, "destination_type")?;
    keep(alloc, &mut members, value, "routing_key")?;
    keep(alloc, &mut members, value, "source")?;
    keep(alloc, &mut members, value, "vhost")?;
    Ok(Value::from(members))
}

/// The bindings but those that are passed over.
pub fn kept_bindings(alloc: Global, passed: &Objects, items: &[Value]) -> Result<Value, AllocError>
    ensures { IfOk result (λ v. view v ≡ kept.kept_items (bindings.is_passed_binding passed.now) kept.kept_binding (items_view items.now)) }
{
    let mut list = Vec::new(alloc);
    for item in items {
        if !is_passed_item(alloc, passed, item)? {
            list.push(kept_binding(alloc, item)?)?;
        }
    }
    Ok(Value::from(list))
}
