//! The kept configuration of a whole file, and its text.
ghost use Rattle.std.specs.Prelude.{◌≡◌, None, IfOk, OnOk, option_map, codes};
ghost use Rattle.serde_json.specs.View.{view, items_view, members_view};
ghost use Rattle.defs_lists.specs.Bindings as bindings;
ghost use Rattle.defs_lists.specs.Clusters as clusters;
ghost use Rattle.defs_lists.specs.Exchanges as exchanges;
ghost use Rattle.defs_kept.specs.Kept as kept;
ghost use Rattle.defs_values.specs.Parameters as parameters;
ghost use Rattle.defs_lists.specs.Queues as queues;
ghost use Rattle.defs_lists.specs.Lists.{list_of};
ghost use Rattle.defs_lists.specs.Vhosts.{no_item};

use crate::kept::{Members, put};
use crate::kept_items::{
    kept_bindings, kept_exchanges, kept_globals, kept_policies, kept_queues, kept_vhosts,
};
use crate::kept_parameters::kept_parameters;
use defs_lists::bindings::Objects;
use defs_values::keys::value_of;
use serde_json::{Map, Value};
use std::alloc::{AllocError, Global};

/// The items of the list at the key, where there is one.
fn items_of<'v>(value: &'v Value, key: &str) -> Option<&'v [Value]>
    ensures { option_map (λ vs. items_view vs.now) result ≡ list_of key.now (view value.now) }
{
    let items = value_of(value, key).and_then(Value::as_array)?;
    Some(items.as_slice())
}

/// Keeps the virtual hosts.
fn keep_vhosts(alloc: Global, members: &mut Members, value: &Value) -> Result<(), AllocError>
    ensures { OnOk result (members_view members.new.entries ≡ kept.with_list (kept.kept_items no_item kept.kept_vhost) (codes "vhosts") (view value.now) (members_view members.old.entries)) }
{
    match items_of(value, "vhosts") {
        Some(items) => put(alloc, members, "vhosts", Some(kept_vhosts(alloc, items)?)),
        None => Ok(()),
    }
}

/// Keeps the global parameters.
fn keep_globals(alloc: Global, members: &mut Members, value: &Value) -> Result<(), AllocError>
    ensures { OnOk result (members_view members.new.entries ≡ kept.with_list (kept.kept_items clusters.is_other_global kept.kept_global) (codes "global_parameters") (view value.now) (members_view members.old.entries)) }
{
    match items_of(value, "global_parameters") {
        Some(items) => put(
            alloc,
            members,
            "global_parameters",
            Some(kept_globals(alloc, items)?),
        ),
        None => Ok(()),
    }
}

/// Keeps the parameters.
fn keep_parameters(alloc: Global, members: &mut Members, value: &Value) -> Result<(), AllocError>
    ensures { OnOk result (members_view members.new.entries ≡ kept.with_list (kept.kept_items parameters.is_other_component kept.kept_parameter) (codes "parameters") (view value.now) (members_view members.old.entries)) }
{
    match items_of(value, "parameters") {
        Some(items) => put(
            alloc,
            members,
            "parameters",
            Some(kept_parameters(alloc, items)?),
        ),
        None => Ok(()),
    }
}

/// Keeps the policies.
fn keep_policies(alloc: Global, members: &mut Members, value: &Value) -> Result<(), AllocError>
    ensures { OnOk result (members_view members.new.entries ≡ kept.with_list (kept.kept_items no_item kept.kept_policy) (codes "policies") (view value.now) (members_view members.old.entries)) }
{
    match items_of(value, "policies") {
        Some(items) => put(
            alloc,
            members,
            "policies",
            Some(kept_policies(alloc, items)?),
        ),
        None => Ok(()),
    }
}

/// Keeps the queues.
fn keep_queues(alloc: Global, members: &mut Members, value: &Value) -> Result<(), AllocError>
    ensures { OnOk result (members_view members.new.entries ≡ kept.with_list (kept.kept_items queues.is_passed_queue kept.kept_queue) (codes "queues") (view value.now) (members_view members.old.entries)) }
{
    match items_of(value, "queues") {
        Some(items) => put(alloc, members, "queues", Some(kept_queues(alloc, items)?)),
        None => Ok(()),
    }
}

/// Keeps the exchanges.
fn keep_exchanges(alloc: Global, members: &mut Members, value: &Value) -> Result<(), AllocError>
    ensures { OnOk result (members_view members.new.entries ≡ kept.with_list (kept.kept_items exchanges.is_passed_exchange kept.kept_exchange) (codes "exchanges") (view value.now) (members_view members.old.entries)) }
{
    match items_of(value, "exchanges") {
        Some(items) => put(
            alloc,
            members,
            "exchanges",
            Some(kept_exchanges(alloc, items)?),
        ),
        None => Ok(()),
    }
}

/// Keeps the bindings.
fn keep_bindings(
    alloc: Global,
    members: &mut Members,
    passed: &Objects,
    value: &Value,
) -> Result<(), AllocError>
    ensures { OnOk result (members_view members.new.entries ≡ kept.with_list (kept.kept_items (bindings.is_passed_binding passed.now) kept.kept_binding) (codes "bindings") (view value.now) (members_view members.old.entries)) }
{
    match items_of(value, "bindings") {
        Some(items) => put(
            alloc,
            members,
            "bindings",
            Some(kept_bindings(alloc, passed, items)?),
        ),
        None => Ok(()),
    }
}

/// The kept configuration of a file in which these objects are passed over.
#[tactic(auto, unfolding(crate::specs::Kept::kept_beside))]
pub fn kept_beside(alloc: Global, passed: &Objects, value: &Value) -> Result<Value, AllocError>
    ensures { IfOk result (λ v. view v ≡ kept.kept_beside passed.now (view value.now)) }
{
    let mut members = Map::new(alloc);
    keep_vhosts(alloc, &mut members, value)?;
    keep_globals(alloc, &mut members, value)?;
    keep_parameters(alloc, &mut members, value)?;
    keep_policies(alloc, &mut members, value)?;
    keep_queues(alloc, &mut members, value)?;
    keep_exchanges(alloc, &mut members, value)?;
    keep_bindings(alloc, &mut members, passed, value)?;
    Ok(Value::from(members))
}
