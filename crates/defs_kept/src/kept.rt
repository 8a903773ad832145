//! Members of the kept configuration's objects.
ghost use Rattle.std.specs.Prelude.{◌≡◌, OnOk, option_map};
ghost use Rattle.serde_json.specs.Find.{get};
ghost use Rattle.serde_json.specs.View.{view, members_view};
ghost use Rattle.defs_kept.specs.Kept as kept;

use defs_values::keys::value_of;
use defs_values::settings::has_key;
use serde_json::{Map, Value};
use std::alloc::{AllocError, Global};

/// The members of an object while it is made.
pub type Members = Map<String, Value>;

/// Adds a member, where there is a value.
pub fn put(
    alloc: Global,
    members: &mut Members,
    key: &str,
    value: Option<Value>,
) -> Result<(), AllocError>
    ensures { OnOk result (members_view members.new.entries
        ≡ kept.with_some key.now (option_map view value) (members_view members.old.entries)) }
{
    match value {
        Some(value) => serde_json::put(members, alloc, key, value),
        None => Ok(()),
    }
}

/// Adds a copy of the key of an object, where it stands there.
pub fn keep(
    alloc: Global,
    members: &mut Members,
    value: &Value,
    key: &str,
) -> Result<(), AllocError>
    ensures { OnOk result (members_view members.new.entries
        ≡ kept.with_some key.now (get key.now (view value.now)) (members_view members.old.entries)) }
{
    match value_of(value, key) {
        Some(found) => serde_json::put(members, alloc, key, found.clone()?),
        None => Ok(()),
    }
}

/// Adds a copy of the newer key, or where that isn't there of the older, under the newer name.
pub fn keep_either(
    alloc: Global,
    members: &mut Members,
    value: &Value,
    newer: &str,
    older: &str,
) -> Result<(), AllocError>
    ensures { OnOk result (members_view members.new.entries
        ≡ kept.with_some newer.now (kept.either_value newer.now older.now (view value.now)) (members_view members.old.entries)) }
{
    match value_of(value, newer).or(value_of(value, older)) {
        Some(found) => serde_json::put(members, alloc, newer, found.clone()?),
        None => Ok(()),
    }
}

/// Adds a copy of a routing key, where its exchange stands beside it.
pub fn keep_beside(
    alloc: Global,
    members: &mut Members,
    value: &Value,
    exchange: &str,
    key: &str,
) -> Result<(), AllocError>
    ensures { OnOk result (members_view members.new.entries
        ≡ kept.with_some key.now (kept.value_beside exchange.now key.now (view value.now)) (members_view members.old.entries)) }
{
    if has_key(value, exchange) {
        return keep(alloc, members, value, key);
    }
    Ok(())
}
