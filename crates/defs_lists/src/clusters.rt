//! The name of a broker's cluster.
ghost use Rattle.std.specs.Prelude.{◌≡◌, ◌≢◌, None, Some, false, IfOk, OnOk, IfErr, codes};
ghost use Rattle.serde_json.specs.View.{view, items_view};
ghost use Rattle.defs_lists.specs.Clusters as clusters;
ghost use Rattle.defs_values.specs.Texts as hosts;

use amqp_props::Text;
use defs_values::fault::{KeyFault, Refusal};
use defs_values::keys::{filled_at, value_of};
use defs_values::parameters::check_text;
use defs_values::paths::{at_item, in_item};
use defs_values::value::{is_word, misfit};
use serde_json::Value;
use std::alloc::Global;

/// Whether the global parameter is another one.
#[tactic(auto, unfolding(crate::specs::Clusters::is_other_global))]
pub fn is_other_global(value: &Value) -> bool
    ensures { result ≡ clusters.is_other_global (view value.now) }
{
    match value_of(value, "name").and_then(Value::as_str) {
        Some(name) => !is_word(name, "cluster_name"),
        None => false,
    }
}

/// Reads the keys of the global parameter.
#[tactic(auto, unfolding(crate::specs::Clusters::global_keys_fault))]
fn read_keys(alloc: Global, value: &Value) -> Result<Text, KeyFault>
    ensures read { IfOk result (λ name. name ≡ hosts.text_at (codes "value") (view value.now)) }
    ensures ok { OnOk result (clusters.global_keys_fault (view value.now) ≡ None) }
    ensures fault { IfErr result (λ fault. fault ≢ KeyFault.Memory
        → clusters.global_keys_fault (view value.now) ≡ Some fault) }
{
    check_text(alloc, value, "name")?;
    let name = filled_at(alloc, value, "value")?;
    Ok(name)
}

/// Reads the global parameter.
#[tactic(auto, unfolding(crate::specs::Clusters::global_fault, defs_values::specs::Paths::item_fault))]
fn read_global(alloc: Global, index: usize, value: &Value) -> Result<Text, KeyFault>
    ensures read { IfOk result (λ name. name ≡ hosts.text_at (codes "value") (view value.now)) }
    ensures ok { OnOk result (clusters.global_fault index (view value.now) ≡ None) }
    ensures fault { IfErr result (λ fault. fault ≢ KeyFault.Memory
        → clusters.global_fault index (view value.now) ≡ Some fault) }
{
    if !value.is_object() {
        return Err(at_item(alloc, "global_parameters", index, misfit(value)));
    }
    match read_keys(alloc, value) {
        Ok(name) => Ok(name),
        Err(fault) => Err(in_item(alloc, "global_parameters", index, fault)),
    }
}

/// Reads the list of global parameters.
#[tactic(auto, unfolding(defs_values::specs::Paths::whole_fault))]
pub fn read_cluster(alloc: Global, items: &[Value]) -> Result<Option<Text>, KeyFault>
    ensures read { IfOk result (λ name. name ≡ clusters.cluster_in (items_view items.now)) }
    ensures ok { OnOk result (clusters.clusters_fault false 0 (items_view items.now) ≡ None) }
    ensures fault { IfErr result (λ fault. fault ≢ KeyFault.Memory
        → clusters.clusters_fault false 0 (items_view items.now) ≡ Some fault) }
{
    let mut found = None;
    for (index, value) in items.iter().enumerate() {
        if !is_other_global(value) {
            let name = read_global(alloc, index, value)?;
            if found.is_some() {
                return Err(at_item(alloc, "global_parameters", index, Refusal::Shape));
            }
            found = Some(name);
        }
    }
    Ok(found)
}
