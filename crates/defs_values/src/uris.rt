//! The URIs of upstreams and shovels.
ghost use Rattle.std.specs.Prelude.{◌≡◌, ◌≢◌, [], None, Some, IfOk, OnOk, IfErr, option_map};
ghost use Rattle.serde_json.specs.View.{view, items_view};
ghost use Rattle.serde_json.specs.Find.{as_str};
ghost use Rattle.defs_values.specs.Paths.{index_step};
ghost use Rattle.defs_values.specs.Uris as uris;
ghost use Rattle.defs_values.specs.declared.fault.KeyFault.TheVariants as key;

use crate::fault::{KeyFault, Refusal};
use crate::paths::{at_index, here};
use crate::value::{deep_misfit, misfit};
use amqp_props::Text;
use amqp_uri::UriFault;
use fed_defs::{UriRead, Uris};
use serde_json::Value;
use std::alloc::Global;

/// Reads a URI. What is no text is refused by the other refusal.
fn read_uri(alloc: Global, value: &Value, other: Refusal) -> Result<UriRead, Refusal>
    ensures read { IfOk result (λ uri. as_str (view value.now) ≡ Some uri) }
    ensures ok { OnOk result (uris.text_refusal other (as_str (view value.now)) ≡ None) }
    ensures refused { IfErr result (λ why. why ≢ Refusal.Memory
        → uris.text_refusal other (as_str (view value.now)) ≡ Some why) }
{
    let Some(text) = value.as_str() else {
        return Err(other);
    };
    match UriRead::read(alloc, text) {
        Ok(uri) => Ok(uri),
        Err(UriFault::Memory) => Err(Refusal::Memory),
        Err(_) => Err(Refusal::Shape),
    }
}

/// Reads an item of a list of URIs.
#[tactic(auto, unfolding(crate::specs::Uris::item_refusal))]
fn read_item(alloc: Global, index: usize, value: &Value) -> Result<UriRead, KeyFault>
    ensures read { IfOk result (λ uri. as_str (view value.now) ≡ Some uri) }
    ensures ok { OnOk result (option_map (key.Refused (index_step index)) (uris.item_refusal (view value.now)) ≡ None) }
    ensures fault { IfErr result (λ fault. fault ≢ KeyFault.Memory
        → option_map (key.Refused (index_step index)) (uris.item_refusal (view value.now)) ≡ Some fault) }
{
    match read_uri(alloc, value, deep_misfit(value)) {
        Ok(uri) => Ok(uri),
        Err(why) => Err(at_index(alloc, index, why)),
    }
}

/// Reads the URIs of a list.
fn read_list(alloc: Global, items: &[Value]) -> Result<Vec<UriRead>, KeyFault>
    ensures read { IfOk result (λ list. list.items ≡ uris.texts_of (items_view items.now)) }
    ensures ok { OnOk result (uris.items_fault 0 (items_view items.now) ≡ None) }
    ensures fault { IfErr result (λ fault. fault ≢ KeyFault.Memory
        → uris.items_fault 0 (items_view items.now) ≡ Some fault) }
{
    let mut list = Vec::new(alloc);
    for (index, item) in items.iter().enumerate() {
        let uri = read_item(alloc, index, item)?;
        list.push(uri)?;
    }
    Ok(list)
}

/// Reads one URI as a list.
#[tactic(auto, unfolding(crate::specs::Uris::uri_refusal))]
fn read_one(alloc: Global, value: &Value) -> Result<Vec<UriRead>, KeyFault>
    ensures read { IfOk result (λ list. list.items ≡ uris.text_list (as_str (view value.now))) }
    ensures ok { OnOk result (option_map (key.Refused []) (uris.uri_refusal (view value.now)) ≡ None) }
    ensures fault { IfErr result (λ fault. fault ≢ KeyFault.Memory
        → option_map (key.Refused []) (uris.uri_refusal (view value.now)) ≡ Some fault) }
{
    let mut list = Vec::new(alloc);
    match read_uri(alloc, value, misfit(value)) {
        Ok(uri) => list.push(uri)?,
        Err(why) => return Err(here(alloc, why)),
    }
    Ok(list)
}

/// Reads the URIs of a list that must not be empty.
#[tactic(auto, using(crate::proofs::UrisLemmas::filled_list, crate::proofs::UrisLemmas::empty_list))]
fn read_filled(alloc: Global, items: &[Value]) -> Result<Vec<UriRead>, KeyFault>
    ensures read { IfOk result (λ list. list.items ≡ uris.texts_of (items_view items.now)) }
    ensures ok { OnOk result (uris.list_fault (items_view items.now) ≡ None) }
    ensures fault { IfErr result (λ fault. fault ≢ KeyFault.Memory
        → uris.list_fault (items_view items.now) ≡ Some fault) }
{
    if items.is_empty() {
        return Err(here(alloc, Refusal::Shape));
    }
    read_list(alloc, items)
}

/// Reads a text or a list of texts, each a URI. The path of a fault begins at the value.
#[tactic(auto, unfolding(crate::specs::Uris::uris_fault, crate::specs::Uris::uris_of))]
pub fn read_uris(alloc: Global, value: &Value) -> Result<Uris, KeyFault>
    ensures read { IfOk result (λ list. list ≡ uris.uris_of (view value.now)) }
    ensures ok { OnOk result (uris.uris_fault (view value.now) ≡ None) }
    ensures fault { IfErr result (λ fault. fault ≢ KeyFault.Memory → uris.uris_fault (view value.now) ≡ Some fault) }
{
    let Some(items) = value.as_array() else {
        return Ok(Uris::new(read_one(alloc, value)?));
    };
    Ok(Uris::new(read_filled(alloc, items.as_slice())?))
}
