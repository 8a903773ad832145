//! The virtual hosts of a definitions file, and the key by which its items name theirs.
ghost use Rattle.std.specs.Option.{option_or};
ghost use Rattle.std.specs.Prelude.{◌≡◌, ◌≢◌, ◌∷◌, ◌++◌, [], None, Some, IfOk, OnOk, IfErr, codes};
ghost use Rattle.serde_json.specs.View.{view, items_view};
ghost use Rattle.serde_json.specs.Find.{get, as_str};
ghost use Rattle.defs_lists.specs.Vhosts as hosts;
ghost use Rattle.defs_lists.specs.Names.{has_name};
ghost use Rattle.defs_values.specs.Paths.{whole_fault};
ghost use Rattle.defs_lists.specs.PlacedItems.{AreDistinct};

use crate::names::{Name, Names, Word, once};
use amqp_props::Text;
use defs_values::fault::{KeyFault, Refusal};
use defs_values::keys::{refused, text_at, value_of};
use defs_values::paths::{at_item, in_item};
use defs_values::props::short_text_refusal;
use defs_values::value::misfit;
use serde_json::Value;
use std::alloc::{AllocError, Global};

/// A name among virtual hosts.
pub fn vhost_named(alloc: Global, name: Word) -> Name
    ensures { result ≡ hosts.vhost_named name }
{
    Name {
        vhost: Word::empty(alloc),
        component: Word::empty(alloc),
        name,
    }
}

/// Reads an item of `vhosts`.
#[tactic(auto, unfolding(crate::specs::Vhosts::vhost_fault, defs_values::specs::Paths::item_fault))]
fn read_vhost(alloc: Global, index: usize, value: &Value) -> Result<Name, KeyFault>
    ensures read { IfOk result (λ name. name ≡ hosts.vhost_of (view value.now)) }
    ensures ok { OnOk result (hosts.vhost_fault index (view value.now) ≡ None) }
    ensures fault { IfErr result (λ fault. fault ≢ KeyFault.Memory
        → hosts.vhost_fault index (view value.now) ≡ Some fault) }
{
    if !value.is_object() {
        return Err(at_item(alloc, "vhosts", index, misfit(value)));
    }
    match text_at(alloc, value, "name") {
        Ok(name) => {
            let word = Word::from_str(alloc, name.as_str())?;
            Ok(vhost_named(alloc, word))
        }
        Err(fault) => Err(in_item(alloc, "vhosts", index, fault)),
    }
}

/// Reads an item of `vhosts`, and puts its name behind those before it, where it mustn't stand.
fn take_vhost(alloc: Global, names: &mut Names, index: usize, value: &Value) -> Result<(), KeyFault>
    requires hosts { hosts.AreHosts names.old }
    requires distinct { AreDistinct names.old }
    ensures hosts { OnOk result (hosts.AreHosts names.new) }
    ensures distinct { OnOk result (AreDistinct names.new) }
    ensures named { OnOk result (names.new ≡ names.old ++ hosts.vhost_of (view value.now) ∷ []) }
    ensures ok { OnOk result (hosts.vhost_fault index (view value.now) ≡ None) }
    ensures once { OnOk result (whole_fault (codes "vhosts") index (has_name (hosts.vhost_of (view value.now)) names.old) ≡ None) }
    ensures fault { IfErr result (λ fault. fault ≢ KeyFault.Memory
        → option_or (hosts.vhost_fault index (view value.now))
        (whole_fault (codes "vhosts") index (has_name (hosts.vhost_of (view value.now)) names.old)) ≡ Some fault) }
{
    let name = read_vhost(alloc, index, value)?;
    once(alloc, names, &name, "vhosts", index)?;
    names.add(name)?;
    Ok(())
}

/// Reads the list of virtual hosts.
pub fn read_vhosts(alloc: Global, items: &[Value]) -> Result<Names, KeyFault>
    ensures hosts { IfOk result (λ names. hosts.AreHosts names) }
    ensures distinct { IfOk result (λ names. AreDistinct names) }
    ensures read { IfOk result (λ names. names ≡ hosts.vhosts_of (items_view items.now)) }
    ensures ok { OnOk result (hosts.vhosts_fault [] 0 (items_view items.now) ≡ None) }
    ensures fault { IfErr result (λ fault. fault ≢ KeyFault.Memory
        → hosts.vhosts_fault [] 0 (items_view items.now) ≡ Some fault) }
{
    let mut names = Names::new(alloc);
    for (index, value) in items.iter().enumerate() {
        take_vhost(alloc, &mut names, index, value)?;
    }
    Ok(names)
}

/// The virtual host that an item is in.
pub fn vhost_at(alloc: Global, value: &Value) -> Result<Text, AllocError>
    ensures { IfOk result (λ name. name ≡ hosts.vhost_at (view value.now)) }
{
    match value_of(value, "vhost").and_then(Value::as_str) {
        Some(name) => Text::from_str(alloc, name),
        None => Text::from_str(alloc, "/"),
    }
}

/// Why a virtual host is refused that isn't one of the file.
fn unknown_refusal(vhosts: &Names, name: &Name) -> Option<Refusal>
    ensures { result ≡ hosts.unknown_name vhosts.now name.now }
{
    if vhosts.has(name) {
        None
    } else {
        Some(Refusal::Vhost)
    }
}

/// Why an item's virtual host is refused.
fn own_vhost_refusal(vhosts: &Names, value: &Value, name: &Name) -> Option<Refusal>
    requires { name.now ≡ hosts.vhost_named (hosts.vhost_at (view value.now)) }
    ensures { result ≡ hosts.own_vhost_refusal vhosts.now (view value.now) (get (codes "vhost") (view value.now)) }
{
    let Some(found) = value_of(value, "vhost") else {
        return unknown_refusal(vhosts, name);
    };
    match short_text_refusal(found) {
        Some(why) => Some(why),
        None => unknown_refusal(vhosts, name),
    }
}

/// Reads the virtual host that an item is in, which has to be one of the file.
#[tactic(auto, unfolding(crate::specs::Vhosts::own_vhost_fault))]
pub fn own_vhost(alloc: Global, vhosts: &Names, value: &Value) -> Result<Text, KeyFault>
    ensures read { IfOk result (λ name. name ≡ hosts.vhost_at (view value.now)) }
    ensures ok { OnOk result (hosts.own_vhost_fault vhosts.now (view value.now) ≡ None) }
    ensures fault { IfErr result (λ fault. fault ≢ KeyFault.Memory
        → hosts.own_vhost_fault vhosts.now (view value.now) ≡ Some fault) }
{
    let vhost = vhost_at(alloc, value)?;
    let name = vhost_named(alloc, Word::from_str(alloc, vhost.as_str())?);
    match own_vhost_refusal(vhosts, value, &name) {
        None => Ok(vhost),
        Some(why) => Err(refused(alloc, "vhost", why)),
    }
}
