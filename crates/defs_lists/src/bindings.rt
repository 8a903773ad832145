//! The bindings of a definitions file.
ghost use Rattle.std.specs.Prelude.{◌≡◌, ◌≢◌, ◌++◌, [], None, Some, IfOk, OnOk, IfErr, codes, unwrap_or};
ghost use Rattle.serde_json.specs.View.{view, items_view};
ghost use Rattle.serde_json.specs.Find.{get, as_str};
ghost use Rattle.defs_lists.specs.Bindings as bindings;
ghost use Rattle.defs_lists.specs.Vhosts as hosts;
ghost use Rattle.defs_values.specs.Texts as texts;
ghost use Rattle.defs_values.specs.Arguments.{arguments_of};
ghost use Rattle.defs_values.specs.Keys.{value_at, optional_fault};
ghost use Rattle.defs_lists.specs.Queues.{named_at};

use crate::exchanges::is_predeclared;
use crate::names::{Name, Names};
use crate::placed::Placed;
use crate::queues::named_at;
use crate::vhosts::own_vhost;
use amqp_props::{FieldTable, Text};
use defs_values::arguments::arguments_at;
use defs_values::fault::{KeyFault, Refusal};
use defs_values::inert::add;
use defs_values::keys::{refused, text_at, value_of};
use defs_values::paths::{at_item, in_item};
use defs_values::settings::short_text_at;
use defs_values::value::{is_word, misfit};
use fed_defs::BindingDef;
use serde_json::Value;
use std::alloc::{AllocError, Global};

/// The names of queues and exchanges.
#[derive(Drop)]
pub struct Objects {
    /// Those of queues.
    pub queues: Names,
    /// Those of exchanges.
    pub exchanges: Names,
}

/// Where the word says that a binding leads: to an exchange, or not.
#[tactic(auto, unfolding(crate::specs::Bindings::destination_word))]
fn destination_word(text: &str) -> Option<bool>
    ensures { result ≡ bindings.destination_word text.now }
{
    if is_word(text, "queue") {
        return Some(false);
    }
    if is_word(text, "exchange") {
        return Some(true);
    }
    None
}

/// Whether a binding leads to an exchange, where it says so in words of its own.
fn destination_of(value: &Value) -> Option<bool>
    ensures { result ≡ bindings.destination_of (get (codes "destination_type") (view value.now)) }
{
    match value_of(value, "destination_type") {
        Some(found) => found.as_str().and_then(destination_word),
        None => Some(false),
    }
}

/// Whether a binding leads to one of these objects.
fn leads_among(passed: &Objects, name: &Name, to_exchange: Option<bool>) -> bool
    ensures { result ≡ bindings.leads_among passed.now name.now to_exchange }
{
    match to_exchange {
        Some(true) => passed.exchanges.has(name),
        Some(false) => passed.queues.has(name),
        None => false,
    }
}

/// The two ends of a binding.
#[derive(Drop)]
struct Ends {
    source: Name,
    destination: Name,
}

/// Reads the names of the ends.
fn ends_of(alloc: Global, value: &Value) -> Result<Ends, AllocError>
    ensures source { IfOk result (λ ends. ends.source ≡ named_at (codes "source") (view value.now)) }
    ensures destination { IfOk result (λ ends. ends.destination ≡ named_at (codes "destination") (view value.now)) }
{
    let source = named_at(alloc, value, "source")?;
    let destination = named_at(alloc, value, "destination")?;
    Ok(Ends {
        source,
        destination,
    })
}

/// Whether the binding names its virtual host by a text, or names none.
fn has_vhost(value: &Value) -> bool
    ensures { result ≡ bindings.has_vhost (get (codes "vhost") (view value.now)) }
{
    match value_of(value, "vhost") {
        Some(found) => found.as_str().is_some(),
        None => true,
    }
}

/// Whether the binding names one of these objects.
#[tactic(auto, unfolding(crate::specs::Bindings::names_one))]
fn names_one(passed: &Objects, ends: &Ends, value: &Value) -> bool
    requires source { ends.now.source ≡ named_at (codes "source") (view value.now) }
    requires destination { ends.now.destination ≡ named_at (codes "destination") (view value.now) }
    ensures { result ≡ bindings.names_one passed.now (view value.now) }
{
    passed.exchanges.has(&ends.source)
        || leads_among(passed, &ends.destination, destination_of(value))
}

/// Whether the binding is passed over.
#[tactic(auto, unfolding(crate::specs::Bindings::is_passed_binding))]
fn is_passed_binding(passed: &Objects, ends: &Ends, value: &Value) -> bool
    requires source { ends.now.source ≡ named_at (codes "source") (view value.now) }
    requires destination { ends.now.destination ≡ named_at (codes "destination") (view value.now) }
    ensures { result ≡ bindings.is_passed_binding passed.now (view value.now) }
{
    has_vhost(value) && names_one(passed, ends, value)
}

/// Whether the item is a binding that is passed over.
pub fn is_passed_item(alloc: Global, passed: &Objects, value: &Value) -> Result<bool, AllocError>
    ensures { IfOk result (λ passes. passes ≡ bindings.is_passed_binding passed.now (view value.now)) }
{
    let ends = ends_of(alloc, value)?;
    Ok(is_passed_binding(passed, &ends, value))
}

/// Whether the binding leads to an exchange.
#[tactic(auto, unfolding(crate::specs::Bindings::leads_to_exchange))]
fn leads_to_exchange(value: &Value) -> bool
    ensures { result ≡ bindings.leads_to_exchange (view value.now) }
{
    destination_of(value).unwrap_or(false)
}

/// Whether the exchange is there.
fn stands_as_exchange(kept: &Objects, name: &Name) -> bool
    ensures { result ≡ bindings.stands_as_exchange kept.now name.now }
{
    is_predeclared(name.name.as_str()) || kept.exchanges.has(name)
}

/// Whether the object is there.
fn stands_as(kept: &Objects, name: &Name, to_exchange: bool) -> bool
    ensures { result ≡ bindings.stands_as kept.now name.now to_exchange }
{
    if to_exchange {
        stands_as_exchange(kept, name)
    } else {
        kept.queues.has(name)
    }
}

/// Whether both ends are there.
#[tactic(auto, unfolding(crate::specs::Bindings::has_ends))]
fn has_ends(kept: &Objects, ends: &Ends, value: &Value) -> bool
    requires source { ends.now.source ≡ named_at (codes "source") (view value.now) }
    requires destination { ends.now.destination ≡ named_at (codes "destination") (view value.now) }
    ensures { result ≡ bindings.has_ends kept.now (view value.now) }
{
    stands_as_exchange(kept, &ends.source)
        && stands_as(kept, &ends.destination, leads_to_exchange(value))
}

/// Checks where a binding says that it leads.
#[tactic(auto, unfolding(defs_values::specs::Keys::optional_fault, crate::specs::Bindings::destination_refusal))]
fn check_destination(alloc: Global, value: &Value) -> Result<(), KeyFault>
    ensures ok { OnOk result (optional_fault bindings.destination_refusal (codes "destination_type") (view value.now) ≡ None) }
    ensures fault { IfErr result (λ fault. fault ≢ KeyFault.Memory
        → optional_fault bindings.destination_refusal (codes "destination_type") (view value.now) ≡ Some fault) }
{
    let Some(found) = value_of(value, "destination_type") else {
        return Ok(());
    };
    match found.as_str().and_then(destination_word) {
        Some(_) => Ok(()),
        None => Err(refused(alloc, "destination_type", misfit(found))),
    }
}

/// What the first keys of a binding say.
#[derive(Drop)]
struct Front {
    vhost: Text,
    source: Text,
    destination: Text,
}

/// Reads where the binding is, and its ends.
#[tactic(auto, unfolding(crate::specs::Bindings::binding_ends_fault))]
fn read_front(alloc: Global, vhosts: &Names, value: &Value) -> Result<Front, KeyFault>
    ensures vhost { IfOk result (λ front. front.vhost ≡ hosts.vhost_at (view value.now)) }
    ensures source { IfOk result (λ front. front.source ≡ texts.text_at (codes "source") (view value.now)) }
    ensures destination { IfOk result (λ front. front.destination
        ≡ texts.text_at (codes "destination") (view value.now)) }
    ensures ok { OnOk result (bindings.binding_ends_fault vhosts.now (view value.now) ≡ None) }
    ensures fault { IfErr result (λ fault. fault ≢ KeyFault.Memory
        → bindings.binding_ends_fault vhosts.now (view value.now) ≡ Some fault) }
{
    let vhost = own_vhost(alloc, vhosts, value)?;
    let source = text_at(alloc, value, "source")?;
    let destination = text_at(alloc, value, "destination")?;
    Ok(Front {
        vhost,
        source,
        destination,
    })
}

/// What the other keys of a binding say.
#[derive(Drop)]
struct Rest {
    key: Option<Text>,
    args: FieldTable,
}

/// Reads the routing key and the arguments.
#[tactic(auto, unfolding(crate::specs::Bindings::binding_rest_fault))]
fn read_rest(alloc: Global, value: &Value) -> Result<Rest, KeyFault>
    ensures key { IfOk result (λ rest. rest.key ≡ value_at as_str (codes "routing_key") (view value.now)) }
    ensures args { IfOk result (λ rest. rest.args ≡ arguments_of (view value.now)) }
    ensures ok { OnOk result (bindings.binding_rest_fault (view value.now) ≡ None) }
    ensures fault { IfErr result (λ fault. fault ≢ KeyFault.Memory
        → bindings.binding_rest_fault (view value.now) ≡ Some fault) }
{
    check_destination(alloc, value)?;
    let key = short_text_at(alloc, value, "routing_key")?;
    let args = arguments_at(alloc, value)?;
    Ok(Rest { key, args })
}

/// The text, or the empty one.
fn text_or(alloc: Global, text: Option<Text>) -> Result<Text, AllocError>
    ensures { IfOk result (λ chosen. chosen ≡ unwrap_or text []) }
{
    match text {
        Some(text) => Ok(text),
        None => Text::new(alloc, String::new(alloc)),
    }
}

/// Reads the keys of a binding.
#[tactic(auto, unfolding(crate::specs::Bindings::binding_all_fault, crate::specs::Bindings::binding_of))]
fn read_all(alloc: Global, vhosts: &Names, value: &Value) -> Result<Placed<BindingDef>, KeyFault>
    ensures read { IfOk result (λ binding. binding ≡ bindings.binding_of (view value.now)) }
    ensures ok { OnOk result (bindings.binding_all_fault vhosts.now (view value.now) ≡ None) }
    ensures fault { IfErr result (λ fault. fault ≢ KeyFault.Memory
        → bindings.binding_all_fault vhosts.now (view value.now) ≡ Some fault) }
{
    let front = read_front(alloc, vhosts, value)?;
    let rest = read_rest(alloc, value)?;
    let item = BindingDef {
        source: front.source,
        to_exchange: leads_to_exchange(value),
        dest: front.destination,
        key: text_or(alloc, rest.key)?,
        args: rest.args,
    };
    Ok(Placed {
        vhost: front.vhost,
        item,
    })
}

/// Reads a binding.
#[tactic(auto, unfolding(crate::specs::Bindings::binding_fault, defs_values::specs::Paths::item_fault))]
fn read_binding(
    alloc: Global,
    vhosts: &Names,
    index: usize,
    value: &Value,
) -> Result<Placed<BindingDef>, KeyFault>
    ensures read { IfOk result (λ binding. binding ≡ bindings.binding_of (view value.now)) }
    ensures ok { OnOk result (bindings.binding_fault vhosts.now index (view value.now) ≡ None) }
    ensures fault { IfErr result (λ fault. fault ≢ KeyFault.Memory
        → bindings.binding_fault vhosts.now index (view value.now) ≡ Some fault) }
{
    if !value.is_object() {
        return Err(at_item(alloc, "bindings", index, misfit(value)));
    }
    match read_all(alloc, vhosts, value) {
        Ok(binding) => Ok(binding),
        Err(fault) => Err(in_item(alloc, "bindings", index, fault)),
    }
}

/// Reads an item, and puts its binding behind the others unless it is passed over. Its ends have to be there.
#[tactic(auto, unfolding(crate::specs::Bindings::bindings_in, crate::specs::Bindings::one_fault, defs_values::specs::Paths::whole_fault))]
fn take_binding(
    alloc: Global,
    vhosts: &Names,
    kept: &Objects,
    passed: &Objects,
    list: &mut Vec<Placed<BindingDef>>,
    index: usize,
    value: &Value,
) -> Result<(), KeyFault>
    ensures read { OnOk result (list.new.items ≡ list.old.items ++ bindings.bindings_in passed.now (view value.now)) }
    ensures ok { OnOk result (bindings.one_fault vhosts.now kept.now passed.now index (view value.now) ≡ None) }
    ensures fault { IfErr result (λ fault. fault ≢ KeyFault.Memory
        → bindings.one_fault vhosts.now kept.now passed.now index (view value.now) ≡ Some fault) }
{
    let ends = ends_of(alloc, value)?;
    if is_passed_binding(passed, &ends, value) {
        return Ok(());
    }
    let binding = read_binding(alloc, vhosts, index, value)?;
    if !has_ends(kept, &ends, value) {
        return Err(at_item(alloc, "bindings", index, Refusal::Shape));
    }
    list.push(binding)?;
    Ok(())
}

/// What the list of bindings holds.
#[derive(Drop)]
pub struct BindingList {
    /// The bindings.
    pub kept: Vec<Placed<BindingDef>>,
    /// How many are passed over.
    pub passed: u32,
}

/// How many bindings are passed over.
fn count_passed(alloc: Global, passed: &Objects, items: &[Value]) -> Result<u32, KeyFault>
    ensures count { IfOk result (λ count. count ≡ bindings.passed_bindings passed.now (items_view items.now)) }
    ensures fault { IfErr result (λ fault. fault ≡ KeyFault.Memory) }
{
    let mut count = 0;
    for item in items {
        if is_passed_item(alloc, passed, item)? {
            count = add(count, 1)?;
        }
    }
    Ok(count)
}

/// Reads the list of bindings.
pub fn read_bindings(
    alloc: Global,
    vhosts: &Names,
    kept: &Objects,
    passed: &Objects,
    items: &[Value],
) -> Result<BindingList, KeyFault>
    ensures kept { IfOk result (λ list. list.kept.items ≡ bindings.bindings_of passed.now (items_view items.now)) }
    ensures passed { IfOk result (λ list. list.passed ≡ bindings.passed_bindings passed.now (items_view items.now)) }
    ensures ok { OnOk result (bindings.bindings_fault vhosts.now kept.now passed.now 0 (items_view items.now) ≡ None) }
    ensures fault { IfErr result (λ fault. fault ≢ KeyFault.Memory
        → bindings.bindings_fault vhosts.now kept.now passed.now 0 (items_view items.now) ≡ Some fault) }
{
    let mut list = Vec::new(alloc);
    for (index, value) in items.iter().enumerate() {
        take_binding(alloc, vhosts, kept, passed, &mut list, index, value)?;
    }
    Ok(BindingList {
        kept: list,
        passed: count_passed(alloc, passed, items)?,
    })
}
