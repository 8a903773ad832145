//! The exchanges of a definitions file.
ghost use Rattle.std.specs.Prelude.{◌≡◌, ◌≢◌, [], ◌∷◌, ◌++◌, None, Some, true, false, if◌then◌else◌, IfOk, OnOk, IfErr, codes};
ghost use Rattle.std.specs.Option.{option_or};
ghost use Rattle.serde_json.specs.View.{view, items_view};
ghost use Rattle.defs_lists.specs.Exchanges as exchanges;
ghost use Rattle.defs_lists.specs.Queues as queues;
ghost use Rattle.defs_lists.specs.Vhosts as hosts;
ghost use Rattle.defs_values.specs.Texts as texts;
ghost use Rattle.defs_values.specs.Keys.{value_at, required_fault};
ghost use Rattle.defs_lists.specs.Names.{has_name};
ghost use Rattle.defs_values.specs.Paths.{whole_fault};

use crate::names::{Names, Passed, once};
use crate::placed::Placed;
use crate::queues::{is_reserved_at, name_at, object_name};
use crate::vhosts::own_vhost;
use amqp_props::{ExchangeKind, Text};
use defs_values::fault::{KeyFault, Refusal};
use defs_values::inert::{KeySet, add, inert_at};
use defs_values::keys::{refused, value_of};
use defs_values::paths::{at_item, in_item};
use defs_values::settings::flag_at;
use defs_values::value::{is_word, misfit};
use fed_defs::ExchangeDef;
use serde_json::Value;
use std::alloc::Global;

/// Whether the name is that of a predeclared exchange.
#[tactic(auto, unfolding(crate::specs::Exchanges::is_predeclared))]
pub fn is_predeclared(name: &str) -> bool
    ensures { result ≡ exchanges.is_predeclared name.now }
{
    is_word(name, "amq.direct")
        || is_word(name, "amq.fanout")
        || is_word(name, "amq.headers")
        || is_word(name, "amq.match")
        || is_word(name, "amq.topic")
}

/// Whether the item's name is that of a predeclared exchange.
fn is_predeclared_at(value: &Value) -> bool
    ensures { result ≡ exchanges.is_predeclared (texts.text_at (codes "name") (view value.now)) }
{
    match value_of(value, "name").and_then(Value::as_str) {
        Some(name) => is_predeclared(name),
        None => is_predeclared(""),
    }
}

/// Whether the exchange belongs to a link.
#[tactic(auto, unfolding(crate::specs::Exchanges::is_link_exchange))]
fn is_link_exchange(value: &Value) -> bool
    ensures { result ≡ exchanges.is_link_exchange (view value.now) }
{
    is_reserved_at(value)
}

/// Whether the exchange is passed over or read over.
#[tactic(auto, unfolding(crate::specs::Exchanges::is_passed_exchange))]
pub fn is_passed_exchange(value: &Value) -> bool
    ensures { result ≡ exchanges.is_passed_exchange (view value.now) }
{
    is_link_exchange(value) || is_predeclared_at(value)
}

/// The type that the word says.
#[tactic(auto, unfolding(crate::specs::Exchanges::kind_word))]
fn kind_word(text: &str) -> Option<ExchangeKind>
    ensures { result ≡ exchanges.kind_word text.now }
{
    if is_word(text, "direct") {
        return Some(ExchangeKind::Direct);
    }
    if is_word(text, "fanout") {
        return Some(ExchangeKind::Fanout);
    }
    if is_word(text, "headers") {
        return Some(ExchangeKind::Headers);
    }
    if is_word(text, "topic") {
        return Some(ExchangeKind::Topic);
    }
    None
}

/// Reads the type at the key, which has to be there.
#[tactic(auto, unfolding(defs_values::specs::Keys::required_fault, crate::specs::Exchanges::kind_refusal))]
fn kind_at(alloc: Global, value: &Value, key: &str) -> Result<ExchangeKind, KeyFault>
    ensures read { IfOk result (λ kind. value_at exchanges.kind_at key.now (view value.now) ≡ Some kind) }
    ensures ok { OnOk result (required_fault exchanges.kind_refusal key.now (view value.now) ≡ None) }
    ensures fault { IfErr result (λ fault. fault ≢ KeyFault.Memory
        → required_fault exchanges.kind_refusal key.now (view value.now) ≡ Some fault) }
{
    let Some(found) = value_of(value, key) else {
        return Err(refused(alloc, key, Refusal::Shape));
    };
    match found.as_str().and_then(kind_word) {
        Some(kind) => Ok(kind),
        None => Err(refused(alloc, key, misfit(found))),
    }
}

/// What the first keys of an exchange say.
#[derive(Drop)]
struct Front {
    vhost: Text,
    name: Text,
    kind: ExchangeKind,
}

/// What its flags say.
#[derive(Drop)]
struct Flags {
    durable: bool,
    internal: bool,
}

/// Reads where the exchange is, its name and its type.
#[tactic(auto, unfolding(crate::specs::Exchanges::exchange_name_fault))]
fn read_front(alloc: Global, vhosts: &Names, value: &Value) -> Result<Front, KeyFault>
    ensures vhost { IfOk result (λ front. front.vhost ≡ hosts.vhost_at (view value.now)) }
    ensures name { IfOk result (λ front. front.name ≡ texts.text_at (codes "name") (view value.now)) }
    ensures kind { IfOk result (λ front. value_at exchanges.kind_at (codes "type") (view value.now) ≡ Some front.kind) }
    ensures ok { OnOk result (exchanges.exchange_name_fault vhosts.now (view value.now) ≡ None) }
    ensures fault { IfErr result (λ fault. fault ≢ KeyFault.Memory
        → exchanges.exchange_name_fault vhosts.now (view value.now) ≡ Some fault) }
{
    let vhost = own_vhost(alloc, vhosts, value)?;
    let name = name_at(alloc, value, "name")?;
    let kind = kind_at(alloc, value, "type")?;
    Ok(Front { vhost, name, kind })
}

/// Checks that the arguments, where there are some, are an object.
#[tactic(auto, unfolding(crate::specs::Exchanges::exchange_arguments_fault, defs_values::specs::Paths::object_fault))]
fn check_arguments(alloc: Global, value: &Value) -> Result<(), KeyFault>
    ensures ok { OnOk result (exchanges.exchange_arguments_fault (view value.now) ≡ None) }
    ensures fault { IfErr result (λ fault. fault ≢ KeyFault.Memory
        → exchanges.exchange_arguments_fault (view value.now) ≡ Some fault) }
{
    let Some(found) = value_of(value, "arguments") else {
        return Ok(());
    };
    if found.is_object() {
        return Ok(());
    }
    Err(refused(alloc, "arguments", misfit(found)))
}

/// Reads the flags of an exchange.
#[tactic(auto, unfolding(crate::specs::Exchanges::exchange_flags_fault))]
fn read_flags(alloc: Global, value: &Value) -> Result<Flags, KeyFault>
    ensures durable { IfOk result (λ flags. flags.durable ≡ queues.flag_at (codes "durable") true (view value.now)) }
    ensures internal { IfOk result (λ flags. flags.internal ≡ queues.flag_at (codes "internal") false (view value.now)) }
    ensures ok { OnOk result (exchanges.exchange_flags_fault (view value.now) ≡ None) }
    ensures fault { IfErr result (λ fault. fault ≢ KeyFault.Memory
        → exchanges.exchange_flags_fault (view value.now) ≡ Some fault) }
{
    let durable = flag_at(alloc, value, "durable")?;
    flag_at(alloc, value, "auto_delete")?;
    let internal = flag_at(alloc, value, "internal")?;
    Ok(Flags {
        durable: durable.unwrap_or(true),
        internal: internal.unwrap_or(false),
    })
}

/// Reads the keys of an exchange.
#[tactic(auto, unfolding(crate::specs::Exchanges::exchange_all_fault, crate::specs::Exchanges::exchange_of))]
fn read_all(alloc: Global, vhosts: &Names, value: &Value) -> Result<Placed<ExchangeDef>, KeyFault>
    ensures read { IfOk result (λ exchange. exchange ≡ exchanges.exchange_of (view value.now)) }
    ensures ok { OnOk result (exchanges.exchange_all_fault vhosts.now (view value.now) ≡ None) }
    ensures fault { IfErr result (λ fault. fault ≢ KeyFault.Memory
        → exchanges.exchange_all_fault vhosts.now (view value.now) ≡ Some fault) }
{
    let front = read_front(alloc, vhosts, value)?;
    let flags = read_flags(alloc, value)?;
    check_arguments(alloc, value)?;
    let item = ExchangeDef {
        name: front.name,
        kind: front.kind,
        durable: flags.durable,
        internal: flags.internal,
    };
    Ok(Placed {
        vhost: front.vhost,
        item,
    })
}

/// Reads an exchange.
#[tactic(auto, unfolding(crate::specs::Exchanges::exchange_fault, defs_values::specs::Paths::item_fault))]
fn read_exchange(
    alloc: Global,
    vhosts: &Names,
    index: usize,
    value: &Value,
) -> Result<Placed<ExchangeDef>, KeyFault>
    ensures read { IfOk result (λ exchange. exchange ≡ exchanges.exchange_of (view value.now)) }
    ensures ok { OnOk result (exchanges.exchange_fault vhosts.now index (view value.now) ≡ None) }
    ensures fault { IfErr result (λ fault. fault ≢ KeyFault.Memory
        → exchanges.exchange_fault vhosts.now index (view value.now) ≡ Some fault) }
{
    if !value.is_object() {
        return Err(at_item(alloc, "exchanges", index, misfit(value)));
    }
    match read_all(alloc, vhosts, value) {
        Ok(exchange) => Ok(exchange),
        Err(fault) => Err(in_item(alloc, "exchanges", index, fault)),
    }
}

/// Whether the exchange is auto-delete, as a number.
fn auto_delete_count(value: &Value) -> u32
    ensures { result ≡ (if queues.flag_at (codes "auto_delete") false (view value.now) then 1 else 0) }
{
    let auto_delete = value_of(value, "auto_delete").and_then(Value::as_bool);
    if auto_delete.unwrap_or(false) { 1 } else { 0 }
}

/// How many keys of an exchange are inert.
#[tactic(auto, unfolding(crate::specs::Exchanges::exchange_inert))]
fn exchange_inert(value: &Value) -> Result<u32, KeyFault>
    ensures count { IfOk result (λ count. count ≡ exchanges.exchange_inert (view value.now)) }
    ensures fault { IfErr result (λ fault. fault ≡ KeyFault.Memory) }
{
    let arguments = inert_at(KeySet::Arguments, value, "arguments")?;
    add(arguments, auto_delete_count(value))
}

/// Reads an exchange whose name doesn't stand among those before it, and puts its name behind them.
fn take_exchange(
    alloc: Global,
    vhosts: &Names,
    names: &mut Names,
    index: usize,
    value: &Value,
) -> Result<Placed<ExchangeDef>, KeyFault>
    ensures read { IfOk result (λ exchange. exchange ≡ exchanges.exchange_of (view value.now)) }
    ensures named { OnOk result (names.new ≡ names.old ++ queues.object_name (view value.now) ∷ []) }
    ensures ok { OnOk result (exchanges.exchange_fault vhosts.now index (view value.now) ≡ None) }
    ensures once { OnOk result (whole_fault (codes "exchanges") index (has_name (queues.object_name (view value.now)) names.old) ≡ None) }
    ensures fault { IfErr result (λ fault. fault ≢ KeyFault.Memory
        → option_or (exchanges.exchange_fault vhosts.now index (view value.now))
        (whole_fault (codes "exchanges") index (has_name (queues.object_name (view value.now)) names.old)) ≡ Some fault) }
{
    let exchange = read_exchange(alloc, vhosts, index, value)?;
    let name = object_name(alloc, value)?;
    once(alloc, names, &name, "exchanges", index)?;
    names.add(name)?;
    Ok(exchange)
}

/// What the list of exchanges holds.
#[derive(Drop)]
pub struct ExchangeList {
    /// Those that are kept.
    pub kept: Vec<Placed<ExchangeDef>>,
    /// Their names.
    pub names: Names,
    /// The names of those that are passed over.
    pub passed: Names,
    /// How many are passed over.
    pub over: u32,
    /// How many keys are inert.
    pub inert: u32,
}

/// Names and counts the exchanges that are passed over.
fn read_passed(alloc: Global, items: &[Value]) -> Result<Passed, KeyFault>
    ensures names { IfOk result (λ passed. passed.names ≡ exchanges.passed_exchanges [] (items_view items.now)) }
    ensures count { IfOk result (λ passed. passed.count ≡ exchanges.passed_exchange_count (items_view items.now)) }
    ensures fault { IfErr result (λ fault. fault ≡ KeyFault.Memory) }
{
    let mut names = Names::new(alloc);
    let mut count = 0;
    for item in items {
        if is_link_exchange(item) {
            let name = object_name(alloc, item)?;
            names.note(name)?;
            count = add(count, 1)?;
        }
    }
    Ok(Passed { names, count })
}

/// Reads the list of exchanges.
pub fn read_exchanges(
    alloc: Global,
    vhosts: &Names,
    items: &[Value],
) -> Result<ExchangeList, KeyFault>
    ensures kept { IfOk result (λ list. list.kept.items ≡ exchanges.exchanges_of (items_view items.now)) }
    ensures names { IfOk result (λ list. list.names ≡ exchanges.exchange_names (items_view items.now)) }
    ensures passed { IfOk result (λ list. list.passed ≡ exchanges.passed_exchanges [] (items_view items.now)) }
    ensures over { IfOk result (λ list. list.over ≡ exchanges.passed_exchange_count (items_view items.now)) }
    ensures inert { IfOk result (λ list. list.inert ≡ exchanges.exchanges_inert (items_view items.now)) }
    ensures ok { OnOk result (exchanges.exchanges_fault vhosts.now [] 0 (items_view items.now) ≡ None) }
    ensures fault { IfErr result (λ fault. fault ≢ KeyFault.Memory
        → exchanges.exchanges_fault vhosts.now [] 0 (items_view items.now) ≡ Some fault) }
{
    let mut kept = Vec::new(alloc);
    let mut names = Names::new(alloc);
    let mut inert = 0;
    for (index, value) in items.iter().enumerate() {
        if !is_passed_exchange(value) {
            let exchange = take_exchange(alloc, vhosts, &mut names, index, value)?;
            kept.push(exchange)?;
            inert = add(inert, exchange_inert(value)?)?;
        }
    }
    let passed = read_passed(alloc, items)?;
    Ok(ExchangeList {
        kept,
        names,
        passed: passed.names,
        over: passed.count,
        inert,
    })
}
