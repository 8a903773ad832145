//! The queues of a definitions file.
ghost use Rattle.std.specs.Prelude.{◌≡◌, ◌≢◌, [], ◌∷◌, ◌++◌, None, Some, IfOk, OnOk, IfErr, MatchResult, codes, option_map, option_and_then};
ghost use Rattle.std.specs.Option.{option_or};
ghost use Rattle.serde_json.specs.View.{view, items_view};
ghost use Rattle.serde_json.specs.Find.{get, as_str};
ghost use Rattle.defs_lists.specs.Queues as queues;
ghost use Rattle.defs_values.specs.Values as values;
ghost use Rattle.fed_defs.specs.Texts as texts;
ghost use Rattle.defs_values.specs.Texts as hosts;
ghost use Rattle.defs_values.specs.Keys.{value_at, optional_fault, required_fault};
ghost use Rattle.defs_lists.specs.Names.{has_name};
ghost use Rattle.defs_values.specs.Paths.{whole_fault};

use crate::names::{Name, Names, Passed, Word, once};
use crate::placed::Placed;
use crate::vhosts::{own_vhost, vhost_at};
use amqp_props::{QueueOptions, Text};
use defs_values::fault::{KeyFault, Refusal};
use defs_values::inert::{KeySet, add, inert_at};
use defs_values::keys::{refused, value_of};
use defs_values::paths::{at_item, below, in_item};
use defs_values::settings::flag_at;
use defs_values::value::{is_word, misfit, read_name};
use fed_defs::QueueDef;
use serde_json::Value;
use std::alloc::{AllocError, Global};

/// The text at the key, and the empty one where there is none.
pub fn word_at(alloc: Global, value: &Value, key: &str) -> Result<Word, AllocError>
    ensures { IfOk result (λ word. word ≡ hosts.text_at key.now (view value.now)) }
{
    match value_of(value, key).and_then(Value::as_str) {
        Some(text) => Word::from_str(alloc, text),
        None => Ok(Word::empty(alloc)),
    }
}

/// The name at the key, within the virtual host.
#[tactic(auto, unfolding(crate::specs::Queues::named_at))]
pub fn named_at(alloc: Global, value: &Value, key: &str) -> Result<Name, AllocError>
    ensures { IfOk result (λ name. name ≡ queues.named_at key.now (view value.now)) }
{
    let vhost = vhost_at(alloc, value)?;
    let name = word_at(alloc, value, key)?;
    Ok(Name {
        vhost: Word::from_str(alloc, vhost.as_str())?,
        component: Word::empty(alloc),
        name,
    })
}

/// The name of an object.
pub fn object_name(alloc: Global, value: &Value) -> Result<Name, AllocError>
    ensures { IfOk result (λ name. name ≡ queues.object_name (view value.now)) }
{
    named_at(alloc, value, "name")
}

/// Reads a name at the key, which has to be there.
#[tactic(auto, unfolding(defs_values::specs::Keys::required_fault))]
pub fn name_at(alloc: Global, value: &Value, key: &str) -> Result<Text, KeyFault>
    ensures read { IfOk result (λ name. name ≡ hosts.text_at key.now (view value.now)) }
    ensures ok { OnOk result (required_fault values.name_refusal key.now (view value.now) ≡ None) }
    ensures fault { IfErr result (λ fault. fault ≢ KeyFault.Memory
        → required_fault values.name_refusal key.now (view value.now) ≡ Some fault) }
{
    let Some(found) = value_of(value, key) else {
        return Err(refused(alloc, key, Refusal::Shape));
    };
    match read_name(alloc, found) {
        Ok(name) => Ok(name),
        Err(why) => Err(refused(alloc, key, why)),
    }
}

/// The type of a queue, where it has one.
fn type_at(value: &Value) -> Option<&str>
    ensures { option_map (λ text. text.now) result
        ≡ option_and_then (value_at as_str (codes "x-queue-type")) (get (codes "arguments") (view value.now)) }
{
    let arguments = value_of(value, "arguments")?;
    value_of(arguments, "x-queue-type").and_then(Value::as_str)
}

/// Whether the queue is of the type.
fn is_type(value: &Value, word: &str) -> bool
    ensures { result ≡ texts.same_text (queues.type_of (view value.now)) word.now }
{
    match type_at(value) {
        Some(text) => is_word(text, word),
        None => is_word("classic", word),
    }
}

/// Whether the name is one that belongs to links.
pub fn is_reserved_at(value: &Value) -> bool
    ensures { result ≡ texts.is_reserved (hosts.text_at (codes "name") (view value.now)) }
{
    match value_of(value, "name").and_then(Value::as_str) {
        Some(name) => name.as_bytes().starts_with(b"federation: "),
        None => false,
    }
}

/// Whether the queue is passed over.
#[tactic(auto, unfolding(crate::specs::Queues::is_passed_queue))]
pub fn is_passed_queue(value: &Value) -> bool
    ensures { result ≡ queues.is_passed_queue (view value.now) }
{
    is_reserved_at(value) || is_type(value, "stream")
}

/// Checks the type of a queue.
#[tactic(auto, unfolding(crate::specs::Queues::type_refusal))]
fn check_type(value: &Value) -> Result<(), Refusal>
    ensures { MatchResult result (λ _. queues.type_refusal (view value.now) ≡ None)
        (λ why. queues.type_refusal (view value.now) ≡ Some why) }
{
    match value.as_str() {
        Some(text) if is_word(text, "quorum") || is_word(text, "classic") => Ok(()),
        _ => Err(misfit(value)),
    }
}

/// Checks the arguments of a queue.
#[tactic(auto, unfolding(defs_values::specs::Keys::optional_fault))]
fn check_type_at(alloc: Global, value: &Value) -> Result<(), KeyFault>
    ensures ok { OnOk result (queues.type_fault (view value.now) ≡ None) }
    ensures fault { IfErr result (λ fault. fault ≢ KeyFault.Memory
        → queues.type_fault (view value.now) ≡ Some fault) }
{
    let Some(found) = value_of(value, "x-queue-type") else {
        return Ok(());
    };
    match check_type(found) {
        Ok(()) => Ok(()),
        Err(why) => Err(refused(alloc, "x-queue-type", why)),
    }
}

/// Checks that the arguments are an object, and the type among them.
#[tactic(auto, unfolding(crate::specs::Queues::queue_arguments_fault, defs_values::specs::Paths::object_fault))]
fn check_arguments(alloc: Global, value: &Value) -> Result<(), KeyFault>
    ensures ok { OnOk result (queues.queue_arguments_fault (view value.now) ≡ None) }
    ensures fault { IfErr result (λ fault. fault ≢ KeyFault.Memory
        → queues.queue_arguments_fault (view value.now) ≡ Some fault) }
{
    let Some(found) = value_of(value, "arguments") else {
        return Ok(());
    };
    if !found.is_object() {
        return Err(refused(alloc, "arguments", misfit(found)));
    }
    match check_type_at(alloc, found) {
        Ok(()) => Ok(()),
        Err(fault) => Err(below(alloc, "arguments", fault)),
    }
}

/// Reads the keys of a queue but its arguments.
#[tactic(auto, unfolding(crate::specs::Queues::queue_keys_fault, crate::specs::Queues::queue_of))]
fn read_keys(alloc: Global, vhosts: &Names, value: &Value) -> Result<Placed<QueueDef>, KeyFault>
    ensures read { IfOk result (λ queue. queue ≡ queues.queue_of (view value.now)) }
    ensures ok { OnOk result (queues.queue_keys_fault vhosts.now (view value.now) ≡ None) }
    ensures fault { IfErr result (λ fault. fault ≢ KeyFault.Memory
        → queues.queue_keys_fault vhosts.now (view value.now) ≡ Some fault) }
{
    let vhost = own_vhost(alloc, vhosts, value)?;
    let name = name_at(alloc, value, "name")?;
    let durable = flag_at(alloc, value, "durable")?;
    let auto_delete = flag_at(alloc, value, "auto_delete")?;
    let options = QueueOptions {
        durable: durable.unwrap_or(true),
        exclusive: false,
        auto_delete: auto_delete.unwrap_or(false),
    };
    let item = QueueDef {
        name,
        quorum: is_type(value, "quorum"),
        options,
    };
    Ok(Placed { vhost, item })
}

/// Reads the keys of a queue.
#[tactic(auto, unfolding(crate::specs::Queues::queue_all_fault))]
fn read_all(alloc: Global, vhosts: &Names, value: &Value) -> Result<Placed<QueueDef>, KeyFault>
    ensures read { IfOk result (λ queue. queue ≡ queues.queue_of (view value.now)) }
    ensures ok { OnOk result (queues.queue_all_fault vhosts.now (view value.now) ≡ None) }
    ensures fault { IfErr result (λ fault. fault ≢ KeyFault.Memory
        → queues.queue_all_fault vhosts.now (view value.now) ≡ Some fault) }
{
    let queue = read_keys(alloc, vhosts, value)?;
    check_arguments(alloc, value)?;
    Ok(queue)
}

/// Reads a queue.
#[tactic(auto, unfolding(crate::specs::Queues::queue_fault, defs_values::specs::Paths::item_fault))]
fn read_queue(
    alloc: Global,
    vhosts: &Names,
    index: usize,
    value: &Value,
) -> Result<Placed<QueueDef>, KeyFault>
    ensures read { IfOk result (λ queue. queue ≡ queues.queue_of (view value.now)) }
    ensures ok { OnOk result (queues.queue_fault vhosts.now index (view value.now) ≡ None) }
    ensures fault { IfErr result (λ fault. fault ≢ KeyFault.Memory
        → queues.queue_fault vhosts.now index (view value.now) ≡ Some fault) }
{
    if !value.is_object() {
        return Err(at_item(alloc, "queues", index, misfit(value)));
    }
    match read_all(alloc, vhosts, value) {
        Ok(queue) => Ok(queue),
        Err(fault) => Err(in_item(alloc, "queues", index, fault)),
    }
}

/// How many keys of a queue are inert.
#[tactic(auto, unfolding(crate::specs::Queues::queue_inert))]
fn queue_inert(value: &Value) -> Result<u32, KeyFault>
    ensures count { IfOk result (λ count. count ≡ queues.queue_inert (view value.now)) }
    ensures fault { IfErr result (λ fault. fault ≡ KeyFault.Memory) }
{
    inert_at(KeySet::Arguments, value, "arguments")
}

/// Reads a queue whose name doesn't stand among those before it, and puts its name behind them.
fn take_queue(
    alloc: Global,
    vhosts: &Names,
    names: &mut Names,
    index: usize,
    value: &Value,
) -> Result<Placed<QueueDef>, KeyFault>
    ensures read { IfOk result (λ queue. queue ≡ queues.queue_of (view value.now)) }
    ensures named { OnOk result (names.new ≡ names.old ++ queues.object_name (view value.now) ∷ []) }
    ensures ok { OnOk result (queues.queue_fault vhosts.now index (view value.now) ≡ None) }
    ensures once { OnOk result (whole_fault (codes "queues") index (has_name (queues.object_name (view value.now)) names.old) ≡ None) }
    ensures fault { IfErr result (λ fault. fault ≢ KeyFault.Memory
        → option_or (queues.queue_fault vhosts.now index (view value.now))
        (whole_fault (codes "queues") index (has_name (queues.object_name (view value.now)) names.old)) ≡ Some fault) }
{
    let queue = read_queue(alloc, vhosts, index, value)?;
    let name = object_name(alloc, value)?;
    once(alloc, names, &name, "queues", index)?;
    names.add(name)?;
    Ok(queue)
}

/// What the list of queues holds.
#[derive(Drop)]
pub struct QueueList {
    /// Those that are kept.
    pub kept: Vec<Placed<QueueDef>>,
    /// Their names.
    pub names: Names,
    /// The names of those that are passed over.
    pub passed: Names,
    /// How many are passed over.
    pub over: u32,
    /// How many keys are inert.
    pub inert: u32,
}

/// Names and counts the queues that are passed over.
fn read_passed(alloc: Global, items: &[Value]) -> Result<Passed, KeyFault>
    ensures names { IfOk result (λ passed. passed.names ≡ queues.passed_queues [] (items_view items.now)) }
    ensures count { IfOk result (λ passed. passed.count ≡ queues.passed_queue_count (items_view items.now)) }
    ensures fault { IfErr result (λ fault. fault ≡ KeyFault.Memory) }
{
    let mut names = Names::new(alloc);
    let mut count = 0;
    for item in items {
        if is_passed_queue(item) {
            let name = object_name(alloc, item)?;
            names.note(name)?;
            count = add(count, 1)?;
        }
    }
    Ok(Passed { names, count })
}

/// Reads the list of queues.
pub fn read_queues(alloc: Global, vhosts: &Names, items: &[Value]) -> Result<QueueList, KeyFault>
    ensures kept { IfOk result (λ list. list.kept.items ≡ queues.queues_of (items_view items.now)) }
    ensures names { IfOk result (λ list. list.names ≡ queues.queue_names (items_view items.now)) }
    ensures passed { IfOk result (λ list. list.passed ≡ queues.passed_queues [] (items_view items.now)) }
    ensures over { IfOk result (λ list. list.over ≡ queues.passed_queue_count (items_view items.now)) }
    ensures inert { IfOk result (λ list. list.inert ≡ queues.queues_inert (items_view items.now)) }
    ensures ok { OnOk result (queues.queues_fault vhosts.now [] 0 (items_view items.now) ≡ None) }
    ensures fault { IfErr result (λ fault. fault ≢ KeyFault.Memory
        → queues.queues_fault vhosts.now [] 0 (items_view items.now) ≡ Some fault) }
{
    let mut kept = Vec::new(alloc);
    let mut names = Names::new(alloc);
    let mut inert = 0;
    for (index, value) in items.iter().enumerate() {
        if !is_passed_queue(value) {
            let queue = take_queue(alloc, vhosts, &mut names, index, value)?;
            kept.push(queue)?;
            inert = add(inert, queue_inert(value)?)?;
        }
    }
    let passed = read_passed(alloc, items)?;
    Ok(QueueList {
        kept,
        names,
        passed: passed.names,
        over: passed.count,
        inert,
    })
}
