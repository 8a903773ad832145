//! Shovels.
ghost use Rattle.std.specs.Prelude.{◌≡◌, ◌≢◌, None, Some, IfOk, OnOk, IfErr, option_map, unwrap_or, codes, []};
ghost use Rattle.serde_json.specs.View.{view};
ghost use Rattle.serde_json.specs.Find.{get, as_str};
ghost use Rattle.defs_values.specs.Shovels as shovels;
ghost use Rattle.defs_values.specs.Keys.{named, value_at};
ghost use Rattle.defs_values.specs.Uris.{uris_at};
ghost use Rattle.defs_values.specs.Upstreams.{most_prefetch};
ghost use Rattle.defs_values.specs.Values.{number_in};
ghost use Rattle.defs_values.specs.Shovels.{shovel_of, shovel_fault, value_with, value_without};

use crate::fault::{KeyFault, Refusal, ValueFault};
use crate::keys::{mode_at, named, number_at, refused, uris_at, value_of};
use crate::props::props_of;
use crate::settings::{
    check_props_at, check_props_without, check_protocol_at, delete_at, delete_without, exchange_at,
    flag_at, flag_without, has_key, prefetch_without, text_with,
};
use crate::upstream::{MOST_DELAY, MOST_PREFETCH, as_short};
use crate::value::{misfit, read_name};
use amqp_props::{AckMode, DeleteAfter, Properties, SourceAt, TargetAt, Text};
use fed_defs::{ShovelDef, Uris, no_props};
use serde_json::Value;
use std::alloc::{AllocError, Global};

/// What is read up to `dest-add-forward-headers`.
#[derive(Drop)]
struct Front {
    mode: AckMode,
    older_delete: Option<DeleteAfter>,
    stamp: bool,
}

/// An exchange and a routing key, where they are named.
#[derive(Drop)]
struct ExchangeAt {
    name: Option<Text>,
    key: Option<Text>,
}

/// What is read from `dest-exchange` to `dest-uri`.
#[derive(Drop)]
struct Target {
    at: TargetAt,
    uris: Uris,
}

/// What is read from `prefetch-count` to `src-delete-after`.
#[derive(Drop)]
struct Middle {
    older_prefetch: Option<u16>,
    delay: u64,
    delete: Option<DeleteAfter>,
}

/// What is read from `src-exchange` to `src-protocol`.
#[derive(Drop)]
struct SourceNames {
    exchange: Option<Text>,
    key: Option<Text>,
    prefetch: Option<u16>,
}

/// What is read from `src-exchange` on.
#[derive(Drop)]
struct Source {
    prefetch: Option<u16>,
    at: SourceAt,
    uris: Uris,
}

/// Reads what stands up to `dest-add-forward-headers`.
#[tactic(auto, unfolding(crate::specs::Shovels::front_fault))]
fn read_front(alloc: Global, value: &Value) -> Result<Front, KeyFault>
    ensures mode { IfOk result (λ front. front.mode ≡ shovels.mode_or_default (view value.now)) }
    ensures older_delete { IfOk result (λ front. front.older_delete
        ≡ value_without shovels.delete_at (codes "src-delete-after") (codes "delete-after") (view value.now)) }
    ensures stamp { IfOk result (λ front. front.stamp ≡ shovels.stamp_or_default (view value.now)) }
    ensures ok { OnOk result (shovels.front_fault (view value.now) ≡ None) }
    ensures fault { IfErr result (λ fault. fault ≢ KeyFault.Memory
        → shovels.front_fault (view value.now) ≡ Some fault) }
{
    let mode = mode_at(alloc, value, "ack-mode")?;
    let older_stamp = flag_without(
        alloc,
        value,
        "dest-add-forward-headers",
        "add-forward-headers",
    )?;
    let older_delete = delete_without(alloc, value, "src-delete-after", "delete-after")?;
    let stamp = flag_at(alloc, value, "dest-add-forward-headers")?;
    Ok(Front {
        mode: mode.unwrap_or(AckMode::OnConfirm),
        older_delete,
        stamp: stamp.or(older_stamp).unwrap_or(false),
    })
}

/// Reads `dest-queue`, which is refused beside `dest-exchange`.
#[tactic(auto, unfolding(crate::specs::Shovels::target_queue_fault, crate::specs::Keys::optional_fault))]
fn read_target_queue(alloc: Global, value: &Value) -> Result<Option<Text>, KeyFault>
    ensures read { IfOk result (λ queue. queue ≡ value_at as_str (codes "dest-queue") (view value.now)) }
    ensures ok { OnOk result (shovels.target_queue_fault (view value.now) ≡ None) }
    ensures fault { IfErr result (λ fault. fault ≢ KeyFault.Memory
        → shovels.target_queue_fault (view value.now) ≡ Some fault) }
{
    let Some(found) = value_of(value, "dest-queue") else {
        return Ok(None);
    };
    if has_key(value, "dest-exchange") {
        return Err(refused(alloc, "dest-queue", misfit(found)));
    }
    match read_name(alloc, found) {
        Ok(queue) => Ok(Some(queue)),
        Err(why) => Err(refused(alloc, "dest-queue", why)),
    }
}

/// Where a shovel publishes.
fn target_from(queue: Option<Text>, exchange: Option<Text>, key: Option<Text>) -> TargetAt
    ensures { result ≡ shovels.target_from queue exchange key }
{
    match queue {
        Some(queue) => TargetAt::Queue(queue),
        None => match exchange {
            Some(name) => TargetAt::Exchange { name, key },
            None => TargetAt::Original,
        },
    }
}

/// Reads what stands from `dest-exchange` to `dest-publish-properties`.
#[tactic(auto, unfolding(crate::specs::Shovels::target_names_fault))]
fn read_target_names(alloc: Global, value: &Value) -> Result<ExchangeAt, KeyFault>
    ensures name { IfOk result (λ at. at.name ≡ value_at as_str (codes "dest-exchange") (view value.now)) }
    ensures key { IfOk result (λ at. at.key
        ≡ value_with as_str (codes "dest-exchange") (codes "dest-exchange-key") (view value.now)) }
    ensures ok { OnOk result (shovels.target_names_fault (view value.now) ≡ None) }
    ensures fault { IfErr result (λ fault. fault ≢ KeyFault.Memory
        → shovels.target_names_fault (view value.now) ≡ Some fault) }
{
    let name = exchange_at(alloc, value, "dest-exchange")?;
    let key = text_with(alloc, value, "dest-exchange", "dest-exchange-key")?;
    check_protocol_at(alloc, value, "dest-protocol")?;
    check_props_at(alloc, value, "dest-publish-properties")?;
    Ok(ExchangeAt { name, key })
}

/// Reads what stands from `dest-exchange` to `dest-uri`.
#[tactic(auto, unfolding(crate::specs::Shovels::target_fault, crate::specs::Shovels::target_of))]
fn read_target(alloc: Global, value: &Value) -> Result<Target, KeyFault>
    ensures at { IfOk result (λ target. target.at ≡ shovels.target_of (view value.now)) }
    ensures uris { IfOk result (λ target. target.uris ≡ uris_at (codes "dest-uri") (view value.now)) }
    ensures ok { OnOk result (shovels.target_fault (view value.now) ≡ None) }
    ensures fault { IfErr result (λ fault. fault ≢ KeyFault.Memory
        → shovels.target_fault (view value.now) ≡ Some fault) }
{
    let exchange = read_target_names(alloc, value)?;
    let queue = read_target_queue(alloc, value)?;
    let uris = uris_at(alloc, value, "dest-uri")?;
    Ok(Target {
        at: target_from(queue, exchange.name, exchange.key),
        uris,
    })
}

/// Reads what stands from `prefetch-count` to `src-delete-after`.
#[tactic(auto, unfolding(crate::specs::Shovels::middle_fault))]
fn read_middle(alloc: Global, value: &Value) -> Result<Middle, KeyFault>
    ensures prefetch { IfOk result (λ middle. middle.older_prefetch
        ≡ value_without (number_in 0 most_prefetch) (codes "src-prefetch-count") (codes "prefetch-count") (view value.now)) }
    ensures delay { IfOk result (λ middle. middle.delay ≡ shovels.delay_or_default (view value.now)) }
    ensures delete { IfOk result (λ middle. middle.delete
        ≡ value_at shovels.delete_at (codes "src-delete-after") (view value.now)) }
    ensures ok { OnOk result (shovels.middle_fault (view value.now) ≡ None) }
    ensures fault { IfErr result (λ fault. fault ≢ KeyFault.Memory
        → shovels.middle_fault (view value.now) ≡ Some fault) }
{
    let older_prefetch = prefetch_without(alloc, value, "src-prefetch-count", "prefetch-count")?;
    check_props_without(
        alloc,
        value,
        "dest-publish-properties",
        "publish-properties",
    )?;
    let delay = number_at(alloc, value, "reconnect-delay", 0, MOST_DELAY)?;
    let delete = delete_at(alloc, value, "src-delete-after")?;
    Ok(Middle {
        older_prefetch: as_short(older_prefetch),
        delay: delay.unwrap_or(5),
        delete,
    })
}

/// Reads `src-queue`: it or `src-exchange` has to be there, and not both.
#[tactic(auto, unfolding(crate::specs::Shovels::source_queue_fault))]
fn read_source_queue(alloc: Global, value: &Value) -> Result<Option<Text>, KeyFault>
    ensures read { IfOk result (λ queue. queue ≡ value_at as_str (codes "src-queue") (view value.now)) }
    ensures ok { OnOk result (shovels.source_queue_fault (view value.now) ≡ None) }
    ensures fault { IfErr result (λ fault. fault ≢ KeyFault.Memory
        → shovels.source_queue_fault (view value.now) ≡ Some fault) }
{
    let exchange = has_key(value, "src-exchange");
    let Some(found) = value_of(value, "src-queue") else {
        if exchange {
            return Ok(None);
        }
        return Err(refused(alloc, "src-queue", Refusal::Shape));
    };
    if exchange {
        return Err(refused(alloc, "src-queue", misfit(found)));
    }
    match read_name(alloc, found) {
        Ok(queue) => Ok(Some(queue)),
        Err(why) => Err(refused(alloc, "src-queue", why)),
    }
}

/// What a shovel takes from.
fn source_from(
    alloc: Global,
    queue: Option<Text>,
    exchange: Option<Text>,
    key: Option<Text>,
) -> Result<SourceAt, AllocError>
    ensures { IfOk result (λ at. at ≡ shovels.source_from queue exchange key) }
{
    match queue {
        Some(queue) => Ok(SourceAt::Queue(queue)),
        None => Ok(SourceAt::Exchange {
            name: text_or_empty(alloc, exchange)?,
            key: text_or_empty(alloc, key)?,
        }),
    }
}

/// The text, or the empty one.
fn text_or_empty(alloc: Global, text: Option<Text>) -> Result<Text, AllocError>
    ensures { IfOk result (λ chosen. chosen ≡ unwrap_or text []) }
{
    match text {
        Some(text) => Ok(text),
        None => Text::new(alloc, String::new(alloc)),
    }
}

/// Reads what stands from `src-exchange` to `src-protocol`.
#[tactic(auto, unfolding(crate::specs::Shovels::source_names_fault))]
fn read_source_names(alloc: Global, value: &Value) -> Result<SourceNames, KeyFault>
    ensures exchange { IfOk result (λ names. names.exchange
        ≡ value_at as_str (codes "src-exchange") (view value.now)) }
    ensures key { IfOk result (λ names. names.key
        ≡ value_with as_str (codes "src-exchange") (codes "src-exchange-key") (view value.now)) }
    ensures prefetch { IfOk result (λ names. names.prefetch
        ≡ value_at (number_in 0 most_prefetch) (codes "src-prefetch-count") (view value.now)) }
    ensures ok { OnOk result (shovels.source_names_fault (view value.now) ≡ None) }
    ensures fault { IfErr result (λ fault. fault ≢ KeyFault.Memory
        → shovels.source_names_fault (view value.now) ≡ Some fault) }
{
    let exchange = exchange_at(alloc, value, "src-exchange")?;
    let key = text_with(alloc, value, "src-exchange", "src-exchange-key")?;
    let prefetch = number_at(alloc, value, "src-prefetch-count", 0, MOST_PREFETCH)?;
    check_protocol_at(alloc, value, "src-protocol")?;
    Ok(SourceNames {
        exchange,
        key,
        prefetch: as_short(prefetch),
    })
}

/// Reads what stands from `src-exchange` on.
#[tactic(auto, unfolding(crate::specs::Shovels::source_fault, crate::specs::Shovels::source_of))]
fn read_source(alloc: Global, value: &Value) -> Result<Source, KeyFault>
    ensures at { IfOk result (λ source. source.at ≡ shovels.source_of (view value.now)) }
    ensures prefetch { IfOk result (λ source. source.prefetch
        ≡ value_at (number_in 0 most_prefetch) (codes "src-prefetch-count") (view value.now)) }
    ensures uris { IfOk result (λ source. source.uris ≡ uris_at (codes "src-uri") (view value.now)) }
    ensures ok { OnOk result (shovels.source_fault (view value.now) ≡ None) }
    ensures fault { IfErr result (λ fault. fault ≢ KeyFault.Memory
        → shovels.source_fault (view value.now) ≡ Some fault) }
{
    let names = read_source_names(alloc, value)?;
    let queue = read_source_queue(alloc, value)?;
    let uris = uris_at(alloc, value, "src-uri")?;
    Ok(Source {
        prefetch: names.prefetch,
        at: source_from(alloc, queue, names.exchange, names.key)?,
        uris,
    })
}

/// The properties that a shovel sets.
fn read_props(alloc: Global, value: &Value) -> Result<Properties, AllocError>
    ensures { IfOk result (λ props. props ≡ shovels.props_or_none
        (get (codes "dest-publish-properties") (view value.now)) (get (codes "publish-properties") (view value.now))) }
{
    if let Some(newer) = value_of(value, "dest-publish-properties") {
        return props_of(alloc, newer);
    }
    match value_of(value, "publish-properties") {
        Some(older) => props_of(alloc, older),
        None => Ok(no_props()),
    }
}

/// Reads a shovel.
#[tactic(auto, unfolding(crate::specs::Shovels::shovel_of, crate::specs::Shovels::shovel_fault))]
pub fn read_keys(alloc: Global, value: &Value) -> Result<ShovelDef, KeyFault>
    ensures read { IfOk result (λ shovel. shovel ≡ shovel_of (view value.now)) }
    ensures ok { OnOk result (shovel_fault (view value.now) ≡ None) }
    ensures fault { IfErr result (λ fault. fault ≢ KeyFault.Memory → shovel_fault (view value.now) ≡ Some fault) }
{
    let front = read_front(alloc, value)?;
    let target = read_target(alloc, value)?;
    let middle = read_middle(alloc, value)?;
    let source = read_source(alloc, value)?;
    let props = read_props(alloc, value)?;
    Ok(ShovelDef {
        sources: source.uris,
        targets: target.uris,
        source_at: source.at,
        target_at: target.at,
        mode: front.mode,
        prefetch: source.prefetch.or(middle.older_prefetch).unwrap_or(1000),
        delay: middle.delay,
        delete_after: middle
            .delete
            .or(front.older_delete)
            .unwrap_or(DeleteAfter::Never),
        stamp: front.stamp,
        props,
    })
}

/// Reads the value of a shovel. What is no key of a shovel has no effect.
pub fn read_shovel(alloc: Global, value: &Value) -> Result<ShovelDef, ValueFault>
    ensures read { IfOk result (λ shovel. shovel ≡ shovel_of (view value.now)) }
    ensures ok { OnOk result (shovel_fault (view value.now) ≡ None) }
    ensures fault { IfErr result (λ fault. fault ≢ ValueFault.Memory
        → option_map named (shovel_fault (view value.now)) ≡ Some fault) }
{
    match read_keys(alloc, value) {
        Ok(shovel) => Ok(shovel),
        Err(fault) => Err(named(alloc, &fault)),
    }
}
