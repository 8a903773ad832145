//! What a link writes into the headers of a message that it sends on.

ghost use Rattle.std.specs.Prelude.{◌≡◌, ◌++◌, ◌∷◌, ◌<◌, ◌^◌, [], IfOk, OnOk, Some, None, option_and_then, filter, not, if◌then◌else◌};
ghost use Rattle.std.specs.List.{filter_map};
ghost use Rattle.field_tables.specs.Fields.{table};
ghost use Rattle.field_tables.specs.View.{field_view, fields_view, pairs_view, table_view};
ghost use Rattle.hop_headers.specs.Names.{name_text};
ghost use Rattle.hop_headers.specs.Hops.{same_place, object_at, entry_at, entry_of};
ghost use Rattle.hop_headers.specs.Stamps.{named_object, object_name, with_hops as table_with_hops, exchange_hop as exchange_hop_of, queue_hop as queue_hop_of, stamped_exchange, is_queue, is_own, is_own_hop, visits_if_own, visits_before as visits_in, next_visits as visits_after, stamped_queue, IsExchange, IsQueue};

use crate::entry::{HopEntry, HopObject, PlaceName};
use crate::hops::{PlaceTexts, kept_hops, place_at, visits_at};
use crate::names::FieldName;
use crate::pairs::{Pairs, array_value, copy_values, put, table_value, text_value, with_header};
use crate::values::{table_of, text_at};
use field_tables::{FieldValue, Table};
use std::alloc::{AllocError, Global};

/// The greatest count that an entry has.
const MAX_VISITS: u32 = 2_147_483_647;

/// The names and values by which an entry names its place and its exchange or queue.
pub(crate) fn put_names(
    place: &PlaceName,
    object: FieldName,
    name: &str,
    to: &mut Pairs,
) -> Result<(), AllocError>
    ensures { OnOk result (pairs_view to.new.items ≡ pairs_view to.old.items
        ++ named_object place.now (name_text object) name.now) }
{
    let alloc = *to.allocator();
    put(
        FieldName::ClusterName,
        text_value(alloc, place.cluster.as_str())?,
        to,
    )?;
    put(
        FieldName::Vhost,
        text_value(alloc, place.vhost.as_str())?,
        to,
    )?;
    put(object, text_value(alloc, name)?, to)
}

#[tactic(auto, unfolding(crate::specs::Stamps::exchange_hop))]
fn exchange_hop(
    alloc: Global,
    place: &PlaceName,
    exchange: &str,
    redelivered: bool,
) -> Result<FieldValue, AllocError>
    ensures { IfOk result (λ v. field_view v
        ≡ table (exchange_hop_of place.now exchange.now redelivered)) }
{
    let mut pairs = Vec::with_capacity(alloc, 4)?;
    put_names(place, FieldName::Exchange, exchange, &mut pairs)?;
    put(
        FieldName::Redelivered,
        FieldValue::Bool(redelivered),
        &mut pairs,
    )?;
    Ok(table_value(pairs))
}

#[tactic(auto, unfolding(crate::specs::Stamps::queue_hop))]
fn queue_hop(
    alloc: Global,
    place: &PlaceName,
    queue: &str,
    redelivered: bool,
    visits: u32,
) -> Result<FieldValue, AllocError>
    requires { visits < 2 ^ 31 }
    ensures { IfOk result (λ v. field_view v
        ≡ table (queue_hop_of place.now queue.now redelivered visits)) }
{
    let mut pairs = Vec::with_capacity(alloc, 5)?;
    put_names(place, FieldName::Queue, queue, &mut pairs)?;
    put(
        FieldName::Redelivered,
        FieldValue::Bool(redelivered),
        &mut pairs,
    )?;
    put(
        FieldName::VisitCount,
        FieldValue::I32(visits as i32),
        &mut pairs,
    )?;
    Ok(table_value(pairs))
}

/// Whether an entry names this queue.
#[tactic(auto, unfolding(crate::specs::Hops::object_at))]
fn is_of_queue(queue: &str, table: &Table) -> bool
    ensures { result ≡ is_queue queue.now (object_at (table_view table.now)) }
{
    match text_at(FieldName::Queue, table) {
        Some(name) => queue == name,
        None => false,
    }
}

fn is_place(place: &PlaceName, found: PlaceTexts) -> bool
    ensures { result ≡ same_place place.now
        record { cluster = found.entry.cluster.now; vhost = found.entry.vhost.now } }
{
    place.cluster.as_str() == found.cluster && place.vhost.as_str() == found.vhost
}

/// How often a message came by, where the table is an entry of this place and queue.
#[tactic(auto, unfolding(crate::specs::Hops::entry_at))]
fn own_visits(place: &PlaceName, queue: &str, table: &Table) -> Option<u32>
    ensures { result ≡ option_and_then (visits_if_own place.now queue.now)
        (entry_at (table_view table.now)) }
{
    match place_at(table) {
        Some(found) if is_place(place, found) && is_of_queue(queue, table) => Some(visits_at(
            table,
        )),
        _ => None,
    }
}

fn visits_of(place: &PlaceName, queue: &str, value: &FieldValue) -> Option<u32>
    ensures { result ≡ option_and_then (visits_if_own place.now queue.now)
        (entry_of (field_view value.now)) }
{
    match table_of(value) {
        Some(table) => own_visits(place, queue, table),
        None => None,
    }
}

/// How often the message came by, as the first of the own entries has it; 0 where there is none.
fn visits_before(place: &PlaceName, queue: &str, values: &[FieldValue]) -> u32
    ensures { result ≡ visits_in place.now queue.now (filter_map entry_of (fields_view values.now)) }
{
    for value in values {
        if let Some(visits) = visits_of(place, queue, value) {
            return visits;
        }
    }
    0
}

fn next_visits(visits: u32) -> u32
    ensures { result ≡ visits_after visits }
{
    visits.min(MAX_VISITS - 1) + 1
}

/// Adds a copy of a value, unless it is an entry of this place and queue.
#[tactic(auto, unfolding(crate::specs::Stamps::is_own_hop))]
fn copy_other(
    place: &PlaceName,
    queue: &str,
    value: &FieldValue,
    to: &mut Vec<FieldValue>,
) -> Result<(), AllocError>
    ensures { OnOk result (fields_view to.new.items ≡ fields_view to.old.items
        ++ (if is_own_hop place.now queue.now (field_view value.now) then [] else field_view value.now ∷ [])) }
{
    if visits_of(place, queue, value).is_none() {
        to.push(value.clone()?)?;
    }
    Ok(())
}

fn copy_others(
    place: &PlaceName,
    queue: &str,
    values: &[FieldValue],
    to: &mut Vec<FieldValue>,
) -> Result<(), AllocError>
    ensures { OnOk result (fields_view to.new.items ≡ fields_view to.old.items
        ++ filter (λ v. not (is_own_hop place.now queue.now v)) (fields_view values.now)) }
{
    for value in values {
        copy_other(place, queue, value, to)?;
    }
    Ok(())
}

fn with_hops(alloc: Global, headers: &Table, hops: Vec<FieldValue>) -> Result<Table, AllocError>
    ensures { IfOk result (λ t. table_view t
        ≡ table_with_hops (fields_view hops.items) (table_view headers.now)) }
{
    with_header(alloc, headers, FieldName::ReceivedFrom, array_value(hops))
}

#[tactic(auto, unfolding(crate::specs::Stamps::stamped_exchange))]
fn stamp_of_exchange(
    alloc: Global,
    headers: &Table,
    place: &PlaceName,
    exchange: &str,
    redelivered: bool,
) -> Result<Table, AllocError>
    ensures { IfOk result (λ t. table_view t
        ≡ stamped_exchange (table_view headers.now) place.now exchange.now redelivered) }
{
    let kept = kept_hops(headers);
    let mut hops = vec![in alloc; exchange_hop(alloc, place, exchange, redelivered)?]?;
    copy_values(kept, &mut hops)?;
    with_hops(alloc, headers, hops)
}

#[tactic(auto, unfolding(crate::specs::Stamps::stamped_queue))]
fn stamp_of_queue(
    alloc: Global,
    headers: &Table,
    place: &PlaceName,
    queue: &str,
    redelivered: bool,
) -> Result<Table, AllocError>
    ensures { IfOk result (λ t. table_view t
        ≡ stamped_queue (table_view headers.now) place.now queue.now redelivered) }
{
    let kept = kept_hops(headers);
    let visits = next_visits(visits_before(place, queue, kept));
    let mut hops = vec![in alloc; queue_hop(alloc, place, queue, redelivered, visits)?]?;
    copy_others(place, queue, kept, &mut hops)?;
    with_hops(alloc, headers, hops)
}

/// The headers of a message that an exchange link sends on: its entry, which names the upstream place and exchange, is
/// in front of the entries that the message had.
///
/// A header that counts as none is replaced; the header keeps its place among the others, or comes last. The visits of
/// the entry aren't read. RabbitMQ's "Federated Exchanges".
pub fn stamp_exchange(alloc: Global, headers: &Table, entry: &HopEntry) -> Result<Table, AllocError>
    requires { IsExchange entry.now.object }
    ensures { IfOk result (λ t. table_view t ≡ stamped_exchange (table_view headers.now)
        entry.now.place (object_name entry.now.object) entry.now.redelivered) }
{
    match &entry.object {
        HopObject::Exchange(exchange) => {
            stamp_of_exchange(
                alloc,
                headers,
                &entry.place,
                exchange.as_str(),
                entry.redelivered,
            )
        }
        HopObject::Queue(_) | HopObject::Neither => unreachable!(),
    }
}

/// The headers of a message that a queue link sends on: its entry, which names the upstream place and queue, is in front,
/// and counts how often the message came by; its older entries go, and those of others stay.
///
/// A header that counts as none is replaced; the header keeps its place among the others, or comes last. The visits of
/// the entry aren't read. RabbitMQ's "Federated Queues".
pub fn stamp_queue(alloc: Global, headers: &Table, entry: &HopEntry) -> Result<Table, AllocError>
    requires { IsQueue entry.now.object }
    ensures { IfOk result (λ t. table_view t ≡ stamped_queue (table_view headers.now)
        entry.now.place (object_name entry.now.object) entry.now.redelivered) }
{
    match &entry.object {
        HopObject::Queue(queue) => {
            stamp_of_queue(
                alloc,
                headers,
                &entry.place,
                queue.as_str(),
                entry.redelivered,
            )
        }
        HopObject::Exchange(_) | HopObject::Neither => unreachable!(),
    }
}
