//! The entries of an `x-received-from`.

ghost use Rattle.std.specs.Prelude.{◌≡◌, ◌++◌, IfOk, OnOk, option_to_list, option_map, unwrap_or};
ghost use Rattle.std.specs.List.{list_all, filter_map};
ghost use Rattle.field_tables.specs.Fields.{first_of};
ghost use Rattle.field_tables.specs.View.{field_view, fields_view, table_view};
ghost use Rattle.hop_headers.specs.Names.{redelivered_name, visit_count_name};
ghost use Rattle.hop_headers.specs.Hops.{place_at as place_of_pairs, place_of as place_of_field, names_place as field_names_place, object_at as object_of_pairs, is_yes, count_of, entry_at as entry_of_pairs, entry_of as entry_of_field, hops as hops_of_headers, kept_hops as kept_of_headers, received_from as entries_of_headers};

use crate::entry::{HopEntry, HopObject, PlaceName};
use crate::names::FieldName;
use crate::values::{array_at, table_of, text_at};
use field_tables::{FieldValue, Table, Text};
use std::alloc::{AllocError, Global};

/// The texts by which a table names a place.
#[derive(Clone, Copy)]
pub(crate) struct PlaceTexts<'a> {
    pub(crate) cluster: &'a str,
    pub(crate) vhost: &'a str,
}

/// The place that a table names, if it names one.
#[tactic(auto, unfolding(crate::specs::Hops::place_at))]
pub(crate) fn place_at(table: &Table) -> Option<PlaceTexts<'_>>
    ensures { option_map (λ p. record { cluster = p.cluster.now; vhost = p.vhost.now }) result
        ≡ place_of_pairs (table_view table.now) }
{
    match (
        text_at(FieldName::ClusterName, table),
        text_at(FieldName::Vhost, table),
    ) {
        (Some(cluster), Some(vhost)) => Some(PlaceTexts { cluster, vhost }),
        _ => None,
    }
}

/// The place that a value names, if it is a table that names one.
pub(crate) fn place_of(value: &FieldValue) -> Option<PlaceTexts<'_>>
    ensures { option_map (λ p. record { cluster = p.cluster.now; vhost = p.vhost.now }) result
        ≡ place_of_field (field_view value.now) }
{
    match table_of(value) {
        Some(table) => place_at(table),
        None => None,
    }
}

#[tactic(auto, unfolding(crate::specs::Hops::names_place))]
fn names_place(value: &FieldValue) -> bool
    ensures { result ≡ field_names_place (field_view value.now) }
{
    place_of(value).is_some()
}

fn all_name_places(values: &[FieldValue]) -> bool
    ensures { result ≡ list_all field_names_place (fields_view values.now) }
{
    for value in values {
        if !names_place(value) {
            return false;
        }
    }
    true
}

/// The values of the header; `None` where there is none, or one that counts as none.
#[tactic(auto, unfolding(crate::specs::Hops::hops))]
pub(crate) fn hops(headers: &Table) -> Option<&[FieldValue]>
    ensures { option_map (λ v. fields_view v.now) result ≡ hops_of_headers (table_view headers.now) }
{
    match array_at(FieldName::ReceivedFrom, headers) {
        Some(values) if all_name_places(values) => Some(values),
        _ => None,
    }
}

/// The values of the header; none where it counts as none.
pub(crate) fn kept_hops(headers: &Table) -> &[FieldValue]
    ensures { fields_view result.now ≡ kept_of_headers (table_view headers.now) }
{
    match hops(headers) {
        Some(values) => values,
        None => &[],
    }
}

/// Whether a table's value of this name is true.
fn is_redelivered(table: &Table) -> bool
    ensures { result ≡ is_yes (first_of redelivered_name (table_view table.now)) }
{
    match table.get(FieldName::Redelivered.text()) {
        Some(FieldValue::Bool(redelivered)) => *redelivered,
        _ => false,
    }
}

/// How often a message came by, as its entry has it; 0 where it has no such count.
pub(crate) fn visits_at(table: &Table) -> u32
    ensures { result ≡ count_of (first_of visit_count_name (table_view table.now)) }
{
    match table.get(FieldName::VisitCount.text()) {
        Some(FieldValue::I32(visits)) => u32::try_from(*visits).unwrap_or(0),
        _ => 0,
    }
}

#[tactic(auto, unfolding(crate::specs::Hops::object_at))]
fn object_at(alloc: Global, table: &Table) -> Result<HopObject, AllocError>
    ensures { IfOk result (λ object. object ≡ object_of_pairs (table_view table.now)) }
{
    if let Some(queue) = text_at(FieldName::Queue, table) {
        return Ok(HopObject::Queue(Text::from_str(alloc, queue)?));
    }
    match text_at(FieldName::Exchange, table) {
        Some(exchange) => Ok(HopObject::Exchange(Text::from_str(alloc, exchange)?)),
        None => Ok(HopObject::Neither),
    }
}

#[tactic(auto, unfolding(crate::specs::Hops::entry_at))]
fn entry_at(alloc: Global, table: &Table) -> Result<Option<HopEntry>, AllocError>
    ensures { IfOk result (λ entry. entry ≡ entry_of_pairs (table_view table.now)) }
{
    let Some(place) = place_at(table) else {
        return Ok(None);
    };
    let cluster = Text::from_str(alloc, place.cluster)?;
    let vhost = Text::from_str(alloc, place.vhost)?;
    let object = object_at(alloc, table)?;
    Ok(Some(HopEntry {
        place: PlaceName { cluster, vhost },
        object,
        redelivered: is_redelivered(table),
        visits: visits_at(table),
    }))
}

fn entry_of(alloc: Global, value: &FieldValue) -> Result<Option<HopEntry>, AllocError>
    ensures { IfOk result (λ entry. entry ≡ entry_of_field (field_view value.now)) }
{
    match table_of(value) {
        Some(table) => entry_at(alloc, table),
        None => Ok(None),
    }
}

fn add_entry(value: &FieldValue, entries: &mut Vec<HopEntry>) -> Result<(), AllocError>
    ensures { OnOk result (entries.new.items
        ≡ entries.old.items ++ option_to_list (entry_of_field (field_view value.now))) }
{
    let alloc = *entries.allocator();
    if let Some(entry) = entry_of(alloc, value)? {
        entries.push(entry)?;
    }
    Ok(())
}

fn entries_of(alloc: Global, values: &[FieldValue]) -> Result<Vec<HopEntry>, AllocError>
    ensures { IfOk result (λ v. v.items ≡ filter_map entry_of_field (fields_view values.now)) }
{
    let mut entries = Vec::with_capacity(alloc, values.len())?;
    for value in values {
        add_entry(value, &mut entries)?;
    }
    Ok(entries)
}

/// The entries of the `x-received-from` among the headers; `None` exactly where there is none, or one that counts as
/// none.
///
/// A header counts if it is an array of tables that name a place each, by the texts `cluster-name` and `vhost`.
/// RabbitMQ's "Federated Exchanges".
pub fn received_from(alloc: Global, headers: &Table) -> Result<Option<Vec<HopEntry>>, AllocError>
    ensures { IfOk result (λ found. option_map (λ v. v.items) found
        ≡ entries_of_headers (table_view headers.now)) }
{
    match hops(headers) {
        Some(values) => Ok(Some(entries_of(alloc, values)?)),
        None => Ok(None),
    }
}
