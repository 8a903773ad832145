//! Whether a gate passes a message.

ghost use Rattle.std.specs.Prelude.{◌≡◌, ◌↔◌, ◌&&◌, IsTrue, length, not, nat_lt};
ghost use Rattle.std.specs.List.{list_any};
ghost use Rattle.std.specs.Option.{option_map_or};
ghost use Rattle.field_tables.specs.View.{field_view, fields_view, table_view};
ghost use Rattle.hop_headers.specs.Hops.{same_place, place_of as place_of_field};
ghost use Rattle.hop_headers.specs.Gate.{place, is_at as is_at_place, GatePasses, gate_passes as passes};

use crate::hops::{PlaceTexts, kept_hops, place_of};
use field_tables::{FieldValue, Table};

/// Whether a value of an `x-received-from` names the place.
#[tactic(auto, unfolding(crate::specs::Gate::is_at))]
pub(crate) fn is_at(wanted: PlaceTexts, value: &FieldValue) -> bool
    ensures { result ≡ is_at_place (place wanted.entry.cluster.now wanted.entry.vhost.now) (field_view value.now) }
{
    match place_of(value) {
        Some(found) => wanted.cluster == found.cluster && wanted.vhost == found.vhost,
        None => false,
    }
}

/// Whether one of the values names the place.
pub(crate) fn has_been_at(wanted: PlaceTexts, values: &[FieldValue]) -> bool
    ensures { result ≡ list_any (is_at_place (place wanted.entry.cluster.now wanted.entry.vhost.now))
        (fields_view values.now) }
{
    for value in values {
        if is_at(wanted, value) {
            return true;
        }
    }
    false
}

fn passes_hops(limit: u32, wanted: PlaceTexts, values: &[FieldValue]) -> bool
    ensures { result ≡ (nat_lt (length values.now) limit
        && not (list_any (is_at_place (place wanted.entry.cluster.now wanted.entry.vhost.now))
        (fields_view values.now))) }
{
    values.len() < limit as usize && !has_been_at(wanted, values)
}

/// Whether a gate with this limit passes a message with these headers to the downstream place.
///
/// Takes no memory. It passes where its `x-received-from` has fewer entries than the limit, and none of the place; a
/// header that counts as none has no entries. RabbitMQ's "Federated Exchanges".
pub fn gate_passes(limit: u32, cluster: &str, vhost: &str, headers: &Table) -> bool
    ensures relation { IsTrue result
        ↔ GatePasses limit cluster.now vhost.now (table_view headers.now) }
    ensures value { result ≡ passes limit cluster.now vhost.now (table_view headers.now) }
{
    passes_hops(limit, PlaceTexts { cluster, vhost }, kept_hops(headers))
}
