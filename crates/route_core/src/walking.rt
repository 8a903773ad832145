//! The walk over matching bindings from the exchange of a message.

ghost use Rattle.std.specs.Prelude.{◌≡◌, ◌<◌, true, false, List, [], ◌∷◌, Some, IfOk, length, slice_index_or, if◌then◌else◌};
ghost use Rattle.field_tables.specs.View.{table_view};
ghost use Rattle.route_core.specs.declared.object.Object.{Object as SpecObject};
ghost use Rattle.route_core.specs.Walks.{publish, Stop, source_of, exchange_stop, queue_stop, exchange_node as exchange_node_of, Matches};
ghost use Rattle.route_core.specs.Sources.{source_codes};
ghost use Rattle.client_rules.specs.Names.{is_reserved as is_reserved_name};
ghost use Rattle.route_core.specs.Spreading.{is_among as is_among_stops, LeadsOn, Spreads, AreStops};

use crate::binding::{Binding, source_code};
use crate::chains::Chains;
use crate::object::{Node, Object, Sort, same_sort};
use crate::taking::{exchange_node, takes_from};
use client_rules::is_reserved;
use field_tables::Table;
use std::alloc::{AllocError, Global};
use std::marker::Model;

/// What a message is published with.
#[derive(Clone, Copy)]
pub(crate) struct Publication<'a> {
    pub(crate) exchange: &'a str,
    pub(crate) key: &'a str,
    pub(crate) headers: &'a Table,
}

/// An exchange or a queue that the message reaches.
#[derive(Drop)]
pub(crate) struct Reached<'a> {
    sort: Sort,
    name: &'a str,
}

impl<'a> Model for Reached<'a> {
    ghost use Rattle.route_core.specs.Walks.{Stop};

    ghost Value = { Stop };

    ghost view = { λ r. record { sort = r.sort; name = r.name.now } };
}

impl<'a> Reached<'a> {
    ghost use Rattle.std.specs.Prelude.{◌≡◌};
    ghost use Rattle.std.specs.Option.{option_copied};
    ghost use Rattle.route_core.specs.Spreading.{is_at as is_at_stop, exchange_of};

    fn is_at(&self, sort: Sort, name: &str) -> bool
        ensures { result ≡ is_at_stop sort name.now self.now }
    {
        same_sort(self.sort, sort) && self.name == name
    }

    /// The name of an exchange.
    pub(crate) fn exchange(&self) -> Option<&'a str>
        ensures { option_copied result ≡ exchange_of self.now }
    {
        match self.sort {
            Sort::Queue => None,
            Sort::Exchange => Some(self.name),
        }
    }
}

pub(crate) fn is_among(stops: &[Reached], sort: Sort, name: &str) -> bool
    ensures { result ≡ is_among_stops stops.now sort name.now }
{
    stops.iter().any(|stop| stop.is_at(sort, name))
}

/// Whether the binding leads from the exchange, which is this one, to what isn't reached yet.
fn leads_on(
    node: &Node,
    binding: &Binding,
    publication: Publication,
    from: &str,
    stops: &[Reached],
) -> bool
    ensures yes { result ≡ true → (objects : List SpecObject) → exchange_node_of from.now objects ≡ Some node.now → LeadsOn objects (publish publication.entry.exchange.now publication.entry.key.now (table_view publication.entry.headers.now)) binding.now from.now stops.now }
    ensures no { result ≡ false → (objects : List SpecObject) → exchange_node_of from.now objects ≡ Some node.now → source_of binding.now ≡ exchange_stop from.now → Matches objects (publish publication.entry.exchange.now publication.entry.key.now (table_view publication.entry.headers.now)) binding.now → is_among_stops stops.now binding.now.sort binding.now.dest ≡ true }
{
    binding.source.as_str() == from
        && takes_from(node, binding, publication)
        && !is_among(stops, binding.sort, binding.dest.as_str())
}

/// Goes on over each binding that leaves the exchange and matches; only those that the chain of its name has are read.
fn spread<'a>(
    objects: &[Object],
    bindings: &'a [Binding],
    sources: &Chains,
    publication: Publication,
    from: &str,
    mut stops: Vec<Reached<'a>>,
) -> Result<Vec<Reached<'a>>, AllocError>
    requires { sources.now.codes ≡ source_codes bindings.now }
    ensures { IfOk result (λ after. Spreads (record { objects = objects.now; bindings = bindings.now }) (publish publication.entry.exchange.now publication.entry.key.now (table_view publication.entry.headers.now)) (exchange_stop from.now) bindings.now stops.entry.items after.items) }
{
    let Some(node) = exchange_node(objects, from) else {
        return Ok(stops);
    };
    let mut at = sources.last(source_code(from));
    while at > 0 {
        let binding = &bindings[at - 1];
        if leads_on(node, binding, publication, from, &stops) {
            stops.push(Reached {
                sort: binding.sort,
                name: binding.dest.as_str(),
            })?;
        }
        at = sources.before(at - 1);
    }
    Ok(stops)
}

/// Goes on from what was reached at this place.
fn spread_at<'a>(
    objects: &[Object],
    bindings: &'a [Binding],
    sources: &Chains,
    publication: Publication,
    at: usize,
    stops: Vec<Reached<'a>>,
) -> Result<Vec<Reached<'a>>, AllocError>
    requires there { at < length stops.items }
    requires sources { sources.now.codes ≡ source_codes bindings.now }
    ensures { IfOk result (λ after. (d : Stop) → Spreads (record { objects = objects.now; bindings = bindings.now }) (publish publication.entry.exchange.now publication.entry.key.now (table_view publication.entry.headers.now)) (slice_index_or stops.entry.items at d) bindings.now stops.entry.items after.items) }
{
    let here = &stops[at];
    match here.exchange() {
        Some(from) => spread(objects, bindings, sources, publication, from, stops),
        None => Ok(stops),
    }
}

/// What the message reaches from its exchange: each exchange and queue once.
pub(crate) fn reach<'a>(
    alloc: Global,
    objects: &[Object],
    bindings: &'a [Binding],
    sources: &Chains,
    publication: Publication<'a>,
) -> Result<Vec<Reached<'a>>, AllocError>
    requires { sources.now.codes ≡ source_codes bindings.now }
    ensures { IfOk result (λ stops. AreStops (record { objects = objects.now; bindings = bindings.now }) (publish publication.entry.exchange.now publication.entry.key.now (table_view publication.entry.headers.now)) stops.items) }
{
    let mut stops = Vec::new(alloc);
    stops.push(Reached {
        sort: Sort::Exchange,
        name: publication.exchange,
    })?;
    let mut next = 0;
    while next < stops.len() {
        stops = spread_at(objects, bindings, sources, publication, next, stops)?;
        next += 1;
    }
    Ok(stops)
}

/// The queue to which the default exchange leads, unless its name is reserved.
pub(crate) fn reach_named<'a>(
    alloc: Global,
    publication: Publication<'a>,
) -> Result<Vec<Reached<'a>>, AllocError>
    ensures { IfOk result (λ stops. stops.items ≡ (if is_reserved_name publication.entry.key.now then [] else queue_stop publication.entry.key.now ∷ [])) }
{
    let mut stops = Vec::new(alloc);
    if !is_reserved(publication.key) {
        stops.push(Reached {
            sort: Sort::Queue,
            name: publication.key,
        })?;
    }
    Ok(stops)
}
