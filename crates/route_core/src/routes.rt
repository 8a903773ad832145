//! The queues of a message, and the greatest limit of the gates that it passes.

ghost use Rattle.std.specs.Prelude.{◌≡◌, ◌≢◌, ◌<◌, ◌≤◌, ℕ, List, [], true, false, All, IfOk, filter, map};
ghost use Rattle.std.specs.List.{filter_map, AllPairs, Any};
ghost use Rattle.field_tables.specs.View.{table_view};
ghost use Rattle.route_core.specs.declared.binding.Binding.{Binding as SpecBinding};
ghost use Rattle.route_core.specs.Objects.{is_after, number_of as number_of_node};
ghost use Rattle.route_core.specs.Sources.{source_codes};
ghost use Rattle.route_core.specs.Walks.{publish, Reaches, AreRoutes, IsWalkLimit};
ghost use Rattle.route_core.specs.Routes.{routed_names, routed_numbers};
ghost use Rattle.route_core.specs.Spreading.{number_at as number_at_stops, is_queue_at, gate_limit as gate_limit_of, AreStops, IsGate, GateAt, IsOver, IsLimitFrom, IsLimitAt};

use crate::binding::{Binding, last_from};
use crate::chains::Chains;
use crate::object::{Node, Object, QueueNo, Sort, same_sort, sort_of};
use crate::taking::{exchange_node, takes_from};
use crate::walking::{Publication, Reached, is_among, reach, reach_named};
use amqp_props::Text;
use std::alloc::{AllocError, Global};

fn number_of(node: &Node) -> Option<QueueNo>
    ensures { result ≡ number_of_node node.now }
{
    match node {
        Node::Queue(number) => Some(*number),
        Node::Exchange(_) | Node::Gate { .. } => None,
    }
}

fn number_at(stops: &[Reached], object: &Object) -> Option<QueueNo>
    ensures { result ≡ number_at_stops stops.now object.now }
{
    if is_among(stops, sort_of(&object.node), object.name.as_str()) {
        number_of(&object.node)
    } else {
        None
    }
}

fn numbers_of(
    alloc: Global,
    objects: &[Object],
    stops: &[Reached],
) -> Result<Vec<QueueNo>, AllocError>
    ensures { IfOk result (λ numbers. numbers.items ≡ filter_map (number_at_stops stops.now) objects.now) }
{
    objects
        .iter()
        .filter_map(|object| number_at(stops, object))
        .collect(alloc)
}

/// Whether the object is a queue that is reached.
fn is_queue_among(stops: &[Reached], object: &Object) -> bool
    ensures { result ≡ is_queue_at stops.now object.now }
{
    same_sort(sort_of(&object.node), Sort::Queue)
        && is_among(stops, Sort::Queue, object.name.as_str())
}

fn names_of(alloc: Global, objects: &[Object], stops: &[Reached]) -> Result<Vec<Text>, AllocError>
    ensures { IfOk result (λ names. names.items ≡ map (λ o. o.name) (filter (is_queue_at stops.now) objects.now)) }
{
    let mut names = Vec::new(alloc);
    for object in objects {
        if is_queue_among(stops, object) {
            let name = object.name.clone()?;
            names.push(name)?;
        }
    }
    Ok(names)
}

/// Whether a binding that leaves the exchange matches; one is as good as any where it is a gate.
fn lets_on(
    objects: &[Object],
    bindings: &[Binding],
    sources: &Chains,
    publication: Publication,
    name: &str,
) -> bool
    requires { sources.now.codes ≡ source_codes bindings.now }
    ensures yes { result ≡ true → Any (IsOver objects.now (publish publication.entry.exchange.now publication.entry.key.now (table_view publication.entry.headers.now)) name.now) bindings.now }
    ensures no { result ≡ false → (limit : ℕ) → IsGate objects.now name.now limit → All (λ b. IsOver objects.now (publish publication.entry.exchange.now publication.entry.key.now (table_view publication.entry.headers.now)) name.now b → ⊥) bindings.now }
{
    let Some(node) = exchange_node(objects, name) else {
        return false;
    };
    match last_from(bindings, sources, name) {
        Some(binding) => takes_from(node, binding, publication),
        None => false,
    }
}

/// The limit of the exchange of this name, if it is a gate and the message passes there.
fn limit_from(
    objects: &[Object],
    bindings: &[Binding],
    sources: &Chains,
    publication: Publication,
    name: &str,
) -> u32
    requires { sources.now.codes ≡ source_codes bindings.now }
    ensures { IsLimitFrom objects.now (publish publication.entry.exchange.now publication.entry.key.now (table_view publication.entry.headers.now)) bindings.now name.now result }
{
    let limit = gate_limit(objects, name);
    if limit > 0 && lets_on(objects, bindings, sources, publication, name) {
        limit
    } else {
        0
    }
}

/// The limit of what was reached, if it is a gate and the message passes there.
fn limit_at(
    objects: &[Object],
    bindings: &[Binding],
    sources: &Chains,
    publication: Publication,
    stop: &Reached,
) -> u32
    requires { sources.now.codes ≡ source_codes bindings.now }
    ensures { IsLimitAt objects.now (publish publication.entry.exchange.now publication.entry.key.now (table_view publication.entry.headers.now)) bindings.now stop.now result }
{
    match stop.exchange() {
        Some(name) => limit_from(objects, bindings, sources, publication, name),
        None => 0,
    }
}

fn gate_limit(objects: &[Object], name: &str) -> u32
    ensures some { 0 < result → IsGate objects.now name.now result }
    ensures greatest { (other : ℕ) → IsGate objects.now name.now other → other ≤ result }
{
    match exchange_node(objects, name) {
        Some(Node::Gate { limit, .. }) => *limit,
        _ => 0,
    }
}

fn greatest_limit(
    objects: &[Object],
    bindings: &[Binding],
    sources: &Chains,
    publication: Publication,
    stops: &[Reached],
) -> u32
    requires { sources.now.codes ≡ source_codes bindings.now }
    ensures some { 0 < result → Any (λ b. GateAt objects.now (publish publication.entry.exchange.now publication.entry.key.now (table_view publication.entry.headers.now)) stops.now b result) bindings.now }
    ensures greatest { All (λ b. (other : ℕ) → GateAt objects.now (publish publication.entry.exchange.now publication.entry.key.now (table_view publication.entry.headers.now)) stops.now b other → other ≤ result) bindings.now }
{
    let mut greatest = 0;
    for stop in stops {
        greatest = greatest.max(limit_at(objects, bindings, sources, publication, stop));
    }
    greatest
}

/// The routes over walks from an exchange other than the default one.
pub(crate) fn walked(
    alloc: Global,
    objects: &[Object],
    bindings: &[Binding],
    sources: &Chains,
    publication: Publication,
) -> Result<(Vec<QueueNo>, u32), AllocError>
    requires named { publication.exchange.now ≢ [] }
    requires sources { sources.now.codes ≡ source_codes bindings.now }
    requires order { AllPairs (λ earlier later. is_after earlier later ≡ true) objects.now }
    ensures routes { IfOk result (λ answer. AreRoutes (record { objects = objects.now; bindings = bindings.now }) (publish publication.entry.exchange.now publication.entry.key.now (table_view publication.entry.headers.now)) answer.0.items) }
    ensures numbers { IfOk result (λ answer. answer.0.items ≡ routed_numbers (record { objects = objects.now; bindings = bindings.now }) (publish publication.entry.exchange.now publication.entry.key.now (table_view publication.entry.headers.now))) }
    ensures limit { IfOk result (λ answer. IsWalkLimit (record { objects = objects.now; bindings = bindings.now }) (publish publication.entry.exchange.now publication.entry.key.now (table_view publication.entry.headers.now)) answer.1) }
{
    let stops = reach(alloc, objects, bindings, sources, publication)?;
    let numbers = numbers_of(alloc, objects, &stops)?;
    let limit = greatest_limit(objects, bindings, sources, publication, &stops);
    Ok((numbers, limit))
}

/// The routes of the default exchange, which has no bindings.
pub(crate) fn named(
    alloc: Global,
    objects: &[Object],
    publication: Publication,
) -> Result<Vec<QueueNo>, AllocError>
    requires default { publication.exchange.now ≡ [] }
    requires order { AllPairs (λ earlier later. is_after earlier later ≡ true) objects.now }
    ensures routes { IfOk result (λ numbers. (others : List SpecBinding) → AreRoutes (record { objects = objects.now; bindings = others }) (publish publication.entry.exchange.now publication.entry.key.now (table_view publication.entry.headers.now)) numbers.items) }
    ensures numbers { IfOk result (λ numbers. (others : List SpecBinding) → numbers.items ≡ routed_numbers (record { objects = objects.now; bindings = others }) (publish publication.entry.exchange.now publication.entry.key.now (table_view publication.entry.headers.now))) }
{
    let stops = reach_named(alloc, publication)?;
    let numbers = numbers_of(alloc, objects, &stops)?;
    Ok(numbers)
}

/// The names of the queues to which walks lead from an exchange other than the default one.
pub(crate) fn names_walked(
    alloc: Global,
    objects: &[Object],
    bindings: &[Binding],
    sources: &Chains,
    publication: Publication,
) -> Result<Vec<Text>, AllocError>
    requires named { publication.exchange.now ≢ [] }
    requires sources { sources.now.codes ≡ source_codes bindings.now }
    ensures { IfOk result (λ names. names.items ≡ routed_names (record { objects = objects.now; bindings = bindings.now }) (publish publication.entry.exchange.now publication.entry.key.now (table_view publication.entry.headers.now))) }
{
    let stops = reach(alloc, objects, bindings, sources, publication)?;
    let names = names_of(alloc, objects, &stops)?;
    Ok(names)
}

/// The name of the queue to which the default exchange leads, if it stands.
pub(crate) fn names_named(
    alloc: Global,
    objects: &[Object],
    publication: Publication,
) -> Result<Vec<Text>, AllocError>
    requires default { publication.exchange.now ≡ [] }
    ensures { IfOk result (λ names. (others : List SpecBinding) → names.items ≡ routed_names (record { objects = objects.now; bindings = others }) (publish publication.entry.exchange.now publication.entry.key.now (table_view publication.entry.headers.now))) }
{
    let stops = reach_named(alloc, publication)?;
    let names = names_of(alloc, objects, &stops)?;
    Ok(names)
}
