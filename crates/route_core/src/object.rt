//! Queues and exchanges, and their names.

ghost use Rattle.std.specs.Prelude.{◌≡◌, ◌≤◌, not, filter, IfOk, vec_len, vec_capacity};
ghost use Rattle.route_core.specs.declared.object.Node.TheVariants as nodes;
ghost use Rattle.route_core.specs.Routing.{object_named, predeclared as predeclared_exchanges};
ghost use Rattle.route_core.specs.Objects.{same_sort as sorts_are_same, sort_of as sort_of_node, is_named as is_object_named, has as has_named};

use amqp_props::{ExchangeKind, Text};
use std::alloc::{AllocError, Global};

/// The number of a queue; of two queues the one that was made later has the greater.
pub type QueueNo = u32;

/// What a binding can lead to.
#[derive(Clone, Copy, Debug, PartialEq, Eq)]
pub enum Sort {
    /// A queue.
    Queue,
    /// An exchange.
    Exchange,
}

/// What stands under a name.
#[derive(Debug, Drop, PartialEq, Eq)]
pub enum Node {
    /// A queue.
    Queue(QueueNo),
    /// An exchange.
    Exchange(ExchangeKind),
    /// The exchange of a federation link, which lets through what may still go to the place.
    Gate {
        /// A message that has been forwarded so often, or more, goes no further.
        limit: u32,
        /// The cluster of the place.
        cluster: Text,
        /// The virtual host of the place.
        vhost: Text,
    },
}

/// A queue or an exchange of a virtual host.
#[derive(Debug, Drop, PartialEq, Eq)]
pub struct Object {
    /// Its name.
    pub name: Text,
    /// What it is.
    pub node: Node,
}

pub(crate) fn same_sort(one: Sort, other: Sort) -> bool
    ensures { result ≡ sorts_are_same one other }
{
    matches!(
        (one, other),
        (Sort::Queue, Sort::Queue) | (Sort::Exchange, Sort::Exchange)
    )
}

pub(crate) fn sort_of(node: &Node) -> Sort
    ensures { result ≡ sort_of_node node.now }
{
    match node {
        Node::Queue(_) => Sort::Queue,
        Node::Exchange(_) | Node::Gate { .. } => Sort::Exchange,
    }
}

pub(crate) fn is_named(object: &Object, sort: Sort, name: &str) -> bool
    ensures { result ≡ is_object_named sort name.now object.now }
{
    same_sort(sort_of(&object.node), sort) && object.name.as_str() == name
}

pub(crate) fn has(objects: &[Object], sort: Sort, name: &str) -> bool
    ensures { result ≡ has_named sort name.now objects.now }
{
    objects.iter().any(|object| is_named(object, sort, name))
}

pub(crate) fn remove_object(objects: &mut Vec<Object>, sort: Sort, name: &str)
    ensures items { objects.new.items ≡ filter (λ object. not (is_object_named sort name.now object)) objects.old.items }
    ensures len { vec_len objects.new ≤ vec_len objects.old }
    ensures capacity { vec_capacity objects.new ≡ vec_capacity objects.old }
{
    objects.retain(|object| !is_named(object, sort, name));
}

fn exchange(alloc: Global, name: &str, kind: ExchangeKind) -> Result<Object, AllocError>
    ensures { IfOk result (λ object. object ≡ object_named name.now (nodes.Exchange kind)) }
{
    Ok(Object {
        name: Text::from_str(alloc, name)?,
        node: Node::Exchange(kind),
    })
}

/// The exchanges with which a virtual host begins.
pub(crate) fn predeclared(alloc: Global) -> Result<Vec<Object>, AllocError>
    ensures { IfOk result (λ objects. objects.items ≡ predeclared_exchanges) }
{
    let mut objects = Vec::with_capacity(alloc, 5)?;
    objects.push(exchange(alloc, "amq.direct", ExchangeKind::Direct)?)?;
    objects.push(exchange(alloc, "amq.fanout", ExchangeKind::Fanout)?)?;
    objects.push(exchange(alloc, "amq.headers", ExchangeKind::Headers)?)?;
    objects.push(exchange(alloc, "amq.match", ExchangeKind::Headers)?)?;
    objects.push(exchange(alloc, "amq.topic", ExchangeKind::Topic)?)?;
    Ok(objects)
}
