//! Which bindings match.

ghost use Rattle.std.specs.Prelude.{◌≡◌, ◌↔◌, IsTrue};
ghost use Rattle.std.specs.Option.{option_copied};
ghost use Rattle.field_tables.specs.View.{table_view};
ghost use Rattle.route_core.specs.Walks.{publish, exchange_node as exchange_node_of, TakesByType, TakesFrom};

use crate::binding::Binding;
use crate::object::{Node, Object, Sort, is_named};
use crate::walking::Publication;
use amqp_props::ExchangeKind;
use binding_match::{headers_match, topic_matches};
use hop_headers::gate_passes;

pub(crate) fn exchange_node<'a>(objects: &'a [Object], name: &str) -> Option<&'a Node>
    ensures { option_copied result ≡ exchange_node_of name.now objects.now }
{
    let object = objects
        .iter()
        .find(|object| is_named(object, Sort::Exchange, name))?;
    Some(&object.node)
}

fn takes_by_type(kind: ExchangeKind, binding: &Binding, publication: Publication) -> bool
    ensures { IsTrue result ↔ TakesByType kind (publish publication.entry.exchange.now publication.entry.key.now (table_view publication.entry.headers.now)) binding.now }
{
    match kind {
        ExchangeKind::Direct => binding.key.as_str() == publication.key,
        ExchangeKind::Fanout => true,
        ExchangeKind::Headers => headers_match(binding.args.as_table(), publication.headers),
        ExchangeKind::Topic => topic_matches(binding.key.as_str(), publication.key),
    }
}

/// Whether the exchange takes the message over the binding.
pub(crate) fn takes_from(node: &Node, binding: &Binding, publication: Publication) -> bool
    ensures { IsTrue result ↔ TakesFrom node.now (publish publication.entry.exchange.now publication.entry.key.now (table_view publication.entry.headers.now)) binding.now }
{
    match node {
        Node::Queue(_) => false,
        Node::Exchange(kind) => takes_by_type(*kind, binding, publication),
        Node::Gate {
            limit,
            cluster,
            vhost,
        } => gate_passes(
            *limit,
            cluster.as_str(),
            vhost.as_str(),
            publication.headers,
        ),
    }
}
