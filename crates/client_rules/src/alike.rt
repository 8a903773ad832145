//! When what a client declares again is what stands (RabbitMQ, Queues: Property Equivalence).
ghost use Rattle.std.specs.Prelude.{◌≡◌};
ghost use Rattle.client_rules.specs.Alike as alike;

use crate::client::ExchangeShape;
use amqp_props::{ExchangeKind, QueueOptions};

/// Whether two queues are declared alike.
pub fn same_options(one: QueueOptions, other: QueueOptions) -> bool
    ensures { result ≡ alike.same_options one other }
{
    one.durable == other.durable
        && one.exclusive == other.exclusive
        && one.auto_delete == other.auto_delete
}

/// Whether two exchanges are of one type.
fn same_kind(one: ExchangeKind, other: ExchangeKind) -> bool
    ensures { result ≡ alike.same_kind one other }
{
    matches!(
        (one, other),
        (ExchangeKind::Direct, ExchangeKind::Direct)
            | (ExchangeKind::Fanout, ExchangeKind::Fanout)
            | (ExchangeKind::Headers, ExchangeKind::Headers)
            | (ExchangeKind::Topic, ExchangeKind::Topic)
    )
}

/// Whether two exchanges are declared alike.
pub fn same_shape(one: ExchangeShape, other: ExchangeShape) -> bool
    ensures { result ≡ alike.same_shape one other }
{
    same_kind(one.kind, other.kind)
        && one.durable == other.durable
        && one.internal == other.internal
}
