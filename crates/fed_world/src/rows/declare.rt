//! A client declares a queue or an exchange.
ghost use Rattle.std.specs.Prelude.{◌≡◌, true, IfOk};
ghost use Rattle.fed_journal.specs.Configuration.{is_place};
ghost use Rattle.fed_world.specs.RowOf.{row_of};
ghost use Rattle.fed_journal.specs.Declare.{declare_row, lasting, stands, declare_exchange_row};

use crate::row::{Row, nothing, one};
use amqp_props::{QueueOptions, Text};
use broker_view::answers::channel_of;
use broker_view::run::Run;
use client_rules::owner_of;
use fed_journal::entry::Entry;
use fed_journal::place::{ExchangeShape, Place};
use fed_journal::reason::Reason;
use std::alloc::{AllocError, Global};

/// The options of a durable queue that is shared and stays.
pub(crate) const LASTING: QueueOptions = QueueOptions {
    durable: true,
    exclusive: false,
    auto_delete: false,
};

/// Whether the queue stands.
pub(crate) fn stands(run: &Run<'_>, place: &Place, queue: &Text) -> bool
    requires { is_place run.now place.now ≡ true }
    ensures { result ≡ stands run.now place.now queue.now }
{
    run.queue_options(place, queue).is_some()
}

/// The row of a queue's `declare`.
#[tactic(auto, unfolding(fed_journal::specs::Declare::declare_row))]
pub fn declare_row(
    alloc: Global,
    run: &Run<'_>,
    place: &Place,
    client: u16,
    queue: &Text,
    options: QueueOptions,
) -> Result<Row, AllocError>
    ensures { IfOk result (λ row. row_of row ≡ declare_row run.now place.now client queue.now options) }
{
    if !run.is_place(place) {
        return Ok(Err(Reason::NoPlace));
    }
    match run.declares_queue(place, client, queue, options) {
        Err(reason) => Ok(Err(reason)),
        Ok(false) => Ok(nothing(alloc)),
        Ok(true) => one(
            alloc,
            Entry::MadeQueue {
                place: place.clone()?,
                queue: queue.clone()?,
                options,
                owner: owner_of(channel_of(client), options),
            },
        ),
    }
}

/// The row of an exchange's `declare`.
#[tactic(auto, unfolding(fed_journal::specs::Declare::declare_exchange_row))]
pub fn declare_exchange_row(
    alloc: Global,
    run: &Run<'_>,
    place: &Place,
    exchange: &Text,
    shape: ExchangeShape,
) -> Result<Row, AllocError>
    ensures { IfOk result (λ row. row_of row ≡ declare_exchange_row run.now place.now exchange.now shape) }
{
    if !run.is_place(place) {
        return Ok(Err(Reason::NoPlace));
    }
    match run.declares_exchange(place, exchange, shape) {
        Err(reason) => Ok(Err(reason)),
        Ok(false) => Ok(nothing(alloc)),
        Ok(true) => one(
            alloc,
            Entry::MadeExchange {
                place: place.clone()?,
                exchange: exchange.clone()?,
                shape,
            },
        ),
    }
}
