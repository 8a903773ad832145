//! A queue hands a copy to a consumer.
ghost use Rattle.std.specs.Prelude.{◌≡◌, ◌&&◌, nat_le, nat_lt, true, Some, IfOk};
ghost use Rattle.fed_journal.specs.Configuration.{is_place};
ghost use Rattle.fed_journal.specs.Consumers.{held_count};
ghost use Rattle.broker_view.specs.Asked.{asked_by};
ghost use Rattle.fed_world.specs.RowOf.{row_of};
ghost use Rattle.fed_journal.specs.Row.{channel_of};
ghost use Rattle.fed_journal.specs.Deliver.{deliver_to, deliver_row};

use crate::row::{Row, one};
use amqp_props::Text;
use broker_view::answers::channel_of;
use broker_view::run::{Run, Subscription};
use fed_journal::entry::Entry;
use fed_journal::place::Place;
use fed_journal::reason::Reason;
use std::alloc::{AllocError, Global};

/// Whether the consumer holds as many unacknowledged copies as it asked for.
fn is_busy(consumer: Subscription<'_>) -> bool
    ensures { result ≡ (nat_lt 0 consumer.entry.prefetch && nat_le consumer.entry.prefetch consumer.entry.held) }
{
    0 < consumer.prefetch && u64::from(consumer.prefetch) <= consumer.held
}

/// What happens where the client has this consumer.
fn deliver_to(
    alloc: Global,
    run: &Run<'_>,
    place: &Place,
    client: u16,
    tag: &Text,
    consumer: Subscription<'_>,
) -> Result<Row, AllocError>
    requires place { is_place run.now place.now ≡ true }
    requires held { consumer.held ≡ held_count run.now place.now (channel_of client) tag.now consumer.queue.now }
    ensures { IfOk result (λ row. row_of row ≡ deliver_to run.now place.now client tag.now (Some (asked_by consumer.entry))) }
{
    if is_busy(consumer) {
        return Ok(Err(Reason::Busy));
    }
    match run.first_ready(place, consumer.queue) {
        Some(copy) => {
            let place = place.clone()?;
            let tag = tag.clone()?;
            let queue = consumer.queue.clone()?;
            one(
                alloc,
                Entry::Delivered {
                    place,
                    client: channel_of(client),
                    tag,
                    queue,
                    copy,
                    no_ack: consumer.no_ack,
                },
            )
        }
        None => Ok(Err(Reason::Empty)),
    }
}

/// The row of `deliver`.
#[tactic(auto, unfolding(fed_journal::specs::Deliver::deliver_row))]
pub fn deliver_row(
    alloc: Global,
    run: &Run<'_>,
    place: &Place,
    client: u16,
    tag: &Text,
) -> Result<Row, AllocError>
    ensures { IfOk result (λ row. row_of row ≡ deliver_row run.now place.now client tag.now) }
{
    if !run.is_place(place) {
        return Ok(Err(Reason::NoPlace));
    }
    match run.consumer(place, channel_of(client), tag) {
        Some(consumer) => deliver_to(alloc, run, place, client, tag, consumer),
        None => Ok(Err(Reason::NoConsumer)),
    }
}
