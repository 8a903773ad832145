//! A client begins and ends to consume from a queue.
ghost use Rattle.std.specs.Prelude.{◌≡◌, true, IfOk};
ghost use Rattle.fed_journal.specs.Configuration.{is_place};
ghost use Rattle.fed_world.specs.RowOf.{row_of};
ghost use Rattle.fed_journal.specs.Consume.{consumes, consume_row, cancel_row};

use crate::row::{Row, nothing, one};
use amqp_props::Text;
use broker_view::answers::channel_of;
use broker_view::run::Run;
use fed_journal::entry::Entry;
use fed_journal::place::Place;
use fed_journal::reason::Reason;
use std::alloc::{AllocError, Global};

/// Whether the tag is in use by the client.
fn consumes(run: &Run<'_>, place: &Place, client: u16, tag: &Text) -> bool
    requires { is_place run.now place.now ≡ true }
    ensures { result ≡ consumes run.now place.now client tag.now }
{
    run.consumer(place, channel_of(client), tag).is_some()
}

/// The row of `consume`.
#[tactic(auto, unfolding(fed_journal::specs::Consume::consume_row))]
pub fn consume_row(
    alloc: Global,
    run: &Run<'_>,
    place: &Place,
    client: u16,
    queue: &Text,
    tag: &Text,
    no_ack: bool,
    prefetch: u16,
) -> Result<Row, AllocError>
    ensures { IfOk result (λ row. row_of row ≡ consume_row run.now place.now client queue.now tag.now no_ack prefetch) }
{
    if !run.is_place(place) {
        return Ok(Err(Reason::NoPlace));
    }
    if let Some(reason) = run.consume_refusal(place, client, queue, tag) {
        return Ok(Err(reason));
    }
    let place = place.clone()?;
    let queue = queue.clone()?;
    let tag = tag.clone()?;
    one(
        alloc,
        Entry::Consumed {
            place,
            client: channel_of(client),
            queue,
            tag,
            no_ack,
            prefetch,
        },
    )
}

/// The row of `cancel`.
#[tactic(auto, unfolding(fed_journal::specs::Consume::cancel_row))]
pub fn cancel_row(
    alloc: Global,
    run: &Run<'_>,
    place: &Place,
    client: u16,
    tag: &Text,
) -> Result<Row, AllocError>
    ensures { IfOk result (λ row. row_of row ≡ cancel_row run.now place.now client tag.now) }
{
    if !run.is_place(place) {
        return Ok(Err(Reason::NoPlace));
    }
    if !consumes(run, place, client, tag) {
        return Ok(nothing(alloc));
    }
    let place = place.clone()?;
    let tag = tag.clone()?;
    one(
        alloc,
        Entry::Cancelled {
            place,
            client: channel_of(client),
            tag,
        },
    )
}
