//! A client answers for a copy that it holds.
ghost use Rattle.std.specs.Prelude.{◌≡◌, IfOk};
ghost use Rattle.fed_world.specs.RowOf.{row_of};
ghost use Rattle.fed_journal.specs.Answer.{answer_refusal, ack_row, reject_row, requeue_row};

use crate::row::{Row, one};
use broker_view::answers::channel_of;
use broker_view::run::Run;
use fed_journal::entry::Entry;
use fed_journal::place::Place;
use fed_journal::reason::Reason;
use std::alloc::{AllocError, Global};

/// Why the client's answer for the copy doesn't happen, if it doesn't.
fn answer_refusal(run: &Run<'_>, place: &Place, client: u16, copy: u64) -> Option<Reason>
    ensures { result ≡ answer_refusal run.now place.now client copy }
{
    if !run.is_place(place) {
        Some(Reason::NoPlace)
    } else if run.is_held_by(place, channel_of(client), copy) {
        None
    } else {
        Some(Reason::NotHeld)
    }
}

/// The row of `ack`.
#[tactic(auto, unfolding(fed_journal::specs::Answer::ack_row))]
pub fn ack_row(
    alloc: Global,
    run: &Run<'_>,
    place: &Place,
    client: u16,
    copy: u64,
) -> Result<Row, AllocError>
    ensures { IfOk result (λ row. row_of row ≡ ack_row run.now place.now client copy) }
{
    if let Some(reason) = answer_refusal(run, place, client, copy) {
        return Ok(Err(reason));
    }
    let place = place.clone()?;
    let client = channel_of(client);
    one(
        alloc,
        Entry::Acked {
            place,
            client,
            copy,
        },
    )
}

/// The row of `reject`.
#[tactic(auto, unfolding(fed_journal::specs::Answer::reject_row))]
pub fn reject_row(
    alloc: Global,
    run: &Run<'_>,
    place: &Place,
    client: u16,
    copy: u64,
) -> Result<Row, AllocError>
    ensures { IfOk result (λ row. row_of row ≡ reject_row run.now place.now client copy) }
{
    if let Some(reason) = answer_refusal(run, place, client, copy) {
        return Ok(Err(reason));
    }
    let place = place.clone()?;
    let client = channel_of(client);
    one(
        alloc,
        Entry::Rejected {
            place,
            client,
            copy,
        },
    )
}

/// The row of `requeue`.
#[tactic(auto, unfolding(fed_journal::specs::Answer::requeue_row))]
pub fn requeue_row(
    alloc: Global,
    run: &Run<'_>,
    place: &Place,
    client: u16,
    copy: u64,
) -> Result<Row, AllocError>
    ensures { IfOk result (λ row. row_of row ≡ requeue_row run.now place.now client copy) }
{
    if let Some(reason) = answer_refusal(run, place, client, copy) {
        return Ok(Err(reason));
    }
    let place = place.clone()?;
    let client = channel_of(client);
    one(
        alloc,
        Entry::Requeued {
            place,
            client,
            copy,
        },
    )
}
