//! A message is published.
ghost use Rattle.std.specs.Prelude.{◌≡◌, ◌+◌, ◌≤◌, true, IfOk, List, length};
ghost use Rattle.fed_journal.specs.Configuration.{is_place};
ghost use Rattle.fed_journal.specs.Copies.{publication_count, copy_count};
ghost use Rattle.fed_journal.specs.declared.entry.Entry.{Entry};
ghost use Rattle.fed_journal.specs.Limits.{most_entries};
ghost use Rattle.fed_world.specs.RowOf.{row_of};
ghost use Rattle.fed_journal.specs.Publish.{publish_row, published, first_copy};

use crate::row::{Row, one};
use amqp_props::Message;
use broker_view::answers::channel_of;
use broker_view::run::Run;
use fed_journal::entry::{Entry, Publication, Publisher};
use fed_journal::journal::Numbers;
use fed_journal::place::Place;
use fed_journal::reason::Reason;
use fed_journal::text::Names;
use std::alloc::{AllocError, Global};

/// The number of the publication's first copy, 0 if it has none.
fn first_copy(queues: &Names, next: Numbers) -> u64
    ensures { (J : List Entry) → next.copy ≡ copy_count J + 1 → result ≡ first_copy J queues.now }
{
    if queues.as_slice().is_empty() {
        0
    } else {
        next.copy
    }
}

/// The entry of a message that is published.
pub(crate) fn published(
    alloc: Global,
    run: &Run<'_>,
    place: &Place,
    by: Publisher,
    message: Message,
    next: Numbers,
) -> Result<Entry, AllocError>
    requires publication { next.publication ≡ publication_count run.now + 1 }
    requires copy { next.copy ≡ copy_count run.now + 1 }
    requires within { length run.now ≤ most_entries }
    requires place { is_place run.now place.now ≡ true }
    ensures { IfOk result (λ entry. entry ≡ published run.now place.now by message) }
{
    let queues = run.routes(alloc, place, &message)?;
    let place = place.clone()?;
    let first = first_copy(&queues, next);
    Ok(Entry::Published(Publication {
        place,
        number: next.publication,
        by,
        message,
        limit: 0,
        first,
        queues,
    }))
}

/// The row of a client's `publish`.
#[tactic(auto, unfolding(fed_journal::specs::Publish::publish_row))]
pub fn publish_row(
    alloc: Global,
    run: &Run<'_>,
    place: &Place,
    client: u16,
    message: &Message,
    next: Numbers,
) -> Result<Row, AllocError>
    requires publication { next.publication ≡ publication_count run.now + 1 }
    requires copy { next.copy ≡ copy_count run.now + 1 }
    requires within { length run.now ≤ most_entries }
    ensures { IfOk result (λ row. row_of row ≡ publish_row run.now place.now client message.now) }
{
    if !run.is_place(place) {
        return Ok(Err(Reason::NoPlace));
    }
    if let Some(reason) = run.publish_refusal(place, &message.exchange) {
        return Ok(Err(reason));
    }
    let message = message.clone()?;
    let by = Publisher::Client(channel_of(client));
    one(alloc, published(alloc, run, place, by, message, next)?)
}
