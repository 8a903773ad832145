//! A client empties a queue of its ready copies.
ghost use Rattle.std.specs.Prelude.{◌≡◌, IfOk};
ghost use Rattle.fed_world.specs.RowOf.{row_of};
ghost use Rattle.fed_journal.specs.Purge.{purge_row};

use crate::row::{Row, one};
use amqp_props::Text;
use broker_view::run::Run;
use fed_journal::entry::Entry;
use fed_journal::place::Place;
use fed_journal::reason::Reason;
use std::alloc::{AllocError, Global};

/// The row of `purge`.
#[tactic(auto, unfolding(fed_journal::specs::Purge::purge_row))]
pub fn purge_row(
    alloc: Global,
    run: &Run<'_>,
    place: &Place,
    client: u16,
    queue: &Text,
) -> Result<Row, AllocError>
    ensures { IfOk result (λ row. row_of row ≡ purge_row run.now place.now client queue.now) }
{
    if !run.is_place(place) {
        return Ok(Err(Reason::NoPlace));
    }
    if let Some(reason) = run.queue_refusal(place, client, queue) {
        return Ok(Err(reason));
    }
    let place = place.clone()?;
    let queue = queue.clone()?;
    one(alloc, Entry::Purged { place, queue })
}
