//! A client asks for a copy.
ghost use Rattle.std.specs.Prelude.{◌≡◌, IfOk};
ghost use Rattle.fed_world.specs.RowOf.{row_of};
ghost use Rattle.fed_journal.specs.Get.{get_row};

use crate::row::{Row, one};
use amqp_props::Text;
use broker_view::answers::channel_of;
use broker_view::run::Run;
use fed_journal::entry::Entry;
use fed_journal::place::Place;
use fed_journal::reason::Reason;
use std::alloc::{AllocError, Global};

/// The row of `get`.
#[tactic(auto, unfolding(fed_journal::specs::Get::get_row))]
pub fn get_row(
    alloc: Global,
    run: &Run<'_>,
    place: &Place,
    client: u16,
    queue: &Text,
    no_ack: bool,
) -> Result<Row, AllocError>
    ensures { IfOk result (λ row. row_of row ≡ get_row run.now place.now client queue.now no_ack) }
{
    if !run.is_place(place) {
        return Ok(Err(Reason::NoPlace));
    }
    if let Some(reason) = run.queue_refusal(place, client, queue) {
        return Ok(Err(reason));
    }
    match run.first_ready(place, queue) {
        Some(copy) => {
            let place = place.clone()?;
            let queue = queue.clone()?;
            let tag = Text::from_str(alloc, "")?;
            one(
                alloc,
                Entry::Delivered {
                    place,
                    client: channel_of(client),
                    tag,
                    queue,
                    copy,
                    no_ack,
                },
            )
        }
        None => Ok(Err(Reason::Empty)),
    }
}
