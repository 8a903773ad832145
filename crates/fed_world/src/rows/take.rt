//! The source hands its first ready copy to the link.
ghost use Rattle.std.specs.Prelude.{◌≡◌, IfOk};
ghost use Rattle.fed_world.specs.Ends.{IsEnd};
ghost use Rattle.fed_world.specs.RowOf.{row_of};
ghost use Rattle.fed_world.specs.Take.{take_row, is_full, first_ready_at};

use crate::row::{Row, link_of, one};
use amqp_props::Text;
use broker_view::run::Run;
use fed_journal::entry::Entry;
use fed_journal::link::LinkSpec;
use fed_journal::place::Place;
use fed_journal::reason::Reason;
use journal_scan::flight::flight_held;
use journal_scan::phases::{is_open, session};
use std::alloc::{AllocError, Global};

/// The copy that the queue would hand out now, where the place is one of the run.
fn first_ready_at(run: &Run<'_>, place: &Option<Place>, queue: &Text) -> Option<u64>
    requires { IsEnd run.now place.now }
    ensures { result ≡ first_ready_at run.now place.now queue.now }
{
    match place {
        Some(place) => run.first_ready(place, queue),
        None => None,
    }
}

/// Whether the session holds as many copies as the link asks for.
fn is_full(alloc: Global, run: &Run<'_>, spec: &LinkSpec, session: u32) -> Result<bool, AllocError>
    ensures { IfOk result (λ full. full ≡ is_full run.now spec.now session) }
{
    let held = flight_held(alloc, run.entries(), &spec.name, session)?;
    Ok(0 < spec.prefetch && spec.prefetch as usize <= held.len())
}

/// The row of `take`.
#[tactic(auto, unfolding(crate::specs::Take::take_row))]
pub fn take_row(alloc: Global, run: &Run<'_>, link: &Text) -> Result<Row, AllocError>
    ensures { IfOk result (λ row. row_of row ≡ take_row run.now link.now) }
{
    let Some(spec) = link_of(alloc, run, link)? else {
        return Ok(Err(Reason::NoLink));
    };
    if !is_open(run.entries(), link) {
        return Ok(Err(Reason::NotOpen));
    }
    let session = session(run.entries(), link);
    if is_full(alloc, run, &spec, session)? {
        return Ok(Err(Reason::Full));
    }
    match first_ready_at(run, &spec.source, &spec.source_queue) {
        Some(copy) => {
            let link = link.clone()?;
            one(
                alloc,
                Entry::Took {
                    link,
                    session,
                    copy,
                },
            )
        }
        None => Ok(Err(Reason::Empty)),
    }
}
