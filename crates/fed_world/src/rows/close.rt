//! A client's connection ends.
ghost use Rattle.std.specs.Prelude.{◌≡◌, ◌++◌, map, IfOk, OnOk};
ghost use Rattle.fed_journal.specs.declared.entry.Entry.TheVariants.{GoneQueue};
ghost use Rattle.fed_world.specs.RowOf.{row_of};
ghost use Rattle.fed_journal.specs.Close.{close_row};

use crate::row::Row;
use amqp_props::Text;
use broker_view::run::Run;
use fed_journal::entry::Entry;
use fed_journal::place::Place;
use fed_journal::reason::Reason;
use std::alloc::{AllocError, Global};

/// Appends that these queues are gone.
fn push_gone(place: &Place, queues: &[Text], entries: &mut Vec<Entry>) -> Result<(), AllocError>
    ensures { OnOk result (entries.new.items ≡ entries.old.items ++ map (GoneQueue place.now) queues.now) }
{
    for queue in queues {
        let place = place.clone()?;
        let queue = queue.clone()?;
        entries.push(Entry::GoneQueue { place, queue })?;
    }
    Ok(())
}

/// The row of `close`.
#[tactic(auto, unfolding(fed_journal::specs::Close::close_row))]
pub fn close_row(
    alloc: Global,
    run: &Run<'_>,
    place: &Place,
    client: u16,
) -> Result<Row, AllocError>
    ensures { IfOk result (λ row. row_of row ≡ close_row run.now place.now client) }
{
    if !run.is_place(place) {
        return Ok(Err(Reason::NoPlace));
    }
    let connection = u32::from(client);
    let queues = run.queues_owned(alloc, place, connection)?;
    let mut entries = Vec::new(alloc);
    entries.push(Entry::Closed {
        place: place.clone()?,
        connection,
    })?;
    push_gone(place, queues.as_slice(), &mut entries)?;
    Ok(Ok(entries))
}
