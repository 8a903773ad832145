//! The source removes the copy that the link acknowledged first.
ghost use Rattle.std.specs.Prelude.{◌≡◌, IfOk};
ghost use Rattle.fed_world.specs.RowOf.{row_of};
ghost use Rattle.fed_world.specs.Settle.{settle_row};

use crate::row::{Row, one};
use amqp_props::Text;
use broker_view::run::Run;
use fed_journal::entry::Entry;
use fed_journal::reason::Reason;
use journal_scan::flight::flight_noted;
use journal_scan::links::link_of;
use journal_scan::phases::{is_open, session};
use std::alloc::{AllocError, Global};

/// The row of `settle`.
#[tactic(auto, unfolding(crate::specs::Settle::settle_row))]
pub fn settle_row(alloc: Global, run: &Run<'_>, link: &Text) -> Result<Row, AllocError>
    ensures { IfOk result (λ row. row_of row ≡ settle_row run.now link.now) }
{
    if link_of(alloc, run.entries(), link)?.is_none() {
        return Ok(Err(Reason::NoLink));
    }
    if !is_open(run.entries(), link) {
        return Ok(Err(Reason::NotOpen));
    }
    let session = session(run.entries(), link);
    match flight_noted(alloc, run.entries(), link, session)?.first() {
        Some(copy) => {
            let link = link.clone()?;
            one(
                alloc,
                Entry::Settled {
                    link,
                    session,
                    copy: *copy,
                },
            )
        }
        None => Ok(Err(Reason::Empty)),
    }
}
