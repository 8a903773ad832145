//! The link acknowledges the copy whose publication was confirmed first.
ghost use Rattle.std.specs.Prelude.{◌≡◌, IfOk};
ghost use Rattle.fed_world.specs.RowOf.{row_of};
ghost use Rattle.fed_world.specs.Note.{note_row};

use crate::row::{Row, one};
use amqp_props::Text;
use broker_view::run::Run;
use fed_journal::entry::Entry;
use fed_journal::reason::Reason;
use journal_scan::flight::flight_confirmed;
use journal_scan::links::link_of;
use journal_scan::phases::{is_open, session};
use std::alloc::{AllocError, Global};

/// The row of `note`.
#[tactic(auto, unfolding(crate::specs::Note::note_row))]
pub fn note_row(alloc: Global, run: &Run<'_>, link: &Text) -> Result<Row, AllocError>
    ensures { IfOk result (λ row. row_of row ≡ note_row run.now link.now) }
{
    if link_of(alloc, run.entries(), link)?.is_none() {
        return Ok(Err(Reason::NoLink));
    }
    if !is_open(run.entries(), link) {
        return Ok(Err(Reason::NotOpen));
    }
    let session = session(run.entries(), link);
    match flight_confirmed(alloc, run.entries(), link, session)?.first() {
        Some(copy) => {
            let link = link.clone()?;
            one(
                alloc,
                Entry::Noted {
                    link,
                    session,
                    copy: *copy,
                },
            )
        }
        None => Ok(Err(Reason::Empty)),
    }
}
