//! The target confirms a publication once it is secured.
ghost use Rattle.std.specs.Prelude.{◌≡◌, true, IfOk};
ghost use Rattle.broker_view.specs.Confirms.{ArePublishedAt};
ghost use Rattle.fed_journal.specs.Configuration.{is_place};
ghost use Rattle.fed_journal.specs.Flight.{flight_published};
ghost use Rattle.fed_world.specs.RowOf.{row_of};
ghost use Rattle.fed_world.specs.Run.{IsReached};
ghost use Rattle.fed_world.specs.Confirm.{confirm_row, confirm_first};

use crate::row::{Row, link_of, one};
use amqp_props::Text;
use broker_view::run::Run;
use fed_journal::entry::Entry;
use fed_journal::place::Place;
use fed_journal::reason::Reason;
use journal_scan::phases::{is_open, session};
use std::alloc::{AllocError, Global};

/// The confirm of the first of the session's publications at the target that is secured, if one waits.
fn confirm_first(
    alloc: Global,
    run: &Run<'_>,
    target: &Place,
    link: &Text,
    session: u32,
) -> Result<Row, AllocError>
    requires place { is_place run.now target.now ≡ true }
    requires there { ArePublishedAt run.now target.now link.now session }
    ensures { IfOk result (λ row. row_of row ≡ confirm_first run.now link.now session (flight_published run.now link.now session)) }
{
    if !run.is_awaited(target, link, session) {
        return Ok(Err(Reason::Empty));
    }
    match run.first_secured(target, link, session) {
        Some(publication) => {
            let link = link.clone()?;
            one(
                alloc,
                Entry::Confirmed {
                    link,
                    session,
                    publication,
                },
            )
        }
        None => Ok(Err(Reason::Unsecured)),
    }
}

/// The row of `confirm`.
#[tactic(auto, unfolding(crate::specs::Confirm::confirm_row))]
pub fn confirm_row(alloc: Global, run: &Run<'_>, link: &Text) -> Result<Row, AllocError>
    requires { IsReached run.now }
    ensures { IfOk result (λ row. row_of row ≡ confirm_row run.now link.now) }
{
    let Some(spec) = link_of(alloc, run, link)? else {
        return Ok(Err(Reason::NoLink));
    };
    if !is_open(run.entries(), link) {
        return Ok(Err(Reason::NotOpen));
    }
    let Some(target) = &spec.target else {
        return Ok(Err(Reason::Empty));
    };
    let session = session(run.entries(), link);
    confirm_first(alloc, run, target, link, session)
}
