//! A link connects to both ends.
ghost use Rattle.std.specs.Prelude.{◌≡◌, ◌+◌, ◌<◌, ◌^◌, ◌++◌, true, IfOk, OnOk};
ghost use Rattle.fed_journal.specs.Configuration.{is_place};
ghost use Rattle.fed_journal.specs.Phases.{session};
ghost use Rattle.fed_world.specs.Ends.{HasEnds, IsEnd};
ghost use Rattle.fed_world.specs.RowOf.{row_of};
ghost use Rattle.fed_world.specs.Sound.{IsSound};
ghost use Rattle.fed_world.specs.Open.{open_row, open_if_startable, is_source_locked, opened, made_if, is_target_missing};

use crate::row::{Row, link_of};
use crate::rows::declare::{LASTING, stands};
use amqp_props::Text;
use broker_view::run::Run;
use fed_journal::entry::Entry;
use fed_journal::link::{LinkSpec, StartState};
use fed_journal::place::Place;
use fed_journal::reason::Reason;
use journal_scan::phases::{is_open, session};
use std::alloc::{AllocError, Global};

/// Appends the queue's declaration, where it is missing.
fn push_made(
    missing: bool,
    place: &Place,
    queue: &Text,
    entries: &mut Vec<Entry>,
) -> Result<(), AllocError>
    ensures { OnOk result (entries.new.items ≡ entries.old.items ++ made_if missing place.now queue.now) }
{
    if missing {
        let place = place.clone()?;
        let queue = queue.clone()?;
        entries.push(Entry::MadeQueue {
            place,
            queue,
            options: LASTING,
            owner: None,
        })?;
    }
    Ok(())
}

/// Whether the target's queue has to be made beside the source's.
fn is_target_missing(run: &Run<'_>, spec: &LinkSpec, source: &Place, target: &Place) -> bool
    requires { is_place run.now target.now ≡ true }
    ensures { result ≡ is_target_missing run.now spec.now source.now target.now }
{
    !(stands(run, target, &spec.target_queue)
        || (target == source && spec.target_queue == spec.source_queue))
}

/// What a session's beginning appends.
fn opened(alloc: Global, run: &Run<'_>, spec: &LinkSpec) -> Result<Row, AllocError>
    requires sound { IsSound run.now }
    requires ends { HasEnds run.now spec.now }
    ensures { IfOk result (λ row. row_of row ≡ opened run.now spec.now spec.now.source spec.now.target) }
{
    let (Some(source), Some(target)) = (&spec.source, &spec.target) else {
        return Ok(Err(Reason::NoBroker));
    };
    let mut entries = Vec::new(alloc);
    push_made(
        !stands(run, source, &spec.source_queue),
        source,
        &spec.source_queue,
        &mut entries,
    )?;
    push_made(
        is_target_missing(run, spec, source, target),
        target,
        &spec.target_queue,
        &mut entries,
    )?;
    let ready = run.ready_count(source, &spec.source_queue);
    entries.push(Entry::Opened {
        link: spec.name.clone()?,
        session: session(run.entries(), &spec.name) + 1,
        ready,
    })?;
    Ok(Ok(entries))
}

/// Whether a connection has the source's queue to itself.
fn is_source_locked(run: &Run<'_>, source: &Option<Place>, queue: &Text) -> bool
    requires { IsEnd run.now source.now }
    ensures { result ≡ is_source_locked run.now source.now queue.now }
{
    match source {
        Some(source) => run.is_exclusive(source, queue),
        None => false,
    }
}

/// The row of `open` for a link by its start state.
fn open_if_startable(alloc: Global, run: &Run<'_>, spec: &LinkSpec) -> Result<Row, AllocError>
    requires sound { IsSound run.now }
    requires ends { HasEnds run.now spec.now }
    ensures { IfOk result (λ row. row_of row ≡ open_if_startable run.now spec.now spec.now.start) }
{
    match spec.start {
        StartState::NoBroker => Ok(Err(Reason::NoBroker)),
        StartState::NameTooLong => Ok(Err(Reason::NameTooLong)),
        StartState::Start => {
            if is_open(run.entries(), &spec.name) {
                return Ok(Err(Reason::Live));
            }
            if is_source_locked(run, &spec.source, &spec.source_queue) {
                return Ok(Err(Reason::NoSource));
            }
            opened(alloc, run, spec)
        }
    }
}

/// The row of `open`.
#[tactic(auto, unfolding(crate::specs::Open::open_row))]
pub fn open_row(alloc: Global, run: &Run<'_>, link: &Text) -> Result<Row, AllocError>
    requires { IsSound run.now }
    ensures { IfOk result (λ row. row_of row ≡ open_row run.now link.now) }
{
    match link_of(alloc, run, link)? {
        Some(spec) => open_if_startable(alloc, run, &spec),
        None => Ok(Err(Reason::NoLink)),
    }
}
