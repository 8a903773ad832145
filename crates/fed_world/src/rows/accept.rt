//! The target publishes the message that was sent first.
ghost use Rattle.std.specs.Prelude.{◌≡◌, ◌+◌, ◌≤◌, IfOk, Some, length};
ghost use Rattle.fed_journal.specs.Limits.{most_entries};
ghost use Rattle.std.specs.Option.{option_copied};
ghost use Rattle.fed_journal.specs.Copies.{publication_count, copy_count};
ghost use Rattle.fed_journal.specs.Outgoing.{outgoing};
ghost use Rattle.fed_world.specs.Ends.{IsEnd};
ghost use Rattle.fed_world.specs.RowOf.{row_of};
ghost use Rattle.fed_world.specs.Accept.{accept_row, accept_first, accepted};

use crate::row::{Row, link_of, one};
use crate::rows::publish::published;
use amqp_props::{Message, Text};
use broker_view::run::Run;
use fed_journal::entry::{Entry, Publication, Publisher};
use fed_journal::journal::Numbers;
use fed_journal::link::LinkSpec;
use fed_journal::reason::Reason;
use journal_scan::copies::publication_of;
use journal_scan::flight::flight_sent;
use journal_scan::phases::{is_open, session};
use std::alloc::{AllocError, Global};

/// The message that the link publishes for one that it took.
fn outgoing(alloc: Global, spec: &LinkSpec, message: &Message) -> Result<Message, AllocError>
    ensures { IfOk result (λ sent. sent ≡ outgoing spec.now message.now) }
{
    let exchange = Text::from_str(alloc, "")?;
    let key = spec.target_queue.clone()?;
    let props = message.props.clone()?;
    let body = message.body.clone()?;
    Ok(Message {
        exchange,
        key,
        props,
        body,
    })
}

/// What the link publishes at the target for a copy of that publication.
fn accepted(
    alloc: Global,
    run: &Run<'_>,
    spec: &LinkSpec,
    copy: u64,
    publication: Option<&Publication>,
    next: Numbers,
) -> Result<Row, AllocError>
    requires publication { next.publication ≡ publication_count run.now + 1 }
    requires copy { next.copy ≡ copy_count run.now + 1 }
    requires within { length run.now ≤ most_entries }
    requires target { IsEnd run.now spec.now.target }
    ensures { IfOk result (λ row. row_of row ≡ accepted run.now spec.now copy spec.now.target (option_copied publication.entry)) }
{
    let Some(target) = &spec.target else {
        return Ok(Err(Reason::Empty));
    };
    let Some(publication) = publication else {
        return Ok(Err(Reason::Empty));
    };
    let message = outgoing(alloc, spec, &publication.message)?;
    let by = Publisher::Link {
        link: spec.name.clone()?,
        session: session(run.entries(), &spec.name),
        copy,
    };
    one(alloc, published(alloc, run, target, by, message, next)?)
}

/// The row of `accept`.
#[tactic(auto, unfolding(crate::specs::Accept::accept_row))]
pub fn accept_row(
    alloc: Global,
    run: &Run<'_>,
    link: &Text,
    next: Numbers,
) -> Result<Row, AllocError>
    requires publication { next.publication ≡ publication_count run.now + 1 }
    requires copy { next.copy ≡ copy_count run.now + 1 }
    requires within { length run.now ≤ most_entries }
    ensures { IfOk result (λ row. row_of row ≡ accept_row run.now link.now) }
{
    let Some(spec) = link_of(alloc, run, link)? else {
        return Ok(Err(Reason::NoLink));
    };
    if !is_open(run.entries(), link) {
        return Ok(Err(Reason::NotOpen));
    }
    let session = session(run.entries(), link);
    match flight_sent(alloc, run.entries(), link, session)?.first() {
        Some(copy) => accepted(
            alloc,
            run,
            &spec,
            *copy,
            publication_of(run.entries(), *copy),
            next,
        ),
        None => Ok(Err(Reason::Empty)),
    }
}
