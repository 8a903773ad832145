//! What an entry of the journal changes in the confirms that its place owes.

ghost use Rattle.std.specs.Prelude.{◌≡◌, ◌+◌, ◌<◌, ◌^◌, IfOk, OnOk, length};
ghost use Rattle.std.specs.Option.{option_map};
ghost use Rattle.fed_journal.specs.Copies.{is_lasting as is_lasting_queue, IsFitting};
ghost use Rattle.broker_store.specs.Confirms.{AreBelow};
ghost use Rattle.broker_store.specs.Queues.{queue_of};
ghost use Rattle.broker_view.specs.Hosts.{told_at, IsTellable};
ghost use Rattle.broker_view.specs.Told.{lasting_from, must_wait, with_publication};

use crate::host::{Host, is_at};
use amqp_props::{QueueOptions, Text};
use broker_store::Confirms;
use fed_journal::entry::{Entry, Publication, Publisher};
use fed_journal::message::is_persistent;
use mini_broker::Vhost;
use queue_core::CopyNo;
use std::alloc::{AllocError, Global};

/// Whether the queue outlives a restart of its broker.
fn is_lasting(options: Option<QueueOptions>) -> bool
    ensures { result ≡ is_lasting_queue options }
{
    match options {
        Some(options) => options.durable && !options.exclusive && !options.auto_delete,
        None => false,
    }
}

/// Those of the copies, numbered from `first` on, whose queue is lasting.
///
/// # Errors
///
/// For want of memory.
fn lasting_copies(
    alloc: Global,
    vhost: &Vhost,
    first: CopyNo,
    queues: &[Text],
) -> Result<Vec<CopyNo>, AllocError>
    requires { first + length queues.now < 2 ^ 64 }
    ensures { IfOk result (λ copies. copies.items ≡ lasting_from vhost.now first queues.now) }
{
    let mut copies = Vec::new(alloc);
    for (place, queue) in queues.iter().enumerate() {
        if is_lasting(vhost.queue(queue.as_str())) {
            copies.push(first + place as u64)?;
        }
    }
    Ok(copies)
}

/// The copies that have to be stored before the publication is confirmed.
///
/// # Errors
///
/// For want of memory.
fn waits(alloc: Global, vhost: &Vhost, publication: &Publication) -> Result<Vec<CopyNo>, AllocError>
    requires { publication.now.first + length publication.now.queues < 2 ^ 64 }
    ensures { IfOk result (λ copies. copies.items ≡ must_wait publication.now vhost.now) }
{
    if !is_persistent(&publication.message) {
        return Ok(Vec::new(alloc));
    }
    lasting_copies(
        alloc,
        vhost,
        publication.first,
        publication.queues.as_slice(),
    )
}

/// A session of a link awaits the confirm of what it published.
///
/// # Errors
///
/// For want of memory.
fn open(
    alloc: Global,
    vhost: &Vhost,
    confirms: &mut Confirms,
    publication: &Publication,
) -> Result<(), AllocError>
    requires below { AreBelow publication.now.number confirms.old }
    requires fits { publication.now.first + length publication.now.queues < 2 ^ 64 }
    ensures { OnOk result (confirms.new ≡ with_publication publication.now.by publication.now vhost.now confirms.old) }
{
    let Publisher::Link { link, session, .. } = &publication.by else {
        return Ok(());
    };
    let waits = waits(alloc, vhost, publication)?;
    confirms.open(link, *session, publication.number, &waits)?;
    Ok(())
}

/// Does to the confirms that the host owes what the entry changes in them, before the entry is done to what stands
/// there.
///
/// # Errors
///
/// For want of memory.
pub fn tell(alloc: Global, host: &mut Host, entry: &Entry) -> Result<(), AllocError>
    requires tellable { IsTellable host.old entry.now }
    requires fits { IsFitting entry.now }
    ensures { OnOk result (host.new ≡ told_at entry.now host.old) }
{
    match entry {
        Entry::Published(publication) if is_at(host, &publication.place) => {
            open(alloc, &host.vhost, &mut host.confirms, publication)?;
        }
        Entry::Flushed { broker } if host.broker == *broker => host.confirms.flushed(),
        Entry::Settled { copy, .. } | Entry::Acked { copy, .. } | Entry::Rejected { copy, .. } => {
            host.confirms.left(*copy);
        }
        Entry::Delivered { copy, no_ack, .. } if *no_ack => host.confirms.left(*copy),
        Entry::Purged { place, queue } if is_at(host, place) => {
            if let Some(queue) = host.vhost.queue_rows(queue.as_str()) {
                host.confirms.ready_left(queue);
            }
        }
        Entry::GoneQueue { place, queue } if is_at(host, place) => {
            if let Some(queue) = host.vhost.queue_rows(queue.as_str()) {
                host.confirms.rows_left(queue);
            }
        }
        Entry::Confirmed {
            link,
            session,
            publication,
        } => host.confirms.answered(link, *session, *publication),
        _ => {}
    }
    Ok(())
}
