//! The virtual host of a broker, and what the journal records of it.

ghost use Rattle.std.specs.Prelude.{◌≡◌, ◌+◌, ◌<◌, ◌^◌, OnOk, IsTrue, length};
ghost use Rattle.fed_journal.specs.declared.entry.Entry.TheVariants.{Published};
ghost use Rattle.fed_journal.specs.Copies.{IsFitting};
ghost use Rattle.fed_journal.specs.Names.{same_place};
ghost use Rattle.broker_view.specs.Recorded.{session_holder, is_making, is_consuming, is_moving};
ghost use Rattle.broker_view.specs.Hosts.{place_of, recorded_at, followed_at, entered_at, IsRecordable, IsTellable};

use crate::tell::tell;
use amqp_props::Text;
use broker_store::Confirms;
use fed_journal::entry::{Entry, Publication};
use fed_journal::place::Place;
use mini_broker::Vhost;
use queue_core::Holder;
use std::alloc::{AllocError, Global};

/// A broker of the run with its virtual host `/`.
#[derive(Drop)]
pub struct Host {
    /// The broker's run name.
    pub broker: Text,
    /// What stands there.
    pub vhost: Vhost,
    /// The confirms that it owes to sessions of links.
    pub confirms: Confirms,
}

/// Whether the place is the host's.
pub fn is_at(host: &Host, place: &Place) -> bool
    ensures { result ≡ same_place place.now (place_of host.now.broker) }
{
    place.broker == host.broker && place.vhost.as_str() == "/"
}

/// A session of a link as a holder of copies; which link it is the journal tells by the copy.
fn session_holder(session: u32) -> Holder
    ensures { result ≡ session_holder session }
{
    Holder {
        link: true,
        number: 0,
        part: session,
    }
}

/// Does to the host what a declaration or a binding did at its place.
///
/// # Errors
///
/// For want of memory.
fn record_made(host: &mut Host, entry: &Entry) -> Result<(), AllocError>
    requires { IsRecordable host.old entry.now }
    ensures { IsTrue (is_making entry.now) → OnOk result (host.new ≡ followed_at entry.now host.old) }
{
    match entry {
        Entry::MadeQueue {
            place,
            queue,
            options,
            owner,
        } if is_at(host, place) => {
            host.vhost.make_queue(queue.as_str(), *options, *owner)?;
        }
        Entry::MadeExchange {
            place,
            exchange,
            shape,
        } if is_at(host, place) => {
            host.vhost.make_exchange(exchange.as_str(), *shape)?;
        }
        Entry::GoneQueue { place, queue } if is_at(host, place) => {
            host.vhost.remove_queue(queue.as_str());
        }
        Entry::Bound { place, binding } if is_at(host, place) => {
            host.vhost.add_binding(binding)?;
        }
        Entry::Unbound { place, binding } if is_at(host, place) => {
            host.vhost.remove_binding(binding);
        }
        _ => {}
    }
    Ok(())
}

/// Lets the copies of a publication at the host's place enter its queues.
///
/// # Errors
///
/// For want of memory.
fn enter(host: &mut Host, publication: &Publication) -> Result<(), AllocError>
    requires recordable { IsRecordable host.old (Published publication.now) }
    requires fits { publication.now.first + length publication.now.queues < 2 ^ 64 }
    ensures { OnOk result (host.new ≡ entered_at publication.now host.old) }
{
    let queues = publication.queues.as_slice();
    if queues.is_empty() {
        return Ok(());
    }
    let message = publication.message.clone()?;
    host.vhost.enter(queues, publication.first, message)?;
    Ok(())
}

/// Does to the host what became of copies by their numbers, or in its queues.
///
/// # Errors
///
/// For want of memory.
fn record_moved(host: &mut Host, entry: &Entry) -> Result<(), AllocError>
    requires recordable { IsRecordable host.old entry.now }
    requires fits { IsFitting entry.now }
    ensures { IsTrue (is_moving entry.now) → OnOk result (host.new ≡ followed_at entry.now host.old) }
{
    match entry {
        Entry::Published(publication) if is_at(host, &publication.place) => {
            enter(host, publication)?;
        }
        Entry::Flushed { broker } if host.broker == *broker => host.vhost.flush(),
        Entry::Took { session, copy, .. } => {
            host.vhost.take(*copy, session_holder(*session));
        }
        Entry::Settled { copy, .. } | Entry::Acked { copy, .. } | Entry::Rejected { copy, .. } => {
            host.vhost.settle(*copy);
        }
        Entry::Requeued { copy, .. } => host.vhost.release(*copy),
        Entry::Purged { place, queue } if is_at(host, place) => {
            host.vhost.clear_queue(queue.as_str());
        }
        _ => {}
    }
    Ok(())
}

/// Does to the host what a client did there that consumes, or whose connection ended.
///
/// # Errors
///
/// For want of memory.
fn record_consumed(host: &mut Host, entry: &Entry) -> Result<(), AllocError>
    requires { IsRecordable host.old entry.now }
    ensures { IsTrue (is_consuming entry.now) → OnOk result (host.new ≡ followed_at entry.now host.old) }
{
    match entry {
        Entry::Consumed {
            place,
            client,
            queue,
            tag,
            no_ack,
            prefetch,
        } if is_at(host, place) => {
            host.vhost
                .begin_consumer(*client, queue.as_str(), tag.as_str(), *no_ack, *prefetch)?;
        }
        Entry::Cancelled { place, client, tag } if is_at(host, place) => {
            host.vhost.cancel(*client, tag.as_str());
        }
        Entry::Delivered {
            place,
            client,
            tag,
            queue,
            copy,
            no_ack,
        } if is_at(host, place) => {
            host.vhost
                .hand(*client, tag.as_str(), queue.as_str(), *copy, *no_ack)?;
        }
        Entry::Closed { place, connection } if is_at(host, place) => {
            host.vhost.disconnect(*connection);
        }
        _ => {}
    }
    Ok(())
}

/// Does to the virtual host what an entry of the journal records of its place.
///
/// # Errors
///
/// For want of memory.
fn follow(host: &mut Host, entry: &Entry) -> Result<(), AllocError>
    requires recordable { IsRecordable host.old entry.now }
    requires fits { IsFitting entry.now }
    ensures { OnOk result (host.new ≡ followed_at entry.now host.old) }
{
    match entry {
        Entry::Consumed { .. }
        | Entry::Cancelled { .. }
        | Entry::Delivered { .. }
        | Entry::Closed { .. } => record_consumed(host, entry)?,
        Entry::MadeQueue { .. }
        | Entry::MadeExchange { .. }
        | Entry::GoneQueue { .. }
        | Entry::Bound { .. }
        | Entry::Unbound { .. } => record_made(host, entry)?,
        _ => record_moved(host, entry)?,
    }
    Ok(())
}

/// Does to the host what an entry of the journal records of its place, to what stands there and to the confirms that
/// are owed.
///
/// # Errors
///
/// For want of memory.
pub fn record(alloc: Global, host: &mut Host, entry: &Entry) -> Result<(), AllocError>
    requires recordable { IsRecordable host.old entry.now }
    requires tellable { IsTellable host.old entry.now }
    requires fits { IsFitting entry.now }
    ensures { OnOk result (host.new ≡ recorded_at entry.now host.old) }
{
    tell(alloc, host, entry)?;
    follow(host, entry)?;
    Ok(())
}
