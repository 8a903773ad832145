//! Brokers and queues.
ghost use Rattle.std.specs.Prelude.{◌≡◌, not, filter, IfOk, OnOk};
ghost use Rattle.fed_journal.specs.Names.{same_text};
ghost use Rattle.fed_journal.specs.Configuration.{is_broker, is_place, is_queue, options_step, queue_options, queues_step, queues_of};

use amqp_props::{QueueOptions, Text};
use fed_journal::entry::Entry;
use fed_journal::place::Place;
use std::alloc::{AllocError, Global};

/// Whether the run has this broker.
pub(crate) fn is_broker(journal: &[Entry], broker: &Text) -> bool
    ensures { result ≡ is_broker journal.now broker.now }
{
    journal.iter().any(
        |entry| matches!(entry, Entry::Begun { broker: begun, .. } if begun == broker),
    )
}

/// Whether the run has this place.
#[tactic(auto, unfolding(fed_journal::specs::Configuration::is_place))]
pub(crate) fn is_place(journal: &[Entry], place: &Place) -> bool
    ensures { result ≡ is_place journal.now place.now }
{
    place.vhost.as_str() == "/" && is_broker(journal, &place.broker)
}

/// Whether that queue of the place is meant.
fn is_queue(place: &Place, queue: &Text, at: &Place, name: &Text) -> bool
    ensures { result ≡ is_queue place.now queue.now at.now name.now }
{
    at == place && name == queue
}

/// The options of the queue after one entry more.
fn options_after(
    place: &Place,
    queue: &Text,
    was: Option<QueueOptions>,
    entry: &Entry,
) -> Option<QueueOptions>
    ensures { result ≡ options_step place.now queue.now was entry.now }
{
    match entry {
        Entry::MadeQueue {
            place: at,
            queue: made,
            options,
            ..
        } if is_queue(place, queue, at, made) => Some(*options),
        Entry::GoneQueue {
            place: at,
            queue: gone,
        } if is_queue(place, queue, at, gone) => None,
        _ => was,
    }
}

/// The options of the queue, if it stands.
#[tactic(auto, unfolding(fed_journal::specs::Configuration::queue_options))]
pub(crate) fn queue_options(journal: &[Entry], place: &Place, queue: &Text) -> Option<QueueOptions>
    ensures { result ≡ queue_options journal.now place.now queue.now }
{
    let mut last = None;
    for entry in journal {
        last = options_after(place, queue, last, entry);
    }
    last
}

/// Removes the queue's name.
fn remove(queues: &mut Vec<Text>, queue: &Text)
    ensures { queues.new.items ≡ filter (λ name. not (same_text name queue.now)) queues.old.items }
{
    queues.retain(|name| name != queue);
}

/// The queues of the place after one entry more.
fn enter_queue(queues: &mut Vec<Text>, place: &Place, entry: &Entry) -> Result<(), AllocError>
    ensures { OnOk result (queues.new.items ≡ queues_step place.now queues.old.items entry.now) }
{
    match entry {
        Entry::MadeQueue {
            place: at,
            queue,
            ..
        } if at == place => {
            let queue = queue.clone()?;
            queues.push(queue)?;
            Ok(())
        }
        Entry::GoneQueue { place: at, queue } if at == place => {
            remove(queues, queue);
            Ok(())
        }
        _ => Ok(()),
    }
}

/// The queues of the place, in the order of their making.
#[tactic(auto, unfolding(fed_journal::specs::Configuration::queues_of))]
pub fn queues_of(alloc: Global, journal: &[Entry], place: &Place) -> Result<Vec<Text>, AllocError>
    ensures { IfOk result (λ queues. queues.items ≡ queues_of journal.now place.now) }
{
    let mut queues = Vec::new(alloc);
    for entry in journal {
        enter_queue(&mut queues, place, entry)?;
    }
    Ok(queues)
}
