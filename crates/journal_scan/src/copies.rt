//! Publications, their copies, and what became of a copy.
ghost use Rattle.std.specs.Prelude.{◌≡◌, ◌+◌, ◌-◌, ◌<◌, ◌^◌, All, length, position, IfSome, take, drop, not, ◌||◌};
ghost use Rattle.std.specs.List.{slice_get, list_any, list_all};
ghost use Rattle.fed_journal.specs.Names.{same_text};
ghost use Rattle.std.specs.Option.{option_copied};
ghost use Rattle.fed_journal.specs.Copies.{entered_by, IsFitting, enters, is_copy_of, must_be_stored, is_stored, is_released, is_gone, find_publication, publication_of, is_secured, is_lasting_at, is_lasting, must_be_stored_at, is_flushed_in, publication_in, is_copy_secured, numbers_from, flushes, is_flushed_from, must_be_stored_from};

use crate::configuration::queue_options;
use crate::standing::{is_left, standing};
use amqp_props::{QueueOptions, Text};
use fed_journal::entry::{Entry, Publication};
use fed_journal::message::is_persistent;
use fed_journal::place::Place;

/// The first place of the queue among the names.
fn place_of(queues: &[Text], queue: &Text) -> Option<usize>
    ensures place { result ≡ position (same_text queue.now) queues.now }
    ensures within { IfSome result (λ at. at < length queues.now) }
{
    queues.iter().position(|name| queue == name)
}

/// The copy that the entry brought into the queue, if it is a publication that was routed there.
pub fn entered_by(entry: &Entry, place: &Place, queue: &Text) -> Option<u64>
    requires { IsFitting entry.now }
    ensures { result ≡ entered_by place.now queue.now entry.now }
{
    let Entry::Published(publication) = entry else {
        return None;
    };
    if &publication.place != place {
        return None;
    }
    match place_of(publication.queues.as_slice(), queue) {
        Some(at) => Some(publication.first + at as u64),
        None => None,
    }
}

/// Whether the copy is one of the publication's.
pub(crate) fn is_copy_of(publication: &Publication, copy: u64) -> bool
    ensures { result ≡ is_copy_of publication.now copy }
{
    publication.first <= copy
        && copy - publication.first < publication.queues.as_slice().len() as u64
}

/// Whether the entry brought the copy into its queue.
pub(crate) fn enters(entry: &Entry, copy: u64) -> bool
    ensures { result ≡ enters copy entry.now }
{
    match entry {
        Entry::Published(publication) => is_copy_of(publication, copy),
        _ => false,
    }
}

/// Whether the copy has left its queue.
pub fn is_gone(journal: &[Entry], copy: u64) -> bool
    ensures { result ≡ is_gone journal.now copy }
{
    is_left(standing(journal, copy))
}

/// Whether the options are those of a lasting queue.
pub(crate) fn is_lasting(options: Option<QueueOptions>) -> bool
    ensures { result ≡ is_lasting options }
{
    match options {
        Some(options) => options.durable && !options.exclusive && !options.auto_delete,
        None => false,
    }
}

/// The publication of that number.
#[tactic(auto, unfolding(fed_journal::specs::Copies::find_publication))]
pub(crate) fn find_publication(journal: &[Entry], number: u64) -> Option<&Publication>
    ensures { option_copied result ≡ find_publication number journal.now }
{
    for entry in journal {
        if let Entry::Published(publication) = entry
            && publication.number == number
        {
            return Some(publication);
        }
    }
    None
}

/// The publication that the copy belongs to.
#[tactic(auto, unfolding(fed_journal::specs::Copies::publication_of))]
pub fn publication_of(journal: &[Entry], copy: u64) -> Option<&Publication>
    ensures { option_copied result ≡ publication_of copy journal.now }
{
    for entry in journal {
        if let Entry::Published(publication) = entry
            && is_copy_of(publication, copy)
        {
            return Some(publication);
        }
    }
    None
}

/// Where the copy entered its queue.
fn entered_at(journal: &[Entry], copy: u64) -> Option<usize>
    ensures place { result ≡ position (enters copy) journal.now }
    ensures within { IfSome result (λ at. at < length journal.now) }
{
    journal.iter().position(|entry| enters(entry, copy))
}

/// The publication at a place of the journal.
fn publication_at(journal: &[Entry], at: usize) -> Option<&Publication>
    requires { at < length journal.now }
    ensures { option_copied result ≡ publication_in (slice_get journal.now at) }
{
    match &journal[at] {
        Entry::Published(publication) => Some(publication),
        _ => None,
    }
}

/// Whether the broker flushed.
fn is_flushed(journal: &[Entry], broker: &Text) -> bool
    ensures { result ≡ list_any (flushes broker.now) journal.now }
{
    journal.iter().any(
        |entry| matches!(entry, Entry::Flushed { broker: flushed } if flushed == broker),
    )
}

/// Whether the queue, if a name is given, is a lasting one after the journal.
fn is_lasting_at(journal: &[Entry], place: &Place, queue: Option<&Text>) -> bool
    ensures { result ≡ is_lasting_at journal.now place.now (option_copied queue.entry) }
{
    match queue {
        Some(queue) => is_lasting(queue_options(journal, place, queue)),
        None => false,
    }
}

/// The queue of the publication's copy, by the copy's distance from the first.
pub(crate) fn queue_of(publication: &Publication, copy: u64) -> Option<&Text>
    ensures { option_copied result ≡ slice_get publication.now.queues (copy - publication.now.first) }
{
    publication
        .queues
        .as_slice()
        .get(copy.saturating_sub(publication.first) as usize)
}

/// Whether a copy of this publication is one that its broker has to store, where the journal is that before it.
fn must_be_stored_at(before: &[Entry], publication: &Publication, copy: u64) -> bool
    ensures { result ≡ must_be_stored_at before.now (Some publication.now) copy }
{
    is_persistent(&publication.message)
        && is_lasting_at(before, &publication.place, queue_of(publication, copy))
}

/// Whether the copy's message is persistent and its queue is lasting.
#[tactic(auto, unfolding(fed_journal::specs::Copies::must_be_stored))]
pub(crate) fn must_be_stored(journal: &[Entry], copy: u64) -> bool
    ensures { result ≡ must_be_stored journal.now copy }
{
    match entered_at(journal, copy) {
        Some(at) => match publication_at(journal, at) {
            Some(publication) => must_be_stored_at(&journal[..at], publication, copy),
            None => false,
        },
        None => false,
    }
}

/// Whether the copy's broker flushed after it entered.
fn is_flushed_since(journal: &[Entry], copy: u64) -> bool
    ensures { result ≡ is_flushed_from journal.now (position (enters copy) journal.now) }
{
    match entered_at(journal, copy) {
        Some(at) => match publication_at(journal, at) {
            Some(publication) => is_flushed(&journal[at + 1..], &publication.place.broker),
            None => false,
        },
        None => false,
    }
}

/// Whether the copy is stored.
#[tactic(auto, unfolding(fed_journal::specs::Copies::is_stored))]
pub fn is_stored(journal: &[Entry], copy: u64) -> bool
    ensures { result ≡ is_stored journal.now copy }
{
    must_be_stored(journal, copy) && is_flushed_since(journal, copy)
}
