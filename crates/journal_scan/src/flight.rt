//! The copies and publications of a link's session, by their stage.
ghost use Rattle.std.specs.Prelude.{◌≡◌, IfOk};
ghost use Rattle.std.specs.Option.{option_copied};
ghost use Rattle.fed_journal.specs.Flight.{is_number, has, of_session, taken_by, sent_by, copy_published_by, published_from, published_by, confirmed_to, noted_by, settled_for, copy_from, copy_of_publication, confirmed_copy, flight_held, flight_took, flight_sent, flight_published, flight_confirmed, flight_noted};

use crate::copies::find_publication;
use amqp_props::Text;
use fed_journal::entry::{Entry, Publication, Publisher};
use std::alloc::{AllocError, Global};

/// Whether the number is there and is this one.
fn is_number(number: u64, found: Option<u64>) -> bool
    ensures { result ≡ is_number number found }
{
    match found {
        Some(found) => found == number,
        None => false,
    }
}

/// The number, if the session is this one.
fn of_session(
    link: &Text,
    session: u32,
    found_link: &Text,
    found_session: u32,
    number: u64,
) -> Option<u64>
    ensures { result ≡ of_session link.now session found_link.now found_session number }
{
    if found_link == link && found_session == session {
        Some(number)
    } else {
        None
    }
}

/// The copy from which the session published.
fn copy_published_by(by: &Publisher, link: &Text, session: u32) -> Option<u64>
    ensures { result ≡ copy_published_by link.now session by.now }
{
    match by {
        Publisher::Client(_) => None,
        Publisher::Link {
            link: found,
            session: number,
            copy,
        } => of_session(link, session, found, *number, *copy),
    }
}

/// The copy that the session took by this entry.
fn taken_by(entry: &Entry, link: &Text, session: u32) -> Option<u64>
    ensures { result ≡ taken_by link.now session entry.now }
{
    match entry {
        Entry::Took {
            link: found,
            session: number,
            copy,
        } => of_session(link, session, found, *number, *copy),
        _ => None,
    }
}

/// The copy whose message the session sent on by this entry.
fn sent_by(entry: &Entry, link: &Text, session: u32) -> Option<u64>
    ensures { result ≡ sent_by link.now session entry.now }
{
    match entry {
        Entry::Sent {
            link: found,
            session: number,
            copy,
        } => of_session(link, session, found, *number, *copy),
        _ => None,
    }
}

/// The publication that was confirmed to the session by this entry.
fn confirmed_to(entry: &Entry, link: &Text, session: u32) -> Option<u64>
    ensures { result ≡ confirmed_to link.now session entry.now }
{
    match entry {
        Entry::Confirmed {
            link: found,
            session: number,
            publication,
        } => of_session(link, session, found, *number, *publication),
        _ => None,
    }
}

/// The copy that the session acknowledged by this entry.
fn noted_by(entry: &Entry, link: &Text, session: u32) -> Option<u64>
    ensures { result ≡ noted_by link.now session entry.now }
{
    match entry {
        Entry::Noted {
            link: found,
            session: number,
            copy,
        } => of_session(link, session, found, *number, *copy),
        _ => None,
    }
}

/// The copy that the source removed for the session by this entry.
fn settled_for(entry: &Entry, link: &Text, session: u32) -> Option<u64>
    ensures { result ≡ settled_for link.now session entry.now }
{
    match entry {
        Entry::Settled {
            link: found,
            session: number,
            copy,
        } => of_session(link, session, found, *number, *copy),
        _ => None,
    }
}

/// The copy from which the target published for the session by this entry.
fn published_from(entry: &Entry, link: &Text, session: u32) -> Option<u64>
    ensures { result ≡ published_from link.now session entry.now }
{
    match entry {
        Entry::Published(publication) => copy_published_by(&publication.by, link, session),
        _ => None,
    }
}

/// The publication that the target made for the session by this entry.
fn published_by(entry: &Entry, link: &Text, session: u32) -> Option<u64>
    ensures { result ≡ published_by link.now session entry.now }
{
    match entry {
        Entry::Published(publication) => match copy_published_by(&publication.by, link, session) {
            Some(_) => Some(publication.number),
            None => None,
        },
        _ => None,
    }
}

/// The copy from which the session made the publication.
fn copy_of_publication(publication: Option<&Publication>, link: &Text, session: u32) -> Option<u64>
    ensures { result ≡ copy_of_publication link.now session (option_copied publication.entry) }
{
    match publication {
        Some(publication) => copy_published_by(&publication.by, link, session),
        None => None,
    }
}

/// The copy whose publication was confirmed to the session by this entry.
fn confirmed_copy(journal: &[Entry], entry: &Entry, link: &Text, session: u32) -> Option<u64>
    ensures { result ≡ confirmed_copy journal.now link.now session entry.now }
{
    match confirmed_to(entry, link, session) {
        Some(publication) => copy_of_publication(
            find_publication(journal, publication),
            link,
            session,
        ),
        None => None,
    }
}

/// Whether the copy's message was sent on, in the session.
fn is_sent(journal: &[Entry], link: &Text, session: u32, copy: u64) -> bool
    ensures { result ≡ has (sent_by link.now session) copy journal.now }
{
    journal
        .iter()
        .any(|entry| is_number(copy, sent_by(entry, link, session)))
}

/// Whether the target published from the copy, in the session.
fn is_published(journal: &[Entry], link: &Text, session: u32, copy: u64) -> bool
    ensures { result ≡ has (published_from link.now session) copy journal.now }
{
    journal.iter().any(|entry| is_number(copy, published_from(entry, link, session)))
}

/// Whether the publication was confirmed, in the session.
fn is_confirmed(journal: &[Entry], link: &Text, session: u32, publication: u64) -> bool
    ensures { result ≡ has (confirmed_to link.now session) publication journal.now }
{
    journal.iter().any(|entry| is_number(publication, confirmed_to(entry, link, session)))
}

/// Whether the link acknowledged the copy, in the session.
fn is_noted(journal: &[Entry], link: &Text, session: u32, copy: u64) -> bool
    ensures { result ≡ has (noted_by link.now session) copy journal.now }
{
    journal
        .iter()
        .any(|entry| is_number(copy, noted_by(entry, link, session)))
}

/// Whether the source removed the copy, in the session.
fn is_settled(journal: &[Entry], link: &Text, session: u32, copy: u64) -> bool
    ensures { result ≡ has (settled_for link.now session) copy journal.now }
{
    journal
        .iter()
        .any(|entry| is_number(copy, settled_for(entry, link, session)))
}

/// The copies taken and not removed, in the order of taking: what the session holds.
#[tactic(auto, unfolding(fed_journal::specs::Flight::flight_held))]
pub fn flight_held(
    alloc: Global,
    journal: &[Entry],
    link: &Text,
    session: u32,
) -> Result<Vec<u64>, AllocError>
    ensures { IfOk result (λ list. list.items ≡ flight_held journal.now link.now session) }
{
    journal
        .iter()
        .filter_map(|entry| taken_by(entry, link, session))
        .filter(|copy| !is_settled(journal, link, session, *copy))
        .collect(alloc)
}

/// The copies taken and not sent on, in the order of taking.
#[tactic(auto, unfolding(fed_journal::specs::Flight::flight_took))]
pub fn flight_took(
    alloc: Global,
    journal: &[Entry],
    link: &Text,
    session: u32,
) -> Result<Vec<u64>, AllocError>
    ensures { IfOk result (λ list. list.items ≡ flight_took journal.now link.now session) }
{
    journal
        .iter()
        .filter_map(|entry| taken_by(entry, link, session))
        .filter(|copy| !is_sent(journal, link, session, *copy))
        .collect(alloc)
}

/// The copies sent on and not published, in the order of sending.
#[tactic(auto, unfolding(fed_journal::specs::Flight::flight_sent))]
pub fn flight_sent(
    alloc: Global,
    journal: &[Entry],
    link: &Text,
    session: u32,
) -> Result<Vec<u64>, AllocError>
    ensures { IfOk result (λ list. list.items ≡ flight_sent journal.now link.now session) }
{
    journal
        .iter()
        .filter_map(|entry| sent_by(entry, link, session))
        .filter(|copy| !is_published(journal, link, session, *copy))
        .collect(alloc)
}

/// The publications that are not confirmed, in their order.
#[tactic(auto, unfolding(fed_journal::specs::Flight::flight_published))]
pub fn flight_published(
    alloc: Global,
    journal: &[Entry],
    link: &Text,
    session: u32,
) -> Result<Vec<u64>, AllocError>
    ensures { IfOk result (λ list. list.items ≡ flight_published journal.now link.now session) }
{
    journal
        .iter()
        .filter_map(|entry| published_by(entry, link, session))
        .filter(|publication| !is_confirmed(journal, link, session, *publication))
        .collect(alloc)
}

/// The copies whose publication is confirmed and that the link has not acknowledged, in the order of confirms.
#[tactic(auto, unfolding(fed_journal::specs::Flight::flight_confirmed))]
pub fn flight_confirmed(
    alloc: Global,
    journal: &[Entry],
    link: &Text,
    session: u32,
) -> Result<Vec<u64>, AllocError>
    ensures { IfOk result (λ list. list.items ≡ flight_confirmed journal.now link.now session) }
{
    journal
        .iter()
        .filter_map(|entry| confirmed_copy(journal, entry, link, session))
        .filter(|copy| !is_noted(journal, link, session, *copy))
        .collect(alloc)
}

/// The copies acknowledged and not removed, in the order of acknowledgements.
#[tactic(auto, unfolding(fed_journal::specs::Flight::flight_noted))]
pub fn flight_noted(
    alloc: Global,
    journal: &[Entry],
    link: &Text,
    session: u32,
) -> Result<Vec<u64>, AllocError>
    ensures { IfOk result (λ list. list.items ≡ flight_noted journal.now link.now session) }
{
    journal
        .iter()
        .filter_map(|entry| noted_by(entry, link, session))
        .filter(|copy| !is_settled(journal, link, session, *copy))
        .collect(alloc)
}
