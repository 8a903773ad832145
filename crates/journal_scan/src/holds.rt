//! Which copies are handed out, and which are ready.
ghost use Rattle.std.specs.Prelude.{◌≡◌, All, IfOk, is_some};
ghost use Rattle.fed_journal.specs.Copies.{IsFitting, entered};
ghost use Rattle.fed_journal.specs.Holds.{is_held, is_ready, ready_count, holder_in};
ghost use Rattle.journal_scan.specs.View.{standing_of};

use crate::copies::entered_by;
use crate::standing::{CopyState, is_waiting, standing};
use amqp_props::Text;
use fed_journal::entry::Entry;
use fed_journal::place::Place;
use std::alloc::{AllocError, Global};

/// Whether it is a copy that is handed out and unacknowledged.
fn has_holder(standing: CopyState<'_>) -> bool
    ensures { result ≡ is_some (holder_in (standing_of standing.entry)) }
{
    matches!(standing, CopyState::Held(_))
}

/// Whether the copy is in its queue, and held.
pub fn is_held(journal: &[Entry], copy: u64) -> bool
    ensures { result ≡ is_held journal.now copy }
{
    has_holder(standing(journal, copy))
}

/// Whether the copy is in its queue, and not held.
pub(crate) fn is_ready(journal: &[Entry], copy: u64) -> bool
    ensures { result ≡ is_ready journal.now copy }
{
    is_waiting(standing(journal, copy))
}

/// Every copy that ever entered the queue, by rising number.
#[tactic(auto, unfolding(fed_journal::specs::Copies::entered))]
pub fn entered(
    alloc: Global,
    journal: &[Entry],
    place: &Place,
    queue: &Text,
) -> Result<Vec<u64>, AllocError>
    requires { All IsFitting journal.now }
    ensures { IfOk result (λ copies. copies.items ≡ entered journal.now place.now queue.now) }
{
    journal
        .iter()
        .filter_map(|entry| entered_by(entry, place, queue))
        .collect(alloc)
}

/// How many copies of the queue are ready.
#[tactic(auto, unfolding(fed_journal::specs::Holds::ready_count))]
pub fn ready_count(
    alloc: Global,
    journal: &[Entry],
    place: &Place,
    queue: &Text,
) -> Result<usize, AllocError>
    requires { All IsFitting journal.now }
    ensures { IfOk result (λ count. count ≡ ready_count journal.now place.now queue.now) }
{
    let copies = entered(alloc, journal, place, queue)?;
    Ok(
        copies
            .iter()
            .filter(|copy| is_ready(journal, **copy))
            .count(),
    )
}
