//! The lines of queues.
ghost use Rattle.std.specs.Prelude.{◌≡◌, ◌++◌, All, IfOk, OnOk, flat_map};
ghost use Rattle.fed_journal.specs.Copies.{IsFitting};
ghost use Rattle.fed_status.specs.Queues.{held_count, queued, copy_word, mark_if, queue_line, queue_lines};

use amqp_props::Text;
use fed_journal::entry::Entry;
use fed_journal::page::Page;
use fed_journal::place::Place;
use journal_scan::configuration::queues_of;
use journal_scan::copies::{entered_by, is_gone, is_stored};
use journal_scan::holds::{entered, is_held, ready_count};
use std::alloc::{AllocError, Global};

/// How many copies of the queue are handed out and not acknowledged.
#[tactic(auto, unfolding(crate::specs::Queues::held_count))]
fn held_count(
    alloc: Global,
    journal: &[Entry],
    place: &Place,
    queue: &Text,
) -> Result<usize, AllocError>
    requires { All IsFitting journal.now }
    ensures { IfOk result (λ count. count ≡ held_count journal.now place.now queue.now) }
{
    let copies = entered(alloc, journal, place, queue)?;
    Ok(
        copies
            .iter()
            .filter(|copy| is_held(journal, **copy))
            .count(),
    )
}

/// The copies that are in the queue, by rising number.
#[tactic(auto, unfolding(crate::specs::Queues::queued, fed_journal::specs::Copies::entered))]
fn queued(
    alloc: Global,
    journal: &[Entry],
    place: &Place,
    queue: &Text,
) -> Result<Vec<u64>, AllocError>
    requires { All IsFitting journal.now }
    ensures { IfOk result (λ copies. copies.items ≡ queued journal.now place.now queue.now) }
{
    journal
        .iter()
        .filter_map(|entry| entered_by(entry, place, queue))
        .filter(|copy| !is_gone(journal, *copy))
        .collect(alloc)
}

/// Appends the mark where it applies.
fn push_mark(applies: bool, mark: &str, page: &mut Page) -> Result<(), AllocError>
    ensures { OnOk result (page.new ≡ page.old ++ mark_if applies mark.now) }
{
    if applies {
        return page.push(mark);
    }
    Ok(())
}

/// Appends a copy's number and marks.
#[tactic(auto, unfolding(crate::specs::Queues::copy_word))]
fn push_copy(journal: &[Entry], copy: u64, page: &mut Page) -> Result<(), AllocError>
    ensures { OnOk result (page.new ≡ page.old ++ copy_word journal.now copy) }
{
    page.push(" ")?;
    page.push_number(copy)?;
    push_mark(is_stored(journal, copy), "+", page)?;
    push_mark(is_held(journal, copy), "!", page)
}

/// Appends the copies' numbers and marks.
fn push_copies(journal: &[Entry], copies: &[u64], page: &mut Page) -> Result<(), AllocError>
    ensures { OnOk result (page.new ≡ page.old ++ flat_map (copy_word journal.now) copies.now) }
{
    for copy in copies {
        push_copy(journal, *copy, page)?;
    }
    Ok(())
}

/// Appends the line of a queue.
#[tactic(auto, unfolding(crate::specs::Queues::queue_line))]
fn push_queue_line(
    alloc: Global,
    journal: &[Entry],
    place: &Place,
    queue: &Text,
    page: &mut Page,
) -> Result<(), AllocError>
    requires { All IsFitting journal.now }
    ensures { OnOk result (page.new ≡ page.old ++ queue_line journal.now place.now queue.now) }
{
    let ready = ready_count(alloc, journal, place, queue)?;
    let held = held_count(alloc, journal, place, queue)?;
    let copies = queued(alloc, journal, place, queue)?;
    page.push("queue ")?;
    page.push_place(place)?;
    page.push(" ")?;
    page.push_word(queue.as_str())?;
    page.push(" ")?;
    page.push_number(ready as u64)?;
    page.push(" ")?;
    page.push_number(held as u64)?;
    push_copies(journal, copies.as_slice(), page)?;
    page.push("\n")
}

/// Appends the lines of these queues of the place.
fn push_lines_of(
    alloc: Global,
    journal: &[Entry],
    place: &Place,
    queues: &[Text],
    page: &mut Page,
) -> Result<(), AllocError>
    requires { All IsFitting journal.now }
    ensures { OnOk result (page.new ≡ page.old ++ flat_map (queue_line journal.now place.now) queues.now) }
{
    for queue in queues {
        push_queue_line(alloc, journal, place, queue, page)?;
    }
    Ok(())
}

/// Appends the lines of the place's queues, in the order of their making.
#[tactic(auto, unfolding(crate::specs::Queues::queue_lines))]
pub fn push_queue_lines(
    alloc: Global,
    journal: &[Entry],
    place: &Place,
    page: &mut Page,
) -> Result<(), AllocError>
    requires { All IsFitting journal.now }
    ensures { OnOk result (page.new ≡ page.old ++ queue_lines journal.now place.now) }
{
    let queues = queues_of(alloc, journal, place)?;
    push_lines_of(alloc, journal, place, queues.as_slice(), page)
}
