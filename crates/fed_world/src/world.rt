//! The state of a run: its journal, and the brokers that follow it.
ghost use Rattle.std.specs.Prelude.{◌≡◌, Some, None, IfErr, IfSome, ◌+◌, ◌<◌, ◌≤◌, ◌++◌, ◌*◌, ◌^◌, ◌≢◌, Ok, Err, IfOk, OnOk, OnErr, All, IsTrue, length, vec_len};
ghost use Rattle.broker_view.specs.Hosts.{AreViews};
ghost use Rattle.broker_view.specs.Suits.{EachSuits};
ghost use Rattle.fed_journal.specs.Copies.{IsFitting, publication_count, copy_count};
ghost use Rattle.fed_journal.specs.Events.{IsWritable};
ghost use Rattle.fed_journal.specs.Sizes.{IsSized, entry_bytes, byte_count};
ghost use Rattle.fed_journal.specs.Limits.{most_entries, most_bytes};
ghost use Rattle.fed_world.specs.RowOf.{row_of};
ghost use Rattle.fed_world.specs.Step.{next, is_declaring, is_consuming, is_answering, after, outcome_of};
ghost use Rattle.fed_world.specs.Limits.{limit_of, limit_passed};
ghost use Rattle.fed_world.specs.Run.{begin, begun, IsReached};
ghost use Rattle.fed_world.specs.Sound.{IsSound};
ghost use Rattle.fed_world.specs.Fits.{EachFits, RowFits, RowSuits};
ghost use Rattle.fed_world.specs.Followed.{IsFollowed};
ghost use Rattle.fed_world.specs.Kept.{LeavesStored, RemovesMoved, RemovesHeld};

use crate::limits::passes_links;
use crate::reason::{Outcome, StepFault};
use crate::row::{Row, nothing};
use crate::rows::accept::accept_row;
use crate::rows::answer::{ack_row, reject_row, requeue_row};
use crate::rows::bind::{bind_row, unbind_row};
use crate::rows::close::close_row;
use crate::rows::confirm::confirm_row;
use crate::rows::consume::{cancel_row, consume_row};
use crate::rows::declare::{declare_exchange_row, declare_row};
use crate::rows::deliver::deliver_row;
use crate::rows::flush::flush_row;
use crate::rows::get::get_row;
use crate::rows::note::note_row;
use crate::rows::open::open_row;
use crate::rows::publish::publish_row;
use crate::rows::purge::purge_row;
use crate::rows::send::send_row;
use crate::rows::set_shovel::set_shovel_row;
use crate::rows::settle::settle_row;
use crate::rows::take::take_row;
use amqp_props::Text;
use broker_view::brokers::Brokers;
use broker_view::run::Run;
use fed_journal::entry::Entry;
use fed_journal::event::Event;
use fed_journal::journal::{Journal, JournalFault, MAX_ENTRIES, Numbers};
use fed_journal::message::message_bytes;
use std::alloc::{AllocError, Global};
use std::marker::Model;

/// A run so far, seen as the entries of its journal.
///
/// Where memory runs out while the brokers follow an event, the event isn't appended, and the brokers are given up:
/// the journal stays as it was, and every later step answers `StepFault::Memory`.
#[derive(Drop)]
pub struct World {
    alloc: Global,
    journal: Journal,
    /// The brokers as the journal leads to them; None once they were given up.
    brokers: Option<Brokers>,
}

impl Model for World {
    ghost use Rattle.std.specs.Prelude.{List};
    ghost use Rattle.fed_journal.specs.declared.entry.Entry.{Entry};
    ghost use Rattle.fed_world.specs.Sound.{IsSound};
    ghost use Rattle.fed_world.specs.Run.{IsReached};
    ghost use Rattle.fed_world.specs.Followed.{IsFollowed};
    ghost use Rattle.fed_journal.specs.contracts.entry.Entry as entry;
    ghost use Rattle.std.specs.Coded.{codes};

    ghost Value = { List Entry };

    ghost coded = { Prim.hlevel (codes, entry.the_row.coded) };

    ghost view = { λ w. w.journal.entries };

    ghost invariant = { λ w. IsSound w.journal.entries × IsReached w.journal.entries × IsFollowed w.brokers w.journal.entries };
}

/// The row of an event that declares or binds.
fn declaring_row(alloc: Global, run: &Run<'_>, event: &Event) -> Result<Row, AllocError>
    ensures { IsTrue (is_declaring event.now) → IfOk result (λ row. row_of row ≡ next run.now event.now) }
{
    match event {
        Event::DeclareQueue {
            place,
            client,
            queue,
            options,
        } => declare_row(alloc, run, place, *client, queue, *options),
        Event::DeclareExchange {
            place,
            exchange,
            shape,
            ..
        } => declare_exchange_row(alloc, run, place, exchange, *shape),
        Event::Bind {
            place,
            client,
            binding,
        } => bind_row(alloc, run, place, *client, binding),
        Event::Unbind {
            place,
            client,
            binding,
        } => unbind_row(alloc, run, place, *client, binding),
        _ => Ok(nothing(alloc)),
    }
}

/// The row of an event by which a client begins or ends to consume, is handed copies, empties a queue or goes.
fn consuming_row(alloc: Global, run: &Run<'_>, event: &Event) -> Result<Row, AllocError>
    ensures { IsTrue (is_consuming event.now) → IfOk result (λ row. row_of row ≡ next run.now event.now) }
{
    match event {
        Event::Consume {
            place,
            client,
            queue,
            tag,
            no_ack,
            prefetch,
        } => consume_row(alloc, run, place, *client, queue, tag, *no_ack, *prefetch),
        Event::Cancel { place, client, tag } => cancel_row(alloc, run, place, *client, tag),
        Event::Deliver { place, client, tag } => deliver_row(alloc, run, place, *client, tag),
        Event::Get {
            place,
            client,
            queue,
            no_ack,
        } => get_row(alloc, run, place, *client, queue, *no_ack),
        Event::Purge {
            place,
            client,
            queue,
        } => purge_row(alloc, run, place, *client, queue),
        Event::Close { place, client } => close_row(alloc, run, place, *client),
        _ => Ok(nothing(alloc)),
    }
}

/// The row of an event by which a client answers for a copy that it holds.
fn answering_row(alloc: Global, run: &Run<'_>, event: &Event) -> Result<Row, AllocError>
    ensures { IsTrue (is_answering event.now) → IfOk result (λ row. row_of row ≡ next run.now event.now) }
{
    match event {
        Event::Ack {
            place,
            client,
            copy,
        } => ack_row(alloc, run, place, *client, *copy),
        Event::Reject {
            place,
            client,
            copy,
        } => reject_row(alloc, run, place, *client, *copy),
        Event::Requeue {
            place,
            client,
            copy,
        } => requeue_row(alloc, run, place, *client, *copy),
        _ => Ok(nothing(alloc)),
    }
}

/// The row of an event: what it appends, or why it doesn't happen now.
fn next(alloc: Global, run: &Run<'_>, numbers: Numbers, event: &Event) -> Result<Row, AllocError>
    requires sound { IsSound run.now }
    requires reached { IsReached run.now }
    requires publication { numbers.publication ≡ publication_count run.now + 1 }
    requires copy { numbers.copy ≡ copy_count run.now + 1 }
    ensures { IfOk result (λ row. row_of row ≡ next run.now event.now) }
{
    match event {
        Event::DeclareQueue { .. }
        | Event::DeclareExchange { .. }
        | Event::Bind { .. }
        | Event::Unbind { .. } => declaring_row(alloc, run, event),
        Event::Publish {
            place,
            client,
            message,
        } => publish_row(alloc, run, place, *client, message, numbers),
        Event::Ack { .. } | Event::Reject { .. } | Event::Requeue { .. } => {
            answering_row(alloc, run, event)
        }
        Event::Flush { broker } => flush_row(alloc, run, broker),
        Event::SetShovel {
            place,
            name,
            shovel,
        } => set_shovel_row(alloc, run, place, name, shovel),
        Event::Open { link } => open_row(alloc, run, link),
        Event::Take { link } => take_row(alloc, run, link),
        Event::Send { link } => send_row(alloc, run, link),
        Event::Accept { link } => accept_row(alloc, run, link, numbers),
        Event::Confirm { link } => confirm_row(alloc, run, link),
        Event::Note { link } => note_row(alloc, run, link),
        Event::Settle { link } => settle_row(alloc, run, link),
        Event::Show => Ok(nothing(alloc)),
        _ => consuming_row(alloc, run, event),
    }
}

/// How many octets of messages the entries have.
#[tactic(auto, unfolding(fed_journal::specs::Sizes::byte_count))]
fn bytes_of(entries: &[Entry]) -> usize
    requires sized { All IsSized entries.now }
    requires few { length entries.now ≤ most_entries }
    ensures { result ≡ byte_count entries.now }
{
    let mut bytes = 0;
    for entry in entries {
        bytes += bytes_of_entry(entry);
    }
    bytes
}

/// How many octets the entry's message has, if it is a publication.
fn bytes_of_entry(entry: &Entry) -> usize
    requires { IsSized entry.now }
    ensures exact { result ≡ entry_bytes entry.now }
    ensures most { result ≤ 2 ^ 34 }
{
    match entry {
        Entry::Published(publication) => message_bytes(&publication.message),
        _ => 0,
    }
}

/// Appends entries for which there is room. Takes no memory.
fn append(journal: &mut Journal, entries: Vec<Entry>)
    requires sized { All IsSized entries.items }
    requires room { length entries.items ≤ journal.old.room }
    requires bytes { byte_count journal.old.entries + byte_count entries.items ≤ most_bytes }
    ensures { journal.new.entries ≡ journal.old.entries ++ entries.items }
{
    for entry in entries {
        journal.push(entry);
    }
}

/// The row of an event, of which each entry fits and suits the journal.
fn fitting_row(
    alloc: Global,
    journal: &Journal,
    brokers: &Brokers,
    event: &Event,
) -> Result<Row, AllocError>
    requires sound { IsSound journal.now.entries }
    requires reached { IsReached journal.now.entries }
    requires views { AreViews journal.now.entries brokers.now.hosts.items }
    requires writable { IsWritable event.now }
    ensures row { IfOk result (λ row. row_of row ≡ next journal.now.entries event.now) }
    ensures fits { IfOk result (λ row. RowFits journal.now.entries (row_of row)) }
    ensures suits { IfOk result (λ row. RowSuits journal.now.entries (row_of row)) }
{
    let run = brokers.run(journal.entries());
    let row = next(alloc, &run, journal.numbers(), event)?;
    Ok(row)
}

/// Makes room for entries that fit. Else the first limit that they would pass, or want of memory.
fn make_room(journal: &mut Journal, entries: &[Entry]) -> Result<(), StepFault>
    requires sound { IsSound journal.old.entries }
    requires fits { EachFits journal.old.entries entries.now }
    ensures same { journal.new.entries ≡ journal.old.entries }
    ensures room { OnOk result (length entries.now ≤ journal.new.room) }
    ensures limit { IfErr result (λ fault. fault ≢ StepFault.Memory → limit_of journal.old.entries entries.now ≡ Some fault) }
    ensures within { OnOk result (limit_of journal.old.entries entries.now ≡ None) }
{
    if passes_links(journal.entries(), entries) {
        return Err(StepFault::Links);
    }
    if entries.len() > MAX_ENTRIES {
        return Err(StepFault::Entries);
    }
    match journal.reserve(entries.len(), bytes_of(entries)) {
        Ok(()) => Ok(()),
        Err(JournalFault::Entries) => Err(StepFault::Entries),
        Err(JournalFault::Bytes) => Err(StepFault::Bytes),
        Err(JournalFault::Memory) => Err(StepFault::Memory),
    }
}

/// Lets the brokers do what the entries record. Where memory is wanting they are given up.
fn follow(
    alloc: Global,
    brokers: &mut Option<Brokers>,
    before: &[Entry],
    entries: &[Entry],
) -> Result<(), AllocError>
    requires followed { IsFollowed brokers.old before.now }
    requires suits { EachSuits before.now entries.now }
    requires fits { All IsFitting entries.now }
    ensures ok { OnOk result (IsFollowed brokers.new (before.now ++ entries.now)) }
    ensures err { OnErr result (brokers.new ≡ None) }
{
    let Some(mut following) = brokers.take() else {
        return Err(AllocError);
    };
    following.record(alloc, before, entries)?;
    *brokers = Some(following);
    Ok(())
}

/// Appends entries that fit and suit the journal, and answers how many. Else the first limit that they would pass,
/// or want of memory.
fn extend(
    alloc: Global,
    journal: &mut Journal,
    brokers: &mut Option<Brokers>,
    entries: Vec<Entry>,
) -> Result<usize, StepFault>
    requires sound { IsSound journal.old.entries }
    requires followed { IsFollowed brokers.old journal.old.entries }
    requires fits { EachFits journal.old.entries entries.items }
    requires suits { EachSuits journal.old.entries entries.items }
    ensures ok { OnOk result (journal.new.entries ≡ journal.old.entries ++ entries.items) }
    ensures count { IfOk result (λ count. count ≡ length entries.items) }
    ensures sound { IsSound journal.new.entries }
    ensures followed { IsFollowed brokers.new journal.new.entries }
    ensures err { OnErr result (journal.new.entries ≡ journal.old.entries) }
    ensures limit { IfErr result (λ fault. fault ≢ StepFault.Memory → limit_of journal.old.entries entries.items ≡ Some fault) }
    ensures within { OnOk result (limit_of journal.old.entries entries.items ≡ None) }
{
    make_room(journal, entries.as_slice())?;
    if follow(alloc, brokers, journal.entries(), entries.as_slice()).is_err() {
        return Err(StepFault::Memory);
    }
    let count = entries.len();
    append(journal, entries);
    Ok(count)
}

/// The entry of a bare broker.
fn begun(alloc: Global, broker: &Text) -> Result<Entry, AllocError>
    ensures { IfOk result (λ entry. entry ≡ begun broker.now) }
{
    Ok(Entry::Begun {
        broker: broker.clone()?,
        cluster: broker.clone()?,
        kept: Text::from_str(alloc, "{}")?,
    })
}

/// The entries of bare brokers.
fn begin_entries(alloc: Global, brokers: &[Text]) -> Result<Vec<Entry>, AllocError>
    ensures { IfOk result (λ entries. entries.items ≡ begin brokers.now) }
{
    let mut entries = Vec::new(alloc);
    for broker in brokers {
        entries.push(begun(alloc, broker)?)?;
    }
    Ok(entries)
}

impl World {
    /// The world before the first event of a run of these bare brokers. Only memory can be wanting.
    pub fn begin(alloc: Global, brokers: &[Text]) -> Result<World, AllocError>
        requires { length brokers.now ≤ 64 }
        ensures { IfOk result (λ world. world ≡ begin brokers.now) }
    {
        let entries = begin_entries(alloc, brokers)?;
        let mut journal = Journal::new(alloc);
        let mut brokers = Some(Brokers::new(alloc));
        match extend(alloc, &mut journal, &mut brokers, entries) {
            Ok(_) => Ok(World {
                alloc,
                journal,
                brokers,
            }),
            Err(_) => Err(AllocError),
        }
    }

    /// Does one event, as its rule says: either its entries are appended, or nothing changes. Links, Entries or
    /// Bytes, the first that applies, where the run would pass that limit.
    pub fn step(&mut self, event: &Event) -> Result<Outcome, StepFault>
        requires { IsWritable event.now }
        ensures outcome { IfOk result (λ outcome. outcome ≡ outcome_of (next self.old event.now)) }
        ensures journal { OnOk result (self.new ≡ after self.old (next self.old event.now)) }
        ensures err { OnErr result (self.new ≡ self.old) }

        ensures limit { IfErr result (λ fault. fault ≢ StepFault.Memory → limit_passed self.old (next self.old event.now) ≡ Some fault) }
        ensures within { OnOk result (limit_passed self.old (next self.old event.now) ≡ None) }

        ensures stored { LeavesStored self.old event.now self.new }
        ensures moved { RemovesMoved self.new }
        ensures held { RemovesHeld self.new }
    {
        let Some(brokers) = &self.brokers else {
            return Err(StepFault::Memory);
        };
        match fitting_row(self.alloc, &self.journal, brokers, event) {
            Err(_) => Err(StepFault::Memory),
            Ok(Err(reason)) => Ok(Outcome::NotNow(reason)),
            Ok(Ok(entries)) => {
                match extend(self.alloc, &mut self.journal, &mut self.brokers, entries) {
                    Ok(count) => Ok(Outcome::Done(count)),
                    Err(fault) => Err(fault),
                }
            }
        }
    }

    /// The run so far as the brokers hold it; None once they were given up for want of memory.
    pub fn run(&self) -> Option<Run<'_>>
        ensures { IfSome result (λ run. run ≡ self.now) }
    {
        match &self.brokers {
            Some(brokers) => Some(brokers.run(self.journal.entries())),
            None => None,
        }
    }

    /// The journal so far.
    pub fn journal(&self) -> &Journal
        ensures entries { result.now.entries ≡ self.now }
        ensures sound { IsSound self.now }
        ensures moved { RemovesMoved self.now }
        ensures held { RemovesHeld self.now }
    {
        &self.journal
    }
}
