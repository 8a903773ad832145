//! The queues of a virtual host under their names, with the messages of their copies.

ghost use Rattle.std.specs.Prelude.{◌≡◌, ◌==◌, ◌+◌, ◌<◌, ◌≤◌, ◌^◌, ◌&&◌, [], ◌∷◌, ◌++◌, None, if◌then◌else◌, false, is_some, not, map, filter, length, take, IfSome, IfNone, IfOk, OnOk, OnErr, string_bytes};
ghost use Rattle.std.specs.List.{list_any};
ghost use Rattle.std.specs.Option.{option_copied, option_map, option_map_or};
ghost use Rattle.std.specs.Str.{bytes_eq};
ghost use Rattle.indexmap.specs.IndexMap.{values};
ghost use Rattle.broker_store.specs.Mail.{empty, entered, given, left, purged, swept, is_held_at as is_held_by_client};
ghost use Rattle.broker_store.specs.Messages.{IsCounted, AreMore, Remains, shown};
ghost use Rattle.broker_store.specs.Queues.{all_entered, all_left_again, named, bare_queue, emptied, queue_of, changed, with_mail, first_in, ready_in, ready_count, AreAbove, all_changed, is_held_in, others, owned_names, StandInTurn};

use crate::mailbox::{CopyMessage, Mailbox, Sweep};
use crate::messages::Messages;
use crate::standing::StandingQueue;
use amqp_props::{Message, Text};
use indexmap::IndexMap;
use queue_core::{CopyNo, Holder};
use std::alloc::{AllocError, Global};
use std::marker::Model;

/// The queues of a virtual host in the order of making, and the messages of their copies.
#[derive(Drop)]
pub struct Queues {
    table: IndexMap<String, StandingQueue<Mailbox>>,
    messages: Messages,
}

impl Model for Queues {
    ghost use Rattle.std.specs.Prelude.{List};
    ghost use Rattle.std.specs.Coded.{codes};
    ghost use Rattle.amqp_props.specs.declared.message.Message.{Message};
    ghost use Rattle.amqp_props.specs.contracts.message.Message as message;
    ghost use Rattle.broker_store.specs.Queues.{Named, named};
    ghost use Rattle.broker_store.specs.Messages.{queues_with, message_at, IsCounted};

    ghost Value = { List (Named Message) };

    ghost coded = { Prim.hlevel (codes, message.the_row.coded) };

    ghost view = { λ q. queues_with (message_at q.messages) (named q.table.entries) };

    ghost invariant = { λ q. IsCounted q.messages (named q.table.entries) };
}

impl Queues {
    /// No queues.
    pub fn new(alloc: Global) -> Self
        ensures { result ≡ [] }
    {
        Queues {
            table: IndexMap::new(alloc),
            messages: Messages::new(alloc),
        }
    }

    /// The queue of that name, whose copies have the keys of their messages; None exactly where there is none.
    pub fn find(&self, name: &str) -> Option<&StandingQueue<Mailbox>>
        ensures { option_map bare_queue (option_copied result) ≡ option_map bare_queue (queue_of name.now self.now) }
    {
        self.table.get(name)
    }

    /// The copy that the queue would hand out now, and its message; None exactly where no copy is ready there.
    pub fn first(&self, name: &str) -> Option<(&CopyMessage<usize>, &Message)>
        ensures first { option_map shown result ≡ first_in name.now self.now }
        ensures ready { option_map (λ first. first.0.now.number) result ≡ ready_in name.now self.now }
    {
        let copy = self.table.get(name)?.mail.first()?;
        match self.messages.get(copy.message) {
            Some(message) => Some((copy, message)),
            None => None,
        }
    }

    /// Adds a queue without copies as the last.
    ///
    /// # Errors
    ///
    /// For want of memory; the queues are then as they were.
    pub fn add(&mut self, name: String, queue: StandingQueue<Mailbox>) -> Result<(), AllocError>
        requires absent { queue_of (string_bytes name) self.old ≡ None }
        requires bare { queue.mail ≡ empty }
        ensures ok { OnOk result (self.new ≡ self.old ++ (string_bytes name, emptied queue) ∷ []) }
        ensures err { OnErr result (self.new ≡ self.old) }
    {
        self.table.insert(name, queue)?;
        Ok(())
    }

    /// Removes the queue of that name.
    pub fn remove(&mut self, name: &str)
        ensures { self.new ≡ others name.now self.old }
    {
        free_named(&mut self.messages, &self.table, name);
        keep_others(&mut self.table, name);
    }

    /// The names of the queues that the connection has to itself.
    ///
    /// # Errors
    ///
    /// For want of memory.
    pub fn owned(&self, alloc: Global, connection: u32) -> Result<Vec<Text>, AllocError>
        ensures names { IfOk result (λ names. names.items ≡ owned_names connection self.now) }
        ensures standing { IfOk result (λ names. StandInTurn names.items self.now) }
    {
        owned_among(alloc, &self.table, connection)
    }

    /// Lets copies of a message enter the queues, numbered in their order.
    ///
    /// # Errors
    ///
    /// For want of memory; the queues are then as they were.
    pub fn enter_all(
        &mut self,
        names: &[Text],
        number: CopyNo,
        message: Message,
    ) -> Result<(), AllocError>
        requires above { AreAbove number self.old }
        requires fits { number + length names.now < 2 ^ 64 }
        ensures ok { OnOk result (self.new ≡ all_entered names.now number message self.old) }
        ensures err { OnErr result (self.new ≡ self.old) }
    {
        self.messages.reserve()?;
        let key = self.messages.next_key();
        let copies = enter_each(&mut self.table, names, number, key)?;
        self.messages.keep(message, copies);
        Ok(())
    }

    /// Hands out the first ready copy of the queue, to the holder or for good; None exactly where none is ready.
    pub fn hand_out(&mut self, name: &str, holder: Holder, no_ack: bool) -> Option<CopyNo>
        ensures first { result ≡ ready_in name.now self.old }
        ensures given { IfSome result (λ number. self.new ≡ changed name.now (with_mail (given number holder no_ack)) self.old) }
        ensures none { IfNone result (self.new ≡ self.old) }
    {
        match self.table.get_index_of(name) {
            Some(place) => {
                self.table[place]
                    .mail
                    .hand_out(&mut self.messages, holder, no_ack)
            }
            None => None,
        }
    }

    /// Removes each ready copy of the queue, and gives how many there were.
    pub fn purge(&mut self, name: &str) -> u64
        ensures count { result ≡ ready_count name.now self.old }
        ensures purged { self.new ≡ changed name.now (with_mail purged) self.old }
    {
        match self.table.get_index_of(name) {
            Some(place) => self.table[place].mail.purge(&mut self.messages),
            None => 0,
        }
    }

    /// Whether a consumer of the client holds the copy in a queue.
    pub fn is_held_at(&self, client: u32, number: CopyNo) -> bool
        ensures { result ≡ is_held_in client number self.now }
    {
        is_held_among(&self.table, client, number)
    }

    /// Does what is done to every queue.
    pub fn sweep(&mut self, sweep: Sweep)
        ensures { self.new ≡ all_changed (with_mail (swept sweep)) self.old }
    {
        sweep_table(&mut self.table, &mut self.messages, sweep);
    }
}

/// Whether a consumer of the client holds the copy in a queue.
fn is_held_among(
    table: &IndexMap<String, StandingQueue<Mailbox>>,
    client: u32,
    number: CopyNo,
) -> bool
    ensures { result ≡ list_any (λ queue. is_held_by_client client number queue.mail) (values table.now) }
{
    table
        .values()
        .any(|queue| queue.mail.is_held_at(client, number))
}

/// Does what is done to every queue.
fn sweep_table(
    table: &mut IndexMap<String, StandingQueue<Mailbox>>,
    messages: &mut Messages,
    sweep: Sweep,
)
    requires { IsCounted messages.old (named table.old.entries) }
    ensures swept { table.new.entries ≡ map (λ e. (e.0, with_mail (swept sweep) e.1)) table.old.entries }
    ensures remains { Remains messages.old messages.new (named table.new.entries) }
{
    for place in 0..table.len() {
        table[place].mail.sweep(messages, sweep);
    }
}

/// Lets a copy with its message's key enter the queue, if there is one of that name; how many entered.
///
/// # Errors
///
/// For want of memory; the queues are then as they were.
fn enter(
    table: &mut IndexMap<String, StandingQueue<Mailbox>>,
    name: &str,
    number: CopyNo,
    key: usize,
) -> Result<usize, AllocError>
    requires { AreAbove number (named table.old.entries) }
    ensures ok { OnOk result (named table.new.entries ≡ changed name.now (with_mail (entered number key)) (named table.old.entries)) }
    ensures count { IfOk result (λ copies. copies ≡ (if is_some (queue_of name.now (named table.old.entries)) then 1 else 0)) }
    ensures err { OnErr result (named table.new.entries ≡ named table.old.entries) }
{
    match table.get_index_of(name) {
        Some(place) => {
            table[place].mail.enter(number, key)?;
            Ok(1)
        }
        None => Ok(0),
    }
}

/// Removes a copy from the queue, if there is one of that name, before its message is kept.
fn withdraw(table: &mut IndexMap<String, StandingQueue<Mailbox>>, name: &str, number: CopyNo)
    ensures { named table.new.entries ≡ changed name.now (with_mail (left number)) (named table.old.entries) }
{
    match table.get_index_of(name) {
        Some(place) => {
            table[place].mail.withdraw(number);
        }
        None => {}
    }
}

/// Lets a copy with their message's key enter each of the queues, numbered in their order; how many entered.
///
/// # Errors
///
/// For want of memory; the queues are then as they were.
fn enter_each(
    table: &mut IndexMap<String, StandingQueue<Mailbox>>,
    names: &[Text],
    number: CopyNo,
    key: usize,
) -> Result<usize, AllocError>
    requires above { AreAbove number (named table.old.entries) }
    requires fits { number + length names.now < 2 ^ 64 }
    ensures ok { OnOk result (named table.new.entries ≡ all_entered names.now number key (named table.old.entries)) }
    ensures count { IfOk result (λ copies. AreMore key copies (named table.old.entries) (named table.new.entries)) }
    ensures few { IfOk result (λ copies. copies ≤ length names.now) }
    ensures err { OnErr result (named table.new.entries ≡ named table.old.entries) }
{
    let mut copies = 0;
    for place in 0..names.len() {
        match enter(table, names[place].as_str(), number + place as u64, key) {
            Ok(entered) => copies += entered,
            Err(e) => {
                withdraw_each(table, names, number, place);
                return Err(e);
            }
        }
    }
    Ok(copies)
}

/// Removes the copies from the first so many of the queues, numbered in their order, before their message is kept.
fn withdraw_each(
    table: &mut IndexMap<String, StandingQueue<Mailbox>>,
    names: &[Text],
    number: CopyNo,
    count: usize,
)
    requires within { count ≤ length names.now }
    requires fits { number + length names.now < 2 ^ 64 }
    ensures { named table.new.entries ≡ all_left_again (take count names.now) number (named table.old.entries) }
{
    let mut left = count;
    while left > 0 {
        left -= 1;
        withdraw(table, names[left].as_str(), number + left as u64);
    }
}

/// The copies of the queue of that name are gone.
fn free_named(messages: &mut Messages, table: &IndexMap<String, StandingQueue<Mailbox>>, name: &str)
    requires { IsCounted messages.old (named table.now.entries) }
    ensures { Remains messages.old messages.new (others name.now (named table.now.entries)) }
{
    for (key, queue) in table.iter() {
        if key.as_str() == name {
            queue.mail.free(messages);
        }
    }
}

/// Removes the queue of that name.
fn keep_others(table: &mut IndexMap<String, StandingQueue<Mailbox>>, name: &str)
    ensures { table.new.entries ≡ filter (λ e. not (bytes_eq (string_bytes e.0) name.now)) table.old.entries }
{
    table.retain(|key, _| key.as_str() != name);
}

/// Whether the connection is the owner.
fn is_owner(owner: Option<u32>, connection: u32) -> bool
    ensures { result ≡ option_map_or (λ own. own == connection) owner false }
{
    match owner {
        Some(own) => own == connection,
        None => false,
    }
}

/// Whether the connection has the queue to itself.
fn is_owned(queue: &StandingQueue<Mailbox>, connection: u32) -> bool
    ensures { result ≡ (queue.now.options.exclusive && option_map_or (λ own. own == connection) queue.now.owner false) }
{
    queue.options.exclusive && is_owner(queue.owner, connection)
}

/// Adds a name as the last.
fn add_name(alloc: Global, names: &mut Vec<Text>, name: &str) -> Result<(), AllocError>
    ensures { OnOk result (names.new.items ≡ names.old.items ++ name.now ∷ []) }
{
    let own = Text::from_str(alloc, name)?;
    names.push(own)?;
    Ok(())
}

/// The names of the queues that the connection has to itself.
fn owned_among(
    alloc: Global,
    table: &IndexMap<String, StandingQueue<Mailbox>>,
    connection: u32,
) -> Result<Vec<Text>, AllocError>
    ensures names { IfOk result (λ names. names.items ≡ owned_names connection (named table.now.entries)) }
    ensures standing { IfOk result (λ names. StandInTurn names.items (named table.now.entries)) }
{
    let mut names = Vec::new(alloc);
    for (name, queue) in table.iter() {
        if is_owned(queue, connection) {
            add_name(alloc, &mut names, name.as_str())?;
        }
    }
    Ok(names)
}
