//! The copies of a queue with their messages.

ghost use Rattle.std.specs.Prelude.{◌≡◌, ◌==◌, ◌<◌, [], ◌∷◌, ◌++◌, IfSome, IfNone, OnOk, OnErr, not, is_some, map, filter, count_by, length, vec_len, vec_capacity};
ghost use Rattle.std.specs.Option.{option_copied, option_map};
ghost use Rattle.queue_core.specs.Rows.{IsAbove, first_ready, is_ready, is_held_by, has, has_held, holder_of};
ghost use Rattle.broker_store.specs.Mail.{empty, entered, fresh, handed, given, left, released, released_from, purged, stored, as_seen, copy_of, first_copy, swept, is_held_at as is_held_by_client};
ghost use Rattle.broker_store.specs.Messages.{Covers, Follows};

use crate::messages::{Messages, free_all, free_numbered, free_unheld};
use queue_core::{CopyNo, Holder, Queue};
use std::alloc::{AllocError, Global};
use std::marker::Model;

/// What a copy carries, and whether the copy was handed out before.
#[derive(Drop)]
pub struct CopyMessage<M> {
    /// The copy's number.
    pub number: CopyNo,
    /// Whether it was handed out before (AMQP 0-9-1, basic.deliver: redelivered).
    pub again: bool,
    /// What was published, or the key under which it is kept.
    pub message: M,
}

/// What is done to every queue.
#[derive(Clone, Copy)]
pub enum Sweep {
    /// A flush stores what is there.
    Store,
    /// The client's connection ends.
    Free(u32),
    /// The copy leaves, if the client holds it.
    Leave {
        /// The client's number.
        client: u32,
        /// The copy's number.
        number: CopyNo,
    },
    /// The copy is ready again, if the client holds it.
    Release {
        /// The client's number.
        client: u32,
        /// The copy's number.
        number: CopyNo,
    },
    /// The copy is handed to the holder.
    Hand {
        /// The copy's number.
        number: CopyNo,
        /// Who holds it from then on.
        holder: Holder,
    },
    /// The copy of that number leaves.
    Settle(CopyNo),
    /// The copy of that number is ready again.
    Requeue(CopyNo),
}

/// The copies of a queue, with the keys of their messages.
#[derive(Drop)]
pub struct Mailbox {
    queue: Queue,
    copies: Vec<CopyMessage<usize>>,
}

impl Model for Mailbox {
    ghost use Rattle.broker_store.specs.Mail.{Mail, HaveMessages};
    ghost use Rattle.std.specs.Coded.{codes};
    ghost use Prim.Native.Nat.{ℕ};

    ghost Value = { Mail ℕ };

    ghost coded = { Prim.hlevel (codes) };

    ghost view = { λ m. record { rows = m.queue; copies = m.copies.items } };

    ghost invariant = { λ m. HaveMessages m.queue m.copies.items };
}

impl Mailbox {
    /// No copies.
    pub fn new(alloc: Global) -> Self
        ensures { result ≡ empty }
    {
        Mailbox {
            queue: Queue::new(alloc),
            copies: Vec::new(alloc),
        }
    }

    /// The queue of the copies, without what they carry.
    pub fn queue(&self) -> &Queue
        ensures { result.now ≡ self.now.rows }
    {
        &self.queue
    }

    /// Lets a copy with its message's key enter at the tail.
    ///
    /// # Errors
    ///
    /// For want of memory; the mailbox is then as it was.
    pub fn enter(&mut self, number: CopyNo, key: usize) -> Result<(), AllocError>
        requires { IsAbove self.old.rows number }
        ensures ok { OnOk result (self.new ≡ entered number key self.old) }
        ensures err { OnErr result (self.new ≡ self.old) }
    {
        self.copies.reserve(1)?;
        self.queue.enter(number)?;
        add(&mut self.copies, number, key);
        Ok(())
    }

    /// Hands the first ready copy to the holder; None exactly where none is ready.
    pub fn hand(&mut self, holder: Holder) -> Option<CopyNo>
        ensures first { result ≡ first_ready self.old.rows }
        ensures held { IfSome result (λ number. self.new ≡ handed number holder self.old) }
        ensures none { IfNone result (self.new ≡ self.old) }
    {
        let number = self.queue.hand(holder)?;
        see(&mut self.copies, number);
        Some(number)
    }

    /// Hands the copy to the holder, if it is there.
    pub fn hand_copy(&mut self, number: CopyNo, holder: Holder)
        ensures { self.new ≡ handed number holder self.old }
    {
        self.queue.hand_copy(number, holder);
        see(&mut self.copies, number);
    }

    /// Hands out the first ready copy, to the holder or for good; None exactly where none is ready.
    pub fn hand_out(
        &mut self,
        messages: &mut Messages,
        holder: Holder,
        no_ack: bool,
    ) -> Option<CopyNo>
        requires { Covers messages.old self.old.copies }
        ensures first { result ≡ first_ready self.old.rows }
        ensures given { IfSome result (λ number. self.new ≡ given number holder no_ack self.old) }
        ensures none { IfNone result (self.new ≡ self.old) }
        ensures follows { Follows messages.old messages.new self.old.copies self.new.copies }
    {
        if !no_ack {
            return self.hand(holder);
        }
        let number = self.queue.first_ready()?;
        self.leave(messages, number);
        Some(number)
    }

    /// Removes the copy; false exactly where it isn't there.
    pub fn leave(&mut self, messages: &mut Messages, number: CopyNo) -> bool
        requires { Covers messages.old self.old.copies }
        ensures there { result ≡ has number self.old.rows }
        ensures left { self.new ≡ left number self.old }
        ensures follows { Follows messages.old messages.new self.old.copies self.new.copies }
    {
        free_numbered(messages, &self.copies, number);
        self.withdraw(number)
    }

    /// Removes the copy, whose message isn't kept yet; false exactly where it isn't there.
    pub fn withdraw(&mut self, number: CopyNo) -> bool
        ensures there { result ≡ has number self.old.rows }
        ensures left { self.new ≡ left number self.old }
    {
        let there = self.queue.leave(number);
        remove(&mut self.copies, number);
        there
    }

    /// Makes the held copy ready again at its place; false exactly where it isn't held.
    pub fn release(&mut self, number: CopyNo) -> bool
        ensures held { result ≡ has_held number self.old.rows }
        ensures ready { self.new ≡ released number self.old }
    {
        self.queue.release(number)
    }

    /// Makes each copy ready again that a consumer of the client holds.
    pub fn release_client(&mut self, client: u32)
        ensures { self.new ≡ released_from client self.old }
    {
        self.queue.release_client(client);
    }

    /// Removes each ready copy, and gives how many there were.
    pub fn purge(&mut self, messages: &mut Messages) -> u64
        requires { Covers messages.old self.old.copies }
        ensures count { result ≡ count_by is_ready self.old.rows }
        ensures purged { self.new ≡ purged self.old }
        ensures follows { Follows messages.old messages.new self.old.copies self.new.copies }
    {
        let count = self.queue.purge();
        free_unheld(messages, &self.copies, &self.queue);
        keep_held(&mut self.copies, &self.queue);
        count
    }

    /// Every copy is gone, as the queue goes.
    pub fn free(&self, messages: &mut Messages)
        requires { Covers messages.old self.now.copies }
        ensures { Follows messages.old messages.new self.now.copies [] }
    {
        free_all(messages, &self.copies);
    }

    /// Marks each copy as stored.
    pub fn mark_stored(&mut self)
        ensures { self.new ≡ stored self.old }
    {
        self.queue.mark_stored();
    }

    /// Whether a consumer of the client holds the copy.
    pub fn is_held_at(&self, client: u32, number: CopyNo) -> bool
        ensures { result ≡ is_held_by_client client number self.now }
    {
        match self.queue.holder(number) {
            Some(holder) => !holder.link && holder.number == client,
            None => false,
        }
    }

    /// Does what is done to every queue.
    pub fn sweep(&mut self, messages: &mut Messages, sweep: Sweep)
        requires { Covers messages.old self.old.copies }
        ensures swept { self.new ≡ swept sweep self.old }
        ensures follows { Follows messages.old messages.new self.old.copies self.new.copies }
    {
        match sweep {
            Sweep::Store => self.mark_stored(),
            Sweep::Free(client) => self.release_client(client),
            Sweep::Leave { client, number } if self.is_held_at(client, number) => {
                self.leave(messages, number);
            }
            Sweep::Release { client, number } if self.is_held_at(client, number) => {
                self.release(number);
            }
            Sweep::Leave { .. } | Sweep::Release { .. } => {}
            Sweep::Hand { number, holder } => self.hand_copy(number, holder),
            Sweep::Settle(number) => {
                self.leave(messages, number);
            }
            Sweep::Requeue(copy) => {
                self.release(copy);
            }
        }
    }

    /// What `hand` would hand out now; None exactly where no copy is ready.
    pub fn first(&self) -> Option<&CopyMessage<usize>>
        ensures first { option_copied result ≡ first_copy self.now }
        ensures ready { option_map (λ copy. copy.now.number) result ≡ first_ready self.now.rows }
    {
        let number = self.queue.first_ready()?;
        find_copy(&self.copies, number)
    }

    /// The number of the copy that `hand` would hand out now; None exactly where no copy is ready.
    pub fn first_ready(&self) -> Option<CopyNo>
        ensures { result ≡ first_ready self.now.rows }
    {
        self.queue.first_ready()
    }

    /// The number of ready copies.
    pub fn ready(&self) -> u64
        ensures { result ≡ count_by is_ready self.now.rows }
    {
        self.queue.ready()
    }

    /// The number of copies, ready or held.
    pub fn count(&self) -> u64
        ensures { result ≡ length self.now.rows }
    {
        self.queue.count()
    }

    /// The number of copies that the holder holds.
    pub fn held_by(&self, holder: Holder) -> u64
        ensures { result ≡ count_by (is_held_by holder) self.now.rows }
    {
        self.queue.held_by(holder)
    }

    /// Who holds the copy; None exactly where it isn't there or is ready.
    pub fn holder(&self, number: CopyNo) -> Option<Holder>
        ensures { result ≡ holder_of number self.now.rows }
    {
        self.queue.holder(number)
    }
}

/// The copy of that number.
fn find_copy(copies: &[CopyMessage<usize>], number: CopyNo) -> Option<&CopyMessage<usize>>
    ensures { option_copied result ≡ copy_of number copies.now }
{
    copies.iter().find(|copy| copy.number == number)
}

/// From now on the copy counts as handed out before.
fn see(copies: &mut Vec<CopyMessage<usize>>, number: CopyNo)
    ensures { copies.new.items ≡ map (as_seen number) copies.old.items }
{
    for copy in copies.iter_mut() {
        copy.again = copy.number == number || copy.again;
    }
}

/// Removes the copy.
fn remove(copies: &mut Vec<CopyMessage<usize>>, number: CopyNo)
    ensures { copies.new.items ≡ filter (λ copy. not (copy.number == number)) copies.old.items }
{
    copies.retain(|copy| copy.number != number);
}

/// Keeps the copies that are held.
fn keep_held(copies: &mut Vec<CopyMessage<usize>>, queue: &Queue)
    ensures { copies.new.items ≡ filter (λ copy. is_some (holder_of copy.number queue.now)) copies.old.items }
{
    copies.retain(|copy| queue.holder(copy.number).is_some());
}

/// Adds a copy, for which there is room.
fn add(copies: &mut Vec<CopyMessage<usize>>, number: CopyNo, key: usize)
    requires { vec_len copies.old < vec_capacity copies.old }
    ensures { copies.new.items ≡ copies.old.items ++ fresh number key ∷ [] }
{
    match copies.push(CopyMessage {
        number,
        again: false,
        message: key,
    }) {
        Ok(()) => {}
        Err(_) => unreachable!(),
    }
}
