//! The messages of the copies that are in queues.

ghost use Rattle.std.specs.Prelude.{◌≡◌, ◌==◌, ◌<◌, [], ◌∷◌, None, not, is_some, filter, OnOk, IfSome, IfNone};
ghost use Rattle.slab.specs.Slab.{HasRoomFor, Updates};
ghost use Rattle.queue_core.specs.Rows.{holder_of};
ghost use Rattle.broker_store.specs.Messages.{copies_at, message_at, Covers, Follows, IsAdded};

use crate::mailbox::CopyMessage;
use amqp_props::Message;
use queue_core::{CopyNo, Queue};
use slab::Slab;
use std::alloc::{AllocError, Global};
use std::marker::Model;

/// A publication's message, once for all its copies.
#[derive(Drop)]
pub struct Kept {
    /// What was published.
    pub message: Message,
    /// How many copies of it are in queues.
    pub copies: usize,
}

/// The messages of the copies that are in queues, under the keys that the copies have.
#[derive(Drop)]
pub struct Messages {
    slab: Slab<Kept>,
}

impl Model for Messages {
    ghost use Rattle.slab.specs.Slab.{Slab};
    ghost use Rattle.broker_store.specs.declared.messages.Kept.{Kept};
    ghost use Rattle.broker_store.specs.contracts.messages.Kept as kept;
    ghost use Rattle.broker_store.specs.Messages.{AreLive};
    ghost use Rattle.slab.specs.Slab.{slab_code};

    ghost Value = { Slab Kept };

    ghost coded = { slab_code kept.the_row.coded };

    ghost view = { λ m. m.slab };

    ghost invariant = { λ m. AreLive m.slab };
}

impl Messages {
    /// No messages.
    pub fn new(alloc: Global) -> Self
        ensures { (key : _) → copies_at key result ≡ 0 }
    {
        Messages {
            slab: Slab::new(alloc),
        }
    }

    /// Makes room for one more message.
    ///
    /// # Errors
    ///
    /// For want of memory.
    pub fn reserve(&mut self) -> Result<(), AllocError>
        ensures room { OnOk result (HasRoomFor self.new 1) }
        ensures same { self.new ≡ record self.old { capacity = self.new.capacity } }
    {
        self.slab.reserve(1)
    }

    /// The key that the next message gets.
    pub fn next_key(&self) -> usize
        ensures next { result ≡ self.now.vacant_key }
        ensures free { copies_at result self.now ≡ 0 }
    {
        self.slab.vacant_key()
    }

    /// Keeps a message under the next key for so many copies; none where that is 0.
    pub fn keep(&mut self, message: Message, copies: usize)
        requires { HasRoomFor self.old 1 }
        ensures { IsAdded message copies self.old self.new }
    {
        let next = self.next_key();
        prove!(!self.slab.contains(next));
        if 0 < copies {
            self.slab.insert_reserved(Kept { message, copies });
        }
    }

    /// The message under the key; None exactly where no copy has it.
    pub fn get(&self, key: usize) -> Option<&Message>
        ensures found { IfSome result (λ message. message.now ≡ message_at self.now key) }
        ensures absent { IfNone result (copies_at key self.now ≡ 0) }
    {
        match self.slab.get(key) {
            Some(kept) => Some(&kept.message),
            None => None,
        }
    }

    /// A copy is gone, and with the last its message.
    pub fn free(&mut self, copy: &CopyMessage<usize>)
        requires { 0 < copies_at copy.now.message self.old }
        ensures { Follows self.old self.new (copy.now ∷ []) [] }
    {
        match self.slab.get_mut(copy.message) {
            Some(kept) if 1 < kept.copies => kept.copies -= 1,
            _ => forget(&mut self.slab, copy.message),
        }
    }
}

/// What was under the key is gone.
fn forget(slab: &mut Slab<Kept>, key: usize)
    ensures { Updates slab.old slab.new key None }
{
    slab.try_remove(key);
}

/// The copies of that number are gone.
pub fn free_numbered(messages: &mut Messages, copies: &[CopyMessage<usize>], number: CopyNo)
    requires { Covers messages.old copies.now }
    ensures { Follows messages.old messages.new copies.now (filter (λ copy. not (copy.number == number)) copies.now) }
{
    for copy in copies {
        if copy.number == number {
            messages.free(copy);
        }
    }
}

/// The copies that nobody holds are gone.
pub fn free_unheld(messages: &mut Messages, copies: &[CopyMessage<usize>], queue: &Queue)
    requires { Covers messages.old copies.now }
    ensures { Follows messages.old messages.new copies.now (filter (λ copy. is_some (holder_of copy.number queue.now)) copies.now) }
{
    for copy in copies {
        if queue.holder(copy.number).is_none() {
            messages.free(copy);
        }
    }
}

/// All of these copies are gone.
pub fn free_all(messages: &mut Messages, copies: &[CopyMessage<usize>])
    requires { Covers messages.old copies.now }
    ensures { Follows messages.old messages.new copies.now [] }
{
    for copy in copies {
        messages.free(copy);
    }
}
