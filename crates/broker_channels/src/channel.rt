ghost use Rattle.std.specs.Prelude.{◌≡◌, ◌==◌, ◌+◌, ◌≤◌, ◌<◌, ◌++◌, true, false, Some, None, All, length, take, drop, map, count_by, slice_index_or, IsOk, IfSome, IfOk, OnOk, OnErr, IsOkUnless, vec_len, vec_capacity};
ghost use Rattle.std.specs.List.{remove};
ghost use Rattle.std.specs.Option.{option_map_or};
ghost use Rattle.std.specs.VecDeque.{deque_len, deque_capacity};
ghost use Rattle.indexmap.specs.IndexMap.{spare};
ghost use Rattle.broker_channels.specs.declared.delivery.Delivery.{Delivery};
ghost use Rattle.broker_channels.specs.declared.channel.SettleFault.TheVariants.{Memory};
ghost use Rattle.broker_channels.specs.Tags.{Rises, opened, with_qos, is_known, with_consumer, with_delivery, is_pushed, is_full, has_room, is_outstanding, settled_copies, unsettled};
ghost use Rattle.broker_channels.specs.Held.{consumers_of, IsCounted};

use crate::delivery::{CopyNo, Delivery};
use crate::shares::{self, Share};
use crate::tags;
use indexmap::IndexMap;
use std::alloc::{AllocError, Global};
use std::collections::VecDeque;
use std::marker::Model;
use thiserror::Error;

/// Why an acknowledgement was refused.
#[derive(Clone, Copy, Debug, PartialEq, Eq, Error)]
pub enum SettleFault {
    /// The delivery tag isn't outstanding on the channel (AMQP 0-9-1: precondition-failed).
    #[error("unknown delivery tag {0}")]
    BadTag(u64),
    /// Want of memory.
    #[error("out of memory")]
    Memory,
}

impl From<AllocError> for SettleFault {
    ghost from_gives = { λ _ fault. fault ≡ Memory };

    fn from(_error: AllocError) -> SettleFault {
        SettleFault::Memory
    }
}

/// The deliveries of one channel, and the windows that bound them.
#[derive(Drop)]
pub struct Channel {
    last_tag: u64,
    prefetch: u16,
    window: u16,
    shares: IndexMap<u32, Share>,
    deliveries: VecDeque<Delivery>,
    pushed: usize,
    reserved: bool,
}

impl Model for Channel {
    ghost use Rattle.std.specs.Prelude.{◌≡◌, ◌<◌, ◌≤◌, ◌^◌, ◌+◌, true, All, count_by};
    ghost use Rattle.std.specs.VecDeque.{deque_len, deque_capacity};
    ghost use Rattle.indexmap.specs.IndexMap.{spare};
    ghost use Rattle.broker_channels.specs.Tags.{Deliveries, Rises, is_pushed};
    ghost use Rattle.broker_channels.specs.Held.{consumers_of, IsCounted, HasKnown};

    ghost Value = { Deliveries };

    ghost view = { λ c. record {
      last_tag = c.last_tag;
      prefetch = c.prefetch;
      window = c.window;
      consumers = consumers_of c.shares.entries;
      unacknowledged = c.deliveries.items;
      reserved = c.reserved;
    } };

    // Tags rise up to the last one, the counts are those of the windows, who isn't a consumer has nothing, and what is
    // reserved has room for one more of each.
    ghost invariant = { λ c. Rises c.deliveries.items
        × All (λ delivery. delivery.tag ≤ c.last_tag) c.deliveries.items
        × All (IsCounted c.deliveries.items) c.shares.entries
        × (c.pushed ≡ count_by is_pushed c.deliveries.items)
        × HasKnown (consumers_of c.shares.entries) c.deliveries.items
        × (c.reserved ≡ true
        → (c.last_tag + 1 < 2 ^ 64)
        × (0 < spare c.shares)
        × (deque_len c.deliveries < deque_capacity c.deliveries)) };
}

impl Channel {
    /// A channel that was just opened, which keeps the allocator for what comes.
    pub fn new(alloc: Global) -> Channel
        ensures { result ≡ opened }
    {
        Channel {
            last_tag: 0,
            prefetch: 0,
            window: 0,
            shares: IndexMap::new(alloc),
            deliveries: VecDeque::new(alloc),
            pushed: 0,
            reserved: false,
        }
    }

    /// Sets the channel's window with `global`, and without it that of the consumers to come; 0 is no limit.
    pub fn qos(&mut self, count: u16, global: bool)
        ensures { self.new ≡ with_qos count global self.old }
    {
        if global {
            self.window = count;
        } else {
            self.prefetch = count;
        }
    }

    /// Makes room, so that the next call of `consumer`, `deliver` or `got` isn't refused.
    ///
    /// # Errors
    ///
    /// For want of memory, or where all 2^64 - 1 delivery tags were given; the channel is then as it was.
    pub fn reserve(&mut self) -> Result<(), AllocError>
        ensures ok { OnOk result (self.new ≡ record self.old { reserved = true }) }
        ensures again { self.old.reserved ≡ true → IsOk result }
        ensures err { OnErr result (self.new ≡ self.old) }
    {
        if self.reserved {
            return Ok(());
        }
        if self.last_tag == u64::MAX {
            return Err(AllocError);
        }
        self.shares.reserve(1)?;
        self.deliveries.reserve(1)?;
        self.reserved = true;
        Ok(())
    }

    /// Begins a consumer, with the window that `qos` set last without `global`.
    ///
    /// # Errors
    ///
    /// As `reserve`; the channel is then as it was.
    pub fn consumer(&mut self, number: u32) -> Result<(), AllocError>
        requires { is_known number self.old ≡ false }
        ensures ok { OnOk result (self.new ≡ with_consumer number self.old) }
        ensures reserved { self.old.reserved ≡ true → IsOk result }
        ensures err { OnErr result (self.new ≡ self.old) }
    {
        self.reserve()?;
        shares::begin(&mut self.shares, number, self.prefetch);
        self.reserved = false;
        Ok(())
    }

    /// Whether neither the consumer's window nor the channel's is full.
    pub fn has_room(&self, consumer: u32) -> bool
        requires { is_known consumer self.now ≡ true }
        ensures { result ≡ has_room consumer self.now }
    {
        let own_full = is_share_full(shares::share_of(&self.shares, consumer));
        let all_full = is_full(self.window, self.pushed);
        !own_full && !all_full
    }

    /// Delivers the copy to the consumer, and gives its delivery tag.
    ///
    /// # Errors
    ///
    /// As `reserve`; the channel is then as it was.
    pub fn deliver(&mut self, consumer: u32, copy: CopyNo) -> Result<u64, AllocError>
        requires { is_known consumer self.old ≡ true }
        ensures tag { IfOk result (λ tag. tag ≡ self.old.last_tag + 1) }
        ensures ok { OnOk result (self.new ≡ with_delivery copy (Some consumer) self.old) }
        ensures reserved { self.old.reserved ≡ true → IsOk result }
        ensures err { OnErr result (self.new ≡ self.old) }
    {
        self.give(copy, Some(consumer))
    }

    /// Gives the copy to basic.get, where it counts in no window, and gives its delivery tag.
    ///
    /// # Errors
    ///
    /// As `reserve`; the channel is then as it was.
    pub fn got(&mut self, copy: CopyNo) -> Result<u64, AllocError>
        ensures tag { IfOk result (λ tag. tag ≡ self.old.last_tag + 1) }
        ensures ok { OnOk result (self.new ≡ with_delivery copy None self.old) }
        ensures reserved { self.old.reserved ≡ true → IsOk result }
        ensures err { OnErr result (self.new ≡ self.old) }
    {
        self.give(copy, None)
    }

    /// Settles the delivery of the tag, with `multiple` each up to it, and all for 0; appends their copies by rising tag.
    ///
    /// # Errors
    ///
    /// `BadTag` exactly where the tag isn't outstanding and isn't 0 with `multiple`; else only for want of memory.
    /// Channel and copies are then as they were.
    pub fn settle(
        &mut self,
        tag: u64,
        multiple: bool,
        copies: &mut Vec<CopyNo>,
    ) -> Result<(), SettleFault>
        ensures copies { OnOk result (copies.new.items ≡ copies.old.items ++ settled_copies tag multiple self.old.unacknowledged) }
        ensures settled { OnOk result (self.new ≡ record self.old { unacknowledged = unsettled tag multiple self.old.unacknowledged }) }
        ensures rising { Rises self.old.unacknowledged }

        // Judged before any memory is taken.
        ensures bad { is_outstanding tag multiple self.old.unacknowledged ≡ false → result ≡ Err (SettleFault.BadTag tag) }
        ensures good { is_outstanding tag multiple self.old.unacknowledged ≡ true → IsOkUnless result SettleFault.Memory }
        ensures err { OnErr result (self.new ≡ self.old) }
        ensures err_copies { OnErr result (copies.new.items ≡ copies.old.items) }
    {
        let Some((start, count)) = tags::span(&self.deliveries, tag, multiple) else {
            return Err(SettleFault::BadTag(tag));
        };
        copies.reserve(count)?;
        take_out(
            &mut self.deliveries,
            &mut self.shares,
            &mut self.pushed,
            start,
            count,
            copies,
        );
        Ok(())
    }

    /// Gives the copy with the next delivery tag.
    fn give(&mut self, copy: CopyNo, consumer: Option<u32>) -> Result<u64, AllocError>
        requires { IfSome consumer (λ number. is_known number self.old ≡ true) }
        ensures tag { IfOk result (λ tag. tag ≡ self.old.last_tag + 1) }
        ensures ok { OnOk result (self.new ≡ with_delivery copy consumer self.old) }
        ensures reserved { self.old.reserved ≡ true → IsOk result }
        ensures err { OnErr result (self.new ≡ self.old) }
    {
        self.reserve()?;
        let tag = self.last_tag + 1;
        shares::count_in(&mut self.shares, &mut self.pushed, consumer);
        self.deliveries.push_back_reserved(Delivery {
            tag,
            copy,
            consumer,
        });
        self.last_tag = tag;
        self.reserved = false;
        Ok(tag)
    }
}

/// Whether a window is full; 0 is no limit.
fn is_full(window: u16, count: usize) -> bool
    ensures { result ≡ is_full window count }
{
    window != 0 && window as usize <= count
}

/// Whether the window of a consumer is full; false where it isn't there.
fn is_share_full(share: Option<Share>) -> bool
    ensures { result ≡ option_map_or (λ share. is_full share.window share.held) share false }
{
    match share {
        Some(share) => is_full(share.window, share.held),
        None => false,
    }
}

/// Takes the deliveries out of the channel that stand next to each other, and appends their copies.
fn take_out(
    deliveries: &mut VecDeque<Delivery>,
    shares: &mut IndexMap<u32, Share>,
    pushed: &mut usize,
    start: usize,
    count: usize,
    copies: &mut Vec<CopyNo>,
)
    requires within { start + count ≤ length deliveries.old.items }
    requires room { vec_len copies.old + count ≤ vec_capacity copies.old }
    requires counted { All (IsCounted deliveries.old.items) shares.old.entries }
    requires pushed { pushed.old ≡ count_by is_pushed deliveries.old.items }
    ensures copies { copies.new.items ≡ copies.old.items ++ map (λ (delivery : Delivery). delivery.copy) (take count (drop start deliveries.old.items)) }
    ensures stay { deliveries.new.items ≡ take start deliveries.old.items ++ drop count (drop start deliveries.old.items) }
    ensures consumers { consumers_of shares.new.entries ≡ consumers_of shares.old.entries }
    ensures counted { All (IsCounted deliveries.new.items) shares.new.entries }
    ensures pushed { pushed.new ≡ count_by is_pushed deliveries.new.items }
    ensures spare { spare shares.new ≡ spare shares.old }
    ensures len { deque_len deliveries.new ≤ deque_len deliveries.old }
    ensures capacity { deque_capacity deliveries.new ≡ deque_capacity deliveries.old }
{
    for _taken in 0..count {
        let copy = take_one(deliveries, shares, pushed, start);
        copies.push_reserved(copy);
    }
}

/// Takes one delivery out of the channel, and gives its copy.
fn take_one(
    deliveries: &mut VecDeque<Delivery>,
    shares: &mut IndexMap<u32, Share>,
    pushed: &mut usize,
    place: usize,
) -> CopyNo
    requires within { place < length deliveries.old.items }
    requires counted { All (IsCounted deliveries.old.items) shares.old.entries }
    requires pushed { pushed.old ≡ count_by is_pushed deliveries.old.items }
    ensures copy { (d : Delivery) → result ≡ (slice_index_or deliveries.old.items place d).copy }
    ensures stay { deliveries.new.items ≡ remove deliveries.old.items place }
    ensures consumers { consumers_of shares.new.entries ≡ consumers_of shares.old.entries }
    ensures counted { All (IsCounted deliveries.new.items) shares.new.entries }
    ensures pushed { pushed.new ≡ count_by is_pushed deliveries.new.items }
    ensures spare { spare shares.new ≡ spare shares.old }
    ensures len { deque_len deliveries.new + 1 ≡ deque_len deliveries.old }
    ensures capacity { deque_capacity deliveries.new ≡ deque_capacity deliveries.old }
{
    let Some(delivery) = deliveries.remove(place) else {
        unreachable!()
    };
    shares::count_out(shares, pushed, delivery.consumer);
    delivery.copy
}
