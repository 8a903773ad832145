//! Queues hand out copies.

ghost use Rattle.std.specs.Prelude.{◌≡◌, false, Some, IsSome, IfOk, OnOk, OnErr};
ghost use Rattle.std.specs.Option.{option_map};
ghost use Rattle.mini_broker.specs.Answers.{IsAnswer};
ghost use Rattle.broker_store.specs.Queues.{ready_in, SameNames};
ghost use Rattle.mini_broker.specs.Consume.{consumer_of};
ghost use Rattle.broker_store.specs.Consumers.{registered, client_number as number_of_client};
ghost use Rattle.mini_broker.specs.Deliver.{offer_of, offered, held_count as count_of_held, is_busy as is_consumer_busy, deliver_to as delivered_to, deliver_answer, handed_over, with_delivered, get_answer, get_part as part_of_get, with_got};

use crate::fault::ClientFault;
use crate::vhost::Vhost;
use amqp_props::{Message, Text};
use broker_store::{Clients, Consumer, Queues, find_consumer};
use client_rules::Client;
use queue_core::{CopyNo, Holder};
use std::alloc::{AllocError, Global};

/// A copy that is handed to a client (AMQP 0-9-1, basic.deliver and basic.get-ok).
#[derive(Drop)]
pub struct Delivered {
    /// The copy's number.
    pub copy: CopyNo,
    /// The queue.
    pub queue: Text,
    /// What was published.
    pub message: Message,
    /// Whether the copy was handed out before.
    pub again: bool,
}

/// Hands out the copy that is the first ready one.
pub(crate) fn hand_over(queues: &mut Queues, name: &str, copy: CopyNo, holder: Holder, no_ack: bool)
    requires { ready_in name.now queues.old ≡ Some copy }
    ensures given { queues.new ≡ handed_over name.now copy holder no_ack queues.old }
    ensures names { SameNames queues.old queues.new }
{
    queues.hand_out(name, holder, no_ack);
}

/// How many copies the holder holds in the queue.
pub(crate) fn held_count(queues: &Queues, name: &str, holder: Holder) -> u64
    ensures { result ≡ count_of_held name.now holder queues.now }
{
    match queues.find(name) {
        Some(queue) => queue.mail.held_by(holder),
        None => 0,
    }
}

/// Whether the consumer holds as many copies as its prefetch count lets it.
fn is_busy(queues: &Queues, consumer: &Consumer) -> bool
    ensures { result ≡ is_consumer_busy consumer.now queues.now }
{
    0 < consumer.prefetch
        && consumer.prefetch as u64 <= held_count(queues, consumer.queue.as_str(), consumer.holder)
}

/// What a hand-out from the queue would give now.
///
/// # Errors
///
/// For want of memory, where a copy is ready.
fn first_offer(alloc: Global, queues: &Queues, name: &str) -> Result<Option<Delivered>, AllocError>
    ensures offer { IfOk result (λ offer. offer ≡ offer_of name.now queues.now) }
    ensures ready { IfOk result (λ offer. option_map (λ delivered. delivered.copy) offer ≡ ready_in name.now queues.now) }
    ensures err { OnErr result (IsSome (offer_of name.now queues.now)) }
{
    let Some((copy, message)) = queues.first(name) else {
        return Ok(None);
    };
    let name = Text::from_str(alloc, name)?;
    let message = message.clone()?;
    Ok(Some(Delivered {
        copy: copy.number,
        queue: name,
        message,
        again: copy.again,
    }))
}

/// What the queue would hand out now, or why it doesn't.
fn offer(alloc: Global, queues: &Queues, name: &str) -> Result<Delivered, ClientFault>
    ensures answer { IsAnswer result (offered (offer_of name.now queues.now)) }
    ensures ready { IfOk result (λ delivered. ready_in name.now queues.now ≡ Some delivered.copy) }
{
    match first_offer(alloc, queues, name) {
        Ok(Some(delivered)) => Ok(delivered),
        Ok(None) => Err(ClientFault::Empty),
        Err(_) => Err(ClientFault::Memory),
    }
}

/// Hands out a copy, or says why not; the queues are then as they were.
fn take_from(
    alloc: Global,
    queues: &mut Queues,
    name: &str,
    holder: Holder,
    no_ack: bool,
) -> Result<Delivered, ClientFault>
    ensures answer { IsAnswer result (offered (offer_of name.now queues.old)) }
    ensures given { IfOk result (λ delivered. queues.new ≡ handed_over name.now delivered.copy holder no_ack queues.old) }
    ensures names { SameNames queues.old queues.new }
    ensures err { OnErr result (queues.new ≡ queues.old) }
{
    match offer(alloc, queues, name) {
        Ok(delivered) => {
            hand_over(queues, name, delivered.copy, holder, no_ack);
            Ok(delivered)
        }
        Err(fault) => Err(fault),
    }
}

/// Hands a copy to the consumer, or says why not; the queues are then as they were.
fn deliver_to(
    alloc: Global,
    queues: &mut Queues,
    consumer: &Consumer,
) -> Result<Delivered, ClientFault>
    ensures answer { IsAnswer result (delivered_to (Some consumer.now) queues.old) }
    ensures given { IfOk result (λ delivered. queues.new ≡ handed_over consumer.now.queue delivered.copy consumer.now.holder consumer.now.no_ack queues.old) }
    ensures names { SameNames queues.old queues.new }
    ensures err { OnErr result (queues.new ≡ queues.old) }
{
    if is_busy(queues, consumer) {
        return Err(ClientFault::Busy);
    }
    take_from(
        alloc,
        queues,
        consumer.queue.as_str(),
        consumer.holder,
        consumer.no_ack,
    )
}

/// Hands a copy to the client for its `get`, or says why not; all is then as it was.
fn give_to(
    alloc: Global,
    clients: &mut Clients,
    queues: &mut Queues,
    who: Client,
    name: &str,
    part: u32,
    no_ack: bool,
) -> Result<Delivered, ClientFault>
    ensures answer { IsAnswer result (offered (offer_of name.now queues.old)) }
    ensures clients { OnOk result (clients.new ≡ registered who clients.old) }
    ensures given { IfOk result (λ delivered. queues.new ≡ handed_over name.now delivered.copy (record { link = false; number = number_of_client who clients.old; part = part }) no_ack queues.old) }
    ensures names { SameNames queues.old queues.new }
    ensures same_clients { OnErr result (clients.new ≡ clients.old) }
    ensures same_queues { OnErr result (queues.new ≡ queues.old) }
{
    let delivered = match offer(alloc, queues, name) {
        Ok(delivered) => delivered,
        Err(fault) => return Err(fault),
    };
    let Ok(number) = clients.number(who) else {
        return Err(ClientFault::Memory);
    };
    let holder = Holder {
        link: false,
        number,
        part,
    };
    let Ok(()) = clients.register(who) else {
        return Err(ClientFault::Memory);
    };
    hand_over(queues, name, delivered.copy, holder, no_ack);
    Ok(delivered)
}

impl Vhost {
    /// What a hand-out from the queue to a client would give now; None exactly where no copy is ready there.
    ///
    /// # Errors
    ///
    /// For want of memory.
    pub fn peek(&self, name: &str) -> Result<Option<Delivered>, AllocError>
        ensures offer { IfOk result (λ offer. offer ≡ offer_of name.now self.now.queues) }
        ensures ready { IfOk result (λ offer. option_map (λ delivered. delivered.copy) offer ≡ ready_in name.now self.now.queues) }
    {
        first_offer(self.alloc, &self.queues, name)
    }

    /// Delivers the first ready copy of its queue to the client's consumer of that tag.
    ///
    /// # Errors
    ///
    /// `NoConsumer`, `Busy` where the consumer holds as many copies as its prefetch count lets it, `Empty` where no copy
    /// is ready, or for want of memory; the virtual host is then as it was.
    pub fn deliver(&mut self, who: Client, tag: &str) -> Result<Delivered, ClientFault>
        ensures answer { IsAnswer result (deliver_answer who tag.now self.old) }
        ensures given { IfOk result (λ delivered. self.new ≡ with_delivered (consumer_of who tag.now self.old) delivered.copy self.old) }
        ensures err { OnErr result (self.new ≡ self.old) }
    {
        match find_consumer(&self.consumers, who, tag) {
            Some(consumer) => deliver_to(self.alloc, &mut self.queues, consumer),
            None => Err(ClientFault::NoConsumer),
        }
    }

    /// As which consumer of the client a copy that it gets is held; 0 where it has none with the empty tag.
    fn get_part(&self, who: Client) -> u32
        ensures { result ≡ part_of_get who self.now }
    {
        match find_consumer(&self.consumers, who, "") {
            Some(consumer) => consumer.holder.part,
            None => 0,
        }
    }

    /// Gives the first ready copy of the queue to the client.
    ///
    /// # Errors
    ///
    /// 403 for a queue that belongs to links, 404 for one that isn't there, 405 for one that another connection has to
    /// itself, `Empty` where no copy is ready, or for want of memory; the virtual host is then as it was.
    pub fn get(&mut self, who: Client, name: &str, no_ack: bool) -> Result<Delivered, ClientFault>
        ensures answer { IsAnswer result (get_answer who name.now self.old) }
        ensures given { IfOk result (λ delivered. self.new ≡ with_got who name.now delivered.copy no_ack self.old) }
        ensures err { OnErr result (self.new ≡ self.old) }
    {
        if let Some(fault) = self.queue_refusal(who, name) {
            return Err(fault);
        }
        let part = self.get_part(who);
        give_to(
            self.alloc,
            &mut self.clients,
            &mut self.queues,
            who,
            name,
            part,
            no_ack,
        )
    }
}
