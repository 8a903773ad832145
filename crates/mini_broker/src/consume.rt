//! Clients begin and end to consume.

ghost use Rattle.std.specs.Prelude.{◌≡◌, ◌≢◌, ◌+◌, ◌<◌, ◌++◌, ◌∷◌, [], not, is_some, Some, Ok, IfOk, OnOk, OnErr, filter, vec_len, vec_capacity};
ghost use Rattle.std.specs.Option.{option_copied};
ghost use Rattle.mini_broker.specs.Answers.{IsAnswer};
ghost use Rattle.broker_store.specs.Consumers.{is_consumer as is_this_consumer, registered};
ghost use Rattle.mini_broker.specs.Bind.{unless};
ghost use Rattle.mini_broker.specs.Consume.{refusal_at as refusal_of_queue, queue_refusal as refusal_by_queue, consumer_of, consume_refusal as refusal_to_consume, new_consumer as consumer_by, with_consumer, without_consumer};

use crate::declare::is_locked;
use crate::fault::ClientFault;
use crate::vhost::Vhost;
use amqp_props::Text;
use broker_store::{Clients, Consumer, find_consumer, is_consumer};
use client_rules::{Client, is_reserved};
use queue_core::Holder;
use std::alloc::AllocError;

/// Adds a consumer, for which there is room.
fn push_consumer(consumers: &mut Vec<Consumer>, consumer: Consumer)
    requires { vec_len consumers.old < vec_capacity consumers.old }
    ensures { consumers.new.items ≡ consumers.old.items ++ consumer ∷ [] }
{
    match consumers.push(consumer) {
        Ok(()) => {}
        Err(_) => unreachable!(),
    }
}

/// Adds a consumer, and numbers its client.
///
/// # Errors
///
/// For want of memory; all is then as it was.
fn add_consumer(
    clients: &mut Clients,
    consumers: &mut Vec<Consumer>,
    consumer: Consumer,
) -> Result<(), AllocError>
    ensures clients { OnOk result (clients.new ≡ registered consumer.client clients.old) }
    ensures consumers { OnOk result (consumers.new.items ≡ consumers.old.items ++ consumer ∷ []) }
    ensures same_clients { OnErr result (clients.new ≡ clients.old) }
    ensures same_consumers { OnErr result (consumers.new.items ≡ consumers.old.items) }
{
    consumers.reserve(1)?;
    clients.register(consumer.client)?;
    push_consumer(consumers, consumer);
    Ok(())
}

/// Ends a consumer.
fn remove_consumer(consumers: &mut Vec<Consumer>, who: Client, tag: &str)
    ensures { consumers.new.items ≡ filter (λ consumer. not (is_this_consumer who tag.now consumer)) consumers.old.items }
{
    consumers.retain(|consumer| !is_consumer(consumer, who, tag));
}

impl Vhost {
    /// Why a client is refused a queue, if it is.
    pub fn queue_refusal(&self, who: Client, name: &str) -> Option<ClientFault>
        ensures refusal { result ≡ refusal_by_queue who name.now self.now }
        ensures refused { result ≢ Some ClientFault.Memory }
    {
        if is_reserved(name) {
            return Some(ClientFault::Refused(403));
        }
        match self.queues.find(name) {
            None => Some(ClientFault::Refused(404)),
            Some(queue) if is_locked(who, queue) => Some(ClientFault::Refused(405)),
            Some(_) => None,
        }
    }

    /// Why a client is refused a consumer, if it is.
    pub fn consume_refusal(&self, who: Client, name: &str, tag: &str) -> Option<ClientFault>
        ensures refusal { result ≡ refusal_to_consume who name.now tag.now self.now }
        ensures refused { result ≢ Some ClientFault.Memory }
    {
        if let Some(fault) = self.queue_refusal(who, name) {
            return Some(fault);
        }
        if find_consumer(&self.consumers, who, tag).is_some() {
            return Some(ClientFault::Refused(530));
        }
        None
    }

    /// The consumer that would begin.
    ///
    /// # Errors
    ///
    /// For want of memory, or where there is no number left.
    fn new_consumer(
        &self,
        who: Client,
        name: &str,
        tag: &str,
        no_ack: bool,
        prefetch: u16,
    ) -> Result<Consumer, AllocError>
        ensures ok { IfOk result (λ consumer. consumer ≡ consumer_by who name.now tag.now no_ack prefetch self.now) }
        ensures fits { OnOk result (self.now.begun + 1 < 4294967296) }
    {
        if self.begun == u32::MAX {
            return Err(AllocError);
        }
        let number = self.clients.number(who)?;
        let holder = Holder {
            link: false,
            number,
            part: self.begun + 1,
        };
        Ok(Consumer {
            client: who,
            tag: Text::from_str(self.alloc, tag)?,
            queue: Text::from_str(self.alloc, name)?,
            no_ack,
            prefetch,
            holder,
        })
    }

    /// Lets a consumer begin.
    ///
    /// # Errors
    ///
    /// For want of memory; the virtual host is then as it was.
    fn begin(&mut self, consumer: Consumer) -> Result<(), AllocError>
        requires { self.old.begun + 1 < 4294967296 }
        ensures ok { OnOk result (self.new ≡ with_consumer consumer self.old) }
        ensures err { OnErr result (self.new ≡ self.old) }
    {
        add_consumer(&mut self.clients, &mut self.consumers, consumer)?;
        self.begun += 1;
        Ok(())
    }

    /// Lets a client consume from a queue under a tag, whatever stands there, and hold so many copies unacknowledged; 0 is
    /// no limit.
    ///
    /// # Errors
    ///
    /// For want of memory, or where there is no number left; the virtual host is then as it was.
    pub fn begin_consumer(
        &mut self,
        who: Client,
        name: &str,
        tag: &str,
        no_ack: bool,
        prefetch: u16,
    ) -> Result<(), AllocError>
        ensures ok { OnOk result (self.new ≡ with_consumer (consumer_by who name.now tag.now no_ack prefetch self.old) self.old) }
        ensures err { OnErr result (self.new ≡ self.old) }
    {
        let consumer = self.new_consumer(who, name, tag, no_ack, prefetch)?;
        self.begin(consumer)?;
        Ok(())
    }

    /// Lets a client consume from a queue under a tag, and hold so many copies unacknowledged; 0 is no limit.
    ///
    /// # Errors
    ///
    /// 403 for a queue that belongs to links, 404 for one that isn't there, 405 for one that another connection has to
    /// itself, 530 for a tag that the client uses already, or for want of memory; the virtual host is then as it was.
    pub fn consume(
        &mut self,
        who: Client,
        name: &str,
        tag: &str,
        no_ack: bool,
        prefetch: u16,
    ) -> Result<(), ClientFault>
        ensures answer { IsAnswer result (unless (refusal_to_consume who name.now tag.now self.old) (Ok tt)) }
        ensures ok { OnOk result (self.new ≡ with_consumer (consumer_by who name.now tag.now no_ack prefetch self.old) self.old) }
        ensures err { OnErr result (self.new ≡ self.old) }
    {
        if let Some(fault) = self.consume_refusal(who, name, tag) {
            return Err(fault);
        }
        self.begin_consumer(who, name, tag, no_ack, prefetch)?;
        Ok(())
    }

    /// The client's consumer of that tag; None exactly where it has none.
    pub fn consumer(&self, who: Client, tag: &str) -> Option<&Consumer>
        ensures { option_copied result ≡ consumer_of who tag.now self.now }
    {
        find_consumer(&self.consumers, who, tag)
    }

    /// Ends the client's consumer of that tag; false exactly where there is none. What it holds stays held.
    pub fn cancel(&mut self, who: Client, tag: &str) -> bool
        ensures there { result ≡ is_some (consumer_of who tag.now self.old) }
        ensures ended { self.new ≡ without_consumer who tag.now self.old }
    {
        let there = find_consumer(&self.consumers, who, tag).is_some();
        remove_consumer(&mut self.consumers, who, tag);
        there
    }
}
