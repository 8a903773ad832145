//! Messages are published.

ghost use Rattle.std.specs.Prelude.{◌≡◌, ◌≢◌, ◌+◌, ◌<◌, ◌≤◌, ◌^◌, Some, Ok, IfOk, OnOk, OnErr, length};
ghost use Rattle.route_core.specs.Routes.{routed_names};
ghost use Rattle.route_core.specs.Walks.{publish, headers_of};
ghost use Rattle.mini_broker.specs.Answers.{IsAnswer};
ghost use Rattle.mini_broker.specs.Bind.{unless};
ghost use Rattle.broker_store.specs.Queues.{AreAbove, SameNames, all_entered};
ghost use Rattle.mini_broker.specs.Publish.{publish_refusal as refusal_to_publish, reached as names_reached, with_copies, first_of, done};

use crate::fault::ClientFault;
use crate::vhost::Vhost;
use amqp_props::{Message, Text};
use broker_store::Queues;
use client_rules::is_reserved;
use field_tables::Table;
use queue_core::CopyNo;
use route_core::Router;
use std::alloc::{AllocError, Global};

/// What became of a publication.
#[derive(Drop)]
pub struct Accepted {
    /// The number of its first copy, 0 if there is none.
    pub first: CopyNo,
    /// The queues that got a copy, in the order of their making.
    pub queues: Vec<Text>,
}

/// The names of the queues that the message reaches.
fn reach(alloc: Global, router: &Router, message: &Message) -> Result<Vec<Text>, AllocError>
    ensures names { IfOk result (λ names. names.items ≡ routed_names router.now.routing (publish message.now.exchange message.now.key (headers_of message.now))) }
    ensures few { IfOk result (λ names. length names.items ≤ length router.now.routing.objects) }
{
    let exchange = message.exchange.as_str();
    let key = message.key.as_str();
    match &message.props.headers {
        Some(headers) => router.names(exchange, key, headers.as_table()),
        None => {
            let none = Table {
                pairs: Vec::new(alloc),
            };
            router.names(exchange, key, &none)
        }
    }
}

/// The number of the first copy, 0 if there is none.
fn first_copy(number: CopyNo, names: &[Text]) -> CopyNo
    ensures { result ≡ first_of number names.now }
{
    match names.first() {
        Some(_) => number,
        None => 0,
    }
}

/// Lets copies of the message enter the queues, numbered in their order.
///
/// # Errors
///
/// For want of memory; the queues are then as they were.
pub(crate) fn enter_message(
    queues: &mut Queues,
    names: &[Text],
    number: CopyNo,
    message: Message,
) -> Result<(), AllocError>
    requires above { AreAbove number queues.old }
    requires fits { number + length names.now < 2 ^ 64 }
    ensures ok { OnOk result (queues.new ≡ all_entered names.now number message queues.old) }
    ensures err { OnErr result (queues.new ≡ queues.old) }
    ensures names { SameNames queues.old queues.new }
{
    match queues.enter_all(names, number, message) {
        Ok(()) => Ok(()),
        Err(e) => Err(e),
    }
}

/// Routes the message, and lets a copy enter each queue that it reaches.
///
/// # Errors
///
/// For want of memory; the queues are then as they were.
fn spread(
    alloc: Global,
    router: &Router,
    queues: &mut Queues,
    message: Message,
    number: CopyNo,
) -> Result<Accepted, AllocError>
    requires above { AreAbove number queues.old }
    requires fits { number + length router.now.routing.objects < 2 ^ 64 }
    ensures queues { IfOk result (λ accepted. accepted.queues.items ≡ routed_names router.now.routing (publish message.exchange message.key (headers_of message))) }
    ensures first { IfOk result (λ accepted. accepted.first ≡ first_of number (routed_names router.now.routing (publish message.exchange message.key (headers_of message)))) }
    ensures ok { OnOk result (queues.new ≡ all_entered (routed_names router.now.routing (publish message.exchange message.key (headers_of message))) number message queues.old) }
    ensures err { OnErr result (queues.new ≡ queues.old) }
    ensures names { SameNames queues.old queues.new }
{
    let names = match reach(alloc, router, &message) {
        Ok(names) => names,
        Err(e) => return Err(e),
    };
    let first = first_copy(number, &names);
    match enter_message(queues, &names, number, message) {
        Ok(()) => Ok(Accepted {
            first,
            queues: names,
        }),
        Err(e) => Err(e),
    }
}

impl Vhost {
    /// Why a client is refused to publish to the exchange, if it is.
    pub fn publish_refusal(&self, exchange: &str) -> Option<ClientFault>
        ensures refusal { result ≡ refusal_to_publish exchange.now self.now }
        ensures refused { result ≢ Some ClientFault.Memory }
    {
        if is_reserved(exchange) {
            return Some(ClientFault::Refused(403));
        }
        if exchange.is_empty() {
            return None;
        }
        match self.exchanges.find(exchange) {
            None => Some(ClientFault::Refused(404)),
            Some(shape) if shape.internal => Some(ClientFault::Refused(403)),
            Some(_) => None,
        }
    }

    /// The names of the queues that the message reaches, in the order of their making.
    ///
    /// # Errors
    ///
    /// For want of memory.
    pub fn reached(&self, message: &Message) -> Result<Vec<Text>, AllocError>
        ensures { IfOk result (λ names. names.items ≡ names_reached message.now self.now) }
    {
        match reach(self.alloc, &self.router, message) {
            Ok(names) => Ok(names),
            Err(e) => Err(e),
        }
    }

    /// Publishes a message; its copies are numbered from `number` on, in the order of their queues.
    ///
    /// # Errors
    ///
    /// 403 for an exchange that belongs to links, 404 for one that isn't there, 403 for an internal one, or for want of
    /// memory; the virtual host is then as it was.
    pub fn publish(&mut self, message: Message, number: CopyNo) -> Result<Accepted, ClientFault>
        requires above { AreAbove number self.old.queues }
        requires fits { number + length self.old.routing.objects < 2 ^ 64 }
        ensures answer { IsAnswer (done result) (unless (refusal_to_publish message.exchange self.old) (Ok tt)) }
        ensures queues { IfOk result (λ accepted. accepted.queues.items ≡ names_reached message self.old) }
        ensures first { IfOk result (λ accepted. accepted.first ≡ first_of number (names_reached message self.old)) }
        ensures entered { OnOk result (self.new ≡ with_copies message number self.old) }
        ensures err { OnErr result (self.new ≡ self.old) }
    {
        if let Some(fault) = self.publish_refusal(message.exchange.as_str()) {
            return Err(fault);
        }
        match spread(self.alloc, &self.router, &mut self.queues, message, number) {
            Ok(accepted) => Ok(accepted),
            Err(_) => Err(ClientFault::Memory),
        }
    }
}
