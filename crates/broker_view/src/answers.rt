//! How the brokers of a run answer clients: each refusal is the virtual host's own.

ghost use Rattle.std.specs.Prelude.{◌≡◌, true};
ghost use Rattle.std.specs.Option.{option_map};
ghost use Rattle.fed_journal.specs.Configuration.{is_place as is_place_of};
ghost use Rattle.fed_journal.specs.Row as rows;
ghost use Rattle.fed_journal.specs.Declare.{queue_declared, exchange_declared};
ghost use Rattle.fed_journal.specs.Bind as bindings;
ghost use Rattle.fed_journal.specs.Consume as consumers;
ghost use Rattle.fed_journal.specs.Publish as publications;
ghost use Rattle.broker_view.specs.Reasons.{reason_of, with_reason};

use crate::run::Run;
use amqp_props::{QueueOptions, Text};
use fed_journal::place::{Client, ExchangeShape, Place};
use fed_journal::reason::Reason;
use mini_broker::ClientFault;
use route_core::Binding;

/// A client of a schedule: a connection with channel 1.
pub fn channel_of(client: u16) -> Client
    ensures { result ≡ rows.channel_of client }
{
    Client {
        connection: u32::from(client),
        channel: 1,
    }
}

/// The reason that the fault is; want of memory is 506, RESOURCE_ERROR (AMQP 0-9-1, 1.2).
fn reason_of(fault: ClientFault) -> Reason
    ensures { result ≡ reason_of fault }
{
    match fault {
        ClientFault::Refused(code) => Reason::Refused(code),
        ClientFault::NoConsumer => Reason::NoConsumer,
        ClientFault::Busy => Reason::Busy,
        ClientFault::Empty => Reason::Empty,
        ClientFault::Memory => Reason::Refused(506),
    }
}

/// The reason that the fault is, if there is one.
fn reason_in(fault: Option<ClientFault>) -> Option<Reason>
    ensures { result ≡ option_map reason_of fault }
{
    match fault {
        Some(fault) => Some(reason_of(fault)),
        None => None,
    }
}

/// An answer with its fault as a reason.
fn with_reason(answer: Result<bool, ClientFault>) -> Result<bool, Reason>
    ensures { result ≡ with_reason answer }
{
    match answer {
        Ok(made) => Ok(made),
        Err(fault) => Err(reason_of(fault)),
    }
}

impl<'a> Run<'a> {
    /// Why a client is refused the use of the queue, if it is.
    pub fn queue_refusal(&self, place: &Place, client: u16, queue: &Text) -> Option<Reason>
        requires { is_place_of self.now place.now ≡ true }
        ensures { result ≡ rows.queue_refusal self.now place.now client queue.now }
    {
        let vhost = self.vhost(place)?;
        reason_in(vhost.queue_refusal(channel_of(client), queue.as_str()))
    }

    /// Why a client is refused a consumer of the queue under the tag, if it is.
    pub fn consume_refusal(
        &self,
        place: &Place,
        client: u16,
        queue: &Text,
        tag: &Text,
    ) -> Option<Reason>
        requires { is_place_of self.now place.now ≡ true }
        ensures { result ≡ consumers.consume_refusal self.now place.now client queue.now tag.now }
    {
        let vhost = self.vhost(place)?;
        let who = channel_of(client);
        reason_in(vhost.consume_refusal(who, queue.as_str(), tag.as_str()))
    }

    /// Whether the declaration of a queue makes it, or why the client is refused it.
    pub fn declares_queue(
        &self,
        place: &Place,
        client: u16,
        queue: &Text,
        options: QueueOptions,
    ) -> Result<bool, Reason>
        requires { is_place_of self.now place.now ≡ true }
        ensures { result ≡ queue_declared self.now place.now client queue.now options }
    {
        match self.vhost(place) {
            Some(vhost) => {
                with_reason(vhost.declares_queue(channel_of(client), queue.as_str(), options))
            }
            None => Err(Reason::NoPlace),
        }
    }

    /// Whether the declaration of an exchange makes it, or why it is refused.
    pub fn declares_exchange(
        &self,
        place: &Place,
        exchange: &Text,
        shape: ExchangeShape,
    ) -> Result<bool, Reason>
        requires { is_place_of self.now place.now ≡ true }
        ensures { result ≡ exchange_declared self.now place.now exchange.now shape }
    {
        match self.vhost(place) {
            Some(vhost) => with_reason(vhost.declares_exchange(exchange.as_str(), shape)),
            None => Err(Reason::NoPlace),
        }
    }

    /// Why a client is refused the binding, if it is.
    pub fn bind_refusal(&self, place: &Place, client: u16, binding: &Binding) -> Option<Reason>
        requires { is_place_of self.now place.now ≡ true }
        ensures { result ≡ bindings.bind_refusal self.now place.now client binding.now }
    {
        let vhost = self.vhost(place)?;
        let source = binding.source.as_str();
        let dest = binding.dest.as_str();
        reason_in(vhost.bind_refusal(channel_of(client), source, binding.sort, dest))
    }

    /// Why a client is refused to publish to the exchange, if it is.
    pub fn publish_refusal(&self, place: &Place, exchange: &Text) -> Option<Reason>
        requires { is_place_of self.now place.now ≡ true }
        ensures { result ≡ publications.publish_refusal self.now place.now exchange.now }
    {
        let vhost = self.vhost(place)?;
        reason_in(vhost.publish_refusal(exchange.as_str()))
    }
}
