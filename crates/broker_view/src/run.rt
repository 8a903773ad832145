//! A run so far: the entries of its journal, and the virtual hosts that they lead to, which answer for them.

ghost use Rattle.std.specs.Prelude.{◌≡◌, ◌==◌, ◌≤◌, true, not, is_some, find, length, codes, IfOk, IfSome};
ghost use Rattle.std.specs.Option.{option_copied, option_map};
ghost use Rattle.fed_journal.specs.Limits.{most_entries};
ghost use Rattle.fed_journal.specs.Names.{same_text};
ghost use Rattle.fed_journal.specs.Configuration.{is_broker as is_broker_of, is_place as is_place_of, queue_options as options_of, queue_owner as owner_of, is_locked as is_queue_locked, is_exclusive as is_queue_exclusive, queues_owned as owned_queues, exchange_shape as shape_of_exchange};
ghost use Rattle.fed_journal.specs.Routes.{is_bound as is_binding_bound, routes as routes_of};
ghost use Rattle.fed_journal.specs.Holds.{first_ready as first_ready_of, ready_count as count_of_ready, is_held_by as is_copy_held_by};
ghost use Rattle.fed_journal.specs.Consumers as journal;
ghost use Rattle.fed_journal.specs.Copies.{is_secured};
ghost use Rattle.fed_journal.specs.Flight.{flight_published};
ghost use Rattle.broker_view.specs.Confirms.{HasConfirms, HasPublications, ArePublishedAt};
ghost use Rattle.broker_view.specs.View.{IsView};
ghost use Rattle.broker_view.specs.Asked.{asked_by};
ghost use Rattle.broker_view.specs.Hosts.{AreViews};

use crate::host::Host;
use amqp_props::{Message, QueueOptions, Text};
use fed_journal::entry::Entry;
use fed_journal::place::{Client, ExchangeShape, Place};
use fed_journal::text::Names;
use mini_broker::Vhost;
use route_core::Binding;
use std::alloc::{AllocError, Global};
use std::marker::Model;

/// The entries of a journal with the virtual hosts that they lead to, seen as the entries.
#[derive(Drop)]
pub struct Run<'a> {
    entries: &'a [Entry],
    hosts: &'a [Host],
}

impl<'a> Model for Run<'a> {
    ghost use Rattle.std.specs.Prelude.{List};
    ghost use Rattle.std.specs.Coded.{codes};
    ghost use Rattle.fed_journal.specs.declared.entry.Entry.{Entry};
    ghost use Rattle.fed_journal.specs.contracts.entry.Entry as entry;
    ghost use Rattle.broker_view.specs.Hosts.{AreViews};

    ghost Value = { List Entry };

    ghost coded = { Prim.hlevel (codes, entry.the_row.coded) };

    ghost view = { λ r. r.entries.now };

    ghost invariant = { λ r. AreViews r.entries.now r.hosts.now };
}

/// What a client asked for when it began to consume, and what it holds.
#[derive(Clone, Copy)]
pub struct Subscription<'a> {
    /// The queue.
    pub queue: &'a Text,
    /// Whether its copies leave as they are delivered.
    pub no_ack: bool,
    /// The most unacknowledged copies that it may hold; 0 is no limit.
    pub prefetch: u16,
    /// How many copies of the queue it holds unacknowledged.
    pub held: u64,
}

/// The host of the broker.
fn find_host<'a>(hosts: &'a [Host], broker: &Text) -> Option<&'a Host>
    ensures { option_copied result ≡ find (λ host. same_text host.broker broker.now) hosts.now }
{
    hosts.iter().find(|host| host.broker == *broker)
}

/// Whether it is the name of the virtual host that each broker has.
fn is_slash(vhost: &Text) -> bool
    ensures { result ≡ same_text vhost.now (codes "/") }
{
    vhost.as_str() == "/"
}

impl<'a> Run<'a> {
    /// The entries with the virtual hosts that they lead to.
    pub fn new(entries: &'a [Entry], hosts: &'a [Host]) -> Run<'a>
        requires { AreViews entries.now hosts.now }
        ensures { result ≡ entries.now }
    {
        Run { entries, hosts }
    }

    /// The entries, oldest first.
    pub fn entries(&self) -> &'a [Entry]
        ensures { result.now ≡ self.now }
    {
        self.entries
    }

    /// Whether the run began with the broker.
    pub fn is_broker(&self, broker: &Text) -> bool
        ensures { result ≡ is_broker_of self.now broker.now }
    {
        find_host(self.hosts, broker).is_some()
    }

    /// The host of the place; None exactly where the place isn't one of the run.
    #[tactic(auto, unfolding(fed_journal::specs::Configuration::is_place))]
    fn host(&self, place: &Place) -> Option<&'a Host>
        ensures known { is_some result ≡ is_place_of self.now place.now }
        ensures view { IfSome result (λ host. IsView self.now place.now host.now.vhost) }
        ensures confirms { IfSome result (λ host. HasConfirms self.now place.now host.now.confirms) }
        ensures published { IfSome result (λ host. HasPublications self.now) }
    {
        if !is_slash(&place.vhost) {
            return None;
        }
        match find_host(self.hosts, &place.broker) {
            Some(host) => Some(host),
            None => None,
        }
    }

    /// The virtual host of the place; None exactly where the place isn't one of the run.
    pub(crate) fn vhost(&self, place: &Place) -> Option<&'a Vhost>
        ensures known { is_some result ≡ is_place_of self.now place.now }
        ensures view { IfSome result (λ vhost. IsView self.now place.now vhost.now) }
    {
        match self.host(place) {
            Some(host) => Some(&host.vhost),
            None => None,
        }
    }

    /// Whether the place is one of the run.
    pub fn is_place(&self, place: &Place) -> bool
        ensures { result ≡ is_place_of self.now place.now }
    {
        self.vhost(place).is_some()
    }

    /// What the queue was declared with, if it stands.
    pub fn queue_options(&self, place: &Place, queue: &Text) -> Option<QueueOptions>
        requires { is_place_of self.now place.now ≡ true }
        ensures { result ≡ options_of self.now place.now queue.now }
    {
        self.vhost(place)?.queue(queue.as_str())
    }

    /// The connection that has the queue to itself.
    fn owner(&self, place: &Place, queue: &Text) -> Option<u32>
        requires { is_place_of self.now place.now ≡ true }
        ensures { result ≡ owner_of self.now place.now queue.now }
    {
        self.vhost(place)?.exclusive_to(queue.as_str())
    }

    /// Whether another connection has the queue to itself.
    pub fn is_locked(&self, place: &Place, queue: &Text, connection: u32) -> bool
        requires { is_place_of self.now place.now ≡ true }
        ensures { result ≡ is_queue_locked self.now place.now queue.now connection }
    {
        match self.owner(place, queue) {
            Some(owner) => owner != connection,
            None => false,
        }
    }

    /// Whether the queue stands, and one connection has it to itself.
    pub fn is_exclusive(&self, place: &Place, queue: &Text) -> bool
        requires { is_place_of self.now place.now ≡ true }
        ensures { result ≡ is_queue_exclusive self.now place.now queue.now }
    {
        match self.queue_options(place, queue) {
            Some(options) => options.exclusive,
            None => false,
        }
    }

    /// The queues that the connection has to itself, in the order of making.
    ///
    /// # Errors
    ///
    /// For want of memory.
    pub fn queues_owned(
        &self,
        alloc: Global,
        place: &Place,
        connection: u32,
    ) -> Result<Vec<Text>, AllocError>
        requires { is_place_of self.now place.now ≡ true }
        ensures { IfOk result (λ names. names.items ≡ owned_queues self.now place.now connection) }
    {
        match self.vhost(place) {
            Some(vhost) => vhost.owned(connection),
            None => Ok(Vec::new(alloc)),
        }
    }

    /// What the exchange was declared as, if it stands and isn't the default one.
    pub fn exchange_shape(&self, place: &Place, exchange: &Text) -> Option<ExchangeShape>
        requires { is_place_of self.now place.now ≡ true }
        ensures { result ≡ shape_of_exchange self.now place.now exchange.now }
    {
        self.vhost(place)?.exchange(exchange.as_str())
    }

    /// Whether an equal binding stands at the place.
    pub fn is_bound(&self, place: &Place, binding: &Binding) -> bool
        requires { is_place_of self.now place.now ≡ true }
        ensures { result ≡ is_binding_bound self.now place.now binding.now }
    {
        match self.vhost(place) {
            Some(vhost) => vhost.has_binding(binding),
            None => false,
        }
    }

    /// The names of the queues that the message reaches.
    fn reached(
        &self,
        alloc: Global,
        place: &Place,
        message: &Message,
    ) -> Result<Vec<Text>, AllocError>
        requires { is_place_of self.now place.now ≡ true }
        ensures { IfOk result (λ names. names.items ≡ routes_of self.now place.now message.now) }
    {
        match self.vhost(place) {
            Some(vhost) => vhost.reached(message),
            None => Ok(Vec::new(alloc)),
        }
    }

    /// The queues that the message reaches, in the order of their making.
    ///
    /// # Errors
    ///
    /// For want of memory.
    pub fn routes(
        &self,
        alloc: Global,
        place: &Place,
        message: &Message,
    ) -> Result<Names, AllocError>
        requires place { is_place_of self.now place.now ≡ true }
        requires within { length self.now ≤ most_entries }
        ensures { IfOk result (λ names. names ≡ routes_of self.now place.now message.now) }
    {
        let names = self.reached(alloc, place, message)?;
        Ok(Names::new(names))
    }

    /// What the client's consumer of the tag asked for, and how many copies it holds.
    pub fn consumer(&self, place: &Place, client: Client, tag: &Text) -> Option<Subscription<'a>>
        requires { is_place_of self.now place.now ≡ true }
        ensures consumer { option_map asked_by result ≡ journal.consumer self.now place.now client tag.now }
        ensures held { IfSome result (λ consumer. consumer.held ≡ journal.held_count self.now place.now client tag.now consumer.queue.now) }
    {
        let vhost = self.vhost(place)?;
        let consumer = vhost.consumer(client, tag.as_str())?;
        Some(Subscription {
            queue: &consumer.queue,
            no_ack: consumer.no_ack,
            prefetch: consumer.prefetch,
            held: vhost.held_count(consumer.queue.as_str(), consumer.holder),
        })
    }

    /// The copy that the queue would hand out now.
    pub fn first_ready(&self, place: &Place, queue: &Text) -> Option<u64>
        requires { is_place_of self.now place.now ≡ true }
        ensures { result ≡ first_ready_of self.now place.now queue.now }
    {
        self.vhost(place)?.first_ready(queue.as_str())
    }

    /// How many copies of the queue are ready.
    pub fn ready_count(&self, place: &Place, queue: &Text) -> u64
        requires { is_place_of self.now place.now ≡ true }
        ensures { result ≡ count_of_ready self.now place.now queue.now }
    {
        match self.vhost(place) {
            Some(vhost) => vhost.ready(queue.as_str()),
            None => 0,
        }
    }

    /// Whether the client holds the copy.
    pub fn is_held_by(&self, place: &Place, client: Client, copy: u64) -> bool
        requires { is_place_of self.now place.now ≡ true }
        ensures { result ≡ is_copy_held_by self.now place.now client copy }
    {
        match self.vhost(place) {
            Some(vhost) => vhost.holds(client, copy),
            None => false,
        }
    }

    /// Whether the session, which published at the place alone, awaits the confirm of any publication.
    pub fn is_awaited(&self, place: &Place, link: &Text, session: u32) -> bool
        requires place { is_place_of self.now place.now ≡ true }
        requires there { ArePublishedAt self.now place.now link.now session }
        ensures { result ≡ not (length (flight_published self.now link.now session) == 0) }
    {
        match self.host(place) {
            Some(host) => host.confirms.is_awaited(link, session),
            None => false,
        }
    }

    /// The first publication that is secured, of those of which the session awaits the confirms. It published at the
    /// place alone.
    pub fn first_secured(&self, place: &Place, link: &Text, session: u32) -> Option<u64>
        requires place { is_place_of self.now place.now ≡ true }
        requires there { ArePublishedAt self.now place.now link.now session }
        ensures { result ≡ find (is_secured self.now) (flight_published self.now link.now session) }
    {
        self.host(place)?.confirms.next_ready(link, session)
    }
}
