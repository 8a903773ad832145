//! A virtual host: what stands in it, and the calls that read it.

ghost use Rattle.std.specs.Prelude.{◌≡◌, [], IfOk};
ghost use Rattle.std.specs.Option.{is_some, option_map, option_map_or, option_and_then};
ghost use Rattle.route_core.specs.Bindings.{has_binding as is_bound};
ghost use Rattle.broker_store.specs.Queues.{queue_of, rows_of, ready_in, ready_count, copy_count};
ghost use Rattle.mini_broker.specs.Deliver.{held_count as count_of_held};
ghost use Rattle.mini_broker.specs.Settle.{holds as client_holds};
ghost use Rattle.broker_store.specs.Exchanges.{shape_of};
ghost use Rattle.mini_broker.specs.Vhosts.{bare, consumer_count};

use crate::deliver::held_count;
use amqp_props::QueueOptions;
use broker_store::{Clients, Consumer, Exchanges, Queues};
use client_rules::{Client, ExchangeShape};
use queue_core::{CopyNo, Holder, Queue};
use route_core::{Binding, Router};
use std::alloc::{AllocError, Global};
use std::marker::Model;

/// What stands in a virtual host.
#[derive(Drop)]
pub struct Vhost {
    pub(crate) alloc: Global,
    pub(crate) router: Router,
    pub(crate) queues: Queues,
    pub(crate) exchanges: Exchanges,
    pub(crate) clients: Clients,
    pub(crate) consumers: Vec<Consumer>,
    pub(crate) made: u32,
    pub(crate) begun: u32,
}

impl Model for Vhost {
    ghost use Rattle.std.specs.Coded.{codes};
    ghost use Rattle.route_core.specs.Codes.{coded_routing};
    ghost use Rattle.amqp_props.specs.contracts.message.Message as message;
    ghost use Rattle.mini_broker.specs.State.{VhostState};

    ghost Value = { VhostState };

    ghost coded = { Prim.hlevel (codes, coded_routing, message.the_row.coded) };

    ghost use Rattle.mini_broker.specs.Inside.{state_of, IsKept};

    ghost view = { state_of };

    ghost invariant = { IsKept };
}

impl Vhost {
    /// A virtual host with the predeclared exchanges alone.
    ///
    /// # Errors
    ///
    /// For want of memory.
    pub fn new(alloc: Global) -> Result<Vhost, AllocError>
        ensures { IfOk result (λ vhost. vhost ≡ bare) }
    {
        Ok(Vhost {
            alloc,
            router: Router::new(alloc)?,
            queues: Queues::new(alloc),
            exchanges: Exchanges::new(alloc),
            clients: Clients::new(alloc),
            consumers: Vec::new(alloc),
            made: 0,
            begun: 0,
        })
    }

    /// What the queue was declared with; None exactly where there is none of that name.
    pub fn queue(&self, name: &str) -> Option<QueueOptions>
        ensures { result ≡ option_map (λ queue. queue.options) (queue_of name.now self.now.queues) }
    {
        let queue = self.queues.find(name)?;
        Some(queue.options)
    }

    /// What the exchange was declared as; None exactly where there is none of that name. The default exchange isn't
    /// among them.
    pub fn exchange(&self, name: &str) -> Option<ExchangeShape>
        ensures { result ≡ shape_of name.now self.now.exchanges }
    {
        self.exchanges.find(name)
    }

    /// The connection that has the queue to itself; None exactly where none has.
    pub fn exclusive_to(&self, name: &str) -> Option<u32>
        ensures { result ≡ option_and_then (λ queue. queue.owner) (queue_of name.now self.now.queues) }
    {
        self.queues.find(name)?.owner
    }

    /// How many copies are ready in the queue; 0 where there is none of that name.
    pub fn ready(&self, name: &str) -> u64
        ensures { result ≡ ready_count name.now self.now.queues }
    {
        match self.queues.find(name) {
            Some(queue) => queue.mail.ready(),
            None => 0,
        }
    }

    /// How many copies are in the queue, ready or held; 0 where there is none of that name.
    pub fn copies(&self, name: &str) -> u64
        ensures { result ≡ copy_count name.now self.now.queues }
    {
        match self.queues.find(name) {
            Some(queue) => queue.mail.count(),
            None => 0,
        }
    }

    /// How many consumers the queue has; 0 where there is none of that name.
    pub fn consumers(&self, name: &str) -> u64
        ensures { result ≡ consumer_count name.now self.now.consumers }
    {
        self.consumers
            .iter()
            .filter(|consumer| consumer.queue.as_str() == name)
            .count() as u64
    }

    /// Whether an equal binding stands.
    pub fn has_binding(&self, binding: &Binding) -> bool
        ensures { result ≡ is_bound binding.now self.now.routing.bindings }
    {
        self.router.has_binding(binding)
    }

    /// The copy that the queue would hand out now; None exactly where no copy is ready there.
    pub fn first_ready(&self, name: &str) -> Option<CopyNo>
        ensures { result ≡ ready_in name.now self.now.queues }
    {
        match self.queues.find(name) {
            Some(queue) => queue.mail.first_ready(),
            None => None,
        }
    }

    /// The copies that are in the queue; None exactly where there is no queue of that name.
    pub fn queue_rows(&self, name: &str) -> Option<&Queue>
        ensures there { is_some result ≡ is_some (queue_of name.now self.now.queues) }
        ensures rows { option_map_or (λ queue. queue.now) result [] ≡ rows_of name.now self.now.queues }
    {
        match self.queues.find(name) {
            Some(queue) => Some(queue.mail.queue()),
            None => None,
        }
    }

    /// How many copies the holder holds in the queue; 0 where there is none of that name.
    pub fn held_count(&self, name: &str, holder: Holder) -> u64
        ensures { result ≡ count_of_held name.now holder self.now.queues }
    {
        held_count(&self.queues, name, holder)
    }

    /// Whether the client holds the copy.
    pub fn holds(&self, who: Client, copy: CopyNo) -> bool
        ensures { result ≡ client_holds who copy self.now }
    {
        match self.clients.find(who) {
            Some(number) => self.queues.is_held_at(number, copy),
            None => false,
        }
    }
}
