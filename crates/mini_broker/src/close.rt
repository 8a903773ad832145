//! Connections end, and queues go.

ghost use Rattle.std.specs.Prelude.{◌≡◌, ◌≤◌, true, false, not, is_some, IfOk, OnOk, OnErr, filter, fold, length};
ghost use Rattle.route_core.specs.declared.object.Sort.TheVariants as sorts;
ghost use Rattle.route_core.specs.Objects.{has};
ghost use Rattle.route_core.specs.Routing.{without_object};
ghost use Rattle.broker_store.specs.Queues.{queue_of, others, owned_names, StandInTurn};
ghost use Rattle.mini_broker.specs.Close.{is_on, consumes_from, freed_from, disconnected, without_queue, closed};

use crate::vhost::Vhost;
use amqp_props::Text;
use broker_store::{Consumer, Queues, Sweep};
use client_rules::Client;
use route_core::{Router, Sort};
use std::alloc::AllocError;

/// Makes each copy ready again that a client of the connection holds.
fn free_held(queues: &mut Queues, clients: &[Client], connection: u32)
    requires { length clients.now ≤ 4294967296 }
    ensures { queues.new ≡ freed_from connection 0 clients.now queues.old }
{
    for (number, client) in clients.iter().enumerate() {
        if client.connection == connection {
            queues.sweep(Sweep::Free(number as u32));
        }
    }
}

/// Ends the consumers of the connection.
fn end_consumers_on(consumers: &mut Vec<Consumer>, connection: u32)
    ensures { consumers.new.items ≡ filter (λ consumer. not (is_on connection consumer)) consumers.old.items }
{
    consumers.retain(|consumer| consumer.client.connection != connection);
}

/// Ends the consumers from the queue.
fn end_consumers_from(consumers: &mut Vec<Consumer>, name: &str)
    ensures { consumers.new.items ≡ filter (λ consumer. not (consumes_from name.now consumer)) consumers.old.items }
{
    consumers.retain(|consumer| consumer.queue.as_str() != name);
}

/// Removes a queue from the router and from the table; false exactly where there is none of that name.
fn remove_named(router: &mut Router, queues: &mut Queues, name: &str) -> bool
    requires { has sorts.Queue name.now router.old.routing.objects ≡ is_some (queue_of name.now queues.old) }
    ensures there { result ≡ is_some (queue_of name.now queues.old) }
    ensures routing { result ≡ true → router.new.routing ≡ without_object sorts.Queue name.now router.old.routing }
    ensures queues { result ≡ true → queues.new ≡ others name.now queues.old }
    ensures same_routing { result ≡ false → router.new.routing ≡ router.old.routing }
    ensures same_queues { result ≡ false → queues.new ≡ queues.old }
{
    if !router.delete(Sort::Queue, name) {
        return false;
    }
    queues.remove(name);
    true
}

impl Vhost {
    /// Ends the consumers of the connection, and makes each copy ready again that it holds.
    pub fn disconnect(&mut self, connection: u32)
        ensures { self.new ≡ disconnected connection self.old }
    {
        free_held(&mut self.queues, self.clients.as_slice(), connection);
        end_consumers_on(&mut self.consumers, connection);
    }

    /// Removes a queue with its copies, its bindings and its consumers; false exactly where there is none of that name.
    pub fn remove_queue(&mut self, name: &str) -> bool
        ensures there { result ≡ is_some (queue_of name.now self.old.queues) }
        ensures gone { result ≡ true → self.new ≡ without_queue name.now self.old }
        ensures none { result ≡ false → self.new ≡ self.old }
    {
        if !remove_named(&mut self.router, &mut self.queues, name) {
            return false;
        }
        end_consumers_from(&mut self.consumers, name);
        true
    }

    /// Removes queues, one after the other.
    fn remove_queues(&mut self, names: &[Text])
        requires { StandInTurn names.now self.old.queues }
        ensures { self.new ≡ fold (λ v name. without_queue name v) self.old names.now }
    {
        for name in names {
            self.remove_queue(name.as_str());
        }
    }

    /// The names of the queues that the connection has to itself, in the order of making.
    ///
    /// # Errors
    ///
    /// For want of memory.
    pub fn owned(&self, connection: u32) -> Result<Vec<Text>, AllocError>
        ensures names { IfOk result (λ names. names.items ≡ owned_names connection self.now.queues) }
        ensures standing { IfOk result (λ names. StandInTurn names.items self.now.queues) }
    {
        self.queues.owned(self.alloc, connection)
    }

    /// Ends a connection, and removes the queues that it has to itself; gives their names, in the order of making.
    ///
    /// # Errors
    ///
    /// For want of memory; the virtual host is then as it was.
    pub fn close(&mut self, connection: u32) -> Result<Vec<Text>, AllocError>
        ensures names { IfOk result (λ names. names.items ≡ owned_names connection self.old.queues) }
        ensures closed { OnOk result (self.new ≡ closed connection self.old) }
        ensures err { OnErr result (self.new ≡ self.old) }
    {
        let names = self.owned(connection)?;
        self.disconnect(connection);
        self.remove_queues(&names);
        Ok(names)
    }
}
