//! Queues and exchanges are declared.

ghost use Rattle.std.specs.Prelude.{◌≡◌, ◌≢◌, ◌∷◌, ◌++◌, [], true, false, None, Some, Ok, Err, OnOk, OnErr};
ghost use Rattle.std.specs.Str.{bytes_eq};
ghost use Rattle.route_core.specs.declared.object.Sort.TheVariants as sorts;
ghost use Rattle.route_core.specs.declared.object.Node.TheVariants as nodes;
ghost use Rattle.route_core.specs.Routing.{stands, IsNext, with_object};
ghost use Rattle.client_rules.specs.Owners.{owner_of as owner_by};
ghost use Rattle.mini_broker.specs.Answers.{IsAnswer};
ghost use Rattle.broker_store.specs.Mail.{empty};
ghost use Rattle.broker_store.specs.Queues.{queue_of, emptied};
ghost use Rattle.broker_store.specs.Exchanges.{shape_of, declared_shape};
ghost use Rattle.mini_broker.specs.Declare.{is_locked as is_queue_locked, declared_again as queue_again, declare_answer, with_queue, declared_exchange_again as exchange_again, declare_exchange_answer, with_exchange};

use crate::fault::ClientFault;
use crate::vhost::Vhost;
use amqp_props::{QueueOptions, Text};
use broker_store::{Exchanges, Mailbox, Queues, StandingQueue};
use client_rules::{
    Client, ExchangeShape, is_anothers, is_refused_exchange, is_refused_queue, owner_of,
    same_options, same_shape,
};
use route_core::{Node, Router};
use std::alloc::{AllocError, Global};

/// Whether another connection has the queue to itself.
pub(crate) fn is_locked(who: Client, queue: &StandingQueue<Mailbox>) -> bool
    ensures { result ≡ is_queue_locked who queue.now }
{
    is_anothers(who, queue.owner)
}

/// Makes a queue in the router and in the table.
///
/// # Errors
///
/// For want of memory; both are then as they were.
fn stand_queue(
    alloc: Global,
    router: &mut Router,
    queues: &mut Queues,
    name: &str,
    queue: StandingQueue<Mailbox>,
) -> Result<(), AllocError>
    requires free { stands sorts.Queue name.now router.old.routing ≡ false }
    requires next { IsNext (nodes.Queue queue.number) router.old.routing }
    requires absent { queue_of name.now queues.old ≡ None }
    requires bare { queue.mail ≡ empty }
    ensures routing { OnOk result (router.new.routing ≡ with_object name.now (nodes.Queue queue.number) router.old.routing) }
    ensures queues { OnOk result (queues.new ≡ queues.old ++ (name.now, emptied queue) ∷ []) }
    ensures same_routing { OnErr result (router.new.routing ≡ router.old.routing) }
    ensures same_queues { OnErr result (queues.new ≡ queues.old) }
{
    let number = queue.number;
    let key = String::from_str(alloc, name)?;
    let object = Text::from_str(alloc, name)?;
    router.reserve(1, 0)?;
    queues.add(key, queue)?;
    router.put(object, Node::Queue(number));
    Ok(())
}

/// Makes an exchange in the router and in the table.
///
/// # Errors
///
/// For want of memory; both are then as they were.
fn stand_exchange(
    alloc: Global,
    router: &mut Router,
    exchanges: &mut Exchanges,
    name: &str,
    shape: ExchangeShape,
) -> Result<(), AllocError>
    requires free { stands sorts.Exchange name.now router.old.routing ≡ false }
    requires next { IsNext (nodes.Exchange shape.kind) router.old.routing }
    requires absent { declared_shape name.now exchanges.old ≡ None }
    ensures routing { OnOk result (router.new.routing ≡ with_object name.now (nodes.Exchange shape.kind) router.old.routing) }
    ensures exchanges { OnOk result (exchanges.new ≡ exchanges.old ++ (name.now, shape) ∷ []) }
    ensures same_routing { OnErr result (router.new.routing ≡ router.old.routing) }
    ensures same_exchanges { OnErr result (exchanges.new ≡ exchanges.old) }
{
    let key = String::from_str(alloc, name)?;
    let object = Text::from_str(alloc, name)?;
    router.reserve(1, 0)?;
    exchanges.add(key, shape)?;
    router.put(object, Node::Exchange(shape.kind));
    Ok(())
}

/// How the declaration of a queue is answered, by what stands there.
fn declared_again(
    who: Client,
    options: QueueOptions,
    queue: &StandingQueue<Mailbox>,
) -> Result<bool, ClientFault>
    ensures answer { result ≡ queue_again who options (Some queue.now) }
    ensures old { result ≢ Ok true }
    ensures refused { result ≢ Err ClientFault.Memory }
{
    if is_locked(who, queue) {
        Err(ClientFault::Refused(405))
    } else if same_options(queue.options, options) {
        Ok(false)
    } else {
        Err(ClientFault::Refused(406))
    }
}

impl Vhost {
    /// How the declaration of a queue is answered.
    #[tactic(auto, unfolding(crate::specs::Declare::declare_answer))]
    pub fn declares_queue(
        &self,
        who: Client,
        name: &str,
        options: QueueOptions,
    ) -> Result<bool, ClientFault>
        ensures answer { result ≡ declare_answer who name.now options self.now }
        ensures free { result ≡ Ok true → queue_of name.now self.now.queues ≡ None }
        ensures refused { result ≢ Err ClientFault.Memory }
    {
        match self.queues.find(name) {
            Some(_) if is_refused_queue(name, true) => Err(ClientFault::Refused(403)),
            Some(queue) => declared_again(who, options, queue),
            None if is_refused_queue(name, false) => Err(ClientFault::Refused(403)),
            None => Ok(true),
        }
    }

    /// How the declaration of an exchange is answered.
    #[tactic(auto, unfolding(crate::specs::Declare::declare_exchange_answer))]
    pub fn declares_exchange(&self, name: &str, shape: ExchangeShape) -> Result<bool, ClientFault>
        ensures answer { result ≡ declare_exchange_answer name.now shape self.now }
        ensures free { result ≡ Ok true → shape_of name.now self.now.exchanges ≡ None }
        ensures named { result ≡ Ok true → bytes_eq name.now [] ≡ false }
        ensures refused { result ≢ Err ClientFault.Memory }
    {
        match self.exchanges.find(name) {
            Some(_) if is_refused_exchange(name, true) => Err(ClientFault::Refused(403)),
            Some(was) if same_shape(was, shape) => Ok(false),
            Some(_) => Err(ClientFault::Refused(406)),
            None if is_refused_exchange(name, false) => Err(ClientFault::Refused(403)),
            None => Ok(true),
        }
    }

    /// Makes a queue that isn't there, and gives it to the connection to itself, if there is one.
    ///
    /// # Errors
    ///
    /// For want of memory, or where there is no number left; the virtual host is then as it was.
    pub fn make_queue(
        &mut self,
        name: &str,
        options: QueueOptions,
        owner: Option<u32>,
    ) -> Result<(), AllocError>
        requires { queue_of name.now self.old.queues ≡ None }
        ensures made { OnOk result (self.new ≡ with_queue name.now options owner self.old) }
        ensures err { OnErr result (self.new ≡ self.old) }
    {
        if self.made == u32::MAX {
            return Err(AllocError);
        }
        let queue = StandingQueue {
            number: self.made,
            options,
            owner,
            mail: Mailbox::new(self.alloc),
        };
        stand_queue(self.alloc, &mut self.router, &mut self.queues, name, queue)?;
        self.made += 1;
        Ok(())
    }

    /// Makes an exchange that isn't there. The default exchange, whose name is empty, always is.
    ///
    /// # Errors
    ///
    /// For want of memory; the virtual host is then as it was.
    pub fn make_exchange(&mut self, name: &str, shape: ExchangeShape) -> Result<(), AllocError>
        requires free { shape_of name.now self.old.exchanges ≡ None }
        requires named { bytes_eq name.now [] ≡ false }
        ensures made { OnOk result (self.new ≡ with_exchange name.now shape self.old) }
        ensures err { OnErr result (self.new ≡ self.old) }
    {
        stand_exchange(
            self.alloc,
            &mut self.router,
            &mut self.exchanges,
            name,
            shape,
        )?;
        Ok(())
    }

    /// Declares a queue for a client; whether it was made.
    ///
    /// # Errors
    ///
    /// 403 for a name that clients can't use, 405 for a queue that another connection has to itself, 406 for one that
    /// was declared otherwise, or for want of memory; the virtual host is then as it was.
    pub fn declare_queue(
        &mut self,
        who: Client,
        name: &str,
        options: QueueOptions,
    ) -> Result<bool, ClientFault>
        ensures answer { IsAnswer result (declare_answer who name.now options self.old) }
        ensures made { result ≡ Ok true → self.new ≡ with_queue name.now options (owner_by who options) self.old }
        ensures there { result ≡ Ok false → self.new ≡ self.old }
        ensures err { OnErr result (self.new ≡ self.old) }
    {
        if !self.declares_queue(who, name, options)? {
            return Ok(false);
        }
        self.make_queue(name, options, owner_of(who, options))?;
        Ok(true)
    }

    /// Declares an exchange for a client; whether it was made.
    ///
    /// # Errors
    ///
    /// 403 for a name that clients can't use, 406 for an exchange that was declared otherwise, or for want of memory;
    /// the virtual host is then as it was.
    pub fn declare_exchange(
        &mut self,
        name: &str,
        shape: ExchangeShape,
    ) -> Result<bool, ClientFault>
        ensures answer { IsAnswer result (declare_exchange_answer name.now shape self.old) }
        ensures made { result ≡ Ok true → self.new ≡ with_exchange name.now shape self.old }
        ensures there { result ≡ Ok false → self.new ≡ self.old }
        ensures err { OnErr result (self.new ≡ self.old) }
    {
        if !self.declares_exchange(name, shape)? {
            return Ok(false);
        }
        self.make_exchange(name, shape)?;
        Ok(true)
    }
}
