//! What the journal records of a virtual host is done to it.

ghost use Rattle.std.specs.Prelude.{◌≡◌, ◌+◌, ◌<◌, ◌^◌, Some, IfOk, OnOk, OnErr, length};
ghost use Rattle.route_core.specs.Routing.{bound, unbound};
ghost use Rattle.broker_store.specs.Queues.{ready_in, AreAbove, SameNames};
ghost use Rattle.mini_broker.specs.Bind.{with_routing};
ghost use Rattle.broker_store.specs.Consumers.{registered};
ghost use Rattle.mini_broker.specs.Deliver.{handed_over};
ghost use Rattle.mini_broker.specs.Record.{with_entered, holder_as as holder_of_client, with_handed, with_taken, with_settled, with_released};

use crate::deliver::hand_over;
use crate::publish::enter_message;
use crate::settle::sweep_all;
use crate::vhost::Vhost;
use amqp_props::{Message, Text};
use broker_store::{Clients, Queues, Sweep, find_consumer};
use client_rules::Client;
use queue_core::{CopyNo, Holder};
use route_core::{Binding, Router, Sort};
use std::alloc::AllocError;

/// Binds in the router, which keeps its queues and exchanges, unless an end is missing or an equal binding stands.
///
/// # Errors
///
/// For want of memory; the bindings are then as they were.
fn bind_in(router: &mut Router, binding: &Binding) -> Result<(), AllocError>
    ensures objects { router.new.routing.objects ≡ router.old.routing.objects }
    ensures bound { OnOk result (router.new.routing ≡ bound binding.now router.old.routing) }
    ensures err { OnErr result (router.new.routing ≡ router.old.routing) }
{
    let source = binding.source.as_str();
    let dest = binding.dest.as_str();
    if !router.has(Sort::Exchange, source) || !router.has(binding.sort, dest) {
        return Ok(());
    }
    let key = binding.key.as_str();
    match router.bind(source, binding.sort, dest, key, binding.args.as_table()) {
        Ok(true) => Ok(()),
        Ok(false) => Ok(()),
        Err(e) => Err(e),
    }
}

/// Ends the binding in the router, which keeps its queues and exchanges, if there is an equal one.
fn unbind_in(router: &mut Router, binding: &Binding)
    ensures objects { router.new.routing.objects ≡ router.old.routing.objects }
    ensures unbound { router.new.routing ≡ unbound binding.now router.old.routing }
{
    let source = binding.source.as_str();
    let dest = binding.dest.as_str();
    let key = binding.key.as_str();
    if router.unbind(source, binding.sort, dest, key, binding.args.as_table()) {
        return;
    }
}

/// Hands a copy to a client, and numbers the client.
///
/// # Errors
///
/// For want of memory; all is then as it was.
fn hand_to(
    clients: &mut Clients,
    queues: &mut Queues,
    who: Client,
    name: &str,
    copy: CopyNo,
    holder: Holder,
    no_ack: bool,
) -> Result<(), AllocError>
    requires { ready_in name.now queues.old ≡ Some copy }
    ensures clients { OnOk result (clients.new ≡ registered who clients.old) }
    ensures given { OnOk result (queues.new ≡ handed_over name.now copy holder no_ack queues.old) }
    ensures names { SameNames queues.old queues.new }
    ensures same_clients { OnErr result (clients.new ≡ clients.old) }
    ensures same_queues { OnErr result (queues.new ≡ queues.old) }
{
    match clients.register(who) {
        Ok(()) => {
            hand_over(queues, name, copy, holder, no_ack);
            Ok(())
        }
        Err(e) => Err(e),
    }
}

impl Vhost {
    /// Lets copies of the message enter the queues, numbered from `number` on, in their order.
    ///
    /// # Errors
    ///
    /// For want of memory; the virtual host is then as it was.
    pub fn enter(
        &mut self,
        names: &[Text],
        number: CopyNo,
        message: Message,
    ) -> Result<(), AllocError>
        requires above { AreAbove number self.old.queues }
        requires fits { number + length names.now < 2 ^ 64 }
        ensures ok { OnOk result (self.new ≡ with_entered names.now number message self.old) }
        ensures err { OnErr result (self.new ≡ self.old) }
    {
        match enter_message(&mut self.queues, names, number, message) {
            Ok(()) => Ok(()),
            Err(e) => Err(e),
        }
    }

    /// As whom the client holds what it is handed under the tag.
    ///
    /// # Errors
    ///
    /// Where there is no number left for the client.
    fn holder_as(&self, who: Client, tag: &str) -> Result<Holder, AllocError>
        ensures { IfOk result (λ holder. holder ≡ holder_of_client who tag.now self.now) }
    {
        if let Some(consumer) = find_consumer(&self.consumers, who, tag) {
            return Ok(consumer.holder);
        }
        let number = self.clients.number(who)?;
        Ok(Holder {
            link: false,
            number,
            part: 0,
        })
    }

    /// Hands the first ready copy of the queue to the client under the tag, to be acknowledged or for good.
    ///
    /// # Errors
    ///
    /// For want of memory, or where there is no number left for the client; the virtual host is then as it was.
    pub fn hand(
        &mut self,
        who: Client,
        tag: &str,
        name: &str,
        copy: CopyNo,
        no_ack: bool,
    ) -> Result<(), AllocError>
        requires { ready_in name.now self.old.queues ≡ Some copy }
        ensures ok { OnOk result (self.new ≡ with_handed who tag.now name.now copy no_ack self.old) }
        ensures err { OnErr result (self.new ≡ self.old) }
    {
        let holder = self.holder_as(who, tag)?;
        hand_to(
            &mut self.clients,
            &mut self.queues,
            who,
            name,
            copy,
            holder,
            no_ack,
        )?;
        Ok(())
    }

    /// Hands the copy to a session of a link.
    pub fn take(&mut self, copy: CopyNo, holder: Holder)
        ensures { self.new ≡ with_taken copy holder self.old }
    {
        sweep_all(
            &mut self.queues,
            Sweep::Hand {
                number: copy,
                holder,
            },
        );
    }

    /// Makes the copy ready again at its place, as who held it gave it back.
    pub fn release(&mut self, copy: CopyNo)
        ensures { self.new ≡ with_released copy self.old }
    {
        sweep_all(&mut self.queues, Sweep::Requeue(copy));
    }

    /// Removes the copy from its queue, as who held it acknowledged or rejected it.
    pub fn settle(&mut self, copy: CopyNo)
        ensures { self.new ≡ with_settled copy self.old }
    {
        sweep_all(&mut self.queues, Sweep::Settle(copy));
    }

    /// Binds, unless an end is missing or an equal binding stands.
    ///
    /// # Errors
    ///
    /// For want of memory; the virtual host is then as it was.
    pub fn add_binding(&mut self, binding: &Binding) -> Result<(), AllocError>
        ensures ok { OnOk result (self.new ≡ with_routing (bound binding.now self.old.routing) self.old) }
        ensures err { OnErr result (self.new ≡ self.old) }
    {
        match bind_in(&mut self.router, binding) {
            Ok(()) => Ok(()),
            Err(e) => Err(e),
        }
    }

    /// Ends the binding, if there is an equal one.
    pub fn remove_binding(&mut self, binding: &Binding)
        ensures { self.new ≡ with_routing (unbound binding.now self.old.routing) self.old }
    {
        unbind_in(&mut self.router, binding);
    }
}
