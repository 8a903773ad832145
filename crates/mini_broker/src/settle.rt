//! Clients answer for what they hold, empty queues, and brokers store what they hold.

ghost use Rattle.std.specs.Prelude.{◌≡◌, OnOk, OnErr};
ghost use Rattle.broker_store.specs.declared.mailbox.Sweep.TheVariants as sweeps;
ghost use Rattle.broker_store.specs.Mail.{swept, purged};
ghost use Rattle.broker_store.specs.Queues.{ready_count, changed, all_changed, with_mail, is_held_in, SameNames};
ghost use Rattle.mini_broker.specs.Settle.{holds as client_holds, settled, requeued, purge_answer, with_purged, all_swept};

use crate::fault::ClientFault;
use crate::vhost::Vhost;
use broker_store::{Queues, Sweep};
use client_rules::Client;
use queue_core::CopyNo;

/// Does what is done to every queue.
pub(crate) fn sweep_all(queues: &mut Queues, sweep: Sweep)
    ensures swept { queues.new ≡ all_changed (with_mail (swept sweep)) queues.old }
    ensures names { SameNames queues.old queues.new }
{
    queues.sweep(sweep);
}

/// Removes the ready copies of a queue.
fn purge_queue(queues: &mut Queues, name: &str) -> u64
    ensures count { result ≡ ready_count name.now queues.old }
    ensures purged { queues.new ≡ changed name.now (with_mail purged) queues.old }
    ensures names { SameNames queues.old queues.new }
{
    queues.purge(name)
}

/// Removes the copy, if the client holds it.
fn leave_held(queues: &mut Queues, client: u32, number: CopyNo) -> bool
    ensures held { result ≡ is_held_in client number queues.old }
    ensures left { queues.new ≡ all_changed (with_mail (swept (sweeps.Leave client number))) queues.old }
    ensures names { SameNames queues.old queues.new }
{
    let held = queues.is_held_at(client, number);
    sweep_all(queues, Sweep::Leave { client, number });
    held
}

/// Makes the copy ready again, if the client holds it.
fn release_held(queues: &mut Queues, client: u32, number: CopyNo) -> bool
    ensures held { result ≡ is_held_in client number queues.old }
    ensures ready { queues.new ≡ all_changed (with_mail (swept (sweeps.Release client number))) queues.old }
    ensures names { SameNames queues.old queues.new }
{
    let held = queues.is_held_at(client, number);
    sweep_all(queues, Sweep::Release { client, number });
    held
}

impl Vhost {
    /// Acknowledges a copy, which leaves its queue; false exactly where the client doesn't hold it.
    pub fn ack(&mut self, who: Client, copy: CopyNo) -> bool
        ensures held { result ≡ client_holds who copy self.old }
        ensures left { self.new ≡ settled who copy self.old }
    {
        match self.clients.find(who) {
            Some(client) => leave_held(&mut self.queues, client, copy),
            None => false,
        }
    }

    /// Rejects a copy, which leaves its queue; false exactly where the client doesn't hold it.
    pub fn reject(&mut self, who: Client, copy: CopyNo) -> bool
        ensures held { result ≡ client_holds who copy self.old }
        ensures left { self.new ≡ settled who copy self.old }
    {
        self.ack(who, copy)
    }

    /// Gives a copy back, which is ready again at its place; false exactly where the client doesn't hold it.
    pub fn requeue(&mut self, who: Client, copy: CopyNo) -> bool
        ensures held { result ≡ client_holds who copy self.old }
        ensures ready { self.new ≡ requeued who copy self.old }
    {
        match self.clients.find(who) {
            Some(client) => release_held(&mut self.queues, client, copy),
            None => false,
        }
    }

    /// Removes each ready copy of the queue, and gives how many there were.
    ///
    /// # Errors
    ///
    /// 403 for a queue that belongs to links, 404 for one that isn't there, 405 for one that another connection has to
    /// itself; the virtual host is then as it was.
    pub fn purge(&mut self, who: Client, name: &str) -> Result<u64, ClientFault>
        ensures answer { result ≡ purge_answer who name.now self.old }
        ensures purged { OnOk result (self.new ≡ with_purged name.now self.old) }
        ensures err { OnErr result (self.new ≡ self.old) }
    {
        if let Some(fault) = self.queue_refusal(who, name) {
            return Err(fault);
        }
        Ok(purge_queue(&mut self.queues, name))
    }

    /// Removes each ready copy of the queue, if it stands.
    pub fn clear_queue(&mut self, name: &str)
        ensures { self.new ≡ with_purged name.now self.old }
    {
        purge_queue(&mut self.queues, name);
    }

    /// Marks each copy that is in a queue as stored.
    pub fn flush(&mut self)
        ensures { self.new ≡ all_swept sweeps.Store self.old }
    {
        sweep_all(&mut self.queues, Sweep::Store);
    }
}
