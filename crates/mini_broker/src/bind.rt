//! Queues and exchanges are bound to exchanges.

ghost use Rattle.std.specs.Prelude.{◌≡◌, ◌≢◌, true, false, not, is_some, None, Some, Ok, IfOk, IfNone, OnErr};
ghost use Rattle.field_tables.specs.View.{table_view};
ghost use Rattle.route_core.specs.declared.object.Sort.TheVariants as sorts;
ghost use Rattle.route_core.specs.Objects.{has};
ghost use Rattle.route_core.specs.Bindings.{binding_of, has_binding};
ghost use Rattle.route_core.specs.Routing.{with_binding, without_binding};
ghost use Rattle.mini_broker.specs.Answers.{IsAnswer};
ghost use Rattle.mini_broker.specs.Bind.{stands_as as stands_as_end, is_locked_end as is_end_locked, bind_refusal as refusal_of, bind_answer, unbind_answer, with_routing};

use crate::declare::is_locked;
use crate::fault::ClientFault;
use crate::vhost::Vhost;
use client_rules::{Client, is_unbindable};
use field_tables::Table;
use route_core::{Router, Sort};
use std::alloc::AllocError;

/// Binds in the router, which keeps its queues and exchanges.
///
/// # Errors
///
/// For want of memory; the bindings are then as they were.
fn bind_parts(
    router: &mut Router,
    source: &str,
    sort: Sort,
    dest: &str,
    key: &str,
    args: &Table,
) -> Result<bool, AllocError>
    requires source { has sorts.Exchange source.now router.old.routing.objects ≡ true }
    requires dest { has sort dest.now router.old.routing.objects ≡ true }
    ensures objects { router.new.routing.objects ≡ router.old.routing.objects }
    ensures new { IfOk result (λ new. new ≡ not (has_binding (binding_of source.now sort dest.now key.now (table_view args.now)) router.old.routing.bindings)) }
    ensures bound { result ≡ Ok true → router.new.routing ≡ with_binding (binding_of source.now sort dest.now key.now (table_view args.now)) router.old.routing }
    ensures same { result ≡ Ok false → router.new.routing ≡ router.old.routing }
    ensures err { OnErr result (router.new.routing ≡ router.old.routing) }
{
    match router.bind(source, sort, dest, key, args) {
        Ok(true) => Ok(true),
        Ok(false) => Ok(false),
        Err(e) => Err(e),
    }
}

/// Ends a binding in the router, which keeps its queues and exchanges.
fn unbind_parts(
    router: &mut Router,
    source: &str,
    sort: Sort,
    dest: &str,
    key: &str,
    args: &Table,
) -> bool
    ensures objects { router.new.routing.objects ≡ router.old.routing.objects }
    ensures there { result ≡ has_binding (binding_of source.now sort dest.now key.now (table_view args.now)) router.old.routing.bindings }
    ensures gone { result ≡ true → router.new.routing ≡ without_binding (binding_of source.now sort dest.now key.now (table_view args.now)) router.old.routing }
    ensures same { result ≡ false → router.new.routing ≡ router.old.routing }
{
    if router.unbind(source, sort, dest, key, args) {
        true
    } else {
        false
    }
}

impl Vhost {
    /// Whether a queue or an exchange of that name stands.
    fn stands_as(&self, sort: Sort, name: &str) -> bool
        ensures { result ≡ stands_as_end sort name.now self.now }
    {
        match sort {
            Sort::Queue => self.queues.find(name).is_some(),
            Sort::Exchange => self.exchanges.find(name).is_some(),
        }
    }

    /// Whether another connection has it to itself.
    fn is_locked_end(&self, who: Client, sort: Sort, name: &str) -> bool
        ensures { result ≡ is_end_locked who sort name.now self.now }
    {
        match sort {
            Sort::Queue => match self.queues.find(name) {
                Some(queue) => is_locked(who, queue),
                None => false,
            },
            Sort::Exchange => false,
        }
    }

    /// Why a client is refused the binding, if it is.
    #[tactic(auto, unfolding(crate::specs::Bind::bind_refusal))]
    pub fn bind_refusal(
        &self,
        who: Client,
        source: &str,
        sort: Sort,
        dest: &str,
    ) -> Option<ClientFault>
        ensures refusal { result ≡ refusal_of who source.now sort dest.now self.now }
        ensures source { IfNone result (stands_as_end sorts.Exchange source.now self.now ≡ true) }
        ensures dest { IfNone result (stands_as_end sort dest.now self.now ≡ true) }
        ensures refused { result ≢ Some ClientFault.Memory }
    {
        if is_unbindable(source) || is_unbindable(dest) {
            Some(ClientFault::Refused(403))
        } else if !self.stands_as(Sort::Exchange, source) {
            Some(ClientFault::Refused(404))
        } else if !self.stands_as(sort, dest) {
            Some(ClientFault::Refused(404))
        } else if self.is_locked_end(who, sort, dest) {
            Some(ClientFault::Refused(405))
        } else {
            None
        }
    }

    /// Binds a queue or an exchange to an exchange for a client; whether it was bound, which it isn't where an equal
    /// binding stands.
    ///
    /// # Errors
    ///
    /// 403 for a name that can't be bound, 404 for an end that isn't there, 405 for a queue that another connection has
    /// to itself, or for want of memory; the virtual host is then as it was.
    pub fn bind(
        &mut self,
        who: Client,
        source: &str,
        sort: Sort,
        dest: &str,
        key: &str,
        args: &Table,
    ) -> Result<bool, ClientFault>
        ensures answer { IsAnswer result (bind_answer who (binding_of source.now sort dest.now key.now (table_view args.now)) self.old) }
        ensures bound { result ≡ Ok true → self.new ≡ with_routing (with_binding (binding_of source.now sort dest.now key.now (table_view args.now)) self.old.routing) self.old }
        ensures same { result ≡ Ok false → self.new ≡ self.old }
        ensures err { OnErr result (self.new ≡ self.old) }
    {
        if let Some(fault) = self.bind_refusal(who, source, sort, dest) {
            return Err(fault);
        }
        Ok(bind_parts(&mut self.router, source, sort, dest, key, args)?)
    }

    /// Ends a binding for a client; whether there was an equal one.
    ///
    /// # Errors
    ///
    /// As for `bind`; the virtual host is then as it was.
    pub fn unbind(
        &mut self,
        who: Client,
        source: &str,
        sort: Sort,
        dest: &str,
        key: &str,
        args: &Table,
    ) -> Result<bool, ClientFault>
        ensures answer { IsAnswer result (unbind_answer who (binding_of source.now sort dest.now key.now (table_view args.now)) self.old) }
        ensures unbound { result ≡ Ok true → self.new ≡ with_routing (without_binding (binding_of source.now sort dest.now key.now (table_view args.now)) self.old.routing) self.old }
        ensures same { result ≡ Ok false → self.new ≡ self.old }
        ensures err { OnErr result (self.new ≡ self.old) }
    {
        if let Some(fault) = self.bind_refusal(who, source, sort, dest) {
            return Err(fault);
        }
        Ok(unbind_parts(&mut self.router, source, sort, dest, key, args))
    }
}
