//! The router of a virtual host.

ghost use Rattle.std.specs.Prelude.{◌≡◌, ◌↔◌, ◌-◌, ◌+◌, ◌<◌, ◌≤◌, [], true, false, not, IfOk, OnOk, OnErr, length, max, slice_get};
ghost use Rattle.std.specs.Option.{option_map};
ghost use Rattle.field_tables.specs.View.{table_view};
ghost use Rattle.route_core.specs.declared.object.Sort.TheVariants as sorts;
ghost use Rattle.route_core.specs.Objects.{has as has_object, sort_of};
ghost use Rattle.route_core.specs.Bindings.{binding_of, has_binding as has_same};
ghost use Rattle.route_core.specs.Routing.{predeclared as predeclared_exchanges, stands, IsNext, with_object, without_object, with_binding, without_binding, bindings_from, key_and_arguments};
ghost use Rattle.route_core.specs.Walks.{publish, AreRoutes, IsWalkLimit};
ghost use Rattle.route_core.specs.Routes.{routed_names, routed_numbers, walk_limit};

use crate::binding::{
    Asked, Binding, binding_at, chain_sources, has_binding, remove_binding, remove_ends,
    source_code,
};
use crate::chains::Chains;
use crate::fault::RouteFault;
use crate::object::{Node, Object, QueueNo, Sort, has, predeclared, remove_object};
use crate::routes::{named, names_named, names_walked, walked};
use crate::walking::Publication;
use amqp_props::{FieldTable, Text};
use field_tables::Table;
use std::alloc::{AllocError, Global};
use std::marker::Model;

/// The exchanges, queues and bindings of a virtual host, and room for more.
#[derive(Drop)]
pub struct Router {
    objects: Vec<Object>,
    bindings: Vec<Binding>,
    /// The bindings by the exchange that they leave.
    sources: Chains,
    spare_objects: usize,
    spare_bindings: usize,
}

impl Model for Router {
    ghost use Rattle.route_core.specs.Routing.{RouterState};
    ghost use Rattle.route_core.specs.Codes.{coded_state};

    ghost Value = { RouterState };

    ghost coded = { coded_state };

    ghost use Rattle.route_core.specs.Inside.{state_of, IsKept};

    ghost view = { state_of };

    ghost invariant = { IsKept };
}

impl Router {
    /// A router with the predeclared exchanges.
    ///
    /// # Errors
    ///
    /// For want of memory.
    pub fn new(alloc: Global) -> Result<Router, AllocError>
        ensures objects { IfOk result (λ router. router.routing.objects ≡ predeclared_exchanges) }
        ensures bindings { IfOk result (λ router. router.routing.bindings ≡ []) }
    {
        Ok(Router {
            objects: predeclared(alloc)?,
            bindings: Vec::new(alloc),
            sources: Chains::new(alloc)?,
            spare_objects: 0,
            spare_bindings: 0,
        })
    }

    /// Makes a queue or an exchange.
    ///
    /// # Errors
    ///
    /// For want of memory; the router is then as it was.
    pub fn declare(&mut self, name: &str, node: Node) -> Result<(), AllocError>
        requires free { stands (sort_of node) name.now self.old.routing ≡ false }
        requires next { IsNext node self.old.routing }
        ensures made { OnOk result (self.new.routing ≡ with_object name.now node self.old.routing) }
        ensures objects { OnOk result (self.new.spare_objects ≡ self.old.spare_objects - 1) }
        ensures bindings { self.new.spare_bindings ≡ self.old.spare_bindings }
        ensures err { OnErr result (self.new ≡ self.old) }
    {
        let name = Text::from_str(*self.objects.allocator(), name)?;
        self.reserve(1, 0)?;
        self.put(name, node);
        Ok(())
    }

    /// Removes a queue or an exchange with its bindings; false exactly where there is none of that name.
    pub fn delete(&mut self, sort: Sort, name: &str) -> bool
        ensures there { result ≡ has_object sort name.now self.old.routing.objects }
        ensures gone { result ≡ true → self.new.routing ≡ without_object sort name.now self.old.routing }
        ensures objects { self.new.spare_objects ≡ self.old.spare_objects }
        ensures bindings { self.new.spare_bindings ≡ self.old.spare_bindings }
        ensures none { result ≡ false → self.new ≡ self.old }
    {
        if !has(&self.objects, sort, name) {
            return false;
        }
        remove_object(&mut self.objects, sort, name);
        remove_ends(&mut self.bindings, sort, name);
        chain_sources(&mut self.sources, &self.bindings);
        true
    }

    /// Whether a queue or an exchange of that name stands; the default exchange is not among them.
    pub fn has(&self, sort: Sort, name: &str) -> bool
        ensures { result ≡ has_object sort name.now self.now.routing.objects }
    {
        has(&self.objects, sort, name)
    }

    /// Whether an equal binding stands.
    pub fn has_binding(&self, binding: &Binding) -> bool
        ensures { result ≡ has_same binding.now self.now.routing.bindings }
    {
        has_binding(&self.bindings, binding.as_asked())
    }

    /// Binds a queue or an exchange to an exchange; false exactly where an equal binding stands.
    ///
    /// # Errors
    ///
    /// For want of memory; the router is then as it was.
    pub fn bind(
        &mut self,
        source: &str,
        sort: Sort,
        dest: &str,
        key: &str,
        args: &Table,
    ) -> Result<bool, AllocError>
        requires source { has_object sorts.Exchange source.now self.old.routing.objects ≡ true }
        requires dest { has_object sort dest.now self.old.routing.objects ≡ true }
        ensures new { IfOk result (λ new. new ≡ not (has_same (binding_of source.now sort dest.now key.now (table_view args.now)) self.old.routing.bindings)) }
        ensures bound { result ≡ Ok true → self.new.routing ≡ with_binding (binding_of source.now sort dest.now key.now (table_view args.now)) self.old.routing }
        ensures same { result ≡ Ok false → self.new ≡ self.old }
        ensures objects { self.new.spare_objects ≡ self.old.spare_objects }
        ensures bindings { result ≡ Ok true → self.new.spare_bindings ≡ self.old.spare_bindings - 1 }
        ensures err { OnErr result (self.new ≡ self.old) }
    {
        let asked = Asked {
            source,
            sort,
            dest,
            key,
            args,
        };
        if has_binding(&self.bindings, asked) {
            return Ok(false);
        }
        let binding = Binding::from_parts(*self.bindings.allocator(), asked)?;
        self.reserve(0, 1)?;
        self.add(binding);
        Ok(true)
    }

    /// Removes the equal binding; false exactly where there is none.
    pub fn unbind(&mut self, source: &str, sort: Sort, dest: &str, key: &str, args: &Table) -> bool
        ensures there { result ≡ has_same (binding_of source.now sort dest.now key.now (table_view args.now)) self.old.routing.bindings }
        ensures gone { result ≡ true → self.new.routing ≡ without_binding (binding_of source.now sort dest.now key.now (table_view args.now)) self.old.routing }
        ensures objects { self.new.spare_objects ≡ self.old.spare_objects }
        ensures bindings { self.new.spare_bindings ≡ self.old.spare_bindings }
        ensures none { result ≡ false → self.new ≡ self.old }
    {
        let asked = Asked {
            source,
            sort,
            dest,
            key,
            args,
        };
        if !has_binding(&self.bindings, asked) {
            return false;
        }
        remove_binding(&mut self.bindings, asked);
        chain_sources(&mut self.sources, &self.bindings);
        true
    }

    /// Takes memory ahead for so many objects and bindings.
    ///
    /// # Errors
    ///
    /// For want of memory; the router is then as it was.
    pub fn reserve(&mut self, objects: usize, bindings: usize) -> Result<(), AllocError>
        ensures routing { self.new.routing ≡ self.old.routing }
        ensures objects { OnOk result (self.new.spare_objects ≡ max self.old.spare_objects objects) }
        ensures bindings { OnOk result (self.new.spare_bindings ≡ max self.old.spare_bindings bindings) }
        ensures err { OnErr result (self.new ≡ self.old) }
    {
        self.objects.reserve(objects)?;
        self.bindings.reserve(bindings)?;
        self.sources.reserve(bindings)?;
        self.spare_objects = self.spare_objects.max(objects);
        self.spare_bindings = self.spare_bindings.max(bindings);
        Ok(())
    }

    /// Makes a queue or an exchange. Takes no memory.
    pub fn put(&mut self, name: Text, node: Node)
        requires spare { 0 < self.old.spare_objects }
        requires free { stands (sort_of node) name self.old.routing ≡ false }
        requires next { IsNext node self.old.routing }
        ensures made { self.new.routing ≡ with_object name node self.old.routing }
        ensures objects { self.new.spare_objects + 1 ≡ self.old.spare_objects }
        ensures bindings { self.new.spare_bindings ≡ self.old.spare_bindings }
    {
        match self.objects.push(Object { name, node }) {
            Ok(()) => {}
            Err(_) => unreachable!(),
        }
        self.spare_objects -= 1;
    }

    /// Binds a queue or an exchange to an exchange; false exactly where an equal binding stands. Takes no memory.
    pub fn tie(&mut self, source: Text, sort: Sort, dest: Text, key: Text, args: FieldTable) -> bool
        requires spare { 0 < self.old.spare_bindings }
        requires source { has_object sorts.Exchange source self.old.routing.objects ≡ true }
        requires dest { has_object sort dest self.old.routing.objects ≡ true }
        ensures new { result ≡ not (has_same (binding_of source sort dest key args) self.old.routing.bindings) }
        ensures bound { result ≡ true → self.new.routing ≡ with_binding (binding_of source sort dest key args) self.old.routing }
        ensures same { result ≡ false → self.new ≡ self.old }
        ensures objects { self.new.spare_objects ≡ self.old.spare_objects }
        ensures bindings { result ≡ true → self.new.spare_bindings + 1 ≡ self.old.spare_bindings }
    {
        let binding = Binding {
            source,
            sort,
            dest,
            key,
            args,
        };
        if has_binding(&self.bindings, binding.as_asked()) {
            return false;
        }
        self.add(binding);
        true
    }

    /// Adds a binding that isn't there.
    fn add(&mut self, binding: Binding)
        requires { 0 < self.old.spare_bindings }
        ensures bound { self.new.routing ≡ with_binding binding self.old.routing }
        ensures objects { self.new.spare_objects ≡ self.old.spare_objects }
        ensures bindings { self.new.spare_bindings + 1 ≡ self.old.spare_bindings }
    {
        let code = source_code(binding.source.as_str());
        match self.bindings.push(binding) {
            Ok(()) => {}
            Err(_) => unreachable!(),
        }
        self.sources.push(code);
        self.spare_bindings -= 1;
    }

    /// The queues that a message reaches, and the greatest limit of a gate that it passes on a walk, 0 where it passes
    /// none. `NoExchange` exactly where there is no such exchange; the default exchange, which has the empty name,
    /// always stands.
    ///
    /// # Errors
    ///
    /// `NoExchange`, or `Memory` for want of memory.
    pub fn route(
        &self,
        exchange: &str,
        key: &str,
        headers: &Table,
    ) -> Result<(Vec<QueueNo>, u32), RouteFault>
        ensures no_exchange { (result ≡ Err RouteFault.NoExchange) ↔ (stands sorts.Exchange exchange.now self.now.routing ≡ false) }
        ensures routes { IfOk result (λ answer. AreRoutes self.now.routing (publish exchange.now key.now (table_view headers.now)) answer.0.items) }
        ensures numbers { IfOk result (λ answer. answer.0.items ≡ routed_numbers self.now.routing (publish exchange.now key.now (table_view headers.now))) }
        ensures limit { IfOk result (λ answer. IsWalkLimit self.now.routing (publish exchange.now key.now (table_view headers.now)) answer.1) }
        ensures limit_value { IfOk result (λ answer. answer.1 ≡ walk_limit self.now.routing (publish exchange.now key.now (table_view headers.now))) }
    {
        let publication = Publication {
            exchange,
            key,
            headers,
        };
        let alloc = *self.objects.allocator();
        if exchange.is_empty() {
            let numbers = named(alloc, &self.objects, publication)?;
            return Ok((numbers, 0));
        }
        if !has(&self.objects, Sort::Exchange, exchange) {
            return Err(RouteFault::NoExchange);
        }
        Ok(walked(
            alloc,
            &self.objects,
            &self.bindings,
            &self.sources,
            publication,
        )?)
    }

    /// The names of the queues that a message reaches, in the order of their making; none where there is no such
    /// exchange.
    ///
    /// # Errors
    ///
    /// For want of memory.
    pub fn names(&self, exchange: &str, key: &str, headers: &Table) -> Result<Vec<Text>, AllocError>
        ensures names { IfOk result (λ names. names.items ≡ routed_names self.now.routing (publish exchange.now key.now (table_view headers.now))) }
        ensures few { IfOk result (λ names. length names.items ≤ length self.now.routing.objects) }
    {
        let publication = Publication {
            exchange,
            key,
            headers,
        };
        let alloc = *self.objects.allocator();
        if exchange.is_empty() {
            return Ok(names_named(alloc, &self.objects, publication)?);
        }
        Ok(names_walked(
            alloc,
            &self.objects,
            &self.bindings,
            &self.sources,
            publication,
        )?)
    }

    /// The bindings, in the order of binding.
    pub fn bindings(&self) -> &[Binding]
        ensures { result.now ≡ self.now.routing.bindings }
    {
        self.bindings.as_slice()
    }

    /// The routing key and the arguments of the binding at that place among those from the exchange, in the order of
    /// binding; None exactly past their end.
    pub fn key_at(&self, exchange: &str, place: usize) -> Option<(&str, &Table)>
        ensures { option_map (λ found. (found.0.now, table_view found.1.now)) result ≡ option_map key_and_arguments (slice_get (bindings_from exchange.now self.now.routing) place) }
    {
        let binding = binding_at(&self.bindings, exchange, place)?;
        Some((binding.key.as_str(), binding.args.as_table()))
    }
}
