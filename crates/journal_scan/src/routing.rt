//! What stands at a place, and its bindings.
ghost use Rattle.std.specs.Prelude.{◌≡◌, ◌+◌, ◌<◌, ◌≤◌, ◌^◌, IfOk, OnOk, length};
ghost use Rattle.fed_journal.specs.Limits.{most_entries};
ghost use Rattle.fed_journal.specs.Routes.{made as made_object, gone as gone_queue, site as site_of_journal, site_step, is_at as is_entry_at};
ghost use Rattle.route_core.specs.Objects.{sort_of as sort_of_node};
ghost use Rattle.route_core.specs.Routing.{IsNext, stands as object_stands, bound as bound_there, unbound as unbound_there};
ghost use Rattle.fed_journal.specs.SiteLaws.{IsNumbering};

use amqp_props::Text;
use fed_journal::entry::Entry;
use fed_journal::place::Place;
use route_core::{Binding, Node, Router, Sort};
use std::alloc::{AllocError, Global};
use std::marker::Model;

/// What stands at a place, and how many queues were made there.
#[derive(Drop)]
pub struct Site {
    router: Router,
    queues: u32,
}

impl Model for Site {
    ghost use Rattle.fed_journal.specs.Routes as routes;
    ghost use Rattle.journal_scan.specs.View.{coded_site};

    ghost Value = { routes.Site };

    ghost coded = { coded_site };

    ghost view = { λ s. routes.site_of s.router.routing s.queues };
}

/// Whether a queue or an exchange of that name stands.
fn stands(router: &Router, sort: Sort, name: &Text) -> bool
    ensures { result ≡ object_stands sort name.now router.now.routing }
{
    (matches!(sort, Sort::Exchange) && name.as_str().is_empty()) || router.has(sort, name.as_str())
}

/// Makes a queue or an exchange, unless it stands.
fn make(router: &mut Router, sort: Sort, name: &Text, node: Node) -> Result<(), AllocError>
    requires sort { sort ≡ sort_of_node node }
    requires next { IsNext node router.old.routing }
    ensures { OnOk result (router.new.routing ≡ made_object name.now node router.old.routing) }
{
    if stands(router, sort, name) {
        return Ok(());
    }
    router.declare(name.as_str(), node)
}

/// Removes the queue with its bindings, if it stands.
fn remove(router: &mut Router, queue: &Text)
    ensures { router.new.routing ≡ gone_queue queue.now router.old.routing }
{
    router.delete(Sort::Queue, queue.as_str());
}

/// Binds, unless an end is missing or an equal binding stands.
fn bind(router: &mut Router, binding: &Binding) -> Result<(), AllocError>
    ensures { OnOk result (router.new.routing ≡ bound_there binding.now router.old.routing) }
{
    if !router.has(Sort::Exchange, binding.source.as_str())
        || !router.has(binding.sort, binding.dest.as_str())
    {
        return Ok(());
    }
    router.bind(
        binding.source.as_str(),
        binding.sort,
        binding.dest.as_str(),
        binding.key.as_str(),
        binding.args.as_table(),
    )?;
    Ok(())
}

/// Removes the equal binding, if there is one.
fn unbind(router: &mut Router, binding: &Binding)
    ensures { router.new.routing ≡ unbound_there binding.now router.old.routing }
{
    router.unbind(
        binding.source.as_str(),
        binding.sort,
        binding.dest.as_str(),
        binding.key.as_str(),
        binding.args.as_table(),
    );
}

/// Whether the entry is of an object or a binding of the place.
fn is_at(entry: &Entry, place: &Place) -> bool
    ensures { result ≡ is_entry_at place.now entry.now }
{
    match entry {
        Entry::MadeQueue { place: at, .. }
        | Entry::GoneQueue { place: at, .. }
        | Entry::MadeExchange { place: at, .. }
        | Entry::Bound { place: at, .. }
        | Entry::Unbound { place: at, .. } => at == place,
        _ => false,
    }
}

/// Does at the place what the entry did there.
fn enter(site: &mut Site, place: &Place, entry: &Entry) -> Result<(), AllocError>
    requires numbered { IsNumbering site.old }
    requires few { site.old.queues + 1 < 2 ^ 32 }
    ensures { OnOk result (site.new ≡ site_step place.now site.old entry.now) }
{
    if !is_at(entry, place) {
        return Ok(());
    }
    match entry {
        Entry::MadeQueue { queue, .. } => {
            make(
                &mut site.router,
                Sort::Queue,
                queue,
                Node::Queue(site.queues),
            )?;
            site.queues += 1;
            Ok(())
        }
        Entry::MadeExchange {
            exchange,
            shape,
            ..
        } => make(
            &mut site.router,
            Sort::Exchange,
            exchange,
            Node::Exchange(shape.kind),
        ),
        Entry::GoneQueue { queue, .. } => {
            remove(&mut site.router, queue);
            Ok(())
        }
        Entry::Bound { binding, .. } => bind(&mut site.router, binding),
        Entry::Unbound { binding, .. } => {
            unbind(&mut site.router, binding);
            Ok(())
        }
        _ => Ok(()),
    }
}

impl Site {
    ghost use Rattle.std.specs.Prelude.{◌≡◌};

    /// The bindings of the place, in the order of binding.
    pub fn bindings(&self) -> &[Binding]
        ensures { result.now ≡ self.now.routing.bindings }
    {
        self.router.bindings()
    }
}

/// The place after the journal.
#[tactic(auto, unfolding(fed_journal::specs::Routes::site))]
pub fn place_after(alloc: Global, journal: &[Entry], place: &Place) -> Result<Site, AllocError>
    requires { length journal.now ≤ most_entries }
    ensures { IfOk result (λ site. site ≡ site_of_journal journal.now place.now) }
{
    let router = Router::new(alloc)?;
    let mut site = Site { router, queues: 0 };
    for entry in journal {
        enter(&mut site, place, entry)?;
    }
    Ok(site)
}
