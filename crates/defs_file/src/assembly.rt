//! The virtual hosts with all that is in them.
ghost use Rattle.std.specs.Prelude.{◌≡◌, ◌<◌, ◌∷◌, length, map, IfOk};
ghost use Rattle.defs_lists.specs.PlacedItems.{AreDistinct, host_config};
ghost use Rattle.defs_lists.specs.Vhosts.{AreHosts};

use amqp_props::Text;
use defs_lists::bindings::Objects;
use defs_lists::names::Names;
use defs_lists::placed::{Placed, distribute};
use fed_defs::{BindingDef, ExchangeDef, ParameterDef, PolicyDef, QueueDef, Sequence, VhostConfig};
use std::alloc::{AllocError, Global};
use std::collections::VecDeque;

/// What the lists of objects hold.
#[derive(Drop)]
pub(crate) struct ObjectLists {
    /// The queues.
    pub(crate) queues: Vec<Placed<QueueDef>>,
    /// The exchanges.
    pub(crate) exchanges: Vec<Placed<ExchangeDef>>,
    /// The bindings.
    pub(crate) bindings: Vec<Placed<BindingDef>>,
    /// The names of the queues and exchanges that are passed over.
    pub(crate) passed: Objects,
    /// How many items are passed over.
    pub(crate) passed_over: u32,
    /// How many keys are inert.
    pub(crate) inert: u32,
}

/// Takes the first of several lists.
fn take_front<T: Drop>(lists: &mut VecDeque<Sequence<T>>) -> Sequence<T>
    requires { 0 < length lists.old.items }
    ensures { lists.old.items ≡ result ∷ lists.new.items }
{
    match lists.pop_front() {
        Some(list) => list,
        None => unreachable!(),
    }
}

/// The virtual hosts, each with its share of all lists.
pub(crate) fn assemble(
    alloc: Global,
    vhosts: &Names,
    objects: ObjectLists,
    parameters: Vec<Placed<ParameterDef>>,
    policies: Vec<Placed<PolicyDef>>,
) -> Result<Sequence<VhostConfig>, AllocError>
    requires hosts { AreHosts vhosts.now }
    requires distinct { AreDistinct vhosts.now }
    ensures { IfOk result (λ list. list ≡ map (host_config objects.exchanges.items objects.queues.items
        objects.bindings.items policies.items parameters.items) vhosts.now) }
{
    let mut exchanges = distribute(alloc, vhosts, objects.exchanges)?;
    let mut queues = distribute(alloc, vhosts, objects.queues)?;
    let mut bindings = distribute(alloc, vhosts, objects.bindings)?;
    let mut policies = distribute(alloc, vhosts, policies)?;
    let mut parameters = distribute(alloc, vhosts, parameters)?;
    let mut list = Vec::new(alloc);
    for vhost in vhosts.as_slice() {
        list.push(VhostConfig {
            name: Text::from_str(alloc, vhost.name.as_str())?,
            exchanges: take_front(&mut exchanges),
            queues: take_front(&mut queues),
            bindings: take_front(&mut bindings),
            policies: take_front(&mut policies),
            parameters: take_front(&mut parameters),
        })?;
    }
    Ok(Sequence::new(list))
}
