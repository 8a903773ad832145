//! The shovels that a schedule has set so far.
ghost use Rattle.std.specs.Prelude.{◌≡◌, IfOk, OnOk};
ghost use Rattle.fed_schedule.specs.Forms.{shovel_key, with_key, with_shovel};

use amqp_props::Text;
use fed_journal::event::Event;
use fed_journal::place::Place;
use indexmap::IndexSet;
use std::alloc::AllocError;

/// What tells a shovel from others: its place, and its name there.
#[derive(Drop, PartialEq, Eq, Hash)]
pub struct ShovelKey {
    pub broker: Text,
    pub vhost: Text,
    pub name: Text,
}

/// The key of the shovel of a place and name.
pub(crate) fn shovel_key(place: &Place, name: &Text) -> Result<ShovelKey, AllocError>
    ensures { IfOk result (λ key. key ≡ shovel_key place.now name.now) }
{
    let broker = place.broker.clone()?;
    let vhost = place.vhost.clone()?;
    let name = name.clone()?;
    Ok(ShovelKey {
        broker,
        vhost,
        name,
    })
}

/// Adds the key of a shovel, if it isn't there.
fn add_key(shovels: &mut IndexSet<ShovelKey>, key: ShovelKey) -> Result<(), AllocError>
    ensures { OnOk result (shovels.new.keys ≡ with_key shovels.old.keys key) }
{
    match shovels.insert(key) {
        Ok(_) => Ok(()),
        Err(_) => Err(AllocError),
    }
}

/// Adds the shovel that an event sets.
#[tactic(auto, unfolding(crate::specs::Forms::with_shovel))]
pub(crate) fn add_shovel(shovels: &mut IndexSet<ShovelKey>, event: &Event) -> Result<(), AllocError>
    ensures { OnOk result (shovels.new.keys ≡ with_shovel shovels.old.keys event.now) }
{
    match event {
        Event::SetShovel { place, name, .. } => {
            let key = shovel_key(place, name)?;
            add_key(shovels, key)
        }
        _ => Ok(()),
    }
}
