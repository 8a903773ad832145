//! An operator sets a shovel's parameter.
ghost use Rattle.std.specs.Prelude.{◌≡◌, IfOk};
ghost use Rattle.fed_world.specs.RowOf.{row_of};
ghost use Rattle.fed_world.specs.SetShovel.{set_shovel_row};

use crate::row::{Row, nothing, one};
use amqp_props::Text;
use broker_view::run::Run;
use fed_journal::entry::Entry;
use fed_journal::event::Shovel;
use fed_journal::place::Place;
use fed_journal::reason::Reason;
use journal_scan::links::is_shovel_set;
use std::alloc::{AllocError, Global};

/// The row of `shovel`.
#[tactic(auto, unfolding(crate::specs::SetShovel::set_shovel_row))]
pub fn set_shovel_row(
    alloc: Global,
    run: &Run<'_>,
    place: &Place,
    name: &Text,
    shovel: &Shovel,
) -> Result<Row, AllocError>
    ensures { IfOk result (λ row. row_of row ≡ set_shovel_row run.now place.now name.now shovel.now) }
{
    if !run.is_place(place) {
        return Ok(Err(Reason::NoPlace));
    }
    if is_shovel_set(run.entries(), place, name) {
        return Ok(nothing(alloc));
    }
    let place = place.clone()?;
    let name = name.clone()?;
    let shovel = shovel.clone()?;
    one(
        alloc,
        Entry::ShovelSet {
            place,
            name,
            shovel,
        },
    )
}
