//! A client binds a queue or an exchange to an exchange, or ends a binding.
ghost use Rattle.std.specs.Prelude.{◌≡◌, IfOk};
ghost use Rattle.fed_world.specs.RowOf.{row_of};
ghost use Rattle.fed_journal.specs.Bind.{bind_row, unbind_row};

use crate::row::{Row, nothing, one};
use broker_view::run::Run;
use fed_journal::entry::Entry;
use fed_journal::place::Place;
use fed_journal::reason::Reason;
use route_core::Binding;
use std::alloc::{AllocError, Global};

/// The row of `bind`.
#[tactic(auto, unfolding(fed_journal::specs::Bind::bind_row))]
pub fn bind_row(
    alloc: Global,
    run: &Run<'_>,
    place: &Place,
    client: u16,
    binding: &Binding,
) -> Result<Row, AllocError>
    ensures { IfOk result (λ row. row_of row ≡ bind_row run.now place.now client binding.now) }
{
    if !run.is_place(place) {
        return Ok(Err(Reason::NoPlace));
    }
    if let Some(reason) = run.bind_refusal(place, client, binding) {
        return Ok(Err(reason));
    }
    if run.is_bound(place, binding) {
        return Ok(nothing(alloc));
    }
    let place = place.clone()?;
    let binding = binding.clone()?;
    one(alloc, Entry::Bound { place, binding })
}

/// The row of `unbind`.
#[tactic(auto, unfolding(fed_journal::specs::Bind::unbind_row))]
pub fn unbind_row(
    alloc: Global,
    run: &Run<'_>,
    place: &Place,
    client: u16,
    binding: &Binding,
) -> Result<Row, AllocError>
    ensures { IfOk result (λ row. row_of row ≡ unbind_row run.now place.now client binding.now) }
{
    if !run.is_place(place) {
        return Ok(Err(Reason::NoPlace));
    }
    if let Some(reason) = run.bind_refusal(place, client, binding) {
        return Ok(Err(reason));
    }
    if !run.is_bound(place, binding) {
        return Ok(nothing(alloc));
    }
    let place = place.clone()?;
    let binding = binding.clone()?;
    one(alloc, Entry::Unbound { place, binding })
}
