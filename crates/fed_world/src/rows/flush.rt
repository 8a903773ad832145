//! A broker stores what it holds.
ghost use Rattle.std.specs.Prelude.{◌≡◌, IfOk};
ghost use Rattle.fed_world.specs.RowOf.{row_of};
ghost use Rattle.fed_journal.specs.Flush.{flush_row};

use crate::row::{Row, one};
use amqp_props::Text;
use broker_view::run::Run;
use fed_journal::entry::Entry;
use fed_journal::reason::Reason;
use std::alloc::{AllocError, Global};

/// The row of `flush`.
#[tactic(auto, unfolding(fed_journal::specs::Flush::flush_row))]
pub fn flush_row(alloc: Global, run: &Run<'_>, broker: &Text) -> Result<Row, AllocError>
    ensures { IfOk result (λ row. row_of row ≡ flush_row run.now broker.now) }
{
    if !run.is_broker(broker) {
        return Ok(Err(Reason::NoPlace));
    }
    let broker = broker.clone()?;
    one(alloc, Entry::Flushed { broker })
}
