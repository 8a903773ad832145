//! What an event appends to the journal, or why it doesn't happen now.
ghost use Rattle.std.specs.Prelude.{◌≡◌, [], ◌∷◌, Ok, IfOk, IfSome};
ghost use Rattle.fed_journal.specs.Links.{link_of};
ghost use Rattle.fed_world.specs.Ends.{HasEnds};
ghost use Rattle.fed_world.specs.RowOf.{row_of};

use amqp_props::Text;
use broker_view::run::Run;
use fed_journal::entry::Entry;
use fed_journal::link::LinkSpec;
use fed_journal::reason::Reason;
use journal_scan::links;
use std::alloc::{AllocError, Global};

/// The entries that an event appends, or the reason why it doesn't happen.
pub type Row = Result<Vec<Entry>, Reason>;

/// A row of one entry.
pub(crate) fn one(alloc: Global, entry: Entry) -> Result<Row, AllocError>
    ensures { IfOk result (λ row. row_of row ≡ Ok (entry ∷ [])) }
{
    let mut entries = Vec::new(alloc);
    entries.push(entry)?;
    Ok(Ok(entries))
}

/// A row without entries.
pub(crate) fn nothing(alloc: Global) -> Row
    ensures { row_of result ≡ Ok [] }
{
    Ok(Vec::new(alloc))
}

/// The link of that name, whose ends are places of the run.
pub(crate) fn link_of(
    alloc: Global,
    run: &Run<'_>,
    link: &Text,
) -> Result<Option<LinkSpec>, AllocError>
    ensures spec { IfOk result (λ spec. spec ≡ link_of run.now link.now) }
    ensures ends { IfOk result (λ spec. IfSome spec (HasEnds run.now)) }
{
    let spec = links::link_of(alloc, run.entries(), link)?;
    Ok(spec)
}
