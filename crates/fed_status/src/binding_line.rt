//! The lines of bindings.
ghost use Rattle.std.specs.Prelude.{◌≡◌, ◌++◌, ◌≤◌, All, OnOk, flat_map, length};
ghost use Rattle.field_tables.specs.Tables.{IsTable};
ghost use Rattle.field_tables.specs.View.{table_view};
ghost use Rattle.fed_journal.specs.Copies.{IsFitting};
ghost use Rattle.fed_journal.specs.Limits.{most_entries};
ghost use Rattle.fed_status.specs.Bindings.{sort_word, octets_word, arguments_word, binding_line, binding_lines};

use fed_journal::entry::Entry;
use fed_journal::page::Page;
use fed_journal::place::Place;
use field_tables::{Table, write_table};
use journal_scan::routing::place_after;
use route_core::{Binding, Sort};
use std::alloc::{AllocError, Global};

/// The octets of the number of a table's octets.
const COUNT: usize = 4;

/// The word of what a binding leads to.
fn sort_word(sort: Sort) -> &'static str
    ensures { result.now ≡ sort_word sort }
{
    match sort {
        Sort::Queue => "queue",
        Sort::Exchange => "exchange",
    }
}

/// Appends octets in hexadecimal, `-` where there are none.
fn push_octets(octets: &[u8], page: &mut Page) -> Result<(), AllocError>
    ensures { OnOk result (page.new ≡ page.old ++ octets_word octets.now) }
{
    if octets.is_empty() {
        return page.push("-");
    }
    page.push_hex(octets)
}

/// Appends the arguments of a binding, in hexadecimal.
fn push_arguments(alloc: Global, args: &Table, page: &mut Page) -> Result<(), AllocError>
    requires { IsTable (table_view args.now) }
    ensures { OnOk result (page.new ≡ page.old ++ arguments_word (table_view args.now)) }
{
    let mut octets = Vec::new(alloc);
    write_table(args, &mut octets)?;
    push_octets(&octets[COUNT..], page)
}

/// Appends the line of a binding.
#[tactic(auto, unfolding(crate::specs::Bindings::binding_line))]
fn push_binding_line(
    alloc: Global,
    place: &Place,
    binding: &Binding,
    page: &mut Page,
) -> Result<(), AllocError>
    requires { IsTable binding.now.args }
    ensures { OnOk result (page.new ≡ page.old ++ binding_line place.now binding.now) }
{
    page.push("binding ")?;
    page.push_place(place)?;
    page.push(" ")?;
    page.push_word(binding.source.as_str())?;
    page.push(" ")?;
    page.push(sort_word(binding.sort))?;
    page.push(" ")?;
    page.push_word(binding.dest.as_str())?;
    page.push(" ")?;
    page.push_word(binding.key.as_str())?;
    page.push(" ")?;
    push_arguments(alloc, binding.args.as_table(), page)?;
    page.push("\n")
}

/// Appends the lines of these bindings.
fn push_bindings(
    alloc: Global,
    place: &Place,
    bindings: &[Binding],
    page: &mut Page,
) -> Result<(), AllocError>
    requires { All (λ b. IsTable b.args) bindings.now }
    ensures { OnOk result (page.new ≡ page.old ++ flat_map (binding_line place.now) bindings.now) }
{
    for binding in bindings {
        push_binding_line(alloc, place, binding, page)?;
    }
    Ok(())
}

/// Appends the lines of the place's bindings, in the order of binding.
#[tactic(auto, unfolding(crate::specs::Bindings::binding_lines))]
pub fn push_binding_lines(
    alloc: Global,
    journal: &[Entry],
    place: &Place,
    page: &mut Page,
) -> Result<(), AllocError>
    requires fits { All IsFitting journal.now }
    requires within { length journal.now ≤ most_entries }
    ensures { OnOk result (page.new ≡ page.old ++ binding_lines journal.now place.now) }
{
    let site = place_after(alloc, journal, place)?;
    push_bindings(alloc, place, site.bindings(), page)
}
