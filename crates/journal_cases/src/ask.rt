//! What is asked of the brokers after a run, and of its journal.
ghost use Rattle.std.specs.Prelude.{◌≡◌, true};
ghost use Rattle.fed_journal.specs.Configuration.{is_place as is_place_of};

use crate::line::{Line, print_maybe, print_names, print_numbers};
use crate::{client, link};
use amqp_props::Text;
use anyhow::{Context, Result, bail};
use broker_view::run::Run;
use fed_journal::place::Place;
use fed_world::world::World;
use journal_scan::configuration::queues_of;
use journal_scan::copies::{is_gone, is_stored, publication_of};
use journal_scan::holds::{entered, is_held, ready_count};
use journal_scan::routing::place_after;

/// What the queue was declared with, as the brokers have it.
fn print_options(rt: &impl Print, run: &Run<'_>, place: &Place, queue: &Text) -> Result<()>
    requires { is_place_of run.now place.now ≡ true }
{
    let exclusive = run.is_exclusive(place, queue);
    match run.queue_options(place, queue) {
        Some(options) => print!(rt;
            " durable {} exclusive {} {} auto-delete {}",
            options.durable, options.exclusive, exclusive, options.auto_delete
        )?,
        None => print!(rt; " isn't there")?,
    }
    Ok(())
}

/// A queue: what it was declared with, and its copies as the brokers and as the journal have them.
fn print_queue(rt: &(impl Print + AllocGlobal), world: &World, line: &Line<'_>) -> Result<()> {
    let alloc = rt.alloc();
    let (place, queue) = (line.place(alloc)?, line.text(alloc, 1)?);
    let run = world.run().context("no brokers")?;
    if !run.is_place(&place) {
        bail!("no such place");
    }
    print_options(rt, &run, &place, &queue)?;
    let ready = run.ready_count(&place, &queue);
    print_maybe(rt, "first", run.first_ready(&place, &queue))?;
    let journal = world.journal().entries();
    let counted = ready_count(alloc, journal, &place, &queue)?;
    print!(rt; " ready {ready} {counted}")?;
    print_numbers(
        rt,
        "entered",
        entered(alloc, journal, &place, &queue)?.as_slice(),
    )
}

/// A place: whether the run has it, its queues, and how many bindings it has.
fn print_place(rt: &(impl Print + AllocGlobal), world: &World, line: &Line<'_>) -> Result<()> {
    let alloc = rt.alloc();
    let place = line.place(alloc)?;
    let run = world.run().context("no brokers")?;
    let journal = world.journal().entries();
    print!(rt;
        " broker {} place {}",
        run.is_broker(&place.broker),
        run.is_place(&place)
    )?;
    print_names(rt, "queues", queues_of(alloc, journal, &place)?.as_slice())?;
    let after = place_after(alloc, journal, &place)?;
    print!(rt; " bindings {}", after.bindings().len())?;
    Ok(())
}

/// A copy, as the journal has it.
fn print_copy(rt: &impl Print, world: &World, line: &Line<'_>) -> Result<()> {
    let copy = line.number(0)?;
    let journal = world.journal().entries();
    match publication_of(journal, copy) {
        Some(publication) => print!(rt; " of publication {}", publication.number)?,
        None => print!(rt; " of none")?,
    }
    print!(rt;
        " held {} gone {} stored {}",
        is_held(journal, copy),
        is_gone(journal, copy),
        is_stored(journal, copy)
    )?;
    Ok(())
}

/// Prints a question, and what is answered.
pub fn print(rt: &(impl Print + AllocGlobal), world: &World, text: &str) -> Result<()> {
    let line = Line::read(rt.alloc(), text)?;
    print!(rt; "{text}:")?;
    if line.call == "?queue" {
        print_queue(rt, world, &line)?;
    } else if line.call == "?place" {
        print_place(rt, world, &line)?;
    } else if line.call == "?copy" {
        print_copy(rt, world, &line)?;
    } else if line.call == "?link" {
        link::print(rt, world, &line)?;
    } else {
        client::print(rt, world, &line)?;
    }
    println!(rt)?;
    Ok(())
}
