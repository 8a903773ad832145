//! What is asked of what clients hold, have declared and reach.
ghost use Rattle.std.specs.Prelude.{◌≡◌, true};
ghost use Rattle.fed_journal.specs.Configuration.{is_place as is_place_of};

use crate::line::{Line, print_names};
use amqp_props::{Message, Octets, Text};
use anyhow::{Context, Result, bail};
use broker_view::run::Run;
use fed_journal::message::properties;
use fed_journal::place::{Client, Place};
use fed_world::world::World;
use std::alloc::Global;

/// The channel of the client that is named second behind the call.
fn client_of(line: &Line<'_>) -> Result<Client> {
    Ok(Client {
        connection: line.small(1)?,
        channel: 1,
    })
}

/// A client's consumer, by its tag.
fn print_consumer(
    rt: &(impl Print + AllocGlobal),
    run: &Run<'_>,
    place: &Place,
    line: &Line<'_>,
) -> Result<()>
    requires { is_place_of run.now place.now ≡ true }
{
    let tag = line.text(rt.alloc(), 2)?;
    match run.consumer(place, client_of(line)?, &tag) {
        Some(consumer) => print!(rt;
            " queue {} no-ack {} prefetch {} holds {}",
            consumer.queue.as_str(),
            consumer.no_ack,
            consumer.prefetch,
            consumer.held
        )?,
        None => print!(rt; " none")?,
    }
    Ok(())
}

/// What an exchange was declared as.
fn print_exchange(
    rt: &(impl Print + AllocGlobal),
    run: &Run<'_>,
    place: &Place,
    line: &Line<'_>,
) -> Result<()>
    requires { is_place_of run.now place.now ≡ true }
{
    let name = line.text(rt.alloc(), 1)?;
    match run.exchange_shape(place, &name) {
        Some(shape) => print!(rt; " durable {} internal {}", shape.durable, shape.internal)?,
        None => print!(rt; " isn't there")?,
    }
    Ok(())
}

/// A message of that exchange and routing key.
fn message(alloc: Global, line: &Line<'_>) -> Result<Message> {
    Ok(Message {
        exchange: line.text(alloc, 1)?,
        key: line.text(alloc, 2)?,
        props: properties(false, None),
        body: Octets::new(alloc, Vec::new(alloc))?,
    })
}

/// The queues that a message reaches.
fn print_routes(
    rt: &(impl Print + AllocGlobal),
    world: &World,
    place: &Place,
    line: &Line<'_>,
) -> Result<()> {
    let alloc = rt.alloc();
    let run = world.run().context("no brokers")?;
    let within = world.journal().entries().len();
    if !run.is_place(place) || run.entries().len() != within {
        bail!("no such place");
    }
    let routes = run.routes(alloc, place, &message(alloc, line)?)?;
    print!(rt; " {}", routes.count())?;
    print_names(rt, "queues", routes.as_slice())
}

/// Prints what is answered to a question of a client.
pub fn print(rt: &(impl Print + AllocGlobal), world: &World, line: &Line<'_>) -> Result<()> {
    let alloc = rt.alloc();
    let place = line.place(alloc)?;
    let run = world.run().context("no brokers")?;
    if !run.is_place(&place) {
        bail!("no such place");
    }
    if line.call == "?consumer" {
        return print_consumer(rt, &run, &place, line);
    }
    if line.call == "?exchange" {
        return print_exchange(rt, &run, &place, line);
    }
    if line.call == "?routes" {
        return print_routes(rt, world, &place, line);
    }
    if line.call == "?holds" {
        let holds = run.is_held_by(&place, client_of(line)?, line.number(2)?);
        print!(rt; " {holds}")?;
    } else if line.call == "?owns" {
        let queues = run.queues_owned(alloc, &place, line.small(1)?)?;
        print_names(rt, "queues", queues.as_slice())?;
    } else if line.call == "?locked" {
        let locked = run.is_locked(&place, &line.text(alloc, 2)?, line.small(1)?);
        print!(rt; " {locked}")?;
    } else {
        bail!("no such question")
    }
    Ok(())
}
