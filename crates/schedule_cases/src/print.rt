//! Prints events, each with the names of its parts.
use fed_journal::event::Event;
use fed_journal::place::Place;
use route_core::Binding;

fn place(
    rt: &(impl Print + AllocGlobal),
    name: &str,
    at: &Place,
    client: u16,
) -> anyhow::Result<()> {
    print!(rt;
        "{name} at {:?} of {:?} by {client}",
        at.vhost.as_str(),
        at.broker.as_str()
    )?;
    Ok(())
}

fn binding(rt: &(impl Print + AllocGlobal), binding: &Binding) -> anyhow::Result<()> {
    println!(rt;
        ": {:?} to {:?} {:?} key {:?}",
        binding.source.as_str(),
        binding.sort,
        binding.dest.as_str(),
        binding.key.as_str()
    )?;
    for (name, value) in binding.args.as_table().pairs.iter() {
        println!(rt; "  {name:?} = {value:?}")?;
    }
    Ok(())
}

/// What clients declare and bind.
fn declaration(rt: &(impl Print + AllocGlobal), event: &Event) -> anyhow::Result<()> {
    match event {
        Event::DeclareQueue {
            place: at,
            client,
            queue,
            options,
        } => {
            place(rt, "queue", at, *client)?;
            println!(rt;
                ": {:?} durable {} exclusive {} auto-delete {}",
                queue.as_str(),
                options.durable,
                options.exclusive,
                options.auto_delete
            )?;
            Ok(())
        }
        Event::DeclareExchange {
            place: at,
            client,
            exchange,
            shape,
        } => {
            place(rt, "exchange", at, *client)?;
            println!(rt;
                ": {:?} {:?} durable {} internal {}",
                exchange.as_str(),
                shape.kind,
                shape.durable,
                shape.internal
            )?;
            Ok(())
        }
        Event::Bind {
            place: at,
            client,
            binding: made,
        } => {
            place(rt, "bind", at, *client)?;
            binding(rt, made)
        }
        Event::Unbind {
            place: at,
            client,
            binding: ended,
        } => {
            place(rt, "unbind", at, *client)?;
            binding(rt, ended)
        }
        other => message(rt, other),
    }
}

/// What clients publish and consume.
fn message(rt: &(impl Print + AllocGlobal), event: &Event) -> anyhow::Result<()> {
    match event {
        Event::Publish {
            place: at,
            client,
            message,
        } => {
            place(rt, "publish", at, *client)?;
            println!(rt;
                ": to {:?} key {:?} mode {:?} body {:?}",
                message.exchange.as_str(),
                message.key.as_str(),
                message.props.delivery_mode,
                message.body.as_slice()
            )?;
            if let Some(headers) = &message.props.headers {
                for (name, value) in headers.as_table().pairs.iter() {
                    println!(rt; "  {name:?} = {value:?}")?;
                }
            }
            Ok(())
        }
        Event::Consume {
            place: at,
            client,
            queue,
            tag,
            no_ack,
            prefetch,
        } => {
            place(rt, "consume", at, *client)?;
            println!(rt;
                ": {:?} tag {:?} no-ack {no_ack} prefetch {prefetch}",
                queue.as_str(),
                tag.as_str()
            )?;
            Ok(())
        }
        Event::Get {
            place: at,
            client,
            queue,
            no_ack,
        } => {
            place(rt, "get", at, *client)?;
            println!(rt; ": {:?} no-ack {no_ack}", queue.as_str())?;
            Ok(())
        }
        other => action(rt, other),
    }
}

/// What clients do with queues, consumers and copies.
fn action(rt: &(impl Print + AllocGlobal), event: &Event) -> anyhow::Result<()> {
    let (name, at, client) = match event {
        Event::Cancel { place, client, .. } => ("cancel", place, client),
        Event::Deliver { place, client, .. } => ("deliver", place, client),
        Event::Purge { place, client, .. } => ("purge", place, client),
        Event::Close { place, client } => ("close", place, client),
        Event::Ack { place, client, .. } => ("ack", place, client),
        Event::Reject { place, client, .. } => ("reject", place, client),
        Event::Requeue { place, client, .. } => ("requeue", place, client),
        other => return operation(rt, other),
    };
    place(rt, name, at, *client)?;
    match event {
        Event::Cancel { tag: text, .. }
        | Event::Deliver { tag: text, .. }
        | Event::Purge { queue: text, .. } => println!(rt; ": {:?}", text.as_str())?,
        Event::Ack { copy, .. } | Event::Reject { copy, .. } | Event::Requeue { copy, .. } =>
            println!(rt; ": {copy}")?,
        _ => println!(rt; "")?,
    }
    Ok(())
}

/// What operators, brokers and links do.
fn operation(rt: &(impl Print + AllocGlobal), event: &Event) -> anyhow::Result<()> {
    let (name, text) = match event {
        Event::Flush { broker } => ("flush", broker.as_str()),
        Event::Open { link } => ("open", link.as_str()),
        Event::Take { link } => ("take", link.as_str()),
        Event::Send { link } => ("send", link.as_str()),
        Event::Accept { link } => ("accept", link.as_str()),
        Event::Confirm { link } => ("confirm", link.as_str()),
        Event::Note { link } => ("note", link.as_str()),
        Event::Settle { link } => ("settle", link.as_str()),
        Event::SetShovel { name, .. } => ("shovel", name.as_str()),
        _ => ("show", ""),
    };
    print!(rt; "{name} {text:?}")?;
    if let Event::SetShovel { place, shovel, .. } = event {
        print!(rt;
            " at {:?} of {:?}",
            place.vhost.as_str(),
            place.broker.as_str()
        )?;
        print!(rt;
            " from {:?} {:?}",
            shovel.source.as_str(),
            shovel.source_queue.as_str()
        )?;
        print!(rt;
            " to {:?} {:?}",
            shovel.target.as_str(),
            shovel.target_queue.as_str()
        )?;
    }
    println!(rt; "")?;
    Ok(())
}

/// Prints an event on a line, and each of its arguments or header fields on one more.
pub fn event(rt: &(impl Print + AllocGlobal), event: &Event) -> anyhow::Result<()> {
    declaration(rt, event)
}
