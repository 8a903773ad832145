//! The line of an event.
ghost use Rattle.std.specs.Prelude.{◌≡◌, ◌++◌, [], ◌∷◌, OnOk, OnErr, flat_map, true, codes};
ghost use Rattle.std.specs.Fmt.{decimal};
ghost use Rattle.field_tables.specs.View.{table_view};
ghost use Rattle.fed_journal.specs.Words.{word};
ghost use Rattle.schedule_writer.specs.Lines.{spaced, joined, client_words, queue_words, exchange_words, binding_words, message_words, consumer_words, option_words, source_words, target_words, shovel_words, is_empty_table, has_line, event_words, event_line};

use crate::clients::{
    push_binding, push_client, push_consumer, push_exchange, push_message, push_queue,
};
use crate::words::{push_fixed, push_name, push_number, push_option, push_place};
use amqp_props::{FieldTable, Message, QueueOptions, Text};
use fed_journal::event::{Event, Shovel};
use fed_journal::message::{is_persistent, properties};
use fed_journal::page::Page;
use fed_journal::place::{ExchangeShape, Place};
use route_core::Binding;
use std::alloc::{AllocError, Global};

fn is_empty_table(table: &FieldTable) -> bool
    ensures { result ≡ is_empty_table table.now }
{
    match table.as_table().pairs.as_slice() {
        [] => true,
        [_first, ..] => false,
    }
}

/// Whether a line can state the event.
#[tactic(auto, unfolding(crate::specs::Lines::has_line))]
pub fn has_line(event: &Event) -> bool
    ensures { result ≡ has_line event.now }
{
    match event {
        Event::DeclareQueue { options, .. } => !options.auto_delete,
        Event::Bind { binding, .. } => is_empty_table(&binding.args),
        Event::Unbind { binding, .. } => is_empty_table(&binding.args),
        Event::Publish { message, .. } => {
            message.props == properties(is_persistent(message), None)
        }
        _ => true,
    }
}

fn declare_queue(
    page: &mut Page,
    place: &Place,
    client: u16,
    queue: &Text,
    options: QueueOptions,
) -> Result<(), AllocError>
    ensures { OnOk result (page.new ≡ page.old ++ joined (client_words (codes "declare") place.now client (queue_words queue.now options))) }
{
    push_client(page, "declare", place, client)?;
    push_queue(page, queue, options)
}

fn declare_exchange(
    page: &mut Page,
    place: &Place,
    client: u16,
    exchange: &Text,
    shape: ExchangeShape,
) -> Result<(), AllocError>
    ensures { OnOk result (page.new ≡ page.old ++ joined (client_words (codes "declare") place.now client (exchange_words exchange.now shape))) }
{
    push_client(page, "declare", place, client)?;
    push_exchange(page, exchange, shape)
}

/// A line that makes or ends a binding.
fn binding_line(
    page: &mut Page,
    keyword: &str,
    place: &Place,
    client: u16,
    binding: &Binding,
) -> Result<(), AllocError>
    ensures { OnOk result (page.new ≡ page.old ++ joined (client_words keyword.now place.now client (binding_words binding.now))) }
{
    push_client(page, keyword, place, client)?;
    push_binding(page, binding)
}

fn publish(
    alloc: Global,
    page: &mut Page,
    place: &Place,
    client: u16,
    message: &Message,
) -> Result<(), AllocError>
    ensures { OnOk result (page.new ≡ page.old ++ joined (client_words (codes "publish") place.now client (message_words message.now))) }
{
    push_client(page, "publish", place, client)?;
    push_message(alloc, page, message)
}

fn consume(
    page: &mut Page,
    place: &Place,
    client: u16,
    queue: &Text,
    tag: &Text,
    no_ack: bool,
    prefetch: u16,
) -> Result<(), AllocError>
    ensures { OnOk result (page.new ≡ page.old ++ joined (client_words (codes "consume") place.now client (consumer_words queue.now tag.now no_ack prefetch))) }
{
    push_client(page, "consume", place, client)?;
    push_consumer(page, queue, tag, no_ack, prefetch)
}

/// A client's line that names one thing.
fn named_line(
    page: &mut Page,
    keyword: &str,
    place: &Place,
    client: u16,
    name: &Text,
) -> Result<(), AllocError>
    ensures { OnOk result (page.new ≡ page.old ++ joined (client_words keyword.now place.now client (word name.now ∷ []))) }
{
    push_client(page, keyword, place, client)?;
    push_name(page, name)
}

fn get(
    page: &mut Page,
    place: &Place,
    client: u16,
    queue: &Text,
    no_ack: bool,
) -> Result<(), AllocError>
    ensures { OnOk result (page.new ≡ page.old ++ joined (client_words (codes "get") place.now client (word queue.now ∷ option_words no_ack (codes "no-ack")))) }
{
    push_client(page, "get", place, client)?;
    push_name(page, queue)?;
    push_option(page, no_ack, "no-ack")
}

/// A client's line that names a copy.
fn copy_line(
    page: &mut Page,
    keyword: &str,
    place: &Place,
    client: u16,
    copy: u64,
) -> Result<(), AllocError>
    ensures { OnOk result (page.new ≡ page.old ++ joined (client_words keyword.now place.now client (decimal copy ∷ []))) }
{
    push_client(page, keyword, place, client)?;
    push_number(page, copy)
}

fn flush(page: &mut Page, broker: &Text) -> Result<(), AllocError>
    ensures { OnOk result (page.new ≡ page.old ++ joined (codes "flush" ∷ word broker.now ∷ [])) }
{
    page.push("flush")?;
    push_name(page, broker)
}

/// Appends the source of a shovel.
#[tactic(auto, unfolding(crate::specs::Lines::source_words))]
fn push_source(page: &mut Page, shovel: &Shovel) -> Result<(), AllocError>
    ensures { OnOk result (page.new ≡ page.old ++ flat_map spaced (source_words shovel.now)) }
{
    push_name(page, &shovel.source)?;
    push_name(page, &shovel.source_queue)
}

/// Appends a broker, a queue and a mode.
fn push_end(page: &mut Page, broker: &Text, queue: &Text, mode: &str) -> Result<(), AllocError>
    ensures { OnOk result (page.new ≡ page.old ++ flat_map spaced (word broker.now ∷ word queue.now ∷ mode.now ∷ [])) }
{
    push_name(page, broker)?;
    push_name(page, queue)?;
    push_fixed(page, mode)
}

/// Appends the target of a shovel and its mode.
#[tactic(auto, unfolding(crate::specs::Lines::target_words))]
fn push_target(page: &mut Page, shovel: &Shovel) -> Result<(), AllocError>
    ensures { OnOk result (page.new ≡ page.old ++ flat_map spaced (target_words shovel.now)) }
{
    push_end(page, &shovel.target, &shovel.target_queue, "on-confirm")
}

#[tactic(auto, unfolding(crate::specs::Lines::shovel_words))]
fn set_shovel(
    page: &mut Page,
    place: &Place,
    name: &Text,
    shovel: &Shovel,
) -> Result<(), AllocError>
    ensures { OnOk result (page.new ≡ page.old ++ joined (shovel_words place.now name.now shovel.now)) }
{
    page.push("shovel")?;
    push_place(page, place)?;
    push_name(page, name)?;
    push_source(page, shovel)?;
    push_target(page, shovel)
}

/// A line of what a link does.
fn link_line(page: &mut Page, keyword: &str, link: &Text) -> Result<(), AllocError>
    ensures { OnOk result (page.new ≡ page.old ++ joined (keyword.now ∷ link.now ∷ [])) }
{
    page.push(keyword)?;
    push_fixed(page, link.as_str())
}

/// Appends the words of an event's line. After an `Err` the page may hold a part of them.
#[tactic(auto, unfolding(crate::specs::Lines::event_words, crate::specs::Lines::event_line))]
fn push_line(alloc: Global, event: &Event, page: &mut Page) -> Result<(), AllocError>
    requires { has_line event.now ≡ true }
    ensures { OnOk result (page.new ≡ page.old ++ event_line event.now) }
{
    match event {
        Event::DeclareQueue {
            place,
            client,
            queue,
            options,
        } => declare_queue(page, place, *client, queue, *options),
        Event::DeclareExchange {
            place,
            client,
            exchange,
            shape,
        } => declare_exchange(page, place, *client, exchange, *shape),
        Event::Bind {
            place,
            client,
            binding,
        } => binding_line(page, "bind", place, *client, binding),
        Event::Unbind {
            place,
            client,
            binding,
        } => binding_line(page, "unbind", place, *client, binding),
        Event::Publish {
            place,
            client,
            message,
        } => publish(alloc, page, place, *client, message),
        Event::Consume {
            place,
            client,
            queue,
            tag,
            no_ack,
            prefetch,
        } => consume(page, place, *client, queue, tag, *no_ack, *prefetch),
        Event::Cancel { place, client, tag } => named_line(page, "cancel", place, *client, tag),
        Event::Deliver { place, client, tag } => named_line(page, "deliver", place, *client, tag),
        Event::Get {
            place,
            client,
            queue,
            no_ack,
        } => get(page, place, *client, queue, *no_ack),
        Event::Ack {
            place,
            client,
            copy,
        } => copy_line(page, "ack", place, *client, *copy),
        Event::Reject {
            place,
            client,
            copy,
        } => copy_line(page, "reject", place, *client, *copy),
        Event::Requeue {
            place,
            client,
            copy,
        } => copy_line(page, "requeue", place, *client, *copy),
        Event::Purge {
            place,
            client,
            queue,
        } => named_line(page, "purge", place, *client, queue),
        Event::Close { place, client } => push_client(page, "close", place, *client),
        Event::Flush { broker } => flush(page, broker),
        Event::SetShovel {
            place,
            name,
            shovel,
        } => set_shovel(page, place, name, shovel),
        Event::Open { link } => link_line(page, "open", link),
        Event::Take { link } => link_line(page, "take", link),
        Event::Send { link } => link_line(page, "send", link),
        Event::Accept { link } => link_line(page, "accept", link),
        Event::Confirm { link } => link_line(page, "confirm", link),
        Event::Note { link } => link_line(page, "note", link),
        Event::Settle { link } => link_line(page, "settle", link),
        Event::Show => page.push("show"),
    }
}

/// Appends the line of an event, without the end of the line.
///
/// # Errors
///
/// For want of memory; the page is then as it was.
pub fn write_line(alloc: Global, event: &Event, page: &mut Page) -> Result<(), AllocError>
    requires { has_line event.now ≡ true }
    ensures ok { OnOk result (page.new ≡ page.old ++ event_line event.now) }
    ensures err { OnErr result (page.new ≡ page.old) }
{
    let mut line = Page::new(alloc);
    push_line(alloc, event, &mut line)?;
    page.push(line.as_str())
}
