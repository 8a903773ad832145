//! The lines of what clients do.
ghost use Rattle.std.specs.Prelude.{◌≡◌, ◌++◌, [], ◌∷◌, OnOk, flat_map};
ghost use Rattle.std.specs.Fmt.{decimal};
ghost use Rattle.fed_journal.specs.Words.{word};
ghost use Rattle.schedule_writer.specs.Lines.{spaced, joined, client_words, option_words, queue_words, exchange_words, kind_word, sort_word, binding_words, message_words, prefetch_words, consumer_words};

use crate::words::{push_fixed, push_name, push_number, push_octets, push_option, push_place};
use amqp_props::{ExchangeKind, Message, QueueOptions, Text};
use fed_journal::message::is_persistent;
use fed_journal::page::Page;
use fed_journal::place::{ExchangeShape, Place};
use route_core::{Binding, Sort};
use std::alloc::{AllocError, Global};

/// Appends the first words of what a client does.
pub(crate) fn push_client(
    page: &mut Page,
    keyword: &str,
    place: &Place,
    client: u16,
) -> Result<(), AllocError>
    ensures { OnOk result (page.new ≡ page.old ++ joined (client_words keyword.now place.now client [])) }
{
    page.push(keyword)?;
    push_place(page, place)?;
    push_number(page, u64::from(client))
}

/// Appends what is declared as a queue.
#[tactic(auto, unfolding(crate::specs::Lines::queue_words))]
pub(crate) fn push_queue(
    page: &mut Page,
    name: &Text,
    options: QueueOptions,
) -> Result<(), AllocError>
    ensures { OnOk result (page.new ≡ page.old ++ flat_map spaced (queue_words name.now options)) }
{
    push_fixed(page, "queue")?;
    push_name(page, name)?;
    push_option(page, options.durable, "durable")?;
    push_option(page, options.exclusive, "exclusive")
}

fn push_kind(page: &mut Page, kind: ExchangeKind) -> Result<(), AllocError>
    ensures { OnOk result (page.new ≡ page.old ++ spaced (kind_word kind)) }
{
    match kind {
        ExchangeKind::Direct => push_fixed(page, "direct"),
        ExchangeKind::Fanout => push_fixed(page, "fanout"),
        ExchangeKind::Headers => push_fixed(page, "headers"),
        ExchangeKind::Topic => push_fixed(page, "topic"),
    }
}

/// Appends what is declared as an exchange.
#[tactic(auto, unfolding(crate::specs::Lines::exchange_words))]
pub(crate) fn push_exchange(
    page: &mut Page,
    name: &Text,
    shape: ExchangeShape,
) -> Result<(), AllocError>
    ensures { OnOk result (page.new ≡ page.old ++ flat_map spaced (exchange_words name.now shape)) }
{
    push_fixed(page, "exchange")?;
    push_name(page, name)?;
    push_kind(page, shape.kind)?;
    push_option(page, shape.durable, "durable")?;
    push_option(page, shape.internal, "internal")
}

fn push_sort(page: &mut Page, sort: Sort) -> Result<(), AllocError>
    ensures { OnOk result (page.new ≡ page.old ++ spaced (sort_word sort)) }
{
    match sort {
        Sort::Queue => push_fixed(page, "queue"),
        Sort::Exchange => push_fixed(page, "exchange"),
    }
}

/// Appends a binding that has no arguments.
#[tactic(auto, unfolding(crate::specs::Lines::binding_words))]
pub(crate) fn push_binding(page: &mut Page, binding: &Binding) -> Result<(), AllocError>
    ensures { OnOk result (page.new ≡ page.old ++ flat_map spaced (binding_words binding.now)) }
{
    push_sort(page, binding.sort)?;
    push_name(page, &binding.dest)?;
    push_name(page, &binding.source)?;
    push_name(page, &binding.key)
}

/// Appends a message without headers.
#[tactic(auto, unfolding(crate::specs::Lines::message_words))]
pub(crate) fn push_message(
    alloc: Global,
    page: &mut Page,
    message: &Message,
) -> Result<(), AllocError>
    ensures { OnOk result (page.new ≡ page.old ++ flat_map spaced (message_words message.now)) }
{
    push_name(page, &message.exchange)?;
    push_name(page, &message.key)?;
    push_octets(alloc, page, message.body.as_slice())?;
    push_option(page, is_persistent(message), "persistent")
}

/// Appends a consumer.
#[tactic(auto, unfolding(crate::specs::Lines::consumer_words))]
pub(crate) fn push_consumer(
    page: &mut Page,
    queue: &Text,
    tag: &Text,
    no_ack: bool,
    prefetch: u16,
) -> Result<(), AllocError>
    ensures { OnOk result (page.new ≡ page.old ++ flat_map spaced (consumer_words queue.now tag.now no_ack prefetch)) }
{
    push_name(page, queue)?;
    push_name(page, tag)?;
    push_option(page, no_ack, "no-ack")?;
    push_prefetch(page, prefetch)
}

fn push_prefetch(page: &mut Page, prefetch: u16) -> Result<(), AllocError>
    ensures { OnOk result (page.new ≡ page.old ++ flat_map spaced (prefetch_words prefetch)) }
{
    if prefetch == 0 {
        return Ok(());
    }
    push_fixed(page, "prefetch=")?;
    page.push_number(u64::from(prefetch))
}
