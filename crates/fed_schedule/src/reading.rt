//! What the words of a form state, or why they state nothing: each word is read once, numbers first, then names, options and
//! values, which is the order of the reasons.
ghost use Rattle.std.specs.Prelude.{◌≡◌, ◌≤◌, ◌+◌, ◌==◌, ◌||◌, [], List, ℕ, length, drop, not, true, false, codes, IfOk};
ghost use Rattle.std.specs.List.{list_any};
ghost use Rattle.client_rules.specs.Names.{is_reserved};
ghost use Rattle.fed_journal.specs.Names.{same_text};
ghost use Rattle.schedule_words.specs.Words.{word_at, text_of, spaced_length};
ghost use Rattle.schedule_words.specs.Fields.{is_run_name, is_long};
ghost use Rattle.schedule_words.specs.Values.{is_bad_argument_name};
ghost use Rattle.fed_schedule.specs.Messages.{header_front};
ghost use Rattle.fed_schedule.specs.Reasons.{arguments_within, message_within};
ghost use Rattle.fed_schedule.specs.Statements.{bound_event};
ghost use Rattle.fed_schedule.specs.Schedule.{form_read};

use crate::keyword::{BindingAction, ClientAction, Keyword, LinkAction, Settlement};
use crate::messages::{HEADER_FRONT, props_of};
use crate::options::{
    are_built_queue_options, are_consumer_options, are_exchange_options, consumer_prefetch,
    has_option, header_words, is_alone,
};
use crate::reasons::has_bad_prefetch;
use crate::script::{LineReason, MAX_SCHEDULE};
use crate::statement::{Statement, link_event, queue_options_of, settlement_event};
use amqp_props::{FieldTable, Message, Octets, Text, header_len};
use client_rules::is_reserved;
use fed_journal::event::{Event, Shovel};
use fed_journal::link::AckMode;
use fed_journal::place::{ExchangeShape, Place};
use field_tables::table_len;
use route_core::Binding;
use schedule_words::choices::{exchange_kind_of, sort_of};
use schedule_words::fields::{is_bad_place, is_long, is_run_name, place_of};
use schedule_words::links::{is_bad_link, link_name};
use schedule_words::numbers::{client_of, copy_of};
use schedule_words::values::{
    MAX_HEADER, arguments_of, has_bad_argument_name, has_bad_argument_number,
    has_bad_argument_value, has_no_argument,
};
use schedule_words::words::{is_word, octets_of, text_of, word_at, words_from};
use std::alloc::{AllocError, Global};

/// The most octets of a message's body.
const MAX_BODY: usize = 16_777_216;

/// The most octets of a binding's arguments, with the four of their number.
const MAX_ARGUMENTS: usize = 32_768;

/// What words state, or why they state nothing.
type Read = Result<Statement, LineReason>;

#[tactic(auto, unfolding(crate::specs::Schedule::form_read, crate::specs::Reasons::has_bad_number, crate::specs::Reasons::has_bad_names, crate::specs::Reasons::has_bad_option, crate::specs::Reasons::has_bad_value, crate::specs::Statements::statement_of))]
fn read_broker(alloc: Global, words: &[Octets]) -> Result<Read, AllocError>
    ensures { IfOk result (λ read. read ≡ form_read Keyword.Broker words.now) }
{
    let name = text_of(alloc, word_at(words, 1))?;
    if !is_run_name(&name) {
        return Ok(Err(LineReason::Name));
    }
    Ok(Ok(Statement::Broker(name)))
}

#[tactic(auto, unfolding(crate::specs::Schedule::form_read, crate::specs::Reasons::has_bad_number, crate::specs::Reasons::has_bad_names, crate::specs::Reasons::has_bad_option, crate::specs::Reasons::has_bad_value, crate::specs::Statements::statement_of))]
fn read_flush(alloc: Global, words: &[Octets]) -> Result<Read, AllocError>
    ensures { IfOk result (λ read. read ≡ form_read Keyword.Flush words.now) }
{
    let broker = text_of(alloc, word_at(words, 1))?;
    if !is_run_name(&broker) {
        return Ok(Err(LineReason::Name));
    }
    Ok(Ok(Statement::Event(Event::Flush { broker })))
}

#[tactic(auto, unfolding(crate::specs::Schedule::form_read, crate::specs::Reasons::has_bad_number, crate::specs::Reasons::has_bad_names, crate::specs::Reasons::has_bad_option, crate::specs::Reasons::has_bad_value, crate::specs::Statements::statement_of))]
fn read_link(alloc: Global, action: LinkAction, words: &[Octets]) -> Result<Read, AllocError>
    ensures { IfOk result (λ read. read ≡ form_read (Keyword.Link action) words.now) }
{
    let word = word_at(words, 1);
    if is_bad_link(alloc, word)? {
        return Ok(Err(LineReason::Name));
    }
    let link = link_name(alloc, word)?;
    Ok(Ok(Statement::Event(link_event(action, link))))
}

#[tactic(auto, unfolding(crate::specs::Schedule::form_read, crate::specs::Reasons::has_bad_number, crate::specs::Reasons::has_bad_client_number, crate::specs::Reasons::has_bad_names, crate::specs::Reasons::has_bad_client_names, crate::specs::Reasons::has_bad_place_and_name, crate::specs::Reasons::has_bad_option, crate::specs::Reasons::has_bad_client_option, crate::specs::Reasons::has_bad_value, crate::specs::Statements::statement_of, crate::specs::Statements::client_event, crate::specs::Statements::cancel_event))]
fn read_cancel(alloc: Global, words: &[Octets]) -> Result<Read, AllocError>
    ensures { IfOk result (λ read. read ≡ form_read (Keyword.Client ClientAction.Cancel) words.now) }
{
    let Some(client) = client_of(word_at(words, 2)) else {
        return Ok(Err(LineReason::Number));
    };
    let place = place_of(alloc, word_at(words, 1))?;
    let tag = text_of(alloc, word_at(words, 3))?;
    if is_bad_place(&place) || is_long(&tag) {
        return Ok(Err(LineReason::Name));
    }
    Ok(Ok(Statement::Event(Event::Cancel { place, client, tag })))
}

#[tactic(auto, unfolding(crate::specs::Schedule::form_read, crate::specs::Reasons::has_bad_number, crate::specs::Reasons::has_bad_client_number, crate::specs::Reasons::has_bad_names, crate::specs::Reasons::has_bad_client_names, crate::specs::Reasons::has_bad_place_and_name, crate::specs::Reasons::has_bad_option, crate::specs::Reasons::has_bad_client_option, crate::specs::Reasons::has_bad_value, crate::specs::Statements::statement_of, crate::specs::Statements::client_event, crate::specs::Statements::deliver_event))]
fn read_deliver(alloc: Global, words: &[Octets]) -> Result<Read, AllocError>
    ensures { IfOk result (λ read. read ≡ form_read (Keyword.Client ClientAction.Deliver) words.now) }
{
    let Some(client) = client_of(word_at(words, 2)) else {
        return Ok(Err(LineReason::Number));
    };
    let place = place_of(alloc, word_at(words, 1))?;
    let tag = text_of(alloc, word_at(words, 3))?;
    if is_bad_place(&place) || is_long(&tag) {
        return Ok(Err(LineReason::Name));
    }
    Ok(Ok(Statement::Event(Event::Deliver { place, client, tag })))
}

#[tactic(auto, unfolding(crate::specs::Schedule::form_read, crate::specs::Reasons::has_bad_number, crate::specs::Reasons::has_bad_client_number, crate::specs::Reasons::has_bad_names, crate::specs::Reasons::has_bad_client_names, crate::specs::Reasons::has_bad_place_and_name, crate::specs::Reasons::has_bad_option, crate::specs::Reasons::has_bad_client_option, crate::specs::Reasons::has_bad_value, crate::specs::Statements::statement_of, crate::specs::Statements::client_event, crate::specs::Statements::purge_event))]
fn read_purge(alloc: Global, words: &[Octets]) -> Result<Read, AllocError>
    ensures { IfOk result (λ read. read ≡ form_read (Keyword.Client ClientAction.Purge) words.now) }
{
    let Some(client) = client_of(word_at(words, 2)) else {
        return Ok(Err(LineReason::Number));
    };
    let place = place_of(alloc, word_at(words, 1))?;
    let queue = text_of(alloc, word_at(words, 3))?;
    if is_bad_place(&place) || is_long(&queue) {
        return Ok(Err(LineReason::Name));
    }
    Ok(Ok(Statement::Event(Event::Purge {
        place,
        client,
        queue,
    })))
}

#[tactic(auto, unfolding(crate::specs::Schedule::form_read, crate::specs::Reasons::has_bad_number, crate::specs::Reasons::has_bad_client_number, crate::specs::Reasons::has_bad_names, crate::specs::Reasons::has_bad_client_names, crate::specs::Reasons::has_bad_place_and_name, crate::specs::Reasons::has_bad_option, crate::specs::Reasons::has_bad_client_option, crate::specs::Reasons::has_bad_value, crate::specs::Statements::statement_of, crate::specs::Statements::client_event, crate::specs::Statements::close_event))]
fn read_close(alloc: Global, words: &[Octets]) -> Result<Read, AllocError>
    ensures { IfOk result (λ read. read ≡ form_read (Keyword.Client ClientAction.Close) words.now) }
{
    let Some(client) = client_of(word_at(words, 2)) else {
        return Ok(Err(LineReason::Number));
    };
    let place = place_of(alloc, word_at(words, 1))?;
    if is_bad_place(&place) {
        return Ok(Err(LineReason::Name));
    }
    Ok(Ok(Statement::Event(Event::Close { place, client })))
}

#[tactic(auto, unfolding(crate::specs::Schedule::form_read, crate::specs::Reasons::has_bad_number, crate::specs::Reasons::has_bad_client_number, crate::specs::Reasons::has_bad_names, crate::specs::Reasons::has_bad_client_names, crate::specs::Reasons::has_bad_place_and_name, crate::specs::Reasons::has_bad_option, crate::specs::Reasons::has_bad_client_option, crate::specs::Reasons::has_bad_value, crate::specs::Statements::statement_of, crate::specs::Statements::client_event, crate::specs::Statements::settle_event))]
fn read_settlement(
    alloc: Global,
    settlement: Settlement,
    words: &[Octets],
) -> Result<Read, AllocError>
    ensures { IfOk result (λ read. read ≡ form_read (Keyword.Client (ClientAction.Settle settlement)) words.now) }
{
    let Some(client) = client_of(word_at(words, 2)) else {
        return Ok(Err(LineReason::Number));
    };
    let Some(copy) = copy_of(word_at(words, 3)) else {
        return Ok(Err(LineReason::Number));
    };
    let place = place_of(alloc, word_at(words, 1))?;
    if is_bad_place(&place) {
        return Ok(Err(LineReason::Name));
    }
    let event = settlement_event(settlement, place, client, copy);
    Ok(Ok(Statement::Event(event)))
}

#[tactic(auto, unfolding(crate::specs::Schedule::form_read, crate::specs::Reasons::has_bad_number, crate::specs::Reasons::has_bad_client_number, crate::specs::Reasons::has_bad_names, crate::specs::Reasons::has_bad_client_names, crate::specs::Reasons::has_bad_place_and_name, crate::specs::Reasons::has_bad_option, crate::specs::Reasons::has_bad_client_option, crate::specs::Reasons::has_bad_value, crate::specs::Statements::statement_of, crate::specs::Statements::client_event, crate::specs::Statements::get_event))]
fn read_get(alloc: Global, words: &[Octets]) -> Result<Read, AllocError>
    ensures { IfOk result (λ read. read ≡ form_read (Keyword.Client ClientAction.Get) words.now) }
{
    let Some(client) = client_of(word_at(words, 2)) else {
        return Ok(Err(LineReason::Number));
    };
    let place = place_of(alloc, word_at(words, 1))?;
    let queue = text_of(alloc, word_at(words, 3))?;
    if is_bad_place(&place) || is_long(&queue) {
        return Ok(Err(LineReason::Name));
    }
    if words.len() != 4 && !is_alone("no-ack", words_from(words, 4)) {
        return Ok(Err(LineReason::Option));
    }
    Ok(Ok(Statement::Event(Event::Get {
        place,
        client,
        queue,
        no_ack: words.len() != 4,
    })))
}

#[tactic(auto, unfolding(crate::specs::Schedule::form_read, crate::specs::Reasons::has_bad_number, crate::specs::Reasons::has_bad_client_number, crate::specs::Reasons::has_bad_names, crate::specs::Reasons::has_bad_client_names, crate::specs::Reasons::has_bad_place_and_name, crate::specs::Reasons::has_bad_option, crate::specs::Reasons::has_bad_client_option, crate::specs::Reasons::has_bad_value, crate::specs::Statements::statement_of, crate::specs::Statements::client_event, crate::specs::Statements::consume_event))]
fn read_consume(alloc: Global, words: &[Octets]) -> Result<Read, AllocError>
    ensures { IfOk result (λ read. read ≡ form_read (Keyword.Client ClientAction.Consume) words.now) }
{
    let Some(client) = client_of(word_at(words, 2)) else {
        return Ok(Err(LineReason::Number));
    };
    if has_bad_prefetch(words_from(words, 5)) {
        return Ok(Err(LineReason::Number));
    }
    let place = place_of(alloc, word_at(words, 1))?;
    let queue = text_of(alloc, word_at(words, 3))?;
    let tag = text_of(alloc, word_at(words, 4))?;
    if is_bad_place(&place) || is_long(&queue) || is_long(&tag) {
        return Ok(Err(LineReason::Name));
    }
    if !are_consumer_options(words_from(words, 5)) {
        return Ok(Err(LineReason::Option));
    }
    Ok(Ok(Statement::Event(Event::Consume {
        place,
        client,
        queue,
        tag,
        no_ack: is_word(word_at(words, 5), "no-ack"),
        prefetch: consumer_prefetch(words_from(words, 5)),
    })))
}

/// What the words of a client's action state.
fn read_client(alloc: Global, action: ClientAction, words: &[Octets]) -> Result<Read, AllocError>
    ensures { IfOk result (λ read. read ≡ form_read (Keyword.Client action) words.now) }
{
    match action {
        ClientAction::Consume => read_consume(alloc, words),
        ClientAction::Cancel => read_cancel(alloc, words),
        ClientAction::Deliver => read_deliver(alloc, words),
        ClientAction::Get => read_get(alloc, words),
        ClientAction::Settle(settlement) => read_settlement(alloc, settlement, words),
        ClientAction::Purge => read_purge(alloc, words),
        ClientAction::Close => read_close(alloc, words),
    }
}

#[tactic(auto, unfolding(crate::specs::Schedule::form_read, crate::specs::Reasons::has_bad_number, crate::specs::Reasons::has_bad_names, crate::specs::Reasons::has_bad_option, crate::specs::Reasons::has_bad_value, crate::specs::Statements::statement_of, crate::specs::Reasons::has_bad_place_and_name, crate::specs::Reasons::has_bad_declare_option, crate::specs::Statements::declare_event, crate::specs::Statements::exchange_shape_of))]
fn read_exchange(alloc: Global, words: &[Octets]) -> Result<Read, AllocError>
    requires { same_text (word_at words.now 3) (codes "exchange") ≡ true }
    ensures { IfOk result (λ read. read ≡ form_read Keyword.Declare words.now) }
{
    let Some(client) = client_of(word_at(words, 2)) else {
        return Ok(Err(LineReason::Number));
    };
    let place = place_of(alloc, word_at(words, 1))?;
    let exchange = text_of(alloc, word_at(words, 4))?;
    if is_bad_place(&place) || is_long(&exchange) {
        return Ok(Err(LineReason::Name));
    }
    let Some(kind) = exchange_kind_of(word_at(words, 5)) else {
        return Ok(Err(LineReason::Option));
    };
    let options = words_from(words, 6);
    if !are_exchange_options(options) {
        return Ok(Err(LineReason::Option));
    }
    let shape = ExchangeShape {
        kind,
        durable: has_option("durable", options),
        internal: has_option("internal", options),
    };
    Ok(Ok(Statement::Event(Event::DeclareExchange {
        place,
        client,
        exchange,
        shape,
    })))
}

#[tactic(auto, unfolding(crate::specs::Schedule::form_read, crate::specs::Reasons::has_bad_number, crate::specs::Reasons::has_bad_names, crate::specs::Reasons::has_bad_option, crate::specs::Reasons::has_bad_value, crate::specs::Statements::statement_of, crate::specs::Reasons::has_bad_place_and_name, crate::specs::Reasons::has_bad_declare_option, crate::specs::Statements::declare_event, crate::specs::Statements::exchange_shape_of))]
fn read_queue(alloc: Global, words: &[Octets]) -> Result<Read, AllocError>
    requires { same_text (word_at words.now 3) (codes "exchange") ≡ false }
    ensures { IfOk result (λ read. read ≡ form_read Keyword.Declare words.now) }
{
    let Some(client) = client_of(word_at(words, 2)) else {
        return Ok(Err(LineReason::Number));
    };
    let place = place_of(alloc, word_at(words, 1))?;
    let queue = text_of(alloc, word_at(words, 4))?;
    if is_bad_place(&place) || is_long(&queue) {
        return Ok(Err(LineReason::Name));
    }
    let options = words_from(words, 5);
    if !is_word(word_at(words, 3), "queue") || !are_built_queue_options(options) {
        return Ok(Err(LineReason::Option));
    }
    Ok(Ok(Statement::Event(Event::DeclareQueue {
        place,
        client,
        queue,
        options: queue_options_of(options),
    })))
}

fn read_declare(alloc: Global, words: &[Octets]) -> Result<Read, AllocError>
    ensures { IfOk result (λ read. read ≡ form_read Keyword.Declare words.now) }
{
    if is_word(word_at(words, 3), "exchange") {
        return read_exchange(alloc, words);
    }
    read_queue(alloc, words)
}

/// The arguments of a binding, None where a value is none or they are too long.
#[tactic(auto, unfolding(crate::specs::Reasons::arguments_within, crate::specs::Reasons::has_bad_arguments))]
fn arguments_in(alloc: Global, words: &[Octets]) -> Result<Option<FieldTable>, AllocError>
    requires named { list_any (is_bad_argument_name []) words.now ≡ false }
    requires within { spaced_length words.now ≤ MAX_SCHEDULE + 1 }
    ensures { IfOk result (λ arguments. arguments ≡ arguments_within words.now) }
{
    if has_bad_argument_value(alloc, "", words)? {
        return Ok(None);
    }
    let arguments = arguments_of(alloc, "", words)?;
    if table_len(arguments.as_table()) > MAX_ARGUMENTS {
        return Ok(None);
    }
    Ok(Some(arguments))
}

fn bound_event(action: BindingAction, place: Place, client: u16, binding: Binding) -> Event
    ensures { result ≡ bound_event action place client binding }
{
    match action {
        BindingAction::Bind => Event::Bind {
            place,
            client,
            binding,
        },
        BindingAction::Unbind => Event::Unbind {
            place,
            client,
            binding,
        },
    }
}

#[tactic(auto, unfolding(crate::specs::Schedule::form_read, crate::specs::Reasons::has_bad_number, crate::specs::Reasons::has_bad_names, crate::specs::Reasons::has_bad_option, crate::specs::Reasons::has_bad_value, crate::specs::Statements::statement_of, crate::specs::Reasons::has_bad_place_and_name, crate::specs::Reasons::has_bad_binding_names, crate::specs::Reasons::arguments_within, crate::specs::Statements::binding_event, crate::specs::Statements::binding_at))]
fn read_binding(alloc: Global, action: BindingAction, words: &[Octets]) -> Result<Read, AllocError>
    requires { spaced_length words.now ≤ MAX_SCHEDULE + 1 }
    ensures { IfOk result (λ read. read ≡ form_read (Keyword.Binding action) words.now) }
{
    let Some(client) = client_of(word_at(words, 2)) else {
        return Ok(Err(LineReason::Number));
    };
    let options = words_from(words, 7);
    if has_bad_argument_number("", options) {
        return Ok(Err(LineReason::Number));
    }
    let place = place_of(alloc, word_at(words, 1))?;
    let dest = text_of(alloc, word_at(words, 4))?;
    let source = text_of(alloc, word_at(words, 5))?;
    let key = text_of(alloc, word_at(words, 6))?;
    if is_bad_place(&place) || is_long(&dest) || is_long(&source) || is_long(&key) {
        return Ok(Err(LineReason::Name));
    }
    if has_bad_argument_name(alloc, "", options)? {
        return Ok(Err(LineReason::Name));
    }
    let Some(sort) = sort_of(word_at(words, 3)) else {
        return Ok(Err(LineReason::Option));
    };
    if has_no_argument("", options) {
        return Ok(Err(LineReason::Option));
    }
    let Some(args) = arguments_in(alloc, options)? else {
        return Ok(Err(LineReason::Value));
    };
    let binding = Binding {
        source,
        sort,
        dest,
        key,
        args,
    };
    let event = bound_event(action, place, client, binding);
    Ok(Ok(Statement::Event(event)))
}

/// The message of a publication, None where a value is none or too long.
#[tactic(auto, unfolding(crate::specs::Reasons::message_within, crate::specs::Reasons::has_bad_message, crate::specs::Reasons::is_bad_body, crate::specs::Messages::message_of))]
fn message_in(
    alloc: Global,
    exchange: Text,
    key: Text,
    words: &[Octets],
) -> Result<Option<Message>, AllocError>
    requires exchange { exchange ≡ text_of (word_at words.now 3) }
    requires key { key ≡ text_of (word_at words.now 4) }
    requires named { list_any (is_bad_argument_name header_front) (drop 6 words.now) ≡ false }
    requires within { spaced_length words.now ≤ MAX_SCHEDULE + 1 }
    ensures { IfOk result (λ message. message ≡ message_within words.now) }
{
    let body = octets_of(alloc, word_at(words, 5))?;
    if body.as_slice().len() > MAX_BODY {
        return Ok(None);
    }
    if has_bad_argument_value(alloc, HEADER_FRONT, header_words(words_from(words, 6)))? {
        return Ok(None);
    }
    let props = props_of(alloc, words)?;
    if header_len(&props) > MAX_HEADER {
        return Ok(None);
    }
    Ok(Some(Message {
        exchange,
        key,
        props,
        body,
    }))
}

#[tactic(auto, unfolding(crate::specs::Schedule::form_read, crate::specs::Reasons::has_bad_number, crate::specs::Reasons::has_bad_names, crate::specs::Reasons::has_bad_option, crate::specs::Reasons::has_bad_value, crate::specs::Statements::statement_of, crate::specs::Reasons::has_bad_place_and_name, crate::specs::Reasons::has_bad_publish_names, crate::specs::Reasons::message_within, crate::specs::Statements::publish_event))]
fn read_publish(alloc: Global, words: &[Octets]) -> Result<Read, AllocError>
    requires { spaced_length words.now ≤ MAX_SCHEDULE + 1 }
    ensures { IfOk result (λ read. read ≡ form_read Keyword.Publish words.now) }
{
    let Some(client) = client_of(word_at(words, 2)) else {
        return Ok(Err(LineReason::Number));
    };
    let options = words_from(words, 6);
    if has_bad_argument_number(HEADER_FRONT, options) {
        return Ok(Err(LineReason::Number));
    }
    let place = place_of(alloc, word_at(words, 1))?;
    let exchange = text_of(alloc, word_at(words, 3))?;
    let key = text_of(alloc, word_at(words, 4))?;
    if is_bad_place(&place) || is_long(&exchange) || is_long(&key) {
        return Ok(Err(LineReason::Name));
    }
    if has_bad_argument_name(alloc, HEADER_FRONT, options)? {
        return Ok(Err(LineReason::Name));
    }
    if has_no_argument(HEADER_FRONT, header_words(options)) {
        return Ok(Err(LineReason::Option));
    }
    let Some(message) = message_in(alloc, exchange, key, words)? else {
        return Ok(Err(LineReason::Value));
    };
    Ok(Ok(Statement::Event(Event::Publish {
        place,
        client,
        message,
    })))
}

/// Whether a shovel can't have the queue, by its name.
fn is_bad_queue(queue: &Text) -> bool
    ensures { result ≡ (length queue.now == 0 || is_reserved queue.now) }
{
    queue.as_str().is_empty() || is_reserved(queue.as_str())
}

/// Whether an end of a shovel has no run name, or its queue's name is too long.
fn is_bad_end(broker: &Text, queue: &Text) -> bool
    ensures { result ≡ (not (is_run_name broker.now) || is_long queue.now) }
{
    !is_run_name(broker) || is_long(queue)
}

#[tactic(auto, unfolding(crate::specs::Schedule::form_read, crate::specs::Reasons::has_bad_number, crate::specs::Reasons::has_bad_names, crate::specs::Reasons::has_bad_option, crate::specs::Reasons::has_bad_value, crate::specs::Statements::statement_of, crate::specs::Reasons::has_bad_place_and_name, crate::specs::Reasons::has_bad_end, crate::specs::Reasons::is_bad_queue, crate::specs::Statements::shovel_event, crate::specs::Statements::shovel_of))]
fn read_shovel(alloc: Global, words: &[Octets]) -> Result<Read, AllocError>
    ensures { IfOk result (λ read. read ≡ form_read Keyword.Shovel words.now) }
{
    let place = place_of(alloc, word_at(words, 1))?;
    let name = text_of(alloc, word_at(words, 2))?;
    let source = text_of(alloc, word_at(words, 3))?;
    let source_queue = text_of(alloc, word_at(words, 4))?;
    let target = text_of(alloc, word_at(words, 5))?;
    let target_queue = text_of(alloc, word_at(words, 6))?;
    if is_bad_place(&place)
        || is_long(&name)
        || is_bad_end(&source, &source_queue)
        || is_bad_end(&target, &target_queue)
    {
        return Ok(Err(LineReason::Name));
    }
    if !is_word(word_at(words, 7), "on-confirm") {
        return Ok(Err(LineReason::Option));
    }
    if is_bad_queue(&source_queue) || is_bad_queue(&target_queue) {
        return Ok(Err(LineReason::Value));
    }
    let shovel = Shovel {
        source,
        source_queue,
        target,
        target_queue,
        mode: AckMode::OnConfirm,
    };
    Ok(Ok(Statement::Event(Event::SetShovel {
        place,
        name,
        shovel,
    })))
}

#[tactic(auto, unfolding(crate::specs::Schedule::form_read, crate::specs::Reasons::has_bad_number, crate::specs::Reasons::has_bad_names, crate::specs::Reasons::has_bad_option, crate::specs::Reasons::has_bad_value, crate::specs::Statements::statement_of))]
fn read_show() -> Read
    ensures { (ws : List (List ℕ)) → result ≡ form_read Keyword.Show ws }
{
    Ok(Statement::Event(Event::Show))
}

/// What the words of a form state, or the first reason against them.
pub(crate) fn read_form(
    alloc: Global,
    keyword: Keyword,
    words: &[Octets],
) -> Result<Read, AllocError>
    requires { spaced_length words.now ≤ MAX_SCHEDULE + 1 }
    ensures { IfOk result (λ read. read ≡ form_read keyword words.now) }
{
    match keyword {
        Keyword::Broker => read_broker(alloc, words),
        Keyword::Flush => read_flush(alloc, words),
        Keyword::Client(action) => read_client(alloc, action, words),
        Keyword::Link(action) => read_link(alloc, action, words),
        Keyword::Declare => read_declare(alloc, words),
        Keyword::Binding(action) => read_binding(alloc, action, words),
        Keyword::Publish => read_publish(alloc, words),
        Keyword::Shovel => read_shovel(alloc, words),
        Keyword::Show => Ok(read_show()),
    }
}
