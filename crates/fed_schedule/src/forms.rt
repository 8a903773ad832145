//! The forms of lines, by their first word.
ghost use Rattle.std.specs.Prelude.{◌≡◌, ◌<◌, IfOk};
ghost use Rattle.std.specs.List.{list_any, list_all};
ghost use Rattle.schedule_words.specs.Words.{is_text};
ghost use Rattle.fed_schedule.specs.Forms.{client_action_of, link_action_of, action_keyword_of, keyword_of, are_texts_but, are_texts, is_unbuilt_declare, is_unbuilt_shovel, is_unbuilt, client_word_count, declare_word_count, word_count, takes_options, is_empty_word, is_miscounted};

use crate::keyword::{BindingAction, ClientAction, Keyword, LinkAction, Settlement};
use crate::options::{are_built_queue_options, are_queue_options};
use crate::shovels::{ShovelKey, shovel_key};
use crate::times::{is_repeated, is_times};
use amqp_props::Octets;
use indexmap::IndexSet;
use schedule_words::fields::place_of;
use schedule_words::words::{is_text, is_word, text_of, word_at, words_before, words_from};
use std::alloc::{AllocError, Global};

/// What a client does by that word.
#[tactic(auto, unfolding(crate::specs::Forms::client_action_of))]
fn client_action_of(word: &[u8]) -> Option<ClientAction>
    ensures { result ≡ client_action_of word.now }
{
    if is_word(word, "consume") {
        return Some(ClientAction::Consume);
    }
    if is_word(word, "cancel") {
        return Some(ClientAction::Cancel);
    }
    if is_word(word, "deliver") {
        return Some(ClientAction::Deliver);
    }
    if is_word(word, "get") {
        return Some(ClientAction::Get);
    }
    if is_word(word, "ack") {
        return Some(ClientAction::Settle(Settlement::Ack));
    }
    if is_word(word, "reject") {
        return Some(ClientAction::Settle(Settlement::Reject));
    }
    if is_word(word, "requeue") {
        return Some(ClientAction::Settle(Settlement::Requeue));
    }
    if is_word(word, "purge") {
        return Some(ClientAction::Purge);
    }
    if is_word(word, "close") {
        return Some(ClientAction::Close);
    }
    None
}

/// What a link does by that word.
#[tactic(auto, unfolding(crate::specs::Forms::link_action_of))]
fn link_action_of(word: &[u8]) -> Option<LinkAction>
    ensures { result ≡ link_action_of word.now }
{
    if is_word(word, "open") {
        return Some(LinkAction::Open);
    }
    if is_word(word, "take") {
        return Some(LinkAction::Take);
    }
    if is_word(word, "send") {
        return Some(LinkAction::Send);
    }
    if is_word(word, "accept") {
        return Some(LinkAction::Accept);
    }
    if is_word(word, "confirm") {
        return Some(LinkAction::Confirm);
    }
    if is_word(word, "note") {
        return Some(LinkAction::Note);
    }
    if is_word(word, "settle") {
        return Some(LinkAction::Settle);
    }
    None
}

/// The form of what a client or a link does by that word.
#[tactic(auto, unfolding(crate::specs::Forms::action_keyword_of))]
fn action_keyword_of(word: &[u8]) -> Option<Keyword>
    ensures { result ≡ action_keyword_of word.now }
{
    match (client_action_of(word), link_action_of(word)) {
        (Some(action), _) => Some(Keyword::Client(action)),
        (None, Some(action)) => Some(Keyword::Link(action)),
        (None, None) => None,
    }
}

/// The form that the first word names.
#[tactic(auto, unfolding(crate::specs::Forms::keyword_of))]
pub(crate) fn keyword_of(word: &[u8]) -> Option<Keyword>
    ensures { result ≡ keyword_of word.now }
{
    if is_word(word, "broker") {
        return Some(Keyword::Broker);
    }
    if is_word(word, "declare") {
        return Some(Keyword::Declare);
    }
    if is_word(word, "bind") {
        return Some(Keyword::Binding(BindingAction::Bind));
    }
    if is_word(word, "unbind") {
        return Some(Keyword::Binding(BindingAction::Unbind));
    }
    if is_word(word, "publish") {
        return Some(Keyword::Publish);
    }
    if is_word(word, "flush") {
        return Some(Keyword::Flush);
    }
    if is_word(word, "shovel") {
        return Some(Keyword::Shovel);
    }
    if is_word(word, "show") {
        return Some(Keyword::Show);
    }
    action_keyword_of(word)
}

fn all_texts(alloc: Global, words: &[Octets]) -> Result<bool, AllocError>
    ensures { IfOk result (λ texts. texts ≡ list_all is_text words.now) }
{
    for word in words {
        if !is_text(alloc, word.as_slice())? {
            return Ok(false);
        }
    }
    Ok(true)
}

/// Whether all words but one are texts.
fn are_texts_but(alloc: Global, at: usize, words: &[Octets]) -> Result<bool, AllocError>
    requires { at < 8 }
    ensures { IfOk result (λ texts. texts ≡ are_texts_but at words.now) }
{
    if !all_texts(alloc, words_before(words, at))? {
        return Ok(false);
    }
    all_texts(alloc, words_from(words, at + 1))
}

/// Whether all words but the body of a message are texts.
#[tactic(auto, unfolding(crate::specs::Forms::are_texts))]
pub(crate) fn are_texts(alloc: Global, words: &[Octets]) -> Result<bool, AllocError>
    ensures { IfOk result (λ texts. texts ≡ are_texts words.now) }
{
    if is_word(word_at(words, 0), "publish") {
        return are_texts_but(alloc, 5, words);
    }
    if is_times(words) && is_word(word_at(words, 2), "publish") {
        return are_texts_but(alloc, 7, words);
    }
    all_texts(alloc, words)
}

#[tactic(auto, unfolding(crate::specs::Forms::is_unbuilt_declare))]
fn is_unbuilt_declare(words: &[Octets]) -> bool
    ensures { result ≡ is_unbuilt_declare words.now }
{
    let options = words_from(words, 5);
    is_word(word_at(words, 3), "queue")
        && words.len() >= 5
        && are_queue_options(options)
        && !are_built_queue_options(options)
}

#[tactic(auto, unfolding(crate::specs::Forms::is_unbuilt_shovel))]
fn is_unbuilt_shovel(
    alloc: Global,
    shovels: &IndexSet<ShovelKey>,
    words: &[Octets],
) -> Result<bool, AllocError>
    ensures { IfOk result (λ unbuilt. unbuilt ≡ is_unbuilt_shovel shovels.now.keys words.now) }
{
    let mode = word_at(words, 7);
    if is_word(mode, "on-publish") || is_word(mode, "no-ack") {
        return Ok(true);
    }
    let place = place_of(alloc, word_at(words, 1))?;
    let name = text_of(alloc, word_at(words, 2))?;
    let key = shovel_key(&place, &name)?;
    Ok(shovels.contains(&key))
}

/// Whether the form of the line isn't built yet, after what stands before it.
#[tactic(auto, unfolding(crate::specs::Forms::is_unbuilt))]
pub(crate) fn is_unbuilt(
    alloc: Global,
    shovels: &IndexSet<ShovelKey>,
    keyword: Keyword,
    head: &[Octets],
    words: &[Octets],
) -> Result<bool, AllocError>
    ensures { IfOk result (λ unbuilt. unbuilt ≡ is_unbuilt shovels.now.keys keyword head.now words.now) }
{
    match keyword {
        Keyword::Declare => Ok(is_unbuilt_declare(words)),
        Keyword::Shovel => {
            if is_repeated(head) {
                return Ok(true);
            }
            is_unbuilt_shovel(alloc, shovels, words)
        }
        _ => Ok(false),
    }
}

/// The words of what a client does, without options.
fn client_word_count(action: ClientAction) -> usize
    ensures { result ≡ client_word_count action }
{
    match action {
        ClientAction::Consume => 5,
        ClientAction::Close => 3,
        _ => 4,
    }
}

/// The words of a declaration, without options.
fn declare_word_count(words: &[Octets]) -> usize
    ensures { result ≡ declare_word_count words.now }
{
    if is_word(word_at(words, 3), "exchange") {
        6
    } else {
        5
    }
}

/// The words of a form, without its options.
fn word_count(keyword: Keyword, words: &[Octets]) -> usize
    ensures { result ≡ word_count keyword words.now }
{
    match keyword {
        Keyword::Broker | Keyword::Flush | Keyword::Link(_) => 2,
        Keyword::Declare => declare_word_count(words),
        Keyword::Binding(_) => 7,
        Keyword::Publish => 6,
        Keyword::Shovel => 8,
        Keyword::Client(action) => client_word_count(action),
        Keyword::Show => 1,
    }
}

fn takes_options(keyword: Keyword) -> bool
    ensures { result ≡ takes_options keyword }
{
    match keyword {
        Keyword::Declare | Keyword::Binding(_) | Keyword::Publish => true,
        Keyword::Client(ClientAction::Consume | ClientAction::Get) => true,
        _ => false,
    }
}

pub(crate) fn has_empty_word(words: &[Octets]) -> bool
    ensures { result ≡ list_any is_empty_word words.now }
{
    words.iter().any(|word| word.as_slice().is_empty())
}

/// Whether words are missing, too many, or empty.
#[tactic(auto, unfolding(crate::specs::Forms::is_miscounted))]
pub(crate) fn is_miscounted(keyword: Keyword, words: &[Octets]) -> bool
    ensures { result ≡ is_miscounted keyword words.now }
{
    let count = word_count(keyword, words);
    has_empty_word(words) || words.len() < count || (!takes_options(keyword) && count < words.len())
}
