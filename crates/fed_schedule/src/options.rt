//! The options of a line, the words after those that its form needs.
ghost use Rattle.std.specs.Prelude.{◌≡◌};
ghost use Rattle.fed_schedule.specs.Options.{without, are_queue_options, are_built_queue_options, are_exchange_options, has_option, header_words, is_alone, names_prefetch, prefetch_of, is_bad_prefetch, without_prefetch, are_consumer_options, consumer_prefetch};

use amqp_props::Octets;
use schedule_words::numbers::prefetch_count_of;
use schedule_words::words::{is_word, word_at, words_from};

/// The words after an option, if it stands first.
#[tactic(auto, unfolding(crate::specs::Options::without))]
fn without<'a>(option: &str, words: &'a [Octets]) -> &'a [Octets]
    ensures { result.now ≡ without option.now words.now }
{
    if is_word(word_at(words, 0), option) {
        words_from(words, 1)
    } else {
        words
    }
}

/// Whether the words are none, or some of a queue's options in their order.
#[tactic(auto, unfolding(crate::specs::Options::are_queue_options))]
pub(crate) fn are_queue_options(words: &[Octets]) -> bool
    ensures { result ≡ are_queue_options words.now }
{
    let rest = without("durable", words);
    let rest = without("exclusive", rest);
    without("auto-delete", rest).is_empty()
}

/// Whether these are options of queues that are built.
#[tactic(auto, unfolding(crate::specs::Options::are_built_queue_options))]
pub(crate) fn are_built_queue_options(words: &[Octets]) -> bool
    ensures { result ≡ are_built_queue_options words.now }
{
    let rest = without("durable", words);
    without("exclusive", rest).is_empty()
}

/// Whether the words are none, or some of an exchange's options in their order.
#[tactic(auto, unfolding(crate::specs::Options::are_exchange_options))]
pub(crate) fn are_exchange_options(words: &[Octets]) -> bool
    ensures { result ≡ are_exchange_options words.now }
{
    let rest = without("durable", words);
    without("internal", rest).is_empty()
}

/// Whether the option is among the words.
#[tactic(auto, unfolding(crate::specs::Options::has_option))]
pub(crate) fn has_option(option: &str, words: &[Octets]) -> bool
    ensures { result ≡ has_option option.now words.now }
{
    words.iter().any(|word| is_word(word.as_slice(), option))
}

/// The words of a message's header fields.
#[tactic(auto, unfolding(crate::specs::Options::header_words))]
pub(crate) fn header_words(words: &[Octets]) -> &[Octets]
    ensures { result.now ≡ header_words words.now }
{
    without("persistent", words)
}

/// Whether the words are this option alone.
pub(crate) fn is_alone(option: &str, words: &[Octets]) -> bool
    ensures { result ≡ is_alone option.now words.now }
{
    words.len() == 1 && is_word(word_at(words, 0), option)
}

fn names_prefetch(word: &[u8]) -> bool
    ensures { result ≡ names_prefetch word.now }
{
    word.starts_with(b"prefetch=")
}

/// The prefetch count that an option gives.
#[tactic(auto, unfolding(crate::specs::Options::prefetch_of))]
fn prefetch_of(word: &[u8]) -> Option<u16>
    ensures { result ≡ prefetch_of word.now }
{
    match word.strip_prefix(b"prefetch=") {
        Some(count) => prefetch_count_of(count),
        None => None,
    }
}

/// Whether the word is a prefetch count that is none.
pub(crate) fn is_bad_prefetch(word: &[u8]) -> bool
    ensures { result ≡ is_bad_prefetch word.now }
{
    names_prefetch(word) && prefetch_of(word).is_none()
}

/// The words after a prefetch count, if it stands first.
#[tactic(auto, unfolding(crate::specs::Options::without_prefetch))]
fn without_prefetch(words: &[Octets]) -> &[Octets]
    ensures { result.now ≡ without_prefetch words.now }
{
    if names_prefetch(word_at(words, 0)) {
        words_from(words, 1)
    } else {
        words
    }
}

/// Whether the words are none, or some of a consumer's options in their order.
#[tactic(auto, unfolding(crate::specs::Options::are_consumer_options))]
pub(crate) fn are_consumer_options(words: &[Octets]) -> bool
    ensures { result ≡ are_consumer_options words.now }
{
    let rest = without("no-ack", words);
    without_prefetch(rest).is_empty()
}

/// The prefetch count of a consumer, 0 where its options give none.
#[tactic(auto, unfolding(crate::specs::Options::consumer_prefetch))]
pub(crate) fn consumer_prefetch(words: &[Octets]) -> u16
    ensures { result ≡ consumer_prefetch words.now }
{
    let rest = without("no-ack", words);
    prefetch_of(word_at(rest, 0)).unwrap_or(0)
}
