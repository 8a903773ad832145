//! Fixed words that are one of several.
ghost use Rattle.std.specs.Prelude.{◌≡◌};
ghost use Rattle.schedule_words.specs.Choices.{exchange_kind_of, sort_of};

use crate::words::is_word;
use amqp_props::ExchangeKind;
use route_core::Sort;

/// The type of an exchange that the word names.
#[tactic(auto, unfolding(crate::specs::Choices::exchange_kind_of))]
pub fn exchange_kind_of(word: &[u8]) -> Option<ExchangeKind>
    ensures { result ≡ exchange_kind_of word.now }
{
    if is_word(word, "direct") {
        return Some(ExchangeKind::Direct);
    }
    if is_word(word, "fanout") {
        return Some(ExchangeKind::Fanout);
    }
    if is_word(word, "headers") {
        return Some(ExchangeKind::Headers);
    }
    if is_word(word, "topic") {
        return Some(ExchangeKind::Topic);
    }
    None
}

/// What a binding leads to, by the word.
#[tactic(auto, unfolding(crate::specs::Choices::sort_of))]
pub fn sort_of(word: &[u8]) -> Option<Sort>
    ensures { result ≡ sort_of word.now }
{
    if is_word(word, "queue") {
        return Some(Sort::Queue);
    }
    if is_word(word, "exchange") {
        return Some(Sort::Exchange);
    }
    None
}
