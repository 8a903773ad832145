//! The message of a publication.
ghost use Rattle.std.specs.Prelude.{◌≡◌, IfOk};
ghost use Rattle.fed_schedule.specs.Messages.{is_persistent, headers_of, props_of};

use crate::options::header_words;
use amqp_props::{FieldTable, Octets, Properties};
use fed_journal::message::properties;
use schedule_words::values::arguments_of;
use schedule_words::words::{is_word, word_at, words_from};
use std::alloc::{AllocError, Global};

/// What a word of a header field begins with.
pub(crate) const HEADER_FRONT: &str = "header=";

fn is_persistent(words: &[Octets]) -> bool
    ensures { result ≡ is_persistent words.now }
{
    is_word(word_at(words, 6), "persistent")
}

/// The headers that the words write, none where there are no words.
#[tactic(auto, unfolding(crate::specs::Messages::headers_of))]
fn headers_of(alloc: Global, words: &[Octets]) -> Result<Option<FieldTable>, AllocError>
    ensures { IfOk result (λ headers. headers ≡ headers_of words.now) }
{
    if words.is_empty() {
        return Ok(None);
    }
    Ok(Some(arguments_of(alloc, HEADER_FRONT, words)?))
}

/// The properties that the words of `publish` write.
#[tactic(auto, unfolding(crate::specs::Messages::props_of))]
pub(crate) fn props_of(alloc: Global, words: &[Octets]) -> Result<Properties, AllocError>
    ensures { IfOk result (λ props. props ≡ props_of words.now) }
{
    let headers = headers_of(alloc, header_words(words_from(words, 6)))?;
    Ok(properties(is_persistent(words), headers))
}
