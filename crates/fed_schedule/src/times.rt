//! Lines that repeat another one: `times N LINE`.
ghost use Rattle.std.specs.Prelude.{◌≡◌};
ghost use Rattle.fed_schedule.specs.Times.{is_times, head_of, line_of, is_bad_head, count_of, is_repeated, is_single};

use amqp_props::Octets;
use schedule_words::numbers::repeat_count_of;
use schedule_words::words::{is_word, word_at, words_before, words_from};

/// Whether the words repeat a line.
pub(crate) fn is_times(words: &[Octets]) -> bool
    ensures { result ≡ is_times words.now }
{
    is_word(word_at(words, 0), "times")
}

/// The words before the line that is repeated, none before a line that stands for itself.
#[tactic(auto, unfolding(crate::specs::Times::head_of))]
pub(crate) fn head_of(words: &[Octets]) -> &[Octets]
    ensures { result.now ≡ head_of words.now }
{
    if is_times(words) {
        words_before(words, 2)
    } else {
        &[]
    }
}

/// The words of the line that is repeated, or stands for itself.
#[tactic(auto, unfolding(crate::specs::Times::line_of))]
pub(crate) fn line_of(words: &[Octets]) -> &[Octets]
    ensures { result.now ≡ line_of words.now }
{
    if is_times(words) {
        words_from(words, 2)
    } else {
        words
    }
}

/// Whether N is none.
#[tactic(auto, unfolding(crate::specs::Times::is_bad_head))]
pub(crate) fn is_bad_head(head: &[Octets]) -> bool
    ensures { result ≡ is_bad_head head.now }
{
    !head.is_empty() && repeat_count_of(word_at(head, 1)).is_none()
}

/// How often the line stands.
#[tactic(auto, unfolding(crate::specs::Times::count_of))]
pub(crate) fn count_of(head: &[Octets]) -> u16
    ensures { result ≡ count_of head.now }
{
    if head.is_empty() {
        return 1;
    }
    repeat_count_of(word_at(head, 1)).unwrap_or(1)
}

/// Whether the line stands more than once.
pub(crate) fn is_repeated(head: &[Octets]) -> bool
    ensures { result ≡ is_repeated head.now }
{
    count_of(head) > 1
}

/// Whether the word begins a line that can't be repeated.
pub(crate) fn is_single(word: &[u8]) -> bool
    ensures { result ≡ is_single word.now }
{
    is_word(word, "broker") || is_word(word, "times")
}
