//! The topic exchange's patterns.

ghost use Rattle.std.specs.Prelude.{◌≡◌, ◌↔◌, ◌≤◌, ◌∷◌, ◌||◌, length, IsTrue, Some};
ghost use Rattle.std.specs.List.{position};
ghost use Rattle.std.specs.Option.{option_copied};
ghost use Rattle.std.specs.Str.{bytes_eq};
ghost use Rattle.binding_match.specs.Topics.{words as words_of_text, is_dot, hash, star, Covers, covers, some_end};
ghost use Rattle.binding_match.specs.Walks.{words_in, answer_of, left_of, StaysAhead};

/// How far a pattern and a key go along word by word.
#[derive(Clone, Copy)]
enum Walk<'a> {
    /// A word differs, or one of them ends before the other.
    Fails,
    /// Both end together.
    Ends,
    /// A `#` was met: the words behind it in the pattern, and those of the key from there on.
    Hash(Option<&'a [u8]>, Option<&'a [u8]>),
}

fn words_of(text: &str) -> Option<&[u8]>
    ensures { words_in (option_copied result) ≡ words_of_text text.now }
{
    if text.is_empty() {
        None
    } else {
        Some(text.as_bytes())
    }
}

fn first_dot(text: &[u8]) -> Option<usize>
    ensures { result ≡ position is_dot text.now }
{
    text.iter().position(|&c| c == b'.')
}

/// The first word, and what is left behind its dot.
fn split_word(text: &[u8]) -> (&[u8], Option<&[u8]>)
    ensures { words_in (Some text.now) ≡ result.0.now ∷ words_in (option_copied result.1) }
{
    match first_dot(text) {
        Some(i) => (&text[..i], Some(&text[i + 1..])),
        None => (text, None),
    }
}

fn is_hash(part: &[u8]) -> bool
    ensures { result ≡ bytes_eq part.now hash }
{
    part == b"#".as_slice()
}

/// Whether a word of a pattern other than `#` stands for a word.
fn stands_for(part: &[u8], word: &[u8]) -> bool
    ensures { result ≡ (bytes_eq part.now star || bytes_eq part.now word.now) }
{
    part == b"*".as_slice() || part == word
}

/// Goes along up to the first `#`.
fn walk_to_hash<'a>(mut parts: Option<&'a [u8]>, mut words: Option<&'a [u8]>) -> Walk<'a>
    ensures answer { answer_of result
        ≡ covers (words_in (option_copied parts.entry)) (words_in (option_copied words.entry)) }
    ensures ahead { StaysAhead (words_in (option_copied parts.entry))
        (words_in (option_copied words.entry)) result }
    ensures shorter { left_of result ≤ length (words_in (option_copied parts.entry)) }
{
    while let Some(pattern) = parts {
        let (part, parts_left) = split_word(pattern);
        if is_hash(part) {
            return Walk::Hash(parts_left, words);
        }
        let Some(key) = words else {
            return Walk::Fails;
        };
        let (word, words_left) = split_word(key);
        if !stands_for(part, word) {
            return Walk::Fails;
        }
        parts = parts_left;
        words = words_left;
    }
    if words.is_none() {
        Walk::Ends
    } else {
        Walk::Fails
    }
}

/// Goes along from the first word of the key on from which it reaches the next `#` or both ends.
fn walk_from_hash<'a>(parts: Option<&'a [u8]>, mut words: Option<&'a [u8]>) -> Walk<'a>
    ensures answer { answer_of result
        ≡ some_end (covers (words_in (option_copied parts.entry)))
        (words_in (option_copied words.entry)) }
    ensures shorter { left_of result ≤ length (words_in (option_copied parts.entry)) }
{
    loop {
        match walk_to_hash(parts, words) {
            Walk::Fails => {}
            walk => return walk,
        }
        match words {
            Some(key) => words = split_word(key).1,
            None => return Walk::Fails,
        }
    }
}

/// Whether a binding of a topic exchange with this pattern takes messages with this routing key.
///
/// Takes no memory, and looks at each word of the key at most once for each word of the pattern.
/// AMQP 0-9-1, 3.1.3.3 "The Topic Exchange Type".
pub fn topic_matches(pattern: &str, key: &str) -> bool
    ensures relation { IsTrue result ↔ Covers (words_of_text pattern.now) (words_of_text key.now) }
    ensures value { result ≡ covers (words_of_text pattern.now) (words_of_text key.now) }
{
    let mut walk = walk_to_hash(words_of(pattern), words_of(key));
    while let Walk::Hash(parts, words) = walk {
        walk = walk_from_hash(parts, words);
    }
    matches!(walk, Walk::Ends)
}
