//! Decimal numbers: of clients, of prefetch counts, of copies and of field values.
ghost use Rattle.std.specs.Prelude.{◌≡◌, ◌+◌, ◌≤◌, ◌<◌, ◌^◌, ◌≤ℤ◌, pos, neg_ℤ, IfSome};
ghost use Rattle.std.specs.List.{list_all};
ghost use Rattle.schedule_words.specs.Numbers.{is_digit, has_leading_zero, is_decimal, with_digit, number_up_to, number_within, client_of, prefetch_count_of, copy_of, repeat_count_of, begins_with_minus, signed_within, long_of, longlong_of};

fn is_digit(octet: u8) -> bool
    ensures { result ≡ is_digit octet }
{
    octet.is_ascii_digit()
}

fn are_digits(word: &[u8]) -> bool
    ensures { result ≡ list_all is_digit word.now }
{
    word.iter().all(|octet| is_digit(*octet))
}

fn has_leading_zero(word: &[u8]) -> bool
    ensures { result ≡ has_leading_zero word.now }
{
    word.len() > 1 && word[0] == b'0'
}

/// Whether the word is a decimal number.
#[tactic(auto, unfolding(crate::specs::Numbers::is_decimal))]
fn is_decimal(word: &[u8]) -> bool
    ensures { result ≡ is_decimal word.now }
{
    !word.is_empty() && !has_leading_zero(word) && are_digits(word)
}

/// One digit more.
fn with_digit(most: u64, number: u128, digit: u8) -> u128
    requires { number ≤ most + 1 }
    ensures value { result ≡ with_digit most number digit }
    ensures within { result ≤ most + 1 }
{
    (10 * number + u128::from(digit.saturating_sub(b'0'))).min(u128::from(most) + 1)
}

/// The number that the digits write, or `most + 1` if it is greater than `most`.
#[tactic(auto, unfolding(crate::specs::Numbers::number_up_to))]
fn number_up_to(most: u64, digits: &[u8]) -> u128
    ensures value { result ≡ number_up_to most digits.now }
    ensures within { result ≤ most + 1 }
{
    let mut number = 0;
    for digit in digits {
        number = with_digit(most, number, *digit);
    }
    number
}

/// The number that the word writes, if it is from `least` to `most`.
#[tactic(auto, unfolding(crate::specs::Numbers::number_within))]
fn number_within(least: u64, most: u64, word: &[u8]) -> Option<u64>
    ensures value { result ≡ number_within least most word.now }
    ensures within { IfSome result (λ number. number ≤ most) }
{
    if !is_decimal(word) {
        return None;
    }
    let number = number_up_to(most, word);
    if number < u128::from(least) || number > u128::from(most) {
        return None;
    }
    Some(number as u64)
}

/// The client number that the word writes, 0 to 65,535.
#[tactic(auto, unfolding(crate::specs::Numbers::client_of))]
pub fn client_of(word: &[u8]) -> Option<u16>
    ensures { result ≡ client_of word.now }
{
    match number_within(0, 65_535, word) {
        Some(number) => Some(number as u16),
        None => None,
    }
}

/// The prefetch count that the word writes, 0 to 65,535.
#[tactic(auto, unfolding(crate::specs::Numbers::prefetch_count_of))]
pub fn prefetch_count_of(word: &[u8]) -> Option<u16>
    ensures { result ≡ prefetch_count_of word.now }
{
    match number_within(0, 65_535, word) {
        Some(number) => Some(number as u16),
        None => None,
    }
}

/// The number of a copy that the word writes, 1 to 2^64 - 1.
#[tactic(auto, unfolding(crate::specs::Numbers::copy_of))]
pub fn copy_of(word: &[u8]) -> Option<u64>
    ensures { result ≡ copy_of word.now }
{
    number_within(1, u64::MAX, word)
}

/// How often a line is repeated, 1 to 10,000.
#[tactic(auto, unfolding(crate::specs::Numbers::repeat_count_of))]
pub fn repeat_count_of(word: &[u8]) -> Option<u16>
    ensures { result ≡ repeat_count_of word.now }
{
    match number_within(1, 10_000, word) {
        Some(number) => Some(number as u16),
        None => None,
    }
}

fn begins_with_minus(word: &[u8]) -> bool
    ensures { result ≡ begins_with_minus word.now }
{
    !word.is_empty() && word[0] == b'-'
}

/// The signed number that the word writes, if it is from `-(most + 1)` to `most`.
#[tactic(auto, unfolding(crate::specs::Numbers::signed_within))]
fn signed_within(most: u64, word: &[u8]) -> Option<i128>
    requires { most < 2 ^ 63 }
    ensures value { result ≡ signed_within most word.now }
    ensures least { IfSome result (λ number. neg_ℤ (pos (most + 1)) ≤ℤ number) }
    ensures most { IfSome result (λ number. number ≤ℤ pos most) }
{
    if begins_with_minus(word) {
        let number = number_within(1, most + 1, &word[1..])?;
        return Some(-i128::from(number));
    }
    let number = number_within(0, most, word)?;
    Some(i128::from(number))
}

/// The signed number of 32 bits that the word writes.
#[tactic(auto, unfolding(crate::specs::Numbers::long_of))]
pub fn long_of(word: &[u8]) -> Option<i32>
    ensures { result ≡ long_of word.now }
{
    match signed_within(2_147_483_647, word) {
        Some(number) => Some(number as i32),
        None => None,
    }
}

/// The signed number of 64 bits that the word writes.
#[tactic(auto, unfolding(crate::specs::Numbers::longlong_of))]
pub fn longlong_of(word: &[u8]) -> Option<i64>
    ensures { result ≡ longlong_of word.now }
{
    match signed_within(9_223_372_036_854_775_807, word) {
        Some(number) => Some(number as i64),
        None => None,
    }
}
