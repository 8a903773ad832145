//! The headers exchange's bindings.

ghost use Rattle.std.specs.Prelude.{◌≡◌, ◌↔◌, IsTrue, option_map};
ghost use Rattle.field_tables.specs.View.{field_view, table_view};
ghost use Rattle.binding_match.specs.Headers.{is_compared as is_compared_name, asks_any as args_ask_any, HeadersMatch, agrees as value_agrees, fits as pair_fits, misses as pair_misses, all_agree as pairs_all_agree, some_agrees as some_pair_agrees, headers_agree};

use crate::value::same_value;
use field_tables::{FieldValue, Table};

/// How the names of arguments begin that aren't compared.
const RESERVED: &[u8] = b"x-";

fn is_compared(name: &str) -> bool
    ensures { result ≡ is_compared_name name.now }
{
    !name.as_bytes().starts_with(RESERVED)
}

fn asks_any(args: &Table) -> bool
    ensures { result ≡ args_ask_any (table_view args.now) }
{
    match args.get("x-match") {
        Some(FieldValue::Text(word)) => word.as_slice() == b"any".as_slice(),
        _ => false,
    }
}

fn agrees(asked: &FieldValue, found: Option<&FieldValue>) -> bool
    ensures { result ≡ value_agrees (field_view asked.now)
        (option_map (λ v. field_view v.now) found.entry) }
{
    match found {
        Some(there) => matches!(asked, FieldValue::Void) || same_value(asked, there),
        None => false,
    }
}

fn fits(name: &str, asked: &FieldValue, headers: &Table) -> bool
    ensures { result ≡ pair_fits name.now (field_view asked.now) (table_view headers.now) }
{
    is_compared(name) && agrees(asked, headers.get(name))
}

fn misses(name: &str, asked: &FieldValue, headers: &Table) -> bool
    ensures { result ≡ pair_misses name.now (field_view asked.now) (table_view headers.now) }
{
    is_compared(name) && !agrees(asked, headers.get(name))
}

fn all_agree(args: &Table, headers: &Table) -> bool
    ensures { result ≡ pairs_all_agree (table_view args.now) (table_view headers.now) }
{
    for (name, asked) in &args.pairs {
        if misses(name, asked, headers) {
            return false;
        }
    }
    true
}

fn some_agrees(args: &Table, headers: &Table) -> bool
    ensures { result ≡ some_pair_agrees (table_view args.now) (table_view headers.now) }
{
    for (name, asked) in &args.pairs {
        if fits(name, asked, headers) {
            return true;
        }
    }
    false
}

/// Whether a binding of a headers exchange with these arguments takes messages with these headers.
///
/// Takes no memory. Of headers of one name the first counts.
/// AMQP 0-9-1, 3.1.3.4 "The Headers Exchange Type".
pub fn headers_match(args: &Table, headers: &Table) -> bool
    ensures relation { IsTrue result ↔ HeadersMatch (table_view args.now) (table_view headers.now) }
    ensures value { result ≡ headers_agree (table_view args.now) (table_view headers.now) }
{
    if asks_any(args) {
        some_agrees(args, headers)
    } else {
        all_agree(args, headers)
    }
}
