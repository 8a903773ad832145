//! What makes a line's words no values of its form.
ghost use Rattle.std.specs.Prelude.{◌≡◌};
ghost use Rattle.std.specs.List.{list_any};
ghost use Rattle.fed_schedule.specs.Options.{is_bad_prefetch};
ghost use Rattle.fed_schedule.specs.Reasons.{is_late};

use crate::keyword::Keyword;
use crate::options::is_bad_prefetch;
use amqp_props::Octets;

/// Whether a broker's line stands after another line.
pub(crate) fn is_late(begun: bool, keyword: Keyword) -> bool
    ensures { result ≡ is_late begun keyword }
{
    match keyword {
        Keyword::Broker => begun,
        _ => false,
    }
}

/// Whether a prefetch count among the options is none.
pub(crate) fn has_bad_prefetch(words: &[Octets]) -> bool
    ensures { result ≡ list_any is_bad_prefetch words.now }
{
    words.iter().any(|word| is_bad_prefetch(word.as_slice()))
}
