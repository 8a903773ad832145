//! The limits of a run.
ghost use Rattle.std.specs.Prelude.{◌≡◌, ◌+◌, ◌≤◌, ◌<◌, ◌++◌, None, IfSome, length, nat_lt, sum_by};
ghost use Rattle.fed_journal.specs.Limits.{most_links};
ghost use Rattle.std.specs.List.{list_any};
ghost use Rattle.fed_journal.specs.Links.{links_of};
ghost use Rattle.fed_world.specs.Limits.{sets_at as entry_sets_at, set_count as count_of_set, links_begun as links_begun_by, changes_links as entry_changes_links};

use amqp_props::Text;
use fed_journal::entry::Entry;

/// The most links of a configuration.
pub const MAX_LINKS: usize = 4_096;

/// Whether the entry sets a shovel of the broker.
fn sets_at(entry: &Entry, broker: &Text) -> bool
    ensures { result ≡ entry_sets_at broker.now entry.now }
{
    matches!(entry, Entry::ShovelSet { place, .. } if &place.broker == broker)
}

/// How many shovels of the broker the entries set.
fn set_count(entries: &[Entry], broker: &Text) -> usize
    ensures { result ≡ count_of_set entries.now broker.now }
{
    entries
        .iter()
        .filter(|entry| sets_at(entry, broker))
        .count()
}

/// So many links and those of the broker, unless they are too many.
fn with_links_of(before: &[Entry], entries: &[Entry], broker: &Text, count: usize) -> Option<usize>
    requires { count ≤ most_links }
    ensures some { IfSome result (λ all. all ≡ count + count_of_set (before.now ++ entries.now) broker.now) }
    ensures few { IfSome result (λ all. all ≤ most_links) }
    ensures none { result ≡ None → most_links < count + count_of_set (before.now ++ entries.now) broker.now }
{
    let old = set_count(before, broker);
    if old > MAX_LINKS - count {
        return None;
    }
    let new = set_count(entries, broker);
    if new > MAX_LINKS - count - old {
        return None;
    }
    Some(count + old + new)
}

/// So many links and those of the broker that the entry begins, if it does, unless they are too many.
fn with_links_begun(
    before: &[Entry],
    entries: &[Entry],
    entry: &Entry,
    count: usize,
) -> Option<usize>
    requires { count ≤ most_links }
    ensures some { IfSome result (λ all. all ≡ count + links_begun_by (before.now ++ entries.now) entry.now) }
    ensures few { IfSome result (λ all. all ≤ most_links) }
    ensures none { result ≡ None → most_links < count + links_begun_by (before.now ++ entries.now) entry.now }
{
    match entry {
        Entry::Begun { broker, .. } => match with_links_of(before, entries, broker, count) {
            Some(all) => Some(all),
            None => None,
        },
        _ => Some(count),
    }
}

/// So many links and those of the brokers that begin in a part of the journal, unless they are too many.
fn with_links_in(part: &[Entry], before: &[Entry], entries: &[Entry], count: usize) -> Option<usize>
    requires { count ≤ most_links }
    ensures some { IfSome result (λ all. all ≡ count + sum_by (links_begun_by (before.now ++ entries.now)) part.now) }
    ensures few { IfSome result (λ all. all ≤ most_links) }
    ensures none { result ≡ None → most_links < count + sum_by (links_begun_by (before.now ++ entries.now)) part.now }
{
    let mut all = count;
    for entry in part {
        match with_links_begun(before, entries, entry, all) {
            Some(more) => all = more,
            None => return None,
        }
    }
    Some(all)
}

/// Whether the entry may change how many links there are.
fn changes_links(entry: &Entry) -> bool
    ensures { result ≡ entry_changes_links entry.now }
{
    matches!(entry, Entry::Begun { .. } | Entry::ShovelSet { .. })
}

/// Whether some of the entries may change how many links there are.
fn change_links(entries: &[Entry]) -> bool
    ensures { result ≡ list_any entry_changes_links entries.now }
{
    entries.iter().any(|entry| changes_links(entry))
}

/// Whether the configuration asks for too many links after these entries.
pub(crate) fn passes_links(before: &[Entry], entries: &[Entry]) -> bool
    requires { length (links_of before.now) ≤ most_links }
    ensures { result ≡ nat_lt most_links (length (links_of (before.now ++ entries.now))) }
{
    if !change_links(entries) {
        return false;
    }
    let Some(old) = with_links_in(before, before, entries, 0) else {
        return true;
    };
    match with_links_in(entries, before, entries, old) {
        Some(_) => false,
        None => true,
    }
}
