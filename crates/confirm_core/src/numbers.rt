//! Numbers that rise, searched by halves.

ghost use Rattle.std.specs.Prelude.{◌≡◌, ◌==◌, ◌<◌, ◌≤◌, ◌+◌, ◌||◌, ◌&&◌, ℕ, not, slice_get};
ghost use Rattle.std.specs.VecDeque.{deque_len, deque_capacity};
ghost use Rattle.confirm_core.specs.Openings.{has, Ascends};

use std::collections::VecDeque;

/// Adds the number in its place, unless it is there; there is room for it.
pub fn add(numbers: &mut VecDeque<u64>, number: u64)
    requires rises { Ascends numbers.old.items }
    requires room { deque_len numbers.old < deque_capacity numbers.old }
    ensures rises { Ascends numbers.new.items }
    ensures members { (n : ℕ) → has n numbers.new.items ≡ ((number == n) || has n numbers.old.items) }
    ensures len { deque_len numbers.new ≤ deque_len numbers.old + 1 }
    ensures capacity { deque_capacity numbers.old ≤ deque_capacity numbers.new }
{
    let Err(place) = numbers.binary_search(&number) else {
        return;
    };
    match numbers.insert(place, number) {
        Ok(()) => {}
        Err(_) => unreachable!(),
    }
}

/// Removes the number, if it is there.
pub fn remove(numbers: &mut VecDeque<u64>, number: u64)
    requires { Ascends numbers.old.items }
    ensures rises { Ascends numbers.new.items }
    ensures members { (n : ℕ) → has n numbers.new.items ≡ (not (number == n) && has n numbers.old.items) }
    ensures len { deque_len numbers.new ≤ deque_len numbers.old }
    ensures capacity { deque_capacity numbers.new ≡ deque_capacity numbers.old }
{
    if let Ok(place) = numbers.binary_search(&number) {
        numbers.remove(place);
    }
}

/// The least number.
pub fn first(numbers: &VecDeque<u64>) -> Option<u64>
    ensures { result ≡ slice_get numbers.now.items 0 }
{
    numbers.front().copied()
}
