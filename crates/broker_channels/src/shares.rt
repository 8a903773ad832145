//! The consumers of a channel with their windows, and how many unacknowledged deliveries count in each.

ghost use Rattle.std.specs.Prelude.{◌≡◌, ◌+◌, ◌-◌, ◌<◌, ◌≤◌, ◌^◌, [], ◌∷◌, ◌++◌, Some, None, All, nat_eq, map, is_some, if◌then◌else◌};
ghost use Rattle.std.specs.Map.{lookup};
ghost use Rattle.indexmap.specs.IndexMap.{get, spare};
ghost use Rattle.broker_channels.specs.Held.{with_more, with_fewer};

use indexmap::IndexMap;

/// A consumer's window, and how many unacknowledged deliveries count in it.
#[derive(Clone, Copy, Debug)]
pub struct Share {
    /// The most unacknowledged deliveries that it may have; 0 is no limit.
    pub window: u16,
    /// How many it has.
    pub held: usize,
}

/// Begins a consumer, which has nothing; there is room for it.
pub fn begin(shares: &mut IndexMap<u32, Share>, number: u32, window: u16)
    requires unknown { get nat_eq shares.old number ≡ None }
    requires room { 0 < spare shares.old }
    ensures { shares.new.entries ≡ shares.old.entries ++ (number, record { window = window; held = 0 }) ∷ [] }
{
    match shares.insert(number, Share { window, held: 0 }) {
        Ok(_) => {}
        Err(_) => unreachable!(),
    }
}

/// The share of a consumer; None exactly where it isn't there.
pub fn share_of(shares: &IndexMap<u32, Share>, number: u32) -> Option<Share>
    ensures { result ≡ lookup (nat_eq number) shares.now.entries }
{
    shares.get(&number).copied()
}

/// Counts one more delivery to the consumer, and in the channel's window; one to basic.get counts in neither.
pub fn count_in(shares: &mut IndexMap<u32, Share>, pushed: &mut usize, consumer: Option<u32>)
    requires shares { All (λ entry. entry.1.held + 1 < 2 ^ 64) shares.old.entries }
    requires pushed { pushed.old + 1 < 2 ^ 64 }
    ensures shares { shares.new.entries ≡ map (with_more consumer) shares.old.entries }
    ensures pushed { pushed.new ≡ pushed.old + (if is_some consumer then 1 else 0) }
    ensures room { spare shares.new ≡ spare shares.old }
{
    let Some(number) = consumer else {
        return;
    };
    *pushed += 1;
    add(shares, number);
}

/// Takes one delivery to the consumer from the counts.
pub fn count_out(shares: &mut IndexMap<u32, Share>, pushed: &mut usize, consumer: Option<u32>)
    ensures shares { shares.new.entries ≡ map (with_fewer consumer) shares.old.entries }
    ensures pushed { pushed.new ≡ pushed.old - (if is_some consumer then 1 else 0) }
    ensures room { spare shares.new ≡ spare shares.old }
{
    let Some(number) = consumer else {
        return;
    };
    *pushed = pushed.saturating_sub(1);
    subtract(shares, number);
}

/// One more delivery to the consumer, if it is there.
fn add(shares: &mut IndexMap<u32, Share>, number: u32)
    requires { All (λ entry. entry.1.held + 1 < 2 ^ 64) shares.old.entries }
    ensures shares { shares.new.entries ≡ map (with_more (Some number)) shares.old.entries }
    ensures room { spare shares.new ≡ spare shares.old }
{
    if let Some(share) = shares.get_mut(&number) {
        share.held += 1;
    }
}

/// One delivery less to the consumer, if it is there.
fn subtract(shares: &mut IndexMap<u32, Share>, number: u32)
    ensures shares { shares.new.entries ≡ map (with_fewer (Some number)) shares.old.entries }
    ensures room { spare shares.new ≡ spare shares.old }
{
    if let Some(share) = shares.get_mut(&number) {
        share.held = share.held.saturating_sub(1);
    }
}
