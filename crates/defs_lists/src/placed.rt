//! Items of a definitions file, each with the virtual host that it is in.
ghost use Rattle.std.specs.Prelude.{◌≡◌, ◌<◌, ◌++◌, ◌∷◌, [], List, length, IfOk, OnOk, slice_set, slice_index_or};
ghost use Rattle.defs_lists.specs.PlacedItems.{AreDistinct, given, placed_in_each};
ghost use Rattle.defs_lists.specs.Vhosts.{AreHosts};

use crate::names::{Name, Names, Word};
use crate::vhosts::vhost_named;
use amqp_props::Text;
use fed_defs::Sequence;
use std::alloc::{AllocError, Global};
use std::collections::VecDeque;

/// An item and the virtual host that it is in.
#[derive(Drop)]
pub struct Placed<T> {
    /// The name of the virtual host.
    pub vhost: Text,
    /// The item.
    pub item: T,
}

/// So many empty lists.
fn empty_lists<T: Drop>(alloc: Global, vhosts: &[Name]) -> Result<VecDeque<Sequence<T>>, AllocError>
    ensures { IfOk result (λ lists. lists.items ≡ placed_in_each vhosts.now []) }
{
    let mut lists = VecDeque::new(alloc);
    for _ in vhosts {
        lists.push_back(Sequence::new(Vec::new(alloc)))?;
    }
    Ok(lists)
}

/// Puts the item behind the others of the list at the place.
fn push_at<T: Drop>(
    lists: &mut VecDeque<Sequence<T>>,
    place: usize,
    item: T,
) -> Result<(), AllocError>
    requires { place < length lists.old.items }
    ensures { OnOk result ((list : List T) × (list ≡ slice_index_or lists.old.items place list)
        × (lists.new.items ≡ slice_set lists.old.items place (list ++ item ∷ []))) }
{
    lists[place].push(item)?;
    Ok(())
}

/// Puts the item into the list of its virtual host.
#[tactic(auto, using(crate::proofs::PlacedLemmas::given_none, crate::proofs::PlacedLemmas::given_some, crate::proofs::PlacedLemmas::place_within))]
fn give<T: Drop>(
    alloc: Global,
    lists: &mut VecDeque<Sequence<T>>,
    vhosts: &Names,
    placed: Placed<T>,
) -> Result<(), AllocError>
    requires length { length lists.old.items ≡ length vhosts.now }
    ensures given { OnOk result (lists.new.items ≡ given placed vhosts.now lists.old.items) }
{
    let Placed { vhost, item } = placed;
    let name = vhost_named(alloc, Word::from_str(alloc, vhost.as_str())?);
    match vhosts.place_of(&name) {
        Some(place) => push_at(lists, place, item),
        None => Ok(()),
    }
}

/// The items of each virtual host.
pub fn distribute<T: Drop>(
    alloc: Global,
    vhosts: &Names,
    placed: Vec<Placed<T>>,
) -> Result<VecDeque<Sequence<T>>, AllocError>
    requires hosts { AreHosts vhosts.now }
    requires distinct { AreDistinct vhosts.now }
    ensures { IfOk result (λ lists. lists.items ≡ placed_in_each vhosts.now placed.items) }
{
    let mut lists = empty_lists(alloc, vhosts.as_slice())?;
    for p in placed {
        give(alloc, &mut lists, vhosts, p)?;
    }
    Ok(lists)
}
