//! The links that are kept, of which no two have one name.
ghost use Rattle.std.specs.Prelude.{◌≡◌, ◌<◌, ◌≤◌, [], length, IfOk, OnOk, Err};
ghost use Rattle.fed_defs.specs.Links.{most_links, is_kept, with_link};

use crate::fault::LinksFault;
use amqp_props::LinkSpec;
use indexmap::IndexMap;
use std::alloc::{AllocError, Global};
use std::marker::Model;

/// The most links that a run may have.
pub const MAX_LINKS: usize = 4_096;

/// Links in their order, each under its name, so that no two have one name.
#[derive(Drop)]
pub(crate) struct Kept {
    table: IndexMap<String, LinkSpec>,
}

impl Model for Kept {
    ghost use Rattle.std.specs.Prelude.{List, ◌≤◌, length};
    ghost use Rattle.std.specs.Coded.{coded_list};
    ghost use Rattle.indexmap.specs.IndexMap.{values};
    ghost use Rattle.amqp_props.specs.declared.link.LinkSpec.{LinkSpec};
    ghost use Rattle.amqp_props.specs.contracts.link.LinkSpec as link;
    ghost use Rattle.fed_defs.specs.Links.{most_links};
    ghost use Rattle.upstream_sets.specs.Distinct.{AreUnderNames};

    ghost Value = { List LinkSpec };

    ghost coded = { coded_list link.the_row.coded };

    ghost view = { λ k. values k.table };

    ghost invariant = { λ k. record {
      within : length (values k.table) ≤ most_links;
      named : AreUnderNames k.table.entries;
    } };
}

impl Kept {
    /// No links.
    pub(crate) fn new(alloc: Global) -> Self
        ensures { result ≡ [] }
    {
        Kept {
            table: IndexMap::new(alloc),
        }
    }

    /// The links as a vector.
    pub(crate) fn into_vec(self, alloc: Global) -> Result<Vec<LinkSpec>, AllocError>
        ensures links { IfOk result (λ list. list.items ≡ self) }
        ensures within { length self ≤ most_links }
    {
        let Kept { table } = self;
        table.into_values().collect(alloc)
    }

    /// Whether a link of that name is kept.
    fn has(&self, link: &LinkSpec) -> bool
        ensures { result ≡ is_kept self.now link.now }
    {
        self.table.contains_key(link.name.as_str())
    }

    /// Keeps the link unless one of its name is kept.
    #[tactic(auto, unfolding(fed_defs::specs::Links::with_link))]
    pub(crate) fn keep(&mut self, alloc: Global, link: LinkSpec) -> Result<(), LinksFault>
        ensures kept { OnOk result (self.new ≡ with_link self.old link) }
        ensures full { result ≡ Err LinksFault.Links → most_links < length (with_link self.old link) }
    {
        if self.has(&link) {
            return Ok(());
        }
        if self.table.len() >= MAX_LINKS {
            return Err(LinksFault::Links);
        }
        let name = String::from_str(alloc, link.name.as_str())?;
        self.table.insert(name, link)?;
        Ok(())
    }
}
