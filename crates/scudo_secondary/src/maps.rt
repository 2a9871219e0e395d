//! The mappings of a heap.

ghost use Rattle.std.specs.Prelude.{◌≡◌, ℕ, ◌+◌, ◌*◌, ◌<◌, ◌≤◌, [], false, IfOk, IfSome, IfNone};
ghost use Rattle.std.specs.Prelude.{IsSome, IsTrue, filter, not, ◌==◌};
ghost use Rattle.scudo_secondary.specs.Mappings.{AreMappings, is_place, place_of, mapping_of};
ghost use Rattle.scudo_secondary.specs.Mappings.{with_mapping, HasRoom, HoldsUser};

use crate::gaps::first_gap;
use crate::mappings::{Mapping, index_of, insert_in_order, remove_user};
use common::{MAX_PAGES, copy_list};
use std::alloc::{AllocError, Global};
use std::marker::Model;

/// The mappings of a heap, in the order of their starts. All that they will ever need is taken when
/// they are made.
#[derive(Drop)]
pub struct Secondary {
    mappings: Vec<Mapping>,
}

impl Model for Secondary {
    ghost use Rattle.scudo_secondary.specs.Mappings.{SecondaryState, coded_maps};
    ghost use Rattle.scudo_secondary.specs.Inner.{secondary_state, IsSecondary};

    ghost Value = { SecondaryState };

    ghost coded = { coded_maps };

    ghost view = { secondary_state };

    ghost invariant = { IsSecondary };
}

impl Secondary {
    /// No mappings, with capacity for those of `pages` pages together, up to `MAX_PAGES`. It is
    /// refused only where its memory is.
    pub fn new(alloc: Global, pages: u64) -> Result<Secondary, AllocError>
        requires { pages ≤ MAX_PAGES }
        ensures { IfOk result (λ maps. maps ≡ record { limit = pages; mappings = [] }) }
    {
        let mappings = Vec::with_capacity(alloc, pages as usize)?;
        Ok(Secondary { mappings })
    }

    /// A copy of the mappings, with as much room. It is refused only where its memory is.
    pub fn copy(&self, alloc: Global) -> Result<Secondary, AllocError>
        ensures { IfOk result (λ maps. maps ≡ self.now) }
    {
        Ok(Secondary {
            mappings: copy_list(alloc, &self.mappings)?,
        })
    }

    /// The least address at which `pages` pages may be mapped, if they fit anywhere.
    pub fn place(&self, pages: u64) -> Option<u64>
        ensures place { result ≡ place_of self.now.mappings pages }
        ensures fits { IfSome result (λ start. IsTrue (is_place self.now.mappings pages start)) }
        ensures least { IfSome result
            (λ start. (lower : ℕ)
            → IsTrue (is_place self.now.mappings pages lower) → start ≤ lower) }
        ensures none { IfNone result
            ((start : ℕ) → is_place self.now.mappings pages start ≡ false) }
        ensures mappings { AreMappings self.now.mappings }
    {
        first_gap(&self.mappings, pages)
    }

    /// Adds a mapping at a place for it, with a user address in its pages.
    pub fn add(&mut self, mapping: Mapping)
        requires place { IsTrue (is_place self.old.mappings mapping.pages mapping.start) }
        requires user { HoldsUser mapping }
        requires room { HasRoom self.old mapping.pages }
        ensures { self.new
            ≡ record self.old { mappings = with_mapping self.old.mappings mapping } }
    {
        insert_in_order(&mut self.mappings, mapping);
    }

    /// The mapping with a user address.
    pub fn find(&self, user: u64) -> Option<Mapping>
        ensures mapping { result ≡ mapping_of self.now.mappings user }
        ensures mappings { AreMappings self.now.mappings }
    {
        let i = index_of(&self.mappings, user)?;
        Some(self.mappings[i])
    }

    /// Does nothing. Its contract recalls what holds after any calls: the mappings are in the order
    /// of their starts, at least one page apart.
    pub fn recall(&self)
        ensures { AreMappings self.now.mappings }
    {
        let _own = &self.mappings;
    }

    /// Takes away the mapping with a user address, which is there.
    pub fn remove(&mut self, user: u64)
        requires { IsSome (mapping_of self.old.mappings user) }
        ensures maps { self.new
            ≡ record self.old
            { mappings = filter (λ m. not (m.user == user)) self.old.mappings } }
        ensures mappings { AreMappings self.old.mappings }
    {
        remove_user(&mut self.mappings, user);
    }
}
