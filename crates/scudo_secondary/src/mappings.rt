//! A list of mappings in the order of their starts.

ghost use Rattle.std.specs.Prelude.{◌≡◌, ◌<◌, ◌^◌, IfSome, IfNone, IsSome, None, filter, not, ◌==◌};
ghost use Rattle.std.specs.Prelude.{length, slice_index_or, vec_len, vec_capacity};
ghost use Rattle.std.specs.Vec.{vec_ptr};
ghost use Rattle.scudo_secondary.specs.Mappings.{AreMappings, end_of, mapping_of, with_mapping};

use common::PAGE_SIZE;

/// The pages of a chunk.
#[derive(Clone, Copy, PartialEq, Eq)]
pub struct Mapping {
    /// The address of the first page.
    pub start: u64,
    /// How many pages there are.
    pub pages: u64,
    /// The address in them that the chunk's user was given.
    pub user: u64,
}

impl Mapping {
    /// The address after the last page.
    #[inline(always)]
    pub fn end(&self) -> u64
        requires { end_of self.now < 2 ^ 64 }
        ensures { result ≡ end_of self.now }
    {
        self.start + PAGE_SIZE * self.pages
    }
}

/// The index of the mapping with a user address.
pub(crate) fn index_of(mappings: &[Mapping], user: u64) -> Option<usize>
    requires { AreMappings mappings.now }
    ensures some { IfSome result
        (λ i. (i < length mappings.now)
        × ((d : _) → (slice_index_or mappings.now i d).user ≡ user)) }
    ensures none { IfNone result (mapping_of mappings.now user ≡ None) }
{
    let i = mappings.partition_point(|mapping| mapping.user < user);
    if i < mappings.len() && mappings[i].user == user {
        Some(i)
    } else {
        None
    }
}

/// Adds a mapping where there is space for it, so that nothing is reallocated.
pub(crate) fn insert_in_order(mappings: &mut Vec<Mapping>, mapping: Mapping)
    requires mappings { AreMappings mappings.old.items }
    requires room { vec_len mappings.old < vec_capacity mappings.old }
    ensures items { mappings.new.items ≡ with_mapping mappings.old.items mapping }
    ensures capacity { vec_capacity mappings.new ≡ vec_capacity mappings.old }
    ensures in_place { vec_ptr mappings.new ≡ vec_ptr mappings.old }
{
    let start = mapping.start;
    let i = mappings
        .as_slice()
        .partition_point(|other| other.start < start);
    // There is room, so it succeeds.
    let _ = mappings.insert(i, mapping);
}

/// Takes the mapping with a user address away.
pub(crate) fn remove_user(mappings: &mut Vec<Mapping>, user: u64)
    requires mappings { AreMappings mappings.old.items }
    requires there { IsSome (mapping_of mappings.old.items user) }
    ensures items { mappings.new.items ≡ filter (λ m. not (m.user == user)) mappings.old.items }
    ensures capacity { vec_capacity mappings.new ≡ vec_capacity mappings.old }
{
    if let Some(i) = index_of(mappings, user) {
        mappings.remove(i);
    }
}
