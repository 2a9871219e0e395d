//! Where a chunk is.

ghost use Rattle.std.specs.Prelude.{◌≡◌, ◌≤◌, ◌^◌, Some, IfSome};
ghost use Rattle.scudo_heap.specs.Allocation.{answer_of};
ghost use Rattle.scudo_heap.specs.Realloc.{user_of_chunk, user_of};
ghost use Rattle.scudo_heap.specs.Inner.{IsLow, HasEnd};
ghost use Rattle.scudo_heap.specs.Checks.{size_found};

use scudo_header::Header;
use scudo_secondary::Mapping;

/// Where a chunk of a size class is in its block.
#[derive(Clone, Copy)]
pub struct Place {
    /// Its size class.
    pub class: u8,
    /// The address of its block.
    pub block: u64,
    /// The address that its user is given, without the tag.
    pub user: u64,
    /// The bytes that were requested.
    pub size: u64,
}

/// A chunk that a call handed out.
#[derive(Clone, Copy)]
pub enum Chunk {
    /// In a block, with its tag.
    Small(Place, u8),
    /// With pages of its own, and its size in bytes.
    Large(Mapping, u64),
}

/// A chunk that the checks of a pointer found, with its header.
#[derive(Clone, Copy)]
pub enum Found {
    /// In a block.
    InBlock(Place, Header),
    /// With pages of its own.
    InPages(Mapping, Header),
}

impl Chunk {
    /// The address that its user is given, without the tag.
    pub(crate) fn user(&self) -> u64
        ensures { result ≡ user_of_chunk self.now }
    {
        match self {
            Chunk::Small(place, _) => place.user,
            Chunk::Large(mapping, _) => mapping.user,
        }
    }

    /// The address that its user is given, with its tag in bits 59:56.
    pub(crate) fn address(&self) -> u64
        requires { IsLow self.now }
        ensures { result ≡ answer_of (Some self.now) }
    {
        match self {
            Chunk::Small(place, tag) => place.user + (u64::from(*tag) << 56),
            Chunk::Large(mapping, _) => mapping.user,
        }
    }
}

impl Found {
    /// The address that its user was given, without the tag.
    pub(crate) fn user(&self) -> u64
        ensures { result ≡ user_of self.now }
    {
        match self {
            Found::InBlock(place, _) => place.user,
            Found::InPages(mapping, _) => mapping.user,
        }
    }

    /// The bytes that its user may use.
    pub(crate) fn size(&self) -> u64
        requires { HasEnd self.now }
        ensures { result ≡ size_found self.now }
    {
        match self {
            Found::InBlock(place, _) => place.size,
            Found::InPages(mapping, header) => {
                mapping.end() - mapping.user - u64::from(header.size_or_unused_bytes)
            }
        }
    }
}

/// The address of a chunk, or 0 where there is none.
#[inline(always)]
pub(crate) fn address_or_null(chunk: &Option<Chunk>) -> u64
    requires { IfSome chunk.now IsLow }
    ensures { result ≡ answer_of chunk.now }
{
    match chunk {
        Some(chunk) => chunk.address(),
        None => 0,
    }
}

/// Copies a chunk field by field: what a call out of line wrote stays apart from the chunks that
/// are held in registers.
#[inline(always)]
pub(crate) fn by_fields(chunk: Option<Chunk>) -> Option<Chunk>
    ensures { result ≡ chunk }
{
    match chunk {
        None => None,
        Some(Chunk::Small(place, tag)) => Some(Chunk::Small(place, tag)),
        Some(Chunk::Large(mapping, size)) => Some(Chunk::Large(mapping, size)),
    }
}
