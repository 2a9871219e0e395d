//! The bounds of chunks for many accesses, most of which come to few chunks.

ghost use Rattle.std.specs.Prelude.{◌≡◌, ◌<◌, ◌⊎◌, false};
ghost use Rattle.a64_bits.specs.Addresses;
ghost use Rattle.heap_bounds.specs.LiveBytes.{AreLive, IsOutside};
ghost use Rattle.heap_bounds.specs.NearBytes.{IsOfLive, AreOfLive, AreNone};

use crate::bounds::{Bounds, Trespass};
use crate::live_bytes::LiveBytes;
use a64_bits::plain;
use common::{GRANULE_SIZE, PAGE_SIZE, REGIONS_START, SECONDARY_END};
use mte_svc::AnsweredCall;
use std::alloc::AllocError;
use std::marker::Model;

/// How many live chunks are remembered by their granules, and how many by their pages; a power of
/// two.
const NEAR: usize = 64;

/// Places for both.
const PLACES: usize = 128;

/// The bounds of a tenant's chunks, and the live ones that accesses came to since the last heap
/// call.
#[derive(Drop)]
pub struct NearBounds {
    bounds: Bounds,
    /// First those by the granule that an access came to, then those by its page.
    near: [LiveBytes; PLACES],
    ghost live: { ∥ AreOfLive bounds near ∥₁ },
}

impl Model for NearBounds {
    ghost use Rattle.heap_bounds.specs.KeptChunks.{KeptChunks, coded_chunks};
    ghost use Rattle.heap_bounds.specs.NearChunks.{near_chunks};

    ghost Value = { KeptChunks };

    ghost coded = { coded_chunks };

    ghost view = { near_chunks };
}

impl NearBounds {
    /// Bounds to whose chunks no access came.
    pub fn new(bounds: Bounds) -> NearBounds
        ensures { result ≡ bounds }
    {
        NearBounds {
            bounds,
            near: nothing(),
        }
    }

    /// Enters what a heap call did.
    pub fn note(&mut self, call: &AnsweredCall) -> Result<(), AllocError> {
        self.near = nothing();
        self.bounds.note(call)
    }

    /// Whether an access may be one that `check` finds wrong. It is not where this says no: then
    /// it begins outside the heap, or all of its bytes are a live chunk's.
    #[inline(always)]
    pub fn may_trespass(&mut self, address: u64, bytes: u64) -> bool
        ensures right { result ≡ false
            → ∥ IsOutside (Addresses.plain address)
            ⊎ AreLive self.old (Addresses.plain address) bytes ∥₁ }
        ensures same { self.new ≡ self.old }
    {
        let first = plain(address);
        if first.wrapping_sub(REGIONS_START) >= SECONDARY_END - REGIONS_START {
            return false;
        }
        if self.near_at(by_granule(first)).has(first, bytes) {
            return false;
        }
        self.may_trespass_far(first, bytes)
    }

    /// Judges an access to bytes of the heap that no chunk remembered by its granule has.
    #[cold]
    #[inline(never)]
    fn may_trespass_far(&mut self, first: u64, bytes: u64) -> bool
        ensures right { result ≡ false → ∥ AreLive self.old first bytes ∥₁ }
        ensures same { self.new ≡ self.old }
    {
        let live = self.near_at(by_page(first));
        if live.has(first, bytes) {
            self.remember(by_granule(first), live);
            return false;
        }
        let Some((start, end)) = self.bounds.live_at(first) else {
            return true;
        };
        let live = LiveBytes {
            start,
            len: end - start,
        };
        if !live.has(first, bytes) {
            return true;
        }
        self.remember(by_granule(first), live);
        self.remember(by_page(first), live);
        false
    }

    /// A remembered chunk.
    #[inline(always)]
    fn near_at(&self, at: usize) -> LiveBytes
        requires place { at < 128 }
        ensures { ∥ IsOfLive self.now result ∥₁ }
    {
        self.near[at]
    }

    /// Remembers a live chunk.
    #[inline(always)]
    fn remember(&mut self, at: usize, live: LiveBytes)
        requires place { at < 128 }
        requires live { ∥ IsOfLive self.old live ∥₁ }
        ensures { self.new ≡ self.old }
    {
        self.near[at] = live;
    }

    /// The first byte of an access to the heap that it may not touch, by its plain address, and
    /// what it does there.
    pub fn check(&self, addr: u64, bytes: u64) -> Option<(u64, Trespass)> {
        self.bounds.check(addr, bytes)
    }

    /// The bounds.
    pub fn into_bounds(self) -> Bounds
        ensures { result ≡ self }
    {
        self.bounds
    }
}

/// The place of a chunk by the granule of an access.
#[inline(always)]
fn by_granule(first: u64) -> usize
    ensures { result < 128 }
{
    (first / GRANULE_SIZE) as usize % NEAR
}

/// The place of a chunk by the page of an access.
#[inline(always)]
fn by_page(first: u64) -> usize
    ensures { result < 128 }
{
    NEAR + (first / PAGE_SIZE) as usize % NEAR
}

/// No chunk at each place.
#[inline(always)]
fn nothing() -> [LiveBytes; PLACES]
    ensures { AreNone result }
{
    let none = LiveBytes::none();
    [none; PLACES]
}
