//! Counts of the branches that a run takes, in memory that a fuzzer lends.

ghost use Rattle.std.specs.Prelude.{◌≡◌, ◌+◌, ◌%◌, ◌^◌, length, is_some};
ghost use Rattle.tenant_snapshot.specs.Maps.{is_map_length, edge_hash, count_after, counts_after};

use a64_run::Edges;

/// The fewest counts of a map.
pub const MAP_MIN: usize = 256;
/// The most counts of a map.
pub const MAP_MAX: usize = 65_536;

/// A count for each hash of an edge, as AFL has it: a byte, which wraps from 255 to 0 or stays at
/// 255.
#[derive(Drop)]
pub struct EdgeMap<'a> {
    counts: &'a mut [u8],
    saturating: bool,
}

impl<'a> EdgeMap<'a> {
    /// Whether a map may have so many counts: a power of two from MAP_MIN to MAP_MAX.
    pub fn fits(counts: usize) -> bool
        ensures { result ≡ is_map_length counts }
    {
        counts.is_power_of_two() && counts >= MAP_MIN && counts <= MAP_MAX
    }

    /// A map over lent counts; `None` where a map may not have so many.
    pub fn new(counts: &'a mut [u8], saturating: bool) -> Option<EdgeMap<'a>>
        ensures { is_some result ≡ is_map_length (length counts.old) }
    {
        if EdgeMap::fits(counts.len()) {
            Some(EdgeMap { counts, saturating })
        } else {
            None
        }
    }
}

/// The hash of an edge below 65,536: both addresses count, and the edge back has another one.
#[inline(always)]
pub(crate) fn hash(from: u64, to: u64) -> usize
    ensures { result ≡ edge_hash from to }
{
    let mixed = from.wrapping_mul(0x9E37_79B9_7F4A_7C15).rotate_left(29) ^ to;
    (mixed.wrapping_mul(0x9E37_79B9_7F4A_7C15) >> 48) as usize
}

/// A count after one more.
#[inline(always)]
fn one_more(count: u8, saturating: bool) -> u8
    ensures { result ≡ count_after saturating count }
{
    if saturating {
        count.saturating_add(1)
    } else {
        count.wrapping_add(1)
    }
}

/// Counts an edge by its hash: one count goes up by one, and all others stay.
#[inline(always)]
fn count(counts: &mut [u8], saturating: bool, hash: usize)
    ensures { counts.new ≡ counts_after saturating hash counts.old }
{
    let place = hash & counts.len().saturating_sub(1);
    if place < counts.len() {
        counts[place] = one_more(counts[place], saturating);
    }
}

/// The address after that of an instruction.
#[inline(always)]
pub(crate) fn next_of(pc: u64) -> u64
    ensures { result ≡ (pc + 4) % 2 ^ 56 }
{
    pc.wrapping_add(4) % (1 << 56)
}

impl<'a> Edges for EdgeMap<'a> {
    #[inline(always)]
    fn taken(&mut self, from: u64, _word: u32, to: u64) {
        count(self.counts, self.saturating, hash(from, to));
    }

    #[inline(always)]
    fn passed(&mut self, pc: u64) {
        count(self.counts, self.saturating, hash(pc, next_of(pc)));
    }
}

/// The branches of a run, counted where there is a map.
#[derive(Drop)]
pub struct CountedEdges<'a> {
    /// The map.
    pub map: Option<EdgeMap<'a>>,
}

impl<'a> Edges for CountedEdges<'a> {
    #[inline(always)]
    fn counts_taken(&self) -> bool {
        self.map.is_some()
    }

    #[inline(always)]
    fn taken(&mut self, from: u64, word: u32, to: u64) {
        if let Some(map) = &mut self.map {
            map.taken(from, word, to);
        }
    }

    #[inline(always)]
    fn passed(&mut self, pc: u64) {
        if let Some(map) = &mut self.map {
            map.passed(pc);
        }
    }
}
