//! Comparisons of a run, in memory that a fuzzer lends.

ghost use Rattle.std.specs.Prelude.{◌≡◌, None};
ghost use Rattle.tenant_snapshot.specs.Comparisons.{entries_after, may_compare, place_of};
ghost use Rattle.tenant_snapshot.specs.Comparisons.{with_comparison};

use crate::comparison::{ComparisonEntry, compared};
use crate::edge_map::{CountedEdges, EdgeMap, hash};
use a64_decode::Decoder;
use a64_registers::Regs;
use a64_run::{Edges, NoEdges};
use mte_svc::TenantParts;
use mte_tags::Paged;
use mte_tenant::{NotedAccess, Notes, NotesAccesses, Watch};

/// What a fuzzer lends for the comparisons of a run.
#[repr(C)]
#[derive(Drop)]
pub struct Comparisons<'f, 'e> {
    /// The addresses of functions that compare texts.
    pub functions: &'f [u64],
    /// Where comparisons are entered; a power of two of places from MAP_MIN to MAP_MAX.
    pub entries: &'e mut [ComparisonEntry],
}

/// The place of a comparison among so many: its address has eight, and both operands choose one of
/// them.
#[inline(always)]
fn place(count: usize, comparison: &ComparisonEntry) -> usize
    ensures { result ≡ place_of count comparison.now }
{
    let set = (comparison.pc / 4) as usize & (count / 8).saturating_sub(1);
    set * 8 + hash(comparison.left, comparison.right) % 8
}

/// Enters a comparison; all other places stay.
#[inline(always)]
pub(crate) fn enter(entries: &mut [ComparisonEntry], comparison: ComparisonEntry)
    ensures { entries.new ≡ with_comparison entries.old comparison }
{
    let at = place(entries.len(), &comparison);
    if at < entries.len() {
        entries[at] = comparison;
    }
}

/// Bit n is set where bits 30 to 24 are n of instructions that compare (Arm ARM DDI 0487, C4.1): B
/// and BL, ADDS, CBZ to TBNZ, CCMN, BR and BLR, ANDS, SUBS, CCMP.
const GROUPS: u128 = 15 << 0x14
    | 1 << 0x2B
    | 1 << 0x31
    | 15 << 0x34
    | 1 << 0x3A
    | 1 << 0x56
    | 3 << 0x6A
    | 3 << 0x71
    | 1 << 0x7A;

/// Whether a word may be of an instruction that compares.
#[inline(always)]
fn may_compare(word: u32) -> bool
    ensures { result ≡ may_compare word }
{
    GROUPS >> (word >> 24 & 127) & 1 == 1
}

/// Counts the branches that a run takes, and enters what its instructions compare.
#[derive(Drop)]
pub struct ComparedEdges<'m, 'f, 'e> {
    edges: CountedEdges<'m>,
    functions: &'f [u64],
    entries: &'e mut [ComparisonEntry],
    decoder: Decoder,
    /// How many instructions were attempted.
    steps: u64,
    /// The word of the last one.
    before: u32,
}

impl<'m, 'f, 'e> ComparedEdges<'m, 'f, 'e> {
    /// Counts branches where there is a map. Nothing was attempted yet.
    pub fn new(
        map: Option<EdgeMap<'m>>,
        functions: &'f [u64],
        entries: &'e mut [ComparisonEntry],
    ) -> ComparedEdges<'m, 'f, 'e> {
        ComparedEdges {
            edges: CountedEdges { map },
            functions,
            entries,
            decoder: Decoder::new(),
            steps: 0,
            before: 0,
        }
    }

    /// Enters what the instruction of a word at an address compares, if it does.
    #[inline(never)]
    fn enter_compared(&mut self, pc: u64, word: u32, regs: &Regs)
        ensures { self.new.entries.now
            ≡ entries_after self.old.functions.now self.old.steps self.old.before regs.now pc word
            self.old.entries.now }
    {
        let Some(instr) = self.decoder.decode(pc, word) else {
            return;
        };
        let instr = *instr;
        let (decoder, before) = (&mut self.decoder, self.before);
        if let Some(found) = compared(self.functions, decoder, before, regs, pc, &instr) {
            let step = self.steps;
            enter(self.entries, ComparisonEntry { step, pc, ..found });
        }
    }
}

impl<'m, 'f, 'e> Edges for ComparedEdges<'m, 'f, 'e> {
    #[inline(always)]
    fn taken(&mut self, from: u64, word: u32, to: u64) {
        self.edges.taken(from, word, to);
    }

    #[inline(always)]
    fn passed(&mut self, pc: u64) {
        self.edges.passed(pc);
    }

    #[inline(always)]
    fn attempting(&mut self, pc: u64, word: u32, regs: &Regs) {
        self.steps = self.steps.wrapping_add(1);
        if may_compare(word) {
            self.enter_compared(pc, word, regs);
        }
        self.before = word;
    }
}

impl<'m, 'f, 'e> Watch for ComparedEdges<'m, 'f, 'e> {
    ghost log = { λ _. None };

    fn before<M: Paged>(&mut self, _parts: &TenantParts, _memory: &mut M) {}

    fn after<M: Paged>(&mut self, _parts: &TenantParts, _memory: &mut M) {}
}

impl<'m, 'f, 'e> NotesAccesses for ComparedEdges<'m, 'f, 'e> {
    #[inline(always)]
    fn counts_tags(&self) -> bool {
        false
    }

    #[inline(always)]
    fn note(&mut self, _access: NotedAccess) {}
}

/// It follows each instruction, so that its runs are compiled apart from those that only count.
impl<'m, 'f, 'e> Notes for ComparedEdges<'m, 'f, 'e> {
    type Counts = NoEdges;

    #[inline(always)]
    fn follows(&self) -> bool {
        true
    }

    #[inline(always)]
    fn take_counts(&mut self) -> NoEdges {
        NoEdges
    }

    #[inline(always)]
    fn put_counts(&mut self, _counts: NoEdges) {}

    #[inline(always)]
    fn pass<M: Paged>(&mut self, _parts: &TenantParts, _memory: &mut M) {}
}
