//! The watch of whether a run keeps to the bytes of its tenant's chunks, whatever the tags.

ghost use Rattle.std.specs.Prelude.{None};

use crate::edge_map::{CountedEdges, EdgeMap, next_of};
use a64_registers::Regs;
use a64_run::{Edges, is_conditional};
use heap_bounds::{Bounds, NearBounds, Span, Trespass, span_of};
use mte_svc::{HeapCalls, TenantParts};
use mte_tags::Paged;
use mte_tenant::{NotedAccess, Notes, NotesAccesses, Watch};
use std::mem::replace;

/// An access to bytes of the heap that no live chunk has, or that the chunk there has not.
#[derive(Clone, Copy)]
pub struct ExactFinding {
    /// The number of the instruction among the tenant's, from 1.
    pub step: u64,
    /// The address of the instruction.
    pub pc: u64,
    /// The plain address of the first such byte.
    pub addr: u64,
    /// The access.
    pub span: Span,
    /// The access.
    pub trespass: Trespass,
}

/// The state before an instruction that is attempted.
#[derive(Clone, Copy)]
struct Before {
    /// Its word, if it could be fetched.
    word: Option<u32>,
    /// The registers.
    regs: Regs,
    /// How many heap calls there were.
    calls: u64,
}

/// Follows a tenant's chunks by its heap calls, keeps the first access that goes beyond them, and
/// counts the branches that are taken as a run does that nothing watches.
///
/// Of the attempts that it is not shown it is passed the accesses, and keeps only that one may be
/// wrong. A second run from the same machine, shown each attempt from there on, finds that access.
#[derive(Drop)]
pub struct ExactWatch<'a> {
    chunks: NearBounds,
    edges: CountedEdges<'a>,
    before: Option<Before>,
    finding: Option<ExactFinding>,
    is_complete: bool,
    /// The step after which it is shown each attempt.
    shown_after: u64,
    /// The steps before the accesses that it is passed now.
    passed: u64,
    /// The steps before the first accesses of which one may be wrong.
    suspect: Option<u64>,
}

impl<'a> ExactWatch<'a> {
    /// Watches a tenant with these chunks, and is shown each attempt; its branches are counted
    /// where there is a map.
    pub fn new(chunks: Bounds, map: Option<EdgeMap<'a>>) -> ExactWatch<'a> {
        ExactWatch::shown_after(0, chunks, map)
    }

    /// Watches a tenant as `new` does, but is shown each attempt only after so many of its steps.
    pub fn shown_after(steps: u64, chunks: Bounds, map: Option<EdgeMap<'a>>) -> ExactWatch<'a> {
        ExactWatch {
            chunks: NearBounds::new(chunks),
            edges: CountedEdges { map },
            before: None,
            finding: None,
            is_complete: true,
            shown_after: steps,
            passed: 0,
            suspect: None,
        }
    }

    /// The first such access of the attempts that it was shown, if there was one.
    pub fn finding(&self) -> Option<ExactFinding> {
        self.finding
    }

    /// After how many steps the accesses begin of which one may be wrong, if there are any. Before
    /// them none is. Where there are, `finding` has none.
    pub fn suspect(&self) -> Option<u64> {
        self.suspect
    }

    /// Whether each chunk could be entered. Where one could not, nothing is judged from there on.
    pub fn is_complete(&self) -> bool {
        self.is_complete
    }

    /// The chunks that the tenant has now; none where one could not be entered.
    pub fn into_chunks(self) -> Option<Bounds> {
        if self.is_complete {
            Some(self.chunks.into_bounds())
        } else {
            None
        }
    }

    /// A slice of some steps begins: of how many of the last ones it is shown each attempt.
    pub(crate) fn begin(&mut self, parts: &TenantParts, steps: u32) -> u32 {
        let before = parts.history.steps;
        self.passed = before;
        if !self.is_judging() {
            return 0;
        }
        let unseen = self.shown_after.saturating_sub(before);
        steps.saturating_sub(u32::try_from(unseen).unwrap_or(u32::MAX))
    }

    /// Whether the next access is judged.
    fn is_judging(&self) -> bool {
        self.is_complete && self.finding.is_none() && self.suspect.is_none()
    }

    /// Keeps that an access since the last attempt that was shown may be wrong, if it is the first.
    #[cold]
    #[inline(never)]
    fn suspect_this(&mut self) {
        if self.is_judging() {
            self.suspect = Some(self.passed);
        }
    }
}

impl<'a> Watch for ExactWatch<'a> {
    ghost log = { λ _. None };

    fn before<M: Paged>(&mut self, parts: &TenantParts, memory: &mut M) {
        self.before = Some(Before {
            word: memory.fetch(parts.regs.pc).ok(),
            regs: parts.regs,
            calls: parts.history.calls.count(),
        });
    }

    fn after<M: Paged>(&mut self, parts: &TenantParts, _memory: &mut M) {
        let is_judging = self.is_judging();
        self.passed = parts.history.steps;
        let Some(before) = &self.before else {
            return;
        };
        let calls = &parts.history.calls;
        if calls.count() != before.calls {
            self.is_complete = enter_last(&mut self.chunks, calls) && self.is_complete;
        } else if parts.is_running() {
            if let Some(word) = before.word {
                count_step(&mut self.edges, before.regs.pc, word, parts.regs.pc);
            }
            if is_judging {
                self.finding = judge(&self.chunks, before, parts);
            }
        }
    }
}

/// Counts the edge from the instruction of a word to the one that is attempted next: a branch that
/// was taken, or a conditional one that was not.
fn count_step(edges: &mut CountedEdges<'_>, from: u64, word: u32, to: u64) {
    if to != next_of(from) {
        edges.taken(from, word, to);
    } else if is_conditional(word) {
        edges.passed(from);
    }
}

impl<'a> NotesAccesses for ExactWatch<'a> {
    #[inline(always)]
    fn counts_tags(&self) -> bool {
        false
    }

    #[inline(always)]
    fn note(&mut self, access: NotedAccess) {
        if self.chunks.may_trespass(access.address, access.bytes) {
            self.suspect_this();
        }
    }
}

impl<'a> Edges for ExactWatch<'a> {
    #[inline(always)]
    fn taken(&mut self, from: u64, word: u32, to: u64) {
        self.edges.taken(from, word, to);
    }

    #[inline(always)]
    fn passed(&mut self, pc: u64) {
        self.edges.passed(pc);
    }
}

impl<'a> Notes for ExactWatch<'a> {
    type Counts = CountedEdges<'a>;

    #[inline(always)]
    fn follows(&self) -> bool {
        false
    }

    #[inline(always)]
    fn take_counts(&mut self) -> CountedEdges<'a> {
        replace(&mut self.edges, CountedEdges { map: None })
    }

    #[inline(always)]
    fn put_counts(&mut self, counts: CountedEdges<'a>) {
        self.edges = counts;
    }

    #[inline(always)]
    fn pass<M: Paged>(&mut self, parts: &TenantParts, _memory: &mut M) {
        self.passed = parts.history.steps;
    }
}

/// Enters what the last heap call did to chunks; whether it could be entered.
fn enter_last(chunks: &mut NearBounds, calls: &HeapCalls) -> bool {
    match calls.get(calls.kept().saturating_sub(1)) {
        Some(call) => chunks.note(&call).is_ok(),
        None => true,
    }
}

/// The access that an instruction that completed, or the service that it requested, may not make.
fn judge(chunks: &NearBounds, before: &Before, parts: &TenantParts) -> Option<ExactFinding> {
    let span = span_of(before.word?, &before.regs, &parts.regs)?;
    let (addr, trespass) = chunks.check(span.addr, span.bytes)?;
    Some(ExactFinding {
        step: parts.history.steps,
        pc: before.regs.pc,
        addr,
        span,
        trespass,
    })
}
