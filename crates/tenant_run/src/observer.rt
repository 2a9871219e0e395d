//! The records and texts of a tenant while it runs.

ghost use Rattle.std.specs.Prelude.{None};

use crate::bench::{WatchLevel, Watcher};
use crate::tracer::Tracer;
use a64_registers::Regs;
use a64_run::Edges;
use circular_buffer::HeapCircularBuffer;
use mte_svc::WRITE;
use mte_tags::Paged;
use mte_tenant::{
    AccessUse, MOST_UNSEEN, NotedAccess, Notes, NotesAccesses, Status, TenantParts, Watch,
};
use run_cause::{CheckTerms, Checker, Exact, Finding, Findings, LastStore, TargetLoad};
use run_profile::{BranchCounts, RunProfile};
use run_records::{Book, Moment, SVC, Statistics, StatisticsTable, Turn};
use run_terms::Exactness;
use shadow_memory::Full;
use std::alloc::{AllocError, Global};
use std::io;

/// How many of the last instructions are remembered at least.
const LEAST: usize = 16;

/// Remembers the heap calls and the last instructions, and writes lines, up to the first access
/// that goes beyond its chunk where accesses are to keep to them.
pub struct Observer<'a> {
    /// How much it is shown of the tenant.
    pub shown: WatchLevel,
    /// The step after which it is shown each attempt, where it is shown accesses.
    shown_after: u64,
    /// The steps before the accesses that it is shown now.
    passed: u64,
    /// The steps before the first accesses of which one may be wrong.
    suspect: Option<u64>,
    /// The heap calls.
    pub book: Book,
    /// The last instructions, the oldest first.
    last: HeapCircularBuffer<Moment>,
    /// The last calls and returns, the oldest first, where they are requested.
    turns: Option<HeapCircularBuffer<Turn>>,
    /// The lines.
    tracer: Option<Tracer<'a>>,
    /// Whether it is shown each attempt, also where it writes no line.
    pub sees_all: bool,
    /// The bounds of chunks, where accesses are to keep to them.
    exact: Option<Exact>,
    /// Where pointers come from, where each is to be used as its own chunk allows.
    checker: Option<Checker<'a>>,
    /// What was found, where the run goes on after it.
    pub findings: Findings,
    /// The numbers of the run, where they are requested.
    statistics: Option<Statistics>,
    /// The branches of the run and the calls, where they are requested.
    profile: Option<RunProfile<'a>>,
    /// Whether a service wrote fewer bytes than it was handed.
    pub is_cut: bool,
    /// The store that wrote the target last of the jump to no code that ended the tenant, once
    /// found.
    pub store: Option<LastStore>,
}

impl<'a> Drop for Observer<'a> {
    fn drop(self) {
        let Observer {
            shown: _,
            shown_after: _,
            passed: _,
            suspect: _,
            book: _,
            last: _,
            turns: _,
            tracer: _,
            sees_all: _,
            exact: _,
            checker: _,
            findings: _,
            statistics: _,
            profile: _,
            is_cut: _,
            store: _,
        } = self;
    }
}

/// The lists of what is remembered.
#[derive(Drop)]
pub struct WatchLists {
    book: Book,
    last: HeapCircularBuffer<Moment>,
    turns: Option<HeapCircularBuffer<Turn>>,
}

impl WatchLists {
    /// Empty ones: for the last `count` instructions, and as many as a cause is found by; and for
    /// the last `turns` calls and returns, where there are to be any.
    pub fn new(alloc: Global, count: usize, turns: usize) -> Result<WatchLists, AllocError> {
        Ok(WatchLists {
            book: Book::new(alloc)?,
            last: HeapCircularBuffer::with_capacity(alloc, count.max(LEAST))?,
            turns: turns_of(alloc, turns)?,
        })
    }
}

impl<'a> Observer<'a> {
    /// One that remembers into lists, and what a checker finds, and counts branches where there is
    /// a profile. Nothing can fail here, where much would have to be dropped: that is what a proof
    /// pays for.
    pub fn new(
        alloc: Global,
        lists: WatchLists,
        exact: Option<Exact>,
        tracer: Option<Tracer<'a>>,
        checker: Option<Checker<'a>>,
        profile: Option<RunProfile<'a>>,
    ) -> Observer<'a> {
        let WatchLists { book, last, turns } = lists;
        Observer {
            shown: WatchLevel::Attempts,
            shown_after: u64::MAX,
            passed: 0,
            suspect: None,
            book,
            last,
            turns,
            tracer,
            sees_all: false,
            exact,
            checker,
            findings: Findings::new(alloc),
            statistics: None,
            is_cut: false,
            store: None,
            profile,
        }
    }

    /// Whether the branches have to be counted by one more run, of which it is shown them alone.
    pub fn wants_branches(&mut self) -> bool {
        match &self.profile {
            Some(profile) if !profile.has_begun() => {
                self.shown = WatchLevel::Branches;
                true
            }
            _ => false,
        }
    }

    /// The profile of the run, if it is requested.
    pub fn profile(&self) -> Option<&RunProfile<'a>> {
        self.profile.as_ref()
    }

    /// Ends the profile after all steps of the run.
    pub fn end_profile(&mut self, steps: u64) {
        if let Some(profile) = &mut self.profile {
            profile.finish(steps);
        }
    }

    /// Counts what the tenant does, too.
    pub fn count(&mut self) {
        self.statistics = Some(Statistics::new());
    }

    /// How much it has to be shown from the first step on: each attempt where it writes what it
    /// sees, or counts and checks, else the accesses that it counts or judges, or what it follows.
    pub fn needs(&self) -> WatchLevel {
        let judges_accesses = self.exact.is_some() || self.statistics.is_some();
        let counts_and_checks = self.statistics.is_some() && self.checker.is_some();
        if self.sees_all || self.tracer.is_some() || counts_and_checks {
            WatchLevel::Attempts
        } else if !judges_accesses && self.checker.is_none() {
            match self.profile {
                Some(_) => WatchLevel::Branches,
                None => WatchLevel::Nothing,
            }
        } else if self.turns.is_some() {
            WatchLevel::Attempts
        } else {
            WatchLevel::Accesses
        }
    }

    /// Whether a second run has to show it the attempts in which an access was or may have been
    /// wrong.
    pub fn is_suspicious(&self) -> bool {
        self.suspect.is_some() || self.finding().is_some()
    }

    /// Forgets all, for a second run from the first instruction. It is shown the attempts that it
    /// remembers before the `end` steps of the first run, or before what that found, and those from
    /// the first accesses on of which one may be wrong.
    pub fn restart(&mut self, alloc: Global, end: u64) -> Result<(), AllocError> {
        let found = self.finding().map_or(end, |finding| finding.step);
        let wanted = self.suspect.unwrap_or(found).min(found);
        self.shown_after = wanted.saturating_sub(self.last.capacity() as u64);
        self.suspect = None;
        self.shown = if self.turns.is_some() {
            WatchLevel::Attempts
        } else {
            WatchLevel::Accesses
        };
        self.is_cut = false;
        self.last.clear();
        self.findings.clear();
        if let Some(exact) = &mut self.exact {
            exact.restart(alloc);
        }
        if let Some(checker) = &mut self.checker {
            checker.restart()?;
        }
        if self.statistics.is_some() {
            self.count();
        }
        self.book = Book::new(alloc)?;
        Ok(())
    }

    /// Remembers that an instruction since the last attempt that was shown may be wrong, if it
    /// is the first.
    #[cold]
    #[inline(never)]
    fn suspect_this(&mut self) {
        if !self.is_suspicious() && self.full().is_none() {
            self.suspect = Some(self.passed);
        }
    }

    /// Whether what it is shown of attempts counts for nothing.
    fn is_over(&self) -> bool {
        self.shown == WatchLevel::Branches || self.finding().is_some()
    }

    /// The last instructions.
    pub fn last(&self) -> &HeapCircularBuffer<Moment> {
        &self.last
    }

    /// The last calls and returns, where they are requested.
    pub fn turns(&self) -> Option<&HeapCircularBuffer<Turn>> {
        self.turns.as_ref()
    }

    /// The numbers of the run of a tenant with `reserved` pages, if they are requested.
    pub fn table(&self, reserved: u64) -> Option<StatisticsTable<'_>> {
        match &self.statistics {
            Some(statistics) => Some(StatisticsTable {
                statistics,
                reserved,
            }),
            None => None,
        }
    }

    /// The access that ended the tenant beyond what its tags forbid, if one did.
    pub fn finding(&self) -> Option<&Finding> {
        if let Some(checker) = &self.checker {
            if let Some(finding) = checker.finding() {
                return Some(finding);
            }
        }
        self.exact.as_ref()?.finding()
    }

    /// How many findings were suppressed.
    pub fn hidden(&self) -> u64 {
        match &self.checker {
            Some(checker) => checker.hidden(),
            None => 0,
        }
    }

    /// The checker of the tenant's pointers, where it is watched for that.
    pub fn checker(&self) -> Option<&Checker<'a>> {
        self.checker.as_ref()
    }

    /// Why what watches the pointers could note no more, if that is so.
    pub fn full(&self) -> Option<Full> {
        self.checker.as_ref()?.full()
    }

    /// The load that brought the target of the jump to no code that ended the tenant, if one did.
    pub fn target_load(&self, status: &Status) -> Option<TargetLoad> {
        if self.finding().is_some() {
            return None;
        }
        TargetLoad::of_end(status, Some(&self.last))
    }

    /// Whether no chunk was missed for out of memory.
    pub fn is_complete(&self) -> bool {
        match &self.exact {
            Some(exact) => exact.is_complete(),
            None => true,
        }
    }

    /// Writes what is held of the lines.
    pub fn finish(&mut self) {
        if let Some(tracer) = &mut self.tracer {
            tracer.finish();
        }
    }

    /// Why not all lines could be written.
    pub fn lines_fault(&self) -> Option<io::ErrorKind> {
        match &self.tracer {
            Some(tracer) => tracer.fault(),
            None => None,
        }
    }
}

impl<'a> Watcher for Observer<'a> {
    fn shown(&self) -> WatchLevel {
        self.shown
    }

    fn begin(&mut self, parts: &TenantParts, steps: u32) -> u32 {
        if self.shown == WatchLevel::Branches {
            if let Some(profile) = &mut self.profile {
                profile.begin_slice(parts);
            }
            return 0;
        }
        let before = parts.history.steps;
        self.passed = before;
        if let Some(statistics) = &mut self.statistics {
            statistics.begin(&parts.regs.rgsr);
        }
        let unseen = self.shown_after.saturating_sub(before);
        steps.saturating_sub(u32::try_from(unseen).unwrap_or(u32::MAX))
    }

    fn has_ended(&self) -> bool {
        match self.shown {
            WatchLevel::Nothing | WatchLevel::Branches => false,
            _ => self.is_suspicious() || self.full().is_some(),
        }
    }
}

impl<'a> NotesAccesses for Observer<'a> {
    #[inline(always)]
    fn counts_tags(&self) -> bool {
        self.statistics.is_some()
    }

    #[inline(always)]
    fn note(&mut self, access: NotedAccess) {
        if self.shown == WatchLevel::Branches {
            return;
        }
        let is_write = access.usage != AccessUse::Read;
        if let Some(exact) = &mut self.exact {
            let is_wrong = exact.is_suspicious(access.address, access.bytes, is_write);
            if is_wrong && self.suspect.is_none() {
                self.suspect = Some(self.passed);
            }
        }
        if let Some(statistics) = &mut self.statistics {
            if access.usage != AccessUse::Zero {
                statistics.count_access(is_write, access.is_compared);
            }
        }
    }
}

impl<'a> Notes for Observer<'a> {
    type Counts = BranchCounts<'a>;

    fn follows(&self) -> bool {
        self.checker.is_some() && self.shown != WatchLevel::Branches
    }

    fn take_counts(&mut self) -> BranchCounts<'a> {
        if self.shown == WatchLevel::Branches {
            BranchCounts::new(self.profile.take())
        } else {
            BranchCounts::new(None)
        }
    }

    fn put_counts(&mut self, counts: BranchCounts<'a>) {
        if self.shown == WatchLevel::Branches {
            self.profile = counts.profile();
        }
    }

    fn pass<M: Paged>(&mut self, parts: &TenantParts, memory: &mut M) {
        if self.shown == WatchLevel::Branches {
            return;
        }
        self.passed = parts.history.steps;
        if let Some(statistics) = &mut self.statistics {
            statistics.pass(parts, MOST_UNSEEN, memory);
        }
    }
}

impl<'a> Edges for Observer<'a> {
    #[inline(always)]
    fn taken(&mut self, _from: u64, _word: u32, _to: u64) {}

    #[inline(always)]
    fn attempting(&mut self, pc: u64, word: u32, regs: &Regs) {
        if let Some(checker) = &mut self.checker {
            if checker.attempting(pc, word, regs) {
                self.suspect_this();
            }
        }
    }

    #[inline(always)]
    fn completed(&mut self, pc: u64, word: u32, regs: &Regs) {
        if let Some(checker) = &mut self.checker {
            if let Some(exact) = &mut self.exact {
                if let Some(span) = checker.accessed(pc, word, regs) {
                    if exact.is_suspicious(span.addr, span.bytes, span.is_write)
                        && self.suspect.is_none()
                    {
                        self.suspect = Some(self.passed);
                    }
                }
            }
            if checker.completed(pc, word, regs) {
                self.suspect_this();
            }
        }
    }
}

impl<'a> Watch for Observer<'a> {
    ghost log = { λ _. None };

    fn before<M: Paged>(&mut self, parts: &TenantParts, memory: &mut M) {
        if self.is_over() {
            return;
        }
        self.last.push_back(Moment {
            step: parts.history.steps.saturating_add(1),
            word: memory.fetch(parts.regs.pc).ok(),
            regs: parts.regs,
        });
    }

    fn after<M: Paged>(&mut self, parts: &TenantParts, memory: &mut M) {
        if self.is_over() {
            note_attempt(self.shown, &mut self.profile, parts);
            return;
        }
        let call = self.book.note(parts, memory);
        self.passed = parts.history.steps;
        let Some(moment) = self.last.back() else {
            return;
        };
        if let Some(tracer) = &mut self.tracer {
            tracer.note(moment, &parts.regs);
        }
        note_turn(&mut self.turns, moment, parts);
        self.is_cut = self.is_cut || cuts_output(moment, parts);
        if let Some(statistics) = &mut self.statistics {
            statistics.note(moment, parts, call.as_ref().map(|call| &call.call), memory);
        }
        if let Some(exact) = &mut self.exact {
            exact.note(moment, parts, call.as_ref(), memory);
        }
        if let Some(checker) = &mut self.checker {
            checker.note(moment, parts, call.as_ref(), memory);
            if let Some(finding) = checker.take_passed() {
                self.findings.enter(&finding, &self.book);
            }
        }
    }
}

/// Notes an attempt after which there is no next instruction, where the branches are counted.
fn note_attempt(shown: WatchLevel, profile: &mut Option<RunProfile<'_>>, parts: &TenantParts) {
    if shown == WatchLevel::Branches {
        if let Some(profile) = profile {
            profile.note_attempt(parts);
        }
    }
}

/// Remembers the call or return that an instruction made, where they are requested.
fn note_turn(turns: &mut Option<HeapCircularBuffer<Turn>>, moment: &Moment, parts: &TenantParts) {
    let Some(turns) = turns else {
        return;
    };
    if let Some(turn) = Turn::of(moment, &parts.regs) {
        turns.push_back(turn);
    }
}

/// Whether an instruction requested a write of more bytes than there was room for.
fn cuts_output(moment: &Moment, parts: &TenantParts) -> bool {
    let (before, after) = (&moment.regs, &parts.regs);
    moment.word == Some(SVC)
        && before.x[8] == WRITE
        && before.pc != after.pc
        && after.x[0] < before.x[1]
}

/// A list for the last `count` calls and returns, where there are to be any.
fn turns_of(alloc: Global, count: usize) -> Result<Option<HeapCircularBuffer<Turn>>, AllocError> {
    if count == 0 {
        return Ok(None);
    }
    let turns = HeapCircularBuffer::with_capacity(alloc, count)?;
    Ok(Some(turns))
}

/// The checker of a tenant by its terms, where they ask for anything.
pub fn checker_of<'a>(
    alloc: Global,
    terms: &CheckTerms<'a>,
) -> Result<Option<Checker<'a>>, AllocError> {
    if terms.kinds.is_none() {
        return Ok(None);
    }
    let checker = Checker::new(alloc, terms)?;
    Ok(Some(checker))
}

/// The watch of accesses by the bytes of chunks, where it is requested.
pub fn exact_of(alloc: Global, exactness: Exactness) -> Option<Exact> {
    match exactness {
        Exactness::Tags => None,
        Exactness::Writes => Some(Exact::new(alloc, true)),
        Exactness::All => Some(Exact::new(alloc, false)),
    }
}
