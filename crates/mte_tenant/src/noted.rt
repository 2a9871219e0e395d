//! A memory whose accesses are noted, those that instructions complete, and the watch that is
//! passed them.

ghost use Rattle.std.specs.Prelude.{◌≡◌};

use crate::alone::Watch;
use a64_run::Edges;
use common::GRANULE_SIZE;
use mte_svc::TenantParts;
use mte_tags::{Attrs, MemFault, Paged, Tagged};

/// The most attempts that follow each other and are not shown.
pub const MOST_UNSEEN: u64 = 32_768;

/// How an access uses its bytes.
#[derive(Clone, Copy, PartialEq, Eq)]
pub enum AccessUse {
    /// A load.
    Read,
    /// A store of registers.
    Write,
    /// Granules are made zero with their tags (STZG, STZ2G).
    Zero,
}

/// An access that an instruction completed.
#[derive(Clone, Copy)]
pub struct NotedAccess {
    /// The first byte's address, with its tag.
    pub address: u64,
    /// How many bytes.
    pub bytes: u64,
    /// How it uses them.
    pub usage: AccessUse,
    /// Whether the first byte's page has tags with which the address tag was compared; false where
    /// that is not requested.
    pub is_compared: bool,
}

/// Is passed the accesses that instructions complete.
pub trait NotesAccesses {
    /// Whether it is to be passed whether tags were compared.
    fn counts_tags(&self) -> bool;

    /// An instruction completed an access. Accesses come in the order in which they are made.
    fn note(&mut self, access: NotedAccess);
}

/// Nothing is passed accesses.
#[derive(Clone, Copy)]
pub(crate) struct NoAccesses;

impl NotesAccesses for NoAccesses {
    #[inline(always)]
    fn counts_tags(&self) -> bool {
        false
    }

    #[inline(always)]
    fn note(&mut self, _access: NotedAccess) {}
}

/// A watch to which either the accesses are passed that instructions complete, or each instruction.
/// It changes nothing of the machine.
pub trait Notes: Watch + NotesAccesses + Edges {
    /// Counts the branches that are taken while it is passed accesses.
    type Counts: Edges;

    /// Whether it is passed each instruction by `attempting` and `completed`, and no access.
    fn follows(&self) -> bool;

    /// Hands out its counts of branches, for the instructions until they are handed back.
    fn take_counts(&mut self) -> Self::Counts;

    /// Is handed them back.
    fn put_counts(&mut self, counts: Self::Counts);

    /// So far the machine came since the attempt that was shown last, or since this was called
    /// last, by at most [`MOST_UNSEEN`] attempts.
    fn pass<M: Paged>(&mut self, parts: &TenantParts, memory: &mut M)
        ensures memory { M.Tagged.memory memory.new ≡ M.Tagged.memory memory.old }
        ensures kept { M.Tagged.kept memory.old memory.new };
}

/// A memory, and who is passed what instructions access in it. It holds what that memory holds, and
/// each call is that memory's. A run over it is compiled apart from runs over that memory, whose
/// accesses stay in line.
#[derive(Drop)]
pub(crate) struct NotedMemory<'a, M, N> {
    memory: &'a mut M,
    notes: &'a mut N,
}

/// A memory with a watch of its accesses.
pub(crate) fn note_accesses<'a, M: Tagged, N: NotesAccesses>(
    memory: &'a mut M,
    notes: &'a mut N,
) -> NotedMemory<'a, M, N>
    ensures memory { result.memory ≡ memory.entry }
    ensures notes { result.notes ≡ notes.entry }
{
    NotedMemory { memory, notes }
}

impl<M: Tagged, N: NotesAccesses> NotedMemory<'_, M, N> {
    /// Notes an access that was completed, where its answer says so.
    #[inline(always)]
    fn note(&mut self, address: u64, bytes: u64, usage: AccessUse, check: bool)
        ensures memory { M.memory self.new.memory.now ≡ M.memory self.old.memory.now }
        ensures kept { M.kept self.old.memory.now self.new.memory.now }
        ensures name { self.new.memory.ghost_name ≡ self.old.memory.ghost_name }
        ensures notes { self.new.notes.ghost_name ≡ self.old.notes.ghost_name }
    {
        let is_compared = check
            && self.notes.counts_tags()
            && self.memory.has_attrs(address, Attrs::TAGGED);
        self.notes.note(NotedAccess {
            address,
            bytes,
            usage,
            is_compared,
        });
    }
}

impl<M: Tagged, N: NotesAccesses> Tagged for NotedMemory<'_, M, N> {
    ghost use Rattle.std.specs.Prelude.{◌≡◌, refl};
    ghost use Rattle.mte_tenant.specs.Noted.{same_on};

    ghost memory = { λ w. M.memory w.memory.now };

    ghost kept = { λ a b. (b.memory.ghost_name ≡ a.memory.ghost_name)
        × (b.notes.ghost_name ≡ a.notes.ghost_name)
        × M.kept a.memory.now b.memory.now };

    #[inline(always)]
    fn fetch(&mut self, pc: u64) -> Result<u32, MemFault> {
        self.memory.fetch(pc)
    }

    #[inline(always)]
    fn fetch_words(&mut self, pc: u64, words: &mut [u32; 16]) -> bool {
        self.memory.fetch_words(pc, words)
    }

    #[inline(always)]
    fn read(&mut self, addr: u64, buffer: &mut [u8], check: bool) -> Result<(), MemFault> {
        let bytes = buffer.len() as u64;
        let answer = self.memory.read(addr, buffer, check);
        if answer.is_ok() {
            self.note(addr, bytes, AccessUse::Read, check);
        }
        answer
    }

    #[inline(always)]
    fn write(&mut self, addr: u64, bytes: &[u8], check: bool) -> Result<(), MemFault> {
        let answer = self.memory.write(addr, bytes, check);
        if answer.is_ok() {
            self.note(addr, bytes.len() as u64, AccessUse::Write, check);
        }
        answer
    }

    #[inline(always)]
    fn load_tag(&mut self, addr: u64) -> Result<u8, MemFault> {
        self.memory.load_tag(addr)
    }

    #[inline(always)]
    fn store_tags(
        &mut self,
        addr: u64,
        granules: u64,
        tag: u8,
        zero: bool,
    ) -> Result<(), MemFault> {
        let answer = self.memory.store_tags(addr, granules, tag, zero);
        if zero && answer.is_ok() {
            let bytes = granules.saturating_mul(GRANULE_SIZE);
            self.note(addr, bytes, AccessUse::Zero, false);
        }
        answer
    }

    #[inline(always)]
    fn has_attrs(&mut self, addr: u64, attrs: Attrs) -> bool {
        self.memory.has_attrs(addr, attrs)
    }

    #[inline(always)]
    fn pending(&mut self) -> bool {
        self.memory.pending()
    }

    ghost kept_same = { λ a. (refl, refl, M.kept_same a.memory.now) };

    ghost kept_on = { λ a b c h k. (
      same_on a.memory.ghost_name b.memory.ghost_name c.memory.ghost_name h.0 k.0,
      same_on a.notes.ghost_name b.notes.ghost_name c.notes.ghost_name h.1 k.1,
      M.kept_on a.memory.now b.memory.now c.memory.now h.2 k.2,
    ) };
}
