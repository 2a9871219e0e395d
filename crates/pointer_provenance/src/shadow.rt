//! The shadow of a tenant's registers and memory.

use crate::chunk_table::{ChunkTable, TracedChunk};
use crate::quick::NearChunks;
use a64_bits::plain;
use a64_registers::Regs;
use common::{PAGE_SIZE, REGIONS_START, SECONDARY_END};
use mte_tags::tag_of;
use shadow_memory::{Full, MemoryShadow, PointerOrigin, PointerSums, Provenance, Sign, Step};
use std::alloc::{AllocError, Global};

/// How many numbered registers there are.
const REGISTERS: usize = 31;

/// Which of the origins of pointers are meant.
#[derive(Clone, Copy, PartialEq, Eq)]
pub enum Pointed {
    /// Chunks.
    Chunks,
    /// Places that have names.
    Places,
}

impl Pointed {
    /// The index of an origin that is meant.
    fn index_of(self, origin: PointerOrigin) -> Option<usize> {
        match self {
            Pointed::Chunks => origin.chunk(),
            Pointed::Places => origin.place(),
        }
    }
}

/// The shadow of a tenant's registers and memory: where each pointer points.
pub struct Shadow {
    alloc: Global,
    registers: [Provenance; REGISTERS],
    /// The registers of which something is known, a bit each; of the others nothing is, whatever
    /// `registers` has.
    pub(crate) known: u32,
    pub(crate) near: NearChunks,
    pub(crate) memory: MemoryShadow,
    pub(crate) chunks: ChunkTable,
    pub(crate) sums: PointerSums,
    /// Whether the program said something of memory that it hands out itself.
    pub(crate) has_own: bool,
    /// The chunk that the stack is in, where SP was moved into one.
    pub(crate) stack: Option<usize>,
}

impl Drop for Shadow {
    fn drop(self) {
        let Shadow {
            alloc: _,
            registers: _,
            known: _,
            near: _,
            memory: _,
            chunks: _,
            sums: _,
            has_own: _,
            stack: _,
        } = self;
    }
}

impl Shadow {
    /// Of a tenant at its first instruction.
    pub fn new(alloc: Global) -> Result<Shadow, AllocError> {
        Ok(Shadow {
            alloc,
            registers: [Provenance::NONE; REGISTERS],
            known: 0,
            near: NearChunks::new(),
            memory: MemoryShadow::new(alloc)?,
            chunks: ChunkTable::new(alloc),
            sums: PointerSums::new(alloc),
            has_own: false,
            stack: None,
        })
    }

    /// Notes an instruction that completed, other than SVC.
    pub fn note(&mut self, step: &Step<'_>) -> Result<(), Full> {
        if !self.note_access(step)? {
            self.note_registers(step)?;
        }
        if step.before.sp != step.after.sp {
            self.note_stack(step.after.sp);
        }
        if self.memory.is_short {
            return Err(Full::Pages);
        }
        Ok(())
    }

    /// Of which pointer's bytes the value of a numbered register is made; of none that of 31.
    #[inline(always)]
    pub fn register(&self, n: u8) -> Provenance {
        match self.registers.get(usize::from(n)) {
            Some(value) if self.known_bit(n) => *value,
            _ => Provenance::NONE,
        }
    }

    /// Whether something is known of a numbered register; of 31 and above nothing is.
    #[inline(always)]
    pub(crate) fn known_bit(&self, n: u8) -> bool {
        n < 31 && self.known.wrapping_shr(u32::from(n)) % 2 == 1
    }

    /// Enters whether something is known of a numbered register; nothing for 31 and above.
    #[inline(always)]
    pub(crate) fn know(&mut self, n: u8, is_known: bool) {
        if n >= 31 {
            return;
        }
        let bit = 1u32.wrapping_shl(u32::from(n));
        self.known = if is_known {
            self.known | bit
        } else {
            self.known & !bit
        };
    }

    /// Where the pointer in a numbered register points; 31 is the zero register.
    #[inline(always)]
    pub(crate) fn pointer(&self, n: u8) -> PointerOrigin {
        self.register(n).pointer()
    }

    /// Where the pointer in a numbered register points; 31 is SP.
    #[inline(always)]
    pub(crate) fn base(&self, n: u8) -> PointerOrigin {
        if n < 31 {
            self.pointer(n)
        } else {
            PointerOrigin::STACK
        }
    }

    /// Enters where the pointer in a numbered register points; nothing for 31.
    pub fn point(&mut self, n: u8, origin: PointerOrigin) {
        if let Some(place) = self.registers.get_mut(usize::from(n)) {
            *place = Provenance::whole(origin);
            self.know(n, origin.is_known());
        }
    }

    /// Enters what is known of a numbered register after an instruction; nothing for 31. A number
    /// below the first page's end is no pointer into a chunk, nor to a place that has a name.
    pub(crate) fn set(&mut self, n: u8, value: Provenance, after: &Regs) {
        let Some(place) = self.registers.get_mut(usize::from(n)) else {
            return;
        };
        let number = after.x.get(usize::from(n)).copied().unwrap_or(0);
        let origin = value.pointer();
        let is_one = origin.chunk().is_some() || origin.place().is_some();
        let is_small = is_one && plain(number) < PAGE_SIZE;
        *place = if is_small { Provenance::NONE } else { value };
        let is_known = !is_small && value.origin.is_known();
        self.know(n, is_known);
    }

    /// Where a value points that is made of two.
    pub(crate) fn combined(
        &mut self,
        one: PointerOrigin,
        other: PointerOrigin,
        sign: Sign,
    ) -> Result<PointerOrigin, AllocError> {
        self.sums.combine(one, other, sign)
    }

    /// The chunk of a call that a number points into, if it is a pointer to a live one with the
    /// chunk's tag, and to none that the program made in it.
    pub(crate) fn by_value(&self, number: u64) -> PointerOrigin {
        self.pointed(self.owner_of(number), number)
    }

    /// The same, also to one that the program made in it.
    pub(crate) fn around(&self, number: u64) -> PointerOrigin {
        self.pointed(self.outer(self.owner_of(number)), number)
    }

    /// The newest chunk at the address that a number is, in the heap.
    fn owner_of(&self, number: u64) -> PointerOrigin {
        let addr = plain(number);
        if !is_in_heap(addr) || number >= 1 << 60 {
            return PointerOrigin::UNKNOWN;
        }
        self.memory.owner(addr)
    }

    /// A chunk, if it is a live one of a call and has the tag of a number.
    fn pointed(&self, owner: PointerOrigin, number: u64) -> PointerOrigin {
        match self.chunk(owner) {
            Some(chunk) if chunk.is_live && tag_of(chunk.pointer) == tag_of(number) => {
                if chunk.is_own() {
                    PointerOrigin::UNKNOWN
                } else {
                    owner
                }
            }
            _ => PointerOrigin::UNKNOWN,
        }
    }

    /// The chunk of an origin, if it is one.
    pub fn chunk(&self, origin: PointerOrigin) -> Option<&TracedChunk> {
        self.chunks.get(origin.chunk()?)
    }

    /// Enters where SP is: in a chunk that has capacity for a stack, this is the stack from now on.
    pub(crate) fn note_stack(&mut self, sp: u64) {
        let addr = plain(sp).saturating_sub(1);
        if !is_in_heap(addr) {
            return;
        }
        let owner = self.memory.owner(addr);
        match self.chunk(owner) {
            Some(chunk) if chunk.is_live && chunk.size >= STACK_SIZE => self.stack = owner.chunk(),
            _ => {}
        }
    }

    /// Gives up the freed chunks that nothing points into. Whether another can be entered.
    pub(crate) fn give_up_chunks(&mut self) -> Result<bool, AllocError> {
        let mut marks = vec![in self.alloc; false; self.chunks.len()]?;
        self.mark(Pointed::Chunks, marks.as_mut_slice());
        if self.has_own {
            self.chunks.mark_outer(marks.as_mut_slice());
        }
        self.chunks.give_up(marks.as_slice())
    }

    /// Marks the indices of what registers, memory and sums point into, and of the newest chunk of
    /// each granule.
    pub fn mark(&self, pointed: Pointed, marks: &mut [bool]) {
        for n in 0..REGISTERS as u8 {
            mark(marks, pointed, self.register(n).origin);
        }
        self.mark_sums(pointed, marks);
        self.mark_pages(pointed, marks);
    }

    /// Marks what the terms of sums point into.
    fn mark_sums(&self, pointed: Pointed, marks: &mut [bool]) {
        for sum in self.sums.all() {
            for term in sum.terms().iter() {
                mark(marks, pointed, term.origin);
            }
        }
    }

    /// Marks what words of memory point into, and the newest chunk of each granule.
    fn mark_pages(&self, pointed: Pointed, marks: &mut [bool]) {
        for page in self.memory.pages() {
            mark_all(marks, pointed, page.origins());
            mark_all(marks, pointed, page.owners());
        }
    }
}

/// The least bytes of a chunk that is a stack.
const STACK_SIZE: u32 = 8_192;

/// Marks the indices of origins.
fn mark_all(marks: &mut [bool], pointed: Pointed, origins: &[PointerOrigin]) {
    for origin in origins {
        mark(marks, pointed, *origin);
    }
}

/// Marks the index of an origin, if it is meant.
fn mark(marks: &mut [bool], pointed: Pointed, origin: PointerOrigin) {
    if let Some(index) = pointed.index_of(origin) {
        if let Some(place) = marks.get_mut(index) {
            *place = true;
        }
    }
}

/// Whether a plain address is in the range of the heap.
#[inline(always)]
pub(crate) fn is_in_heap(addr: u64) -> bool {
    REGIONS_START <= addr && addr < SECONDARY_END
}
