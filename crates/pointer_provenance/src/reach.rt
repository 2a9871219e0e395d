//! Which chunks a tenant can still reach.

use crate::shadow::Shadow;
use a64_bits::plain;
use a64_registers::Regs;
use mte_tags::Tagged;
use shadow_memory::{OriginKind, PointerOrigin};
use std::alloc::{AllocError, Global};

/// How a chunk is reached.
#[derive(Clone, Copy, PartialEq, Eq)]
pub enum Reach {
    /// By no pointer, or it was freed.
    Nothing,
    /// From a register, the stack, writable memory of the image, or a chunk that is.
    Reachable,
    /// By nothing, but from the chunk itself.
    Lost,
    /// By nothing, but from chunks that it leads to.
    LostInCycle,
    /// From a lost chunk alone.
    IndirectlyLost,
}

/// A range of plain addresses whose words are looked at.
#[derive(Clone, Copy, PartialEq, Eq)]
pub struct RootRange {
    /// The first address.
    pub start: u64,
    /// The address after the last.
    pub end: u64,
}

/// How each chunk is reached, by its index.
#[derive(Drop)]
pub struct ReachTable {
    states: Vec<Reach>,
    /// The chunks whose words are still to be looked at.
    waiting: Vec<usize>,
    /// The chunk whose words are looked at, if it is one's.
    source: Option<usize>,
    /// The lost chunk that is followed, once all that are reached are.
    root: Option<usize>,
    /// Whether another chunk leads to that.
    is_cycle: bool,
}

/// A live chunk that is not reached.
#[derive(Clone, Copy, PartialEq, Eq)]
pub struct LostChunk {
    /// The number of the heap call that made it.
    pub number: u64,
    /// Its bytes.
    pub size: u64,
    /// Whether it is reached from another that is lost.
    pub is_indirect: bool,
    /// Whether it is reached from those alone that it leads to.
    pub is_in_cycle: bool,
}

impl Shadow {
    /// The words of the live chunk that the stack is in, if it is in one: from SP on, where that is
    /// in the chunk, else all.
    pub fn stack_words(&self, sp: u64) -> Option<RootRange> {
        let chunk = self.chunks.get(self.stack?)?;
        if !chunk.is_live {
            return None;
        }
        let (start, end, addr) = (chunk.start(), chunk.end(), plain(sp));
        let is_in_chunk = start <= addr && addr <= end;
        Some(RootRange {
            start: if is_in_chunk { addr } else { start },
            end,
        })
    }
}

impl ReachTable {
    /// How the chunks of a tenant are reached that ended, from its registers and the words of
    /// ranges. The chunk that its stack is in is reached, but none of its words is looked at that
    /// is in no range: those below SP are of functions that have returned.
    pub fn of<M: Tagged>(
        alloc: Global,
        shadow: &Shadow,
        regs: &Regs,
        roots: &[RootRange],
        memory: &mut M,
    ) -> Result<ReachTable, AllocError> {
        let mut table = ReachTable {
            states: vec![in alloc; Reach::Nothing; shadow.chunks.len()]?,
            waiting: Vec::new(alloc),
            source: None,
            root: None,
            is_cycle: false,
        };
        table.enter_stack(shadow)?;
        table.enter_registers(shadow, regs)?;
        for range in roots {
            table.scan(shadow, range, Reach::Reachable, memory)?;
        }
        table.follow(shadow, Reach::Reachable, memory)?;
        let firsts = table.unreached(alloc, shadow, memory)?;
        table.forget_lost();
        table.lose_all(shadow, firsts.as_slice(), memory)?;
        Ok(table)
    }

    /// Enters which chunks are lost, by the first ones of those that are not reached.
    fn lose_all<M: Tagged>(
        &mut self,
        shadow: &Shadow,
        firsts: &[usize],
        memory: &mut M,
    ) -> Result<(), AllocError> {
        for first in firsts.iter().rev() {
            if self.is_unreached(shadow, *first) {
                self.lose(shadow, *first, memory)?;
            }
        }
        Ok(())
    }

    /// Chunks that are not reached, from which all others are that are not: one of each cycle that
    /// nothing else leads to, and some that those lead to which come after them.
    fn unreached<M: Tagged>(
        &mut self,
        alloc: Global,
        shadow: &Shadow,
        memory: &mut M,
    ) -> Result<Vec<usize>, AllocError> {
        let mut firsts = Vec::new(alloc);
        for index in 0..shadow.chunks.len() {
            if self.is_unreached(shadow, index) {
                self.enter_chunk(shadow, index, Reach::IndirectlyLost)?;
                self.follow(shadow, Reach::IndirectlyLost, memory)?;
                firsts.push(index)?;
            }
        }
        Ok(firsts)
    }

    /// Forgets which chunks are lost.
    fn forget_lost(&mut self) {
        for state in self.states.iter_mut() {
            if *state == Reach::IndirectlyLost {
                *state = Reach::Nothing;
            }
        }
    }

    /// The live chunks that are not reached, in the order of the table of chunks.
    pub fn lost(&self, alloc: Global, shadow: &Shadow) -> Result<Vec<LostChunk>, AllocError> {
        let mut lost = Vec::new(alloc);
        for (index, state) in self.states.iter().enumerate() {
            if matches!(state, Reach::Nothing | Reach::Reachable) {
                continue;
            }
            let Some(chunk) = shadow.chunks.get(index) else {
                continue;
            };
            if let Some(number) = chunk.call() {
                lost.push(LostChunk {
                    number,
                    size: u64::from(chunk.size),
                    is_indirect: *state == Reach::IndirectlyLost,
                    is_in_cycle: *state == Reach::LostInCycle,
                })?;
            }
        }
        Ok(lost)
    }

    /// Whether a chunk is live and nothing was found that points into it.
    fn is_unreached(&self, shadow: &Shadow, index: usize) -> bool {
        let chunk = shadow.chunks.get(index);
        let is_live = chunk.is_some_and(|chunk| chunk.is_live && !chunk.is_own());
        is_live && self.states.get(index) == Some(&Reach::Nothing)
    }

    /// Enters what the registers point into.
    fn enter_registers(&mut self, shadow: &Shadow, regs: &Regs) -> Result<(), AllocError> {
        for (n, number) in regs.x.iter().enumerate() {
            let origin = shadow.register(u8::try_from(n).unwrap_or(31)).pointer();
            self.enter(shadow, origin, *number, Reach::Reachable)?;
        }
        Ok(())
    }

    /// Enters the chunk that the stack is in, if it is in one, so that its words do not wait; all
    /// words of the chunk that the program made it of do.
    fn enter_stack(&mut self, shadow: &Shadow) -> Result<(), AllocError> {
        let Some(index) = shadow.stack else {
            return Ok(());
        };
        if let Some(state) = self.states.get_mut(index) {
            *state = Reach::Reachable;
        }
        if shadow.chunks.get(index).is_some_and(|chunk| chunk.is_own()) {
            return self.enter_chunk(shadow, index, Reach::Reachable);
        }
        Ok(())
    }

    /// Enters that a chunk is lost, and those that it leads to. No other that is lost leads to it,
    /// but those.
    fn lose<M: Tagged>(
        &mut self,
        shadow: &Shadow,
        index: usize,
        memory: &mut M,
    ) -> Result<(), AllocError> {
        self.source = None;
        self.enter_chunk(shadow, index, Reach::IndirectlyLost)?;
        self.root = Some(index);
        self.is_cycle = false;
        self.follow(shadow, Reach::IndirectlyLost, memory)?;
        if let Some(state) = self.states.get_mut(index) {
            *state = if self.is_cycle {
                Reach::LostInCycle
            } else {
                Reach::Lost
            };
        }
        Ok(())
    }

    /// Looks at the words of the chunks that wait, and of those that they lead to.
    fn follow<M: Tagged>(
        &mut self,
        shadow: &Shadow,
        reach: Reach,
        memory: &mut M,
    ) -> Result<(), AllocError> {
        for _ in 0..shadow.chunks.len().saturating_mul(2) {
            let Some(index) = self.waiting.pop() else {
                return Ok(());
            };
            if let Some(chunk) = shadow.chunks.get(index) {
                let range = RootRange {
                    start: chunk.start(),
                    end: chunk.end(),
                };
                self.source = Some(index);
                self.scan(shadow, &range, reach, memory)?;
            }
        }
        Ok(())
    }

    /// Looks at the aligned words of a range.
    fn scan<M: Tagged>(
        &mut self,
        shadow: &Shadow,
        range: &RootRange,
        reach: Reach,
        memory: &mut M,
    ) -> Result<(), AllocError> {
        for word in range.start.div_ceil(8)..range.end / 8 {
            let addr = plain(word.wrapping_mul(8));
            let mut bytes = [0; 8];
            if memory.read(addr, &mut bytes, false).is_ok() {
                let origin = shadow.memory.load(addr, 8).pointer();
                self.enter(shadow, origin, u64::from_le_bytes(bytes), reach)?;
            }
        }
        Ok(())
    }

    /// Enters what a value points into: by where it came from, else by its number.
    fn enter(
        &mut self,
        shadow: &Shadow,
        origin: PointerOrigin,
        number: u64,
        reach: Reach,
    ) -> Result<(), AllocError> {
        match origin.kind() {
            OriginKind::Chunk(index) => self.enter_chunk(shadow, index, reach),
            OriginKind::Sum(index) => self.enter_sum(shadow, index, reach),
            OriginKind::Unknown | OriginKind::Stack | OriginKind::Place(_) => {
                match shadow.around(number).chunk() {
                    Some(index) => self.enter_chunk(shadow, index, reach),
                    None => Ok(()),
                }
            }
        }
    }

    /// Enters what the pointers of a sum point into.
    fn enter_sum(&mut self, shadow: &Shadow, index: usize, reach: Reach) -> Result<(), AllocError> {
        let Some(sum) = shadow.sums.get(index) else {
            return Ok(());
        };
        for term in sum.terms().iter() {
            if let Some(index) = term.origin.chunk() {
                self.enter_chunk(shadow, index, reach)?;
            }
        }
        Ok(())
    }

    /// Enters that a chunk is reached, where it is live and was not; of one that the program made,
    /// that the chunk is of which it did.
    fn enter_chunk(
        &mut self,
        shadow: &Shadow,
        pointed: usize,
        reach: Reach,
    ) -> Result<(), AllocError> {
        let Some(index) = shadow.outer(PointerOrigin::of_chunk(pointed)).chunk() else {
            return Ok(());
        };
        let is_live = shadow.chunks.get(index).is_some_and(|chunk| chunk.is_live);
        let Some(state) = self.states.get_mut(index) else {
            return Ok(());
        };
        if !is_live {
            return Ok(());
        }
        if self.root == Some(index) && self.source != self.root {
            self.is_cycle = true;
        }
        if *state == Reach::Nothing {
            *state = reach;
            self.waiting.push(index)?;
        }
        Ok(())
    }
}
