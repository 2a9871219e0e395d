//! The records of a tenant, by which the cause of its end is found.

use a64_bits::plain;
use a64_registers::Regs;
use circular_buffer::HeapCircularBuffer;
use common::{SECONDARY_END, STACK_START};
use mte_tags::tag_of;
use run_records::{Book, BookChunk, ChunkQuery, Moment};

/// How far from a chunk an access is still taken for one past its end or in front of it, and from
/// the stack or from SP for one of the stack.
pub(crate) const NEAR: u64 = 65_536;

/// How far from a chunk an access is that goes on from its end or its start.
const ADJACENT: u64 = 32;

/// How many instructions before an access computed its address, as a rule.
const WINDOW: usize = 4;

/// The records of a tenant.
#[derive(Clone, Copy)]
pub struct Evidence<'a> {
    /// Its heap calls.
    pub book: &'a Book,
    /// The registers before the instruction that ended it.
    pub regs: &'a Regs,
    /// Its last instructions, the oldest first, where they were remembered.
    pub last: Option<&'a HeapCircularBuffer<Moment>>,
}

impl<'a> Evidence<'a> {
    /// The chunk that an access by a pointer with a tag was meant for, where the address is in no
    /// chunk with the tag: the one from which the pointer was computed; otherwise the nearest with
    /// the tag where the access adjoins it; otherwise one that a register pointed into just before;
    /// otherwise the nearest, if it is near.
    pub(crate) fn meant(&self, addr: u64, tag: u8) -> Option<BookChunk> {
        let origin = self.origin(addr, tag);
        if origin.is_some() {
            return origin;
        }
        let nearest = self.book.nearest(addr, tag);
        if let Some(chunk) = nearest {
            if chunk.distance(addr) <= ADJACENT {
                return nearest;
            }
        }
        if let Some(chunk) = self.pointed(tag) {
            return Some(chunk);
        }
        nearest.filter(|chunk| chunk.distance(addr) <= NEAR)
    }

    /// The chunk with a tag from which the pointer of an access was computed: the register with the
    /// tag that is nearest to the address points into it, or did so before it was written last, or
    /// another register did then.
    fn origin(&self, addr: u64, tag: u8) -> Option<BookChunk> {
        let last = self.last?;
        let (register, value) = nearest_register(&last.back()?.regs, addr, tag)?;
        let held = self.chunk_at(value, tag);
        if held.is_some() {
            return held;
        }
        for back in 1..=last.len() {
            let regs = &last.get(last.len() - back)?.regs;
            let before = *regs.x.get(register)?;
            if before != value {
                let held = self.chunk_at(before, tag);
                return if held.is_some() {
                    held
                } else {
                    self.pointed_by(regs, tag)
                };
            }
        }
        None
    }

    /// The chunk with a tag that a pointer with the tag points into.
    fn chunk_at(&self, pointer: u64, tag: u8) -> Option<BookChunk> {
        if tag == 0 || tag_of(pointer) != tag {
            return None;
        }
        self.book.newest(&ChunkQuery::Tagged(plain(pointer), tag))
    }

    /// The chunk with a tag that a register pointed into before the newest of the last instructions
    /// of which this holds.
    fn pointed(&self, tag: u8) -> Option<BookChunk> {
        let last = self.last?;
        for back in 1..=last.len().min(WINDOW) {
            let moment = last.get(last.len() - back)?;
            let found = self.pointed_by(&moment.regs, tag);
            if found.is_some() {
                return found;
            }
        }
        None
    }

    /// The chunk with a tag that one of the registers points into.
    fn pointed_by(&self, regs: &Regs, tag: u8) -> Option<BookChunk> {
        for value in regs.x.iter() {
            let found = self.chunk_at(*value, tag);
            if found.is_some() {
                return found;
            }
        }
        None
    }

    /// How far below the stack an access is that is near SP, where SP is below the stack: the one
    /// that the tenant starts with, or one in a live chunk whose tag SP has.
    pub(crate) fn below_stack(&self, addr: u64) -> Option<u64> {
        let sp = plain(self.regs.sp);
        if sp.abs_diff(addr) > NEAR {
            return None;
        }
        if sp >= SECONDARY_END && sp < STACK_START {
            return STACK_START.checked_sub(addr);
        }
        let stack = self.book.nearest(sp, tag_of(self.regs.sp))?;
        if stack.freed.is_some() || stack.size < NEAR || sp >= stack.start() {
            return None;
        }
        stack.start().checked_sub(addr)
    }
}

/// Of the registers whose value has a tag the one that is nearest to an address, and its value.
fn nearest_register(regs: &Regs, addr: u64, tag: u8) -> Option<(usize, u64)> {
    let mut found: Option<(usize, u64)> = None;
    for (register, value) in regs.x.iter().enumerate() {
        let is_nearer = match &found {
            Some((_, best)) => plain(*value).abs_diff(addr) < plain(*best).abs_diff(addr),
            None => true,
        };
        if tag_of(*value) == tag && is_nearer {
            found = Some((register, *value));
        }
    }
    found
}
