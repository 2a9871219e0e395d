//! Rules for instructions whose use of registers was worked out once. Where
//! nothing is known of what one reads, two masks are enough; accesses, sums, moves and branches are
//! noted without being decoded.

use crate::shadow::{Shadow, is_in_heap};
use a64_access::LoadExtension;
use a64_bits::plain;
use a64_registers::Regs;
use shadow_memory::{
    AccessedBytes, Full, InstructionClass, PointerOrigin, PointerRule, Provenance, RegisterUse,
    Sign,
};
use std::alloc::AllocError;

/// How many live chunks are remembered.
const NEAR: usize = 16;

/// The bytes of the live chunk of an origin.
#[derive(Clone, Copy)]
struct NearChunk {
    origin: PointerOrigin,
    start: u64,
    len: u64,
}

/// No chunk.
const NO_CHUNK: NearChunk = NearChunk {
    origin: PointerOrigin::UNKNOWN,
    start: 0,
    len: 0,
};

/// Live chunks that were accessed since the last heap call, by their origins.
#[derive(Drop)]
pub(crate) struct NearChunks {
    chunks: [NearChunk; NEAR],
}

impl NearChunks {
    /// None.
    pub(crate) fn new() -> NearChunks {
        NearChunks {
            chunks: [NO_CHUNK; NEAR],
        }
    }

    /// Whether bytes from a plain address on are all of the chunk of an origin that is remembered.
    #[inline(always)]
    fn holds(&self, origin: PointerOrigin, addr: u64, bytes: u64) -> bool {
        let near = &self.chunks[origin.place_among(NEAR)];
        let offset = addr.wrapping_sub(near.start);
        near.origin == origin && offset < near.len && bytes <= near.len - offset
    }

    /// Remembers the live chunk of an origin.
    fn enter(&mut self, near: NearChunk) {
        self.chunks[near.origin.place_among(NEAR)] = near;
    }
}

impl Shadow {
    /// Whether an instruction that completes leaves nothing known of what it writes, and is noted
    /// by that: nothing is known of what it reads.
    #[inline(always)]
    pub fn traces_nothing(&self, used: &RegisterUse) -> bool {
        used.traced & (self.known | RegisterUse::LOOK) == 0
    }

    /// Notes an instruction that leaves nothing known of what it writes.
    #[inline(always)]
    pub fn note_unknown(&mut self, used: &RegisterUse) {
        self.known &= !used.written;
    }

    /// Notes that nothing is known of x30.
    #[inline(always)]
    pub fn note_link(&mut self) {
        self.known &= !(1 << 30);
    }

    /// Notes where SP is, which was another before.
    pub fn note_sp(&mut self, sp: u64) {
        self.note_stack(sp);
    }

    /// Whether a page found no place.
    #[inline(always)]
    pub fn is_short(&self) -> bool {
        self.memory.is_short
    }

    /// Where the pointer points by which a load or a store accesses memory.
    #[inline(always)]
    pub fn access_origin(&mut self, used: &RegisterUse) -> Result<PointerOrigin, AllocError> {
        let base = self.base(used.base);
        if !self.known_bit(used.index) {
            return Ok(base);
        }
        let index = self.pointer_where(used.index, used.is_plain());
        self.combined(base, index, Sign::Plus)
    }

    /// Whether a load or a store at an address with its tag may be one that its pointer's chunk
    /// does not allow, of which nothing is noted yet. It is none where this says no.
    #[inline(always)]
    pub fn may_misuse(&mut self, used: &RegisterUse, addr: u64) -> bool {
        let origin = self.base(used.base);
        if self.known_bit(used.index) {
            return self.may_misuse_by_sum(used, origin, addr);
        }
        self.may_misuse_by(used, origin, addr)
    }

    /// Judges an access where something is known of the register that is added to the base.
    #[inline(never)]
    fn may_misuse_by_sum(&mut self, used: &RegisterUse, base: PointerOrigin, addr: u64) -> bool {
        let index = self.pointer_where(used.index, used.is_plain());
        match self.combined(base, index, Sign::Plus) {
            Ok(origin) => self.may_misuse_by(used, origin, addr),
            Err(_) => true,
        }
    }

    /// Judges an access by a pointer.
    #[inline(always)]
    fn may_misuse_by(&mut self, used: &RegisterUse, origin: PointerOrigin, addr: u64) -> bool {
        if origin == PointerOrigin::STACK {
            return false;
        }
        let first = plain(addr);
        if self.near.holds(origin, first, used.len()) {
            return false;
        }
        if !origin.is_known() && !is_in_heap(first) && !self.has_own {
            return false;
        }
        self.may_misuse_far(used, origin, addr)
    }

    /// Judges an access that is in no remembered chunk.
    #[inline(never)]
    fn may_misuse_far(&mut self, used: &RegisterUse, origin: PointerOrigin, addr: u64) -> bool {
        let bytes = AccessedBytes {
            addr,
            count: u64::from(used.bytes),
            is_write: used.class == InstructionClass::Store,
            is_register: true,
        };
        if self.judge_bytes(origin, bytes).is_some() {
            return true;
        }
        if used.is_pair() && self.judge_bytes(origin, bytes.next()).is_some() {
            return true;
        }
        if let Some(chunk) = self.chunk(origin) {
            if chunk.is_live && !self.has_own {
                let start = chunk.start();
                let len = chunk.end().saturating_sub(start);
                self.near.enter(NearChunk { origin, start, len });
            }
        }
        false
    }

    /// Notes a load that completed, from an address.
    #[inline(always)]
    pub fn note_loaded(&mut self, used: &RegisterUse, addr: u64, after: &Regs) {
        self.note_loaded_at(used, used.first, plain(addr), after);
        if used.is_pair() {
            self.note_loaded_at(used, used.second, used.second_addr(addr), after);
        }
    }

    /// Notes what one register was loaded with from a plain address.
    #[inline(always)]
    fn note_loaded_at(&mut self, used: &RegisterUse, register: u8, addr: u64, after: &Regs) {
        let found = self.memory.load(addr, used.bytes);
        let value = if used.bytes == 8 {
            if found.pointer().is_known() {
                found
            } else {
                Provenance::whole(self.by_number_in(register, after))
            }
        } else if matches!(used.extension, LoadExtension::Zero) {
            found
        } else {
            Provenance::NONE
        };
        if value.origin.is_known() {
            self.set(register, value, after);
        } else {
            self.know(register, false);
        }
    }

    /// The chunk that the number in a register points into, as `by_value` says.
    #[inline(always)]
    fn by_number_in(&self, register: u8, regs: &Regs) -> PointerOrigin {
        let number = regs.x.get(usize::from(register)).copied().unwrap_or(0);
        if is_in_heap(plain(number)) {
            self.by_value(number)
        } else {
            PointerOrigin::UNKNOWN
        }
    }

    /// Notes a store that completed, to an address.
    #[inline(always)]
    pub fn note_stored(&mut self, used: &RegisterUse, addr: u64) -> Result<(), Full> {
        let value = self.register(used.first);
        self.memory.store(plain(addr), used.bytes, value)?;
        if used.is_pair() {
            let value = self.register(used.second);
            self.memory
                .store(used.second_addr(addr), used.bytes, value)?;
        }
        if self.memory.is_short {
            return Err(Full::Pages);
        }
        Ok(())
    }

    /// Notes an instruction on registers by its rule.
    #[inline(always)]
    pub fn note_rule(
        &mut self,
        used: &RegisterUse,
        rule: PointerRule,
        after: &Regs,
    ) -> Result<(), AllocError> {
        let value = match rule {
            PointerRule::Pointer => Provenance::whole(self.first_operand(used)),
            PointerRule::Copy => self.register(used.index),
            PointerRule::Sum => Provenance::whole(self.sum_of(used, Sign::Plus)?),
            PointerRule::Difference => Provenance::whole(self.sum_of(used, Sign::Minus)?),
        };
        self.set(used.first, value, after);
        Ok(())
    }

    /// Where the first operand of an instruction on registers points: 31 is SP.
    #[inline(always)]
    fn first_operand(&self, used: &RegisterUse) -> PointerOrigin {
        if used.base == RegisterUse::NONE {
            PointerOrigin::UNKNOWN
        } else {
            self.base(used.base)
        }
    }

    /// Where the sum or the difference of two registers points.
    #[inline(always)]
    fn sum_of(&mut self, used: &RegisterUse, sign: Sign) -> Result<PointerOrigin, AllocError> {
        let (one, other) = (self.first_operand(used), self.pointer(used.index));
        if !other.is_known() {
            return Ok(one);
        }
        self.combined(one, other, sign)
    }
}
