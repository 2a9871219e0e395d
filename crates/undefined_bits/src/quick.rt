//! Rules for instructions whose use of registers was worked out once. Where all
//! bits that one works on are defined, two masks are enough; accesses are noted without being
//! decoded.

use crate::memory_rules::extended_load;
use crate::state::UndefinedBits;
use a64_bits::plain;
use shadow_memory::{Full, RegisterUse};
use std::alloc::AllocError;
use undefined_values::UndefinedValue;

impl UndefinedBits {
    /// Whether an instruction works on defined bits alone.
    #[inline(always)]
    pub fn has_defined(&self, used: &RegisterUse) -> bool {
        used.used & self.undefined == 0
    }

    /// Notes an instruction that works on defined bits alone, but for what it loads or stores and
    /// for SP.
    #[inline(always)]
    pub fn note_defined(&mut self, used: &RegisterUse) {
        self.undefined &= !used.defined;
    }

    /// Notes that x30 is defined.
    #[inline(always)]
    pub fn note_link(&mut self) {
        self.undefined &= !(1 << 30);
    }

    /// Notes that the instruction at an address moves SP below what it was, in front of its store.
    pub fn note_lower_stack(&mut self, pc: u64, before: u64, after: u64) -> Result<(), AllocError> {
        if after < before {
            self.note_stack(pc, after, before)?;
        }
        Ok(())
    }

    /// Notes that it moved SP above what it was.
    pub fn note_higher_stack(
        &mut self,
        pc: u64,
        before: u64,
        after: u64,
    ) -> Result<(), AllocError> {
        if after > before {
            self.note_stack(pc, before, after)?;
        }
        Ok(())
    }

    /// Whether there is a place for each page.
    #[inline(always)]
    pub fn is_short(&self) -> bool {
        self.memory.is_short
    }

    /// Notes a load that completed, from an address.
    #[inline(always)]
    pub fn note_loaded(&mut self, used: &RegisterUse, addr: u64) {
        let first = self.loaded_at(used, plain(addr));
        if used.is_pair() {
            let second = self.loaded_at(used, used.second_addr(addr));
            self.set(used.second, second);
        }
        self.set(used.first, first);
    }

    /// The undefined bits of what a register was loaded with from a plain address.
    #[inline(always)]
    fn loaded_at(&self, used: &RegisterUse, addr: u64) -> UndefinedValue {
        let found = self.memory.load(addr, used.bytes);
        if found.is_defined() {
            return found;
        }
        extended_load(found, used.extension, used.bytes)
    }

    /// Notes a store that completed, to an address.
    #[inline(always)]
    pub fn note_stored(&mut self, used: &RegisterUse, addr: u64) -> Result<(), Full> {
        let value = self.register(used.first);
        self.memory.store(plain(addr), used.bytes, value)?;
        if used.is_pair() {
            let value = self.register(used.second);
            self.memory
                .store(used.second_addr(addr), used.bytes, value)?;
        }
        if self.memory.is_short {
            return Err(Full::Pages);
        }
        Ok(())
    }
}
