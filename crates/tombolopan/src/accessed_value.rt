//! The value that an access read or wrote.

ghost use Rattle.std.specs.Prelude.{◌≡◌};
ghost use Rattle.mte_tags.specs.Memory.{Memory};
ghost use Rattle.tombolopan.specs.InstructionAccesses;
ghost use Rattle.tombolopan.specs.InstructionAccesses.{loaded_of, number_there, size_code};
ghost use Rattle.tombolopan.specs.InstructionAccesses.{tag_there, value_of};

use crate::instruction_access::{InstructionAccess, both, low_bytes};
use crate::kinds::{ACCESS_READ, ACCESS_READ_TAG};
use a64_registers::Regs;
use a64_step::memory_access::read_unchecked;
use mte_tags::Tagged;

/// The size of a number as instructions have it: it has 2 to this power of bytes.
#[inline(always)]
fn code_of(size: u32) -> u8
    ensures { result ≡ size_code size }
{
    match size {
        1 => 0,
        2 => 1,
        4 => 2,
        _ => 3,
    }
}

/// The number at an address, of some bytes; 0 where they cannot be read.
#[inline(always)]
fn number_at<M: Tagged>(memory: &mut M, addr: u64, size: u32) -> u64
    ensures number { result ≡ number_there (M.memory memory.old) addr size }
    ensures memory { M.memory memory.new ≡ M.memory memory.old }
    ensures kept { M.kept memory.old memory.new }
{
    read_unchecked(memory, addr, code_of(size)).unwrap_or(0)
}

/// The tag at an address; 0 where it cannot be loaded.
#[inline(always)]
fn tag_at<M: Tagged>(memory: &mut M, addr: u64) -> u64
    ensures tag { result ≡ tag_there (M.memory memory.old) addr }
    ensures memory { M.memory memory.new ≡ M.memory memory.old }
    ensures kept { M.kept memory.old memory.new }
{
    u64::from(memory.load_tag(addr).unwrap_or(0))
}

/// The value that a load has put into a register; that of memory where it was the zero register.
#[inline(always)]
fn loaded_in<M: Tagged>(regs: &Regs, memory: &mut M, addr: u64, size: u32, rt: u8) -> u64
    ensures number { result
        ≡ InstructionAccesses.loaded_in regs.now (M.memory memory.old) addr size rt }
    ensures memory { M.memory memory.new ≡ M.memory memory.old }
    ensures kept { M.kept memory.old memory.new }
{
    if rt < 31 {
        low_bytes(u64::from(size), regs.get(rt))
    } else {
        number_at(memory, addr, size)
    }
}

impl InstructionAccess {
    /// The value that a load of one register or of two has read, by what it left.
    #[inline(always)]
    fn loaded<M: Tagged>(&self, regs: &Regs, memory: &mut M) -> [u64; 2]
        ensures value { result
            ≡ loaded_of regs.now (M.memory memory.old) self.now self.now.second }
        ensures memory { M.memory memory.new ≡ M.memory memory.old }
        ensures kept { M.kept memory.old memory.new }
    {
        let Some(second) = self.second else {
            return [loaded_in(regs, memory, self.addr, self.size, self.first), 0];
        };
        let unit = self.size / 2;
        let behind = self.addr.wrapping_add(u64::from(unit));
        let low = loaded_in(regs, memory, self.addr, unit, self.first);
        let high = loaded_in(regs, memory, behind, unit, second);
        both(u64::from(unit), low, high)
    }

    /// The value that the access has read or written, by what its instruction left.
    #[inline(always)]
    #[tactic(auto, unfolding(crate::specs::InstructionAccesses::value_of))]
    pub(crate) fn value<M: Tagged>(&self, regs: &Regs, memory: &mut M) -> [u64; 2]
        ensures value { result ≡ value_of regs.now (M.memory memory.old) self.now }
        ensures memory { M.memory memory.new ≡ M.memory memory.old }
        ensures kept { M.kept memory.old memory.new }
    {
        match self.kind {
            ACCESS_READ => self.loaded(regs, memory),
            ACCESS_READ_TAG => [tag_at(memory, self.addr), 0],
            _ => self.value,
        }
    }
}
