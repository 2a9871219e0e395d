//! The undefined bits of a tenant.

use a64_registers::Regs;
use a64_registers::operands::truncate;
use common::{STACK_END, STACK_START};
use shadow_memory::{Full, RegisterUse, Step};
use std::alloc::{AllocError, Global};
use undefined_values::{BitMemory, BitOperand, FlagState, UndefinedOrigin, UndefinedValue};

/// How many numbered registers there are.
const REGISTERS: usize = 31;

/// By how many bytes SP is moved at most within a stack that is not the tenant's first.
const MOST_FRAME: u64 = 0x10_0000;

/// Which bits of a tenant's registers and memory are undefined.
pub struct UndefinedBits {
    registers: [UndefinedValue; REGISTERS],
    flags: FlagState,
    /// The registers that have undefined bits, a bit each, and as [`RegisterUse::FLAGS`] the flags;
    /// the others are defined, whatever `registers` and `flags` have.
    pub(crate) undefined: u32,
    pub(crate) memory: BitMemory,
}

impl Drop for UndefinedBits {
    fn drop(self) {
        let UndefinedBits {
            registers: _,
            flags: _,
            undefined: _,
            memory: _,
        } = self;
    }
}

impl UndefinedBits {
    /// Of a tenant at its first instruction: its registers and its image are defined, and its stack
    /// is not.
    pub fn new(alloc: Global) -> Result<UndefinedBits, AllocError> {
        let mut memory = BitMemory::new(alloc)?;
        let value = UndefinedValue::of(u64::MAX, UndefinedOrigin::UNKNOWN);
        memory.fill(STACK_START, STACK_END, value)?;
        Ok(UndefinedBits {
            registers: [UndefinedValue::DEFINED; REGISTERS],
            flags: FlagState::Defined,
            undefined: 0,
            memory,
        })
    }

    /// Notes an instruction that completed, other than SVC. What SP is moved above is undefined
    /// after the instruction, and what it is moved below in front of its store.
    pub fn note(&mut self, step: &Step<'_>) -> Result<(), Full> {
        let (old, new) = (step.before.sp, step.after.sp);
        if new < old {
            self.note_stack(step.before.pc, new, old)?;
        }
        if !self.note_access(step)? {
            self.note_registers(step);
        }
        if new > old {
            self.note_stack(step.before.pc, old, new)?;
        }
        if self.memory.is_short {
            return Err(Full::Pages);
        }
        Ok(())
    }

    /// Enters that SP was moved by the instruction at an address, and that what lies between is
    /// undefined, where it is of one stack.
    pub(crate) fn note_stack(&mut self, pc: u64, low: u64, high: u64) -> Result<(), AllocError> {
        let is_first = STACK_START <= low && high <= STACK_END;
        let is_other = high < STACK_START && high.saturating_sub(low) <= MOST_FRAME;
        if !is_first && !is_other {
            return Ok(());
        }
        let value = UndefinedValue::of(u64::MAX, UndefinedOrigin::of_frame(pc));
        self.memory.fill(low, high, value)
    }

    /// The undefined bits of a numbered register; none of 31.
    #[inline(always)]
    pub fn register(&self, n: u8) -> UndefinedValue {
        match self.registers.get(usize::from(n)) {
            Some(value) if self.undefined.wrapping_shr(u32::from(n)) % 2 == 1 => *value,
            _ => UndefinedValue::DEFINED,
        }
    }

    /// Whether no bit of the word at a plain address was given a value.
    pub fn has_no_value(&self, addr: u64) -> bool {
        self.memory.load(addr, 8).bits == u64::MAX
    }

    /// The state of the flags.
    pub(crate) fn flags(&self) -> FlagState {
        if self.undefined & RegisterUse::FLAGS == 0 {
            FlagState::Defined
        } else {
            self.flags
        }
    }

    /// Enters what is known of the flags.
    pub(crate) fn set_flags(&mut self, state: FlagState) {
        self.flags = state;
        self.mark(RegisterUse::FLAGS, matches!(state, FlagState::Defined));
    }

    /// Enters whether what has a bit is defined.
    #[inline(always)]
    fn mark(&mut self, bit: u32, is_defined: bool) {
        self.undefined = if is_defined {
            self.undefined & !bit
        } else {
            self.undefined | bit
        };
    }

    /// The bits in the size of an instruction's operands.
    pub(crate) fn operand_bits(&self, sf: u8, n: u8) -> UndefinedValue {
        let value = self.register(n);
        if value.bits == 0 {
            return UndefinedValue::DEFINED;
        }
        UndefinedValue::of(truncate(sf, value.bits), value.origin)
    }

    /// A numbered register before an instruction, in the size of its operands, with its undefined
    /// bits; 0 for 31.
    pub(crate) fn operand(&self, step: &Step<'_>, sf: u8, n: u8) -> BitOperand {
        BitOperand {
            value: truncate(sf, number_in(step.before, n)),
            undefined: truncate(sf, self.register(n).bits),
        }
    }

    /// The origin of what an operand of a numbered register leaves undefined in a result, by these
    /// bits of it; where there are none, that of the other operand.
    pub(crate) fn origin_of(&self, bits: u64, n: u8, other: UndefinedValue) -> UndefinedOrigin {
        if bits == 0 {
            other.origin
        } else {
            self.register(n).origin
        }
    }

    /// Enters the undefined bits of a numbered register; nothing for 31.
    #[inline(always)]
    pub(crate) fn set(&mut self, n: u8, value: UndefinedValue) {
        if let Some(place) = self.registers.get_mut(usize::from(n)) {
            *place = value;
            self.mark(1u32.wrapping_shl(u32::from(n)), value.bits == 0);
        }
    }

    /// Enters that what was told of is defined, so that it is told once.
    pub fn forget(&mut self, origin: UndefinedOrigin) {
        for n in 0..REGISTERS as u8 {
            if self.register(n).origin == origin {
                self.set(n, UndefinedValue::DEFINED);
            }
        }
        if self.flags().origin() == Some(origin) {
            self.set_flags(FlagState::Defined);
        }
    }
}

/// A numbered register; 0 for 31.
pub(crate) fn number_in(regs: &Regs, n: u8) -> u64 {
    regs.x.get(usize::from(n)).copied().unwrap_or(0)
}
