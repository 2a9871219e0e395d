//! The registers that instructions name.

ghost use Rattle.std.specs.Prelude.{◌≡◌, ℕ, ◌<◌, ◌≤◌, ◌+◌, ◌%◌, ◌^◌};

use a64_bits::Flags;
use mte_tags::Rgsr;

/// The registers of a core (Arm ARM DDI 0487, B1.2): x0 to x30, SP, PC, PSTATE.N, Z, C, V and
/// RGSR_EL1.
#[derive(Clone, Copy, Debug, PartialEq, Eq)]
pub struct Regs {
    /// x0 to x30.
    pub x: [u64; 31],
    /// The stack pointer.
    pub sp: u64,
    /// The address of the instruction that is executed next; its low 56 bits count.
    pub pc: u64,
    /// PSTATE.N, Z, C and V.
    pub flags: Flags,
    /// The state of the random tags.
    pub rgsr: Rgsr,
}

impl Regs {
    ghost use Rattle.a64_registers.specs.Registers.{fresh, register, register_or_sp, with_register};
    ghost use Rattle.a64_registers.specs.Registers.{with_register_or_sp, with_next_pc, with_pc};

    /// Registers with PC and SP as given, and zero in all else: the flags, and RGSR_EL1 too.
    pub fn new(pc: u64, sp: u64) -> Regs
        ensures { result ≡ fresh pc sp }
    {
        Regs {
            x: [0; 31],
            sp,
            pc,
            flags: Flags {
                n: false,
                z: false,
                c: false,
                v: false,
            },
            rgsr: Rgsr { tag: 0, seed: 0 },
        }
    }

    /// A register, or 0 for number 31.
    #[inline(always)]
    #[tactic(auto, unfolding(crate::specs::Registers::register))]
    pub fn get(&self, n: u8) -> u64
        requires { n < 32 }
        ensures { result ≡ register self.now n }
    {
        if n == 31 { 0 } else { self.x[n as usize] }
    }

    /// A register, or the stack pointer for number 31.
    #[inline(always)]
    #[tactic(auto, unfolding(crate::specs::Registers::register_or_sp))]
    pub fn get_or_sp(&self, n: u8) -> u64
        requires { n < 32 }
        ensures { result ≡ register_or_sp self.now n }
    {
        if n == 31 { self.sp } else { self.x[n as usize] }
    }

    /// Writes a register; number 31 ignores it.
    #[inline(always)]
    #[tactic(auto, unfolding(crate::specs::Registers::with_register))]
    pub fn set(&mut self, n: u8, value: u64)
        requires { n < 32 }
        ensures { self.new ≡ with_register self.old n value }
    {
        if n != 31 {
            self.x[n as usize] = value;
        }
    }

    /// Writes a register, or the stack pointer for number 31.
    #[inline(always)]
    #[tactic(auto, unfolding(crate::specs::Registers::with_register_or_sp))]
    pub fn set_or_sp(&mut self, n: u8, value: u64)
        requires { n < 32 }
        ensures { self.new ≡ with_register_or_sp self.old n value }
    {
        if n == 31 {
            self.sp = value;
        } else {
            self.x[n as usize] = value;
        }
    }

    /// A register that is neither the zero register nor the stack pointer.
    #[inline(always)]
    #[rattlefmt::skip]
    #[tactic(auto, unfolding(
        crate::specs::Registers::register,
        crate::specs::Registers::register_or_sp
    ))]
    pub fn gpr(&self, n: u8) -> u64
        requires { n < 31 }
        ensures register { result ≡ register self.now n }
        ensures or_sp { result ≡ register_or_sp self.now n }
    {
        self.x[n as usize]
    }

    /// Writes a register that is neither the zero register nor the stack pointer.
    #[inline(always)]
    #[rattlefmt::skip]
    #[tactic(auto, unfolding(
        crate::specs::Registers::with_register,
        crate::specs::Registers::with_register_or_sp
    ))]
    pub fn set_gpr(&mut self, n: u8, value: u64)
        requires { n < 31 }
        ensures register { self.new ≡ with_register self.old n value }
        ensures or_sp { self.new ≡ with_register_or_sp self.old n value }
        ensures pc { self.new.pc ≡ self.old.pc }
    {
        self.x[n as usize] = value;
    }

    /// Moves the program counter to the next instruction.
    #[inline(always)]
    #[tactic(auto, unfolding(crate::specs::Registers::with_next_pc))]
    pub fn advance(&mut self)
        ensures { self.new ≡ with_next_pc self.old }
    {
        self.pc = self.pc.wrapping_add(4) % (1 << 56);
    }

    /// Moves the program counter to an address.
    #[inline(always)]
    #[tactic(auto, unfolding(crate::specs::Registers::with_pc))]
    pub fn jump(&mut self, target: u64)
        ensures { self.new ≡ with_pc self.old target }
    {
        self.pc = target % (1 << 56);
    }
}
