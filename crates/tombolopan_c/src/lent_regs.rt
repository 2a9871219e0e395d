//! Registers that the caller lends.

ghost use Rattle.std.specs.Prelude.{◌≡◌, ◌<◌};
ghost use Rattle.tombolopan_c.specs.LentRegisters.{regs_of, flags_of, nzcv_of};

use a64_bits::Flags;
use a64_step::Regs;
use mte_tags::Rgsr;

/// The registers of a core (Arm ARM DDI 0487, B1.2 and C5.2.10): x0 to x30, SP, PC, NZCV and
/// RGSR_EL1.
#[repr(C)]
#[derive(Clone, Copy)]
pub struct LentRegs {
    /// x0 to x30.
    pub x: [u64; 31],
    /// The stack pointer.
    pub sp: u64,
    /// The address of the instruction that is executed next, below 2^56: a fetch passes bits 63 to
    /// 56 over, ADR, ADRP and BL do not.
    pub pc: u64,
    /// PSTATE.N, Z, C and V in bits 31 to 28; the other bits are ignored, and written as 0.
    pub nzcv: u32,
    /// The seed of the random tags.
    pub rgsr_seed: u16,
    /// The tag that was drawn last; the low four bits count.
    pub rgsr_tag: u16,
}

/// The flags of the bits 31 to 28.
fn flags(nzcv: u32) -> Flags
    ensures { result ≡ flags_of nzcv }
{
    Flags {
        n: nzcv >> 31 & 1 == 1,
        z: nzcv >> 30 & 1 == 1,
        c: nzcv >> 29 & 1 == 1,
        v: nzcv >> 28 & 1 == 1,
    }
}

/// The bits 31 to 28 of the flags.
fn nzcv(flags: &Flags) -> u32
    ensures { result ≡ nzcv_of flags.now }
{
    (u32::from(flags.n) << 31)
        + (u32::from(flags.z) << 30)
        + (u32::from(flags.c) << 29)
        + (u32::from(flags.v) << 28)
}

impl LentRegs {
    /// The registers that it holds.
    pub(crate) fn regs(&self) -> Regs
        ensures regs { result ≡ regs_of self.now }
        ensures tag { result.rgsr.tag < 16 }
    {
        Regs {
            x: self.x,
            sp: self.sp,
            pc: self.pc,
            flags: flags(self.nzcv),
            rgsr: Rgsr {
                tag: (self.rgsr_tag % 16) as u8,
                seed: self.rgsr_seed,
            },
        }
    }

    /// Makes it hold registers.
    pub(crate) fn set(&mut self, regs: &Regs)
        requires { regs.now.rgsr.tag < 16 }
        ensures { regs_of self.new ≡ regs.now }
    {
        self.x = regs.x;
        self.sp = regs.sp;
        self.pc = regs.pc;
        self.nzcv = nzcv(&regs.flags);
        self.rgsr_seed = regs.rgsr.seed;
        self.rgsr_tag = u16::from(regs.rgsr.tag);
    }
}
