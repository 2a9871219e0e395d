//! The signal that Linux would send for a tenant's end.

ghost use Rattle.std.specs.Prelude.{◌≡◌};
ghost use Rattle.debuggee.specs.Flags.{word_of_mode};

use mte_svc::Status;
use mte_tags::{FaultKind, MemFault, TagMode, tag_of, with_tag};
use run_cause::{Finding, Violation};

/// How many bytes a `siginfo_t` has.
pub const INFO_SIZE: usize = 128;

/// A signal as `sigaction(2)` has it, with Linux's numbers.
#[derive(Clone, Copy)]
pub struct Signal {
    /// `si_signo`: 4 SIGILL, 5 SIGTRAP, 6 SIGABRT, 7 SIGBUS, 11 SIGSEGV, 24 SIGXCPU.
    pub number: u32,
    /// `si_code`, as a number modulo 2^32.
    pub code: u32,
    /// `si_addr`, with the pointer's tag in bits 59 to 56 where tags differ; 0 where there is none.
    pub address: u64,
}

/// `SI_TKILL`, -6 modulo 2^32.
const SENT_BY_ITSELF: u32 = 0xFFFF_FFFA;

impl Signal {
    /// The signal of a status. A tenant that goes on, exited or was stopped has SIGTRAP.
    pub fn of(status: &Status) -> Signal {
        match status {
            Status::Faulted(fault, _) => Signal::of_fault(fault),
            Status::AsyncTag(_) => Signal::new(11, 8, 0),
            Status::Illegal(_, pc) => Signal::new(4, 1, *pc),
            Status::Breakpoint(_, pc) => Signal::new(5, 1, *pc),
            Status::Aborted(_, _, _) => Signal::new(6, SENT_BY_ITSELF, 0),
            Status::Running | Status::Exited(_) | Status::Stopped => Signal::new(5, 0, 0),
        }
    }

    /// The signal of what a check found: SIGSEGV with SEGV_BNDERR of an access, else SIGABRT, as of
    /// what the heap refuses.
    pub fn of_finding(finding: &Finding) -> Signal {
        let wrong = &finding.wrong;
        match &wrong.violation {
            Violation::Undefined(_) | Violation::Arithmetic(_) => {
                Signal::new(6, SENT_BY_ITSELF, 0)
            }
            Violation::Argument(fault) if fault.place().is_none() => {
                Signal::new(6, SENT_BY_ITSELF, 0)
            }
            violation if violation.is_free() => Signal::new(6, SENT_BY_ITSELF, 0),
            _ => Signal::new(11, 3, with_tag(wrong.addr, tag_of(wrong.span.addr) % 16)),
        }
    }

    /// SEGV_MAPERR, SEGV_ACCERR, SEGV_MTESERR, or BUS_ADRALN.
    fn of_fault(fault: &MemFault) -> Signal {
        let MemFault { addr, kind, .. } = *fault;
        match kind {
            FaultKind::Translation => Signal::new(11, 1, addr),
            FaultKind::Permission => Signal::new(11, 2, addr),
            FaultKind::TagCheck => Signal::new(11, 9, with_tag(addr, fault.ptr_tag % 16)),
            FaultKind::Alignment | FaultKind::SpAlignment | FaultKind::PcAlignment => {
                Signal::new(7, 1, addr)
            }
        }
    }

    fn new(number: u32, code: u32, address: u64) -> Signal {
        Signal {
            number,
            code,
            address,
        }
    }

    /// Its `siginfo_t`: `si_signo`, `si_errno` (0), `si_code`, and `si_addr` from byte 16 on.
    pub fn info(&self) -> [u8; INFO_SIZE] {
        let mut info = [0; INFO_SIZE];
        info[..4].copy_from_slice(&self.number.to_le_bytes());
        info[8..12].copy_from_slice(&self.code.to_le_bytes());
        info[16..24].copy_from_slice(&self.address.to_le_bytes());
        info
    }
}

/// The answer of `prctl(PR_GET_TAGGED_ADDR_CTRL)` (Linux, "Memory Tagging Extension (MTE) in
/// AArch64 Linux"): tagged addresses are on, tags 1 to 15 are drawn, and a tag that differs is a
/// fault at once or later.
pub fn tag_control(mode: TagMode) -> u64
    ensures { result ≡ word_of_mode mode }
{
    match mode {
        TagMode::Sync => 0x7FFF3,
        TagMode::Async => 0x7FFF5,
    }
}
