//! The report of a fault.

ghost use Rattle.std.specs.Prelude.{◌≡◌, Option};
ghost use Rattle.mte_tags.specs.Accesses.{result_of};
ghost use Rattle.tombolopan_c.specs.Faults.{kind_code, report_of, fault_report, fault_code};

use crate::codes::{
    ALIGNMENT, FAULT, OK, PC_ALIGNMENT, PERMISSION, SP_ALIGNMENT, TAG_CHECK, TRANSLATION,
};
use mte_tags::{FaultKind, MemFault};

/// A fault, or zero in all fields where there is none.
#[repr(C)]
#[derive(Clone, Copy)]
pub struct FaultReport {
    /// The plain address that failed, below 2^56. For the alignment kinds the unaligned address.
    pub addr: u64,
    /// From TRANSLATION to PC_ALIGNMENT; 0 for no fault.
    pub kind: u32,
    /// 1 where a store failed, else 0.
    pub write: u32,
    /// The tag of the address that was used, below 16.
    pub ptr_tag: u32,
    /// The allocation tag that differs, for TAG_CHECK; 0 for the other kinds.
    pub mem_tag: u32,
}

fn code_of_kind(kind: FaultKind) -> u32
    ensures { result ≡ kind_code kind }
{
    match kind {
        FaultKind::Translation => TRANSLATION,
        FaultKind::Permission => PERMISSION,
        FaultKind::TagCheck => TAG_CHECK,
        FaultKind::Alignment => ALIGNMENT,
        FaultKind::SpAlignment => SP_ALIGNMENT,
        FaultKind::PcAlignment => PC_ALIGNMENT,
    }
}

impl FaultReport {
    ghost use Rattle.tombolopan_c.specs.Faults.{no_fault};

    /// The report of no fault.
    pub fn none() -> FaultReport
        ensures { result ≡ no_fault }
    {
        FaultReport {
            addr: 0,
            kind: 0,
            write: 0,
            ptr_tag: 0,
            mem_tag: 0,
        }
    }

    /// The report of a fault.
    pub fn of(fault: &MemFault) -> FaultReport
        ensures { result ≡ report_of fault.now }
    {
        FaultReport {
            addr: fault.addr,
            kind: code_of_kind(fault.kind),
            write: u32::from(fault.write),
            ptr_tag: u32::from(fault.ptr_tag),
            mem_tag: u32::from(fault.mem_tag),
        }
    }
}

/// Reports how an access ended, and returns its code.
pub fn report(answer: Result<(), MemFault>, fault: &mut FaultReport) -> u32
    ensures code { (o : Option MemFault) → answer ≡ result_of o → result ≡ fault_code o }
    ensures fault { (o : Option MemFault)
        → answer ≡ result_of o → fault.new ≡ fault_report o }
{
    match answer {
        Ok(()) => {
            *fault = FaultReport::none();
            OK
        }
        Err(found) => {
            *fault = FaultReport::of(&found);
            FAULT
        }
    }
}
