//! Something that is done to a machine, which the caller lends.

ghost use Rattle.std.specs.Prelude.{◌≡◌};
ghost use Rattle.tombolopan_c.specs.Acts.{with_value, with_fault, with_bad_argument};

use crate::codes::{BAD_ARGUMENT, FAULT, OK};
use crate::faults::FaultReport;
use mte_tags::MemFault;

/// Something that is done to a machine between its slices, or a slice. `act`, `number`, `addr` and
/// `value` are read, the rest is written.
#[repr(C)]
#[derive(Clone, Copy)]
pub struct MachineAct {
    /// From ACT_SLICE to ACT_LOAD_TAG.
    pub act: u32,
    /// The most steps of a slice, or the number of a register.
    pub number: u32,
    /// The address of ACT_LOAD, ACT_STORE and ACT_LOAD_TAG.
    pub addr: u64,
    /// The value that ACT_SET and ACT_STORE write.
    pub value: u64,
    /// The value that was read: the register, the eight bytes or the tag; of ACT_SLICE the steps so
    /// far.
    pub answer: u64,
    /// OK or FAULT; BAD_ARGUMENT where `act` is none or there is no such register.
    pub code: u32,
    /// Not used.
    pub unused: u32,
    /// The fault of FAULT; else zero.
    pub fault: FaultReport,
}

impl MachineAct {
    /// It, done, with what was read.
    pub(crate) fn with(&self, answer: u64) -> MachineAct
        ensures { result ≡ with_value self.now answer }
    {
        MachineAct {
            code: OK,
            answer,
            fault: FaultReport::none(),
            ..*self
        }
    }

    /// It, which faulted.
    pub(crate) fn with_fault(&self, fault: &MemFault) -> MachineAct
        ensures { result ≡ with_fault self.now fault.now }
    {
        MachineAct {
            code: FAULT,
            answer: 0,
            fault: FaultReport::of(fault),
            ..*self
        }
    }

    /// It, which is none.
    pub(crate) fn without_act(&self) -> MachineAct
        ensures { result ≡ with_bad_argument self.now }
    {
        MachineAct {
            code: BAD_ARGUMENT,
            answer: 0,
            fault: FaultReport::none(),
            ..*self
        }
    }
}
