//! A jump to no code: where its target came from, and what wrote it there.

ghost use Rattle.std.specs.Prelude.{◌≡◌};

use a64_access::{AccessForm, AccessKind};
use a64_bits::plain;
use a64_decode::decode;
use a64_instr::Instr;
use circular_buffer::HeapCircularBuffer;
use heap_bounds::span_of;
use mte_backtrace::Callers;
use mte_svc::{Status, TenantParts};
use mte_tags::Tagged;
use run_records::Moment;

/// How many bytes an address has.
const ADDRESS_SIZE: u64 = 8;

/// The load that brought the target of a jump to no code.
#[derive(Clone, Copy)]
pub struct TargetLoad {
    /// The register that it loaded, and that the branch jumped to.
    pub register: u8,
    /// Where the target was, with the pointer's tag.
    pub addr: u64,
    /// The number of the instruction, from 1.
    pub step: u64,
}

impl TargetLoad {
    /// The load that led to the end of a tenant, where that is a jump to no code and the load is
    /// among its last instructions, the oldest first.
    pub fn of_end(
        status: &Status,
        last: Option<&HeapCircularBuffer<Moment>>,
    ) -> Option<TargetLoad> {
        match status {
            Status::Faulted(fault, pc) if fault.addr == plain(*pc) => TargetLoad::of(last?),
            _ => None,
        }
    }

    /// The newest load among the last instructions that brought the target of the branch in front
    /// of the last one.
    pub fn of(last: &HeapCircularBuffer<Moment>) -> Option<TargetLoad> {
        let register = target_register(branch_in(last)?)?;
        let mut found = None;
        for moment in last.iter() {
            if let Some(addr) = loaded_from(moment, register) {
                found = Some(TargetLoad {
                    register,
                    addr,
                    step: moment.step,
                });
            }
        }
        found
    }
}

/// The instruction in front of the last one, which jumped where the last one is no code.
pub fn branch_in(last: &HeapCircularBuffer<Moment>) -> Option<&Moment> {
    last.get(last.len().saturating_sub(2))
}

/// The register that a branch jumps to.
fn target_register(branch: &Moment) -> Option<u8> {
    match decode(branch.word?)? {
        Instr::BranchReg { rn, .. } => Some(rn),
        _ => None,
    }
}

/// Where the instruction of a moment loads a register from, if it does.
fn loaded_from(moment: &Moment, register: u8) -> Option<u64> {
    let form = AccessForm::of(&decode(moment.word?)?)?;
    if !matches!(form.kind, AccessKind::Load) {
        return None;
    }
    let addr = form.addr(&moment.regs);
    if form.first == register {
        Some(addr)
    } else if form.second == Some(register) {
        Some(addr.wrapping_add(u64::from(form.bytes)))
    } else {
        None
    }
}

/// The store that wrote a target last.
#[derive(Clone, Copy)]
pub struct LastStore {
    /// The plain address of the target.
    pub addr: u64,
    /// Whether it is a return address: the branch is to x30.
    pub is_return: bool,
    /// The number of the instruction that wrote it, from 1.
    pub step: u64,
    /// The address of that instruction.
    pub pc: u64,
    /// The calls that led to it.
    pub callers: Callers,
}

/// The register of return addresses.
const LINK: u8 = 30;

/// Watches a tenant for the store that writes a target last before it is loaded.
#[derive(Clone, Copy)]
pub struct StoreWatch {
    load: TargetLoad,
    found: Option<LastStore>,
}

impl StoreWatch {
    /// Watches a tenant from its first instruction on.
    pub fn new(load: TargetLoad) -> StoreWatch {
        StoreWatch { load, found: None }
    }

    /// The newest store so far, if there was one.
    pub fn found(&self) -> Option<LastStore> {
        self.found
    }

    /// Notes an instruction that was attempted.
    pub fn note<M: Tagged>(&mut self, moment: &Moment, parts: &TenantParts, memory: &mut M)
        ensures memory { M.memory memory.new ≡ M.memory memory.old }
        ensures kept { M.kept memory.old memory.new }
    {
        if self.is_written(moment, parts) {
            let callers = Callers::of(memory, &moment.regs);
            self.found = Some(LastStore {
                addr: plain(self.load.addr),
                is_return: self.load.register == LINK,
                step: moment.step,
                pc: moment.regs.pc,
                callers,
            });
        }
    }

    /// Whether an instruction completed and wrote some of the target's bytes before the load.
    fn is_written(&self, moment: &Moment, parts: &TenantParts) -> bool {
        if moment.step >= self.load.step || !parts.is_running() {
            return false;
        }
        let Some(word) = moment.word else {
            return false;
        };
        match span_of(word, &moment.regs, &parts.regs) {
            Some(span) if span.is_write => {
                let (first, start) = (plain(self.load.addr), plain(span.addr));
                first < start.saturating_add(span.bytes)
                    && start < first.saturating_add(ADDRESS_SIZE)
            }
            _ => false,
        }
    }
}
