//! The return addresses of an instruction.

ghost use Rattle.std.specs.Prelude.{◌≡◌};

use crate::walk::{Walk, is_code};
use a64_registers::Regs;
use mte_tags::Tagged;

/// How many frame records are read of a heap call.
const DEPTH: usize = 7;

/// The return addresses of a heap call, at most eight.
#[derive(Clone, Copy, PartialEq, Eq)]
pub struct Callers {
    /// x30, or 0 where it has no caller that a record does not.
    pub(crate) link: u64,
    /// The addresses of the frame records, the innermost first, and 0 after the last.
    pub(crate) records: [u64; DEPTH],
}

/// How many frame records say which calls are the same.
const INNERMOST: usize = 3;

impl Callers {
    /// Whether the innermost four calls are those of another instruction.
    pub fn shares_innermost(&self, other: &Callers) -> bool {
        self.link == other.link && self.records[..INNERMOST] == other.records[..INNERMOST]
    }

    /// The callers of the instruction that is next.
    pub fn of<M: Tagged>(memory: &mut M, regs: &Regs) -> Callers
        ensures memory { M.memory memory.new ≡ M.memory memory.old }
        ensures kept { M.kept memory.old memory.new }
    {
        let mut records = [0; DEPTH];
        fill(memory, regs, &mut records);
        let link = link_of(memory, regs, records[0]);
        Callers { link, records }
    }
}

/// Fills numbers with the return addresses of frame records, and with 0 after the last one.
pub fn fill<M: Tagged>(memory: &mut M, regs: &Regs, records: &mut [u64])
    ensures memory { M.memory memory.new ≡ M.memory memory.old }
    ensures kept { M.kept memory.old memory.new }
{
    let mut walk = Walk::new(regs);
    for record in records.iter_mut() {
        *record = walk.step(memory).unwrap_or(0);
    }
}

/// x30, or 0 where it is no address of code, or that of the first frame record.
pub fn link_of<M: Tagged>(memory: &mut M, regs: &Regs, record: u64) -> u64
    ensures memory { M.memory memory.new ≡ M.memory memory.old }
    ensures kept { M.kept memory.old memory.new }
{
    let link = regs.x[30];
    if link != record && is_code(memory, link) {
        link
    } else {
        0
    }
}
