//! A walk over frame records (Procedure Call Standard for the Arm 64-bit Architecture, "The Frame
//! Pointer"). Memory is read as data: no tag is compared, and what is not there ends the walk.

ghost use Rattle.std.specs.Prelude.{◌≡◌};

use a64_bits::plain;
use a64_registers::Regs;
use common::{SECONDARY_START, STACK_END};
use mte_tags::{Attrs, Tagged};

/// The bytes of a frame record.
const RECORD: u64 = 16;

/// A frame record: the address of the caller's, and the return address.
#[derive(Clone, Copy)]
struct FrameRecord {
    outer: u64,
    return_address: u64,
}

/// A walk outwards. Each record is at a higher address than the one before, so it ends.
#[derive(Clone, Copy)]
pub struct Walk {
    /// The address of the next record, or 0.
    frame: u64,
}

impl Walk {
    /// The walk from the record that x29 has the address of.
    pub fn new(regs: &Regs) -> Walk {
        Walk { frame: regs.x[29] }
    }

    /// The next return address. There is none from the first record on that is not a multiple of 8,
    /// does not lie on the stack or from the large chunks on, or has no address of code.
    pub fn step<M: Tagged>(&mut self, memory: &mut M) -> Option<u64>
        ensures memory { M.memory memory.new ≡ M.memory memory.old }
        ensures kept { M.kept memory.old memory.new }
    {
        let frame = self.frame;
        self.frame = 0;
        let record = record_at(memory, frame)?;
        if !is_code(memory, record.return_address) {
            return None;
        }
        if plain(record.outer) > plain(frame) {
            self.frame = record.outer;
        }
        Some(record.return_address)
    }
}

/// The frame record at an address of the stack, or from the large chunks on, as a program may have
/// its stack in one of them.
fn record_at<M: Tagged>(memory: &mut M, frame: u64) -> Option<FrameRecord>
    ensures memory { M.memory memory.new ≡ M.memory memory.old }
    ensures kept { M.kept memory.old memory.new }
{
    let at = plain(frame);
    if at % 8 != 0 || at < SECONDARY_START || at > STACK_END - RECORD {
        return None;
    }
    let outer = word_at(memory, at)?;
    let return_address = word_at(memory, at + 8)?;
    Some(FrameRecord {
        outer,
        return_address,
    })
}

/// The eight bytes at an address.
fn word_at<M: Tagged>(memory: &mut M, addr: u64) -> Option<u64>
    ensures memory { M.memory memory.new ≡ M.memory memory.old }
    ensures kept { M.kept memory.old memory.new }
{
    let mut bytes = [0; 8];
    if read_data(memory, addr, &mut bytes) {
        Some(u64::from_le_bytes(bytes))
    } else {
        None
    }
}

/// Copies the eight bytes at an address, whatever their tags; whether they can be read.
fn read_data<M: Tagged>(memory: &mut M, addr: u64, bytes: &mut [u8; 8]) -> bool
    ensures memory { M.memory memory.new ≡ M.memory memory.old }
    ensures kept { M.kept memory.old memory.new }
{
    memory.read(addr, bytes, false).is_ok()
}

/// Whether an address is one of an instruction.
pub fn is_code<M: Tagged>(memory: &mut M, addr: u64) -> bool
    ensures memory { M.memory memory.new ≡ M.memory memory.old }
    ensures kept { M.kept memory.old memory.new }
{
    addr % 4 == 0 && memory.has_attrs(addr, Attrs::EXEC)
}
