//! What a program says of memory that it hands out itself, by HINT instructions, which do nothing
//! (Arm ARM DDI 0487, C6.2, HINT).

use a64_bits::plain;
use a64_instr::Instr;
use a64_registers::Regs;

/// What a program says of a range of its memory.
#[derive(Clone, Copy, PartialEq, Eq)]
pub enum RequestKind {
    /// It is a chunk of its own, to which the pointer is.
    Chunk,
    /// Nothing may access it.
    NoAccess,
    /// It may be accessed, and has a value.
    Defined,
}

/// The immediate of the first kind's HINT, of those that no extension of the architecture has.
const FIRST_HINT: u8 = 112;

/// The most bytes of a range: as many as the heap's largest chunk has.
const MOST_BYTES: u64 = 1_048_576;

/// What a program says: the pointer is in x0, and the bytes are in x1.
#[derive(Clone, Copy, PartialEq, Eq)]
pub struct ClientRequest {
    /// What it says.
    pub kind: RequestKind,
    /// The pointer to the first byte.
    pub pointer: u64,
    /// How many bytes, 1 to 1,048,576.
    pub size: u64,
    /// The address of the instruction.
    pub pc: u64,
}

impl ClientRequest {
    /// What an instruction says, by the registers before it: nothing of a range of no bytes, or of
    /// more than a chunk has.
    pub fn of(instr: &Instr, before: &Regs) -> Option<ClientRequest> {
        let kind = RequestKind::of(instr)?;
        let (pointer, size) = (before.x[0], before.x[1]);
        if size == 0 || size > MOST_BYTES {
            return None;
        }
        Some(ClientRequest {
            kind,
            pointer,
            size,
            pc: before.pc,
        })
    }

    /// The plain address of the first byte.
    pub fn start(&self) -> u64 {
        plain(self.pointer)
    }

    /// The plain address after the last byte.
    pub fn end(&self) -> u64 {
        self.start().saturating_add(self.size)
    }
}

impl RequestKind {
    /// What an instruction says, if it says something.
    pub fn of(instr: &Instr) -> Option<RequestKind> {
        let Instr::Hint { imm7 } = *instr else {
            return None;
        };
        match imm7.checked_sub(FIRST_HINT) {
            Some(0) => Some(RequestKind::Chunk),
            Some(1) => Some(RequestKind::NoAccess),
            Some(2) => Some(RequestKind::Defined),
            _ => None,
        }
    }
}
