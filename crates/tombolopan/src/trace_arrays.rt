//! The arrays of a traced run: instructions, and accesses.

/// An instruction that was fetched and attempted.
#[repr(C)]
#[derive(Clone, Copy)]
pub struct TracedInstruction {
    /// The steps of this call before it.
    pub step: u64,
    /// Its address.
    pub pc: u64,
    /// Its word.
    pub word: u32,
    /// 0.
    pub unused: u32,
}

/// An access of an instruction to memory, which was completed.
#[repr(C)]
#[derive(Clone, Copy)]
pub struct TracedAccess {
    /// The steps of this call before its instruction.
    pub step: u64,
    /// The address of its instruction.
    pub pc: u64,
    /// The address that was used, its tag in bits 59 to 56.
    pub addr: u64,
    /// The value that was read or written: the bytes, the lowest first; of tags alone the tag. Of a
    /// load, the low bytes of its register; into the zero register, what memory has then, or 0.
    pub value: [u64; 2],
    /// How many bytes: 1 to 16; of the tags of one granule 16, of two 32.
    pub size: u32,
    /// A sum of ACCESS_READ to ACCESS_WRITE_TAG.
    pub kind: u32,
}

/// The arrays of the caller in which a traced run enters instructions and accesses.
#[repr(C)]
#[derive(Drop)]
pub struct TraceArrays<'a> {
    /// Where instructions are entered.
    pub instructions: &'a mut [TracedInstruction],
    /// Where accesses are entered.
    pub accesses: &'a mut [TracedAccess],
}
