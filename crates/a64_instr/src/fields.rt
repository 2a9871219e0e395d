//! The fields of instructions that are passed together, by the names that the Arm ARM gives them.
//!
//! Each but `RegisterOffset` has four bytes, so it travels in one register where a function that
//! takes it is called; what takes a `RegisterOffset` is in line.

/// A load or a store of one register.
#[derive(Clone, Copy)]
pub struct Transfer {
    /// The access has `2^size` bytes.
    pub size: u8,
    /// 0 stores, 1 loads, 2 and 3 load with the sign extended to 64 and to 32 bits.
    pub opc: u8,
    /// The base register.
    pub rn: u8,
    /// The register that is stored or loaded.
    pub rt: u8,
}

/// An offset in a register.
#[derive(Clone, Copy)]
pub struct RegisterOffset {
    pub rm: u8,
    /// How the register is extended, as in `ExtendedRegister`.
    pub option: u8,
    /// 1 where the offset counts units of the access.
    pub s: u8,
}

/// A load or a store of two registers.
#[derive(Clone, Copy)]
pub struct PairTransfer {
    /// 0 has 32 bits a register, 1 loads 32 bits with their sign, 2 has 64 bits.
    pub opc: u8,
    /// The second register.
    pub rt2: u8,
    /// The base register.
    pub rn: u8,
    /// The first register.
    pub rt: u8,
}

/// A store of allocation tags: STG, STZG, ST2G, STZ2G.
#[derive(Clone, Copy)]
pub struct TagTransfer {
    /// Two granules by 2 and 3; zeros in their bytes by 1 and 3.
    pub opc: u8,
    /// 1 is post-indexed, 2 an offset, 3 pre-indexed.
    pub mode: u8,
    /// The base register.
    pub rn: u8,
    /// The register whose address tag is stored.
    pub rt: u8,
}

/// A store of an allocation tag and two registers: STGP.
#[derive(Clone, Copy)]
pub struct TagPairTransfer {
    /// As in `TagTransfer`.
    pub mode: u8,
    /// The second register.
    pub rt2: u8,
    /// The base register.
    pub rn: u8,
    /// The first register.
    pub rt: u8,
}

/// An addition or a subtraction.
#[derive(Clone, Copy)]
pub struct AddSub {
    /// 0 adds, 1 subtracts.
    pub op: u8,
    /// 1 sets the flags.
    pub s: u8,
    pub rn: u8,
    pub rd: u8,
}

/// An operation on bits.
#[derive(Clone, Copy)]
pub struct Logical {
    /// 0 is AND, 1 ORR, 2 EOR, 3 ANDS.
    pub opc: u8,
    /// 1 inverts the second operand.
    pub n: u8,
    pub rn: u8,
    pub rd: u8,
}

/// A second operand: a register, shifted.
#[derive(Clone, Copy)]
pub struct ShiftedRegister {
    /// 0 has 32 bits, 1 has 64.
    pub sf: u8,
    /// 0 is LSL, 1 LSR, 2 ASR, 3 ROR.
    pub shift: u8,
    pub rm: u8,
    /// By how many bits.
    pub imm6: u8,
}

/// A second operand: a register, extended and then shifted left.
#[derive(Clone, Copy)]
pub struct ExtendedRegister {
    /// 0 has 32 bits, 1 has 64.
    pub sf: u8,
    pub rm: u8,
    /// 0 to 3 extend 8, 16, 32 or 64 bits with zeros, 4 to 7 with the sign.
    pub option: u8,
    /// By how many bits, at most 4.
    pub imm3: u8,
}

/// An operation on bits by a mask.
#[derive(Clone, Copy)]
pub struct LogicalImmediate {
    /// 0 has 32 bits, 1 has 64.
    pub sf: u8,
    /// As in `Logical`.
    pub opc: u8,
    pub rn: u8,
    pub rd: u8,
}

/// A move of bits.
#[derive(Clone, Copy)]
pub struct FieldMove {
    /// 0 has 32 bits, 1 has 64.
    pub sf: u8,
    /// 0 is SBFM, 1 BFM, 2 UBFM.
    pub opc: u8,
    pub immr: u8,
    pub imms: u8,
}

/// The registers of an operation, and their size.
#[derive(Clone, Copy)]
pub struct RegisterOperands {
    /// 0 has 32 bits, 1 has 64.
    pub sf: u8,
    pub rm: u8,
    pub rn: u8,
    pub rd: u8,
}

/// The registers of a product that is added to a register, or subtracted from it.
#[derive(Clone, Copy)]
pub struct ProductOperands {
    pub rm: u8,
    /// The register that the product is added to.
    pub ra: u8,
    pub rn: u8,
    pub rd: u8,
}

/// The operands of a conditional compare.
#[derive(Clone, Copy)]
pub struct ComparedOperands {
    /// 0 has 32 bits, 1 has 64.
    pub sf: u8,
    /// A register, or a number where `i` is 1.
    pub rm: u8,
    pub i: u8,
    pub rn: u8,
}

/// The bit by which TBZ and TBNZ branch.
#[derive(Clone, Copy)]
pub struct TestedBit {
    /// The value by which the branch is taken.
    pub op: u8,
    /// The bit's place: its highest bit.
    pub b5: u8,
    /// The other bits of the place.
    pub b40: u8,
    pub rt: u8,
}
