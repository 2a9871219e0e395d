//! The form of an access.

use a64_instr::fields::RegisterOffset;
use a64_registers::Regs;
use a64_registers::operands::{byte_count, extend};
use mte_tags::tag_of;

/// The access of an instruction to memory.
#[derive(Clone, Copy)]
pub enum AccessKind {
    /// It loads registers.
    Load,
    /// It stores registers.
    Store,
    /// It stores two registers, and the tag of the address for their granule (STGP).
    StorePairWithTag,
    /// It loads the tag of a granule (LDG).
    LoadTag,
    /// It stores tags (STG, ST2G).
    StoreTags,
    /// It stores zeros, and the tags of their granules (STZG, STZ2G).
    StoreZeros,
}

/// How the address of an access is formed (Arm ARM DDI 0487, C1.3.3).
#[derive(Clone, Copy)]
pub enum AddressingMode {
    /// The base plus a number of bytes.
    Offset(i32),
    /// The base plus a register.
    RegisterOffset(RegisterOffset),
    /// The base plus a number of bytes, which becomes the base.
    PreIndexed(i32),
    /// The base, which is moved after the access.
    PostIndexed,
    /// PC plus a number of bytes.
    Literal(i32),
}

/// How a load extends what it loads.
#[derive(Clone, Copy)]
pub enum LoadExtension {
    /// By zeros.
    Zero,
    /// By the sign, to 64 bits.
    Sign64,
    /// By the sign to 32 bits, and by zeros above.
    Sign32,
}

/// How an instruction accesses memory.
#[derive(Clone, Copy)]
pub struct AccessForm {
    /// The access itself.
    pub kind: AccessKind,
    /// How its address is formed.
    pub mode: AddressingMode,
    /// The base register, 31 for SP, and of a literal.
    pub base: u8,
    /// How many bytes each register has in memory: 1 to 8; of tags the bytes of their granules: 16
    /// or 32.
    pub bytes: u8,
    /// The register that is loaded or stored, or that has the tag: 31 for none, of a store of tags
    /// for SP.
    pub first: u8,
    /// The second register of a pair, whose bytes follow.
    pub second: Option<u8>,
    /// How a load extends what it loads.
    pub extension: LoadExtension,
}

/// The tags that an instruction stores.
#[derive(Clone, Copy)]
pub struct StoredTags {
    /// An address in the first granule, with its tag.
    pub addr: u64,
    /// How many granules there are: 1 or 2.
    pub granules: u8,
    /// The tag, below 16.
    pub tag: u8,
}

impl AccessForm {
    /// The address of the first byte, with its tag, by the registers before the instruction.
    pub fn addr(&self, regs: &Regs) -> u64 {
        let base = regs.get_or_sp(self.base % 32);
        let (start, offset) = match self.mode {
            AddressingMode::Offset(bytes) | AddressingMode::PreIndexed(bytes) => (base, bytes),
            AddressingMode::RegisterOffset(index) => {
                (base.wrapping_add(self.index(regs, index)), 0)
            }
            AddressingMode::PostIndexed => (base, 0),
            AddressingMode::Literal(bytes) => (regs.pc, bytes),
        };
        start.wrapping_add(i64::from(offset).cast_unsigned())
    }

    /// The number that a register adds to the base: it counts accesses where `s` is 1.
    fn index(&self, regs: &Regs, index: RegisterOffset) -> u64 {
        let RegisterOffset { rm, option, s } = index;
        let unit = if s == 1 { u64::from(self.bytes) } else { 1 };
        extend(option % 8, regs.get(rm % 32)).wrapping_mul(unit)
    }

    /// How many bytes it accesses; of tags how many their granules have.
    pub fn len(&self) -> u64 {
        let bytes = u64::from(self.bytes);
        match self.second {
            Some(_) => bytes * 2,
            None => bytes,
        }
    }

    /// Whether it loads or stores registers, and neither tags alone nor zeros with tags.
    pub fn is_of_registers(&self) -> bool {
        matches!(
            self.kind,
            AccessKind::Load | AccessKind::Store | AccessKind::StorePairWithTag
        )
    }

    /// Whether it stores.
    pub fn is_write(&self) -> bool {
        !matches!(self.kind, AccessKind::Load | AccessKind::LoadTag)
    }

    /// Whether it moves its base.
    pub fn writes_back(&self) -> bool {
        matches!(
            self.mode,
            AddressingMode::PreIndexed(_) | AddressingMode::PostIndexed
        )
    }

    /// Whether the address tag is compared with allocation tags: not of tags, nor relative to PC,
    /// nor at a constant offset from SP that leaves SP as it is (Arm ARM DDI 0487, "Tag Checked and
    /// Tag Unchecked accesses").
    pub fn is_checked(&self) -> bool {
        let is_checked_mode = match self.mode {
            AddressingMode::Offset(_) => self.base != 31,
            AddressingMode::Literal(_) => false,
            _ => true,
        };
        is_checked_mode && matches!(self.kind, AccessKind::Load | AccessKind::Store)
    }

    /// The tags that it stores, by the registers before the instruction: that of a register, STGP
    /// that of the address.
    pub fn stored_tags(&self, regs: &Regs) -> Option<StoredTags> {
        let addr = self.addr(regs);
        let (granules, tagged) = match self.kind {
            AccessKind::StoreTags | AccessKind::StoreZeros => {
                (self.bytes / 16, regs.get_or_sp(self.first % 32))
            }
            AccessKind::StorePairWithTag => (1, addr),
            _ => return None,
        };
        Some(StoredTags {
            addr,
            granules,
            tag: tag_of(tagged),
        })
    }
}

/// A load or a store of one register of 2 to the power of `size` bytes.
pub(crate) fn single(size: u8, opc: u8, rn: u8, rt: u8, mode: AddressingMode) -> AccessForm {
    AccessForm {
        kind: kind_by(opc),
        mode,
        base: rn,
        bytes: byte_count(size) as u8,
        first: rt,
        second: None,
        extension: match opc {
            2 => LoadExtension::Sign64,
            3 => LoadExtension::Sign32,
            _ => LoadExtension::Zero,
        },
    }
}

/// A load of one register relative to PC.
pub(crate) fn literal(opc: u8, imm19: i32, rt: u8) -> AccessForm {
    AccessForm {
        kind: AccessKind::Load,
        mode: AddressingMode::Literal(imm19.wrapping_mul(4)),
        base: 31,
        bytes: if opc == 1 { 8 } else { 4 },
        first: rt,
        second: None,
        extension: signed_if(opc == 2),
    }
}

/// A load or a store of two registers.
pub(crate) fn pair(opc: u8, l: u8, rn: u8, rt: u8, rt2: u8, mode: AddressingMode) -> AccessForm {
    AccessForm {
        kind: kind_by(l),
        mode,
        base: rn,
        bytes: pair_unit(opc),
        first: rt,
        second: Some(rt2),
        extension: signed_if(opc == 1),
    }
}

/// A store of two registers and of the tag of their granule.
pub(crate) fn tagged_pair(rn: u8, rt: u8, rt2: u8, mode: AddressingMode) -> AccessForm {
    AccessForm {
        kind: AccessKind::StorePairWithTag,
        mode,
        base: rn,
        bytes: 8,
        first: rt,
        second: Some(rt2),
        extension: LoadExtension::Zero,
    }
}

/// A load of a tag.
pub(crate) fn load_tag(rn: u8, rt: u8, mode: AddressingMode) -> AccessForm {
    AccessForm {
        kind: AccessKind::LoadTag,
        mode,
        base: rn,
        bytes: 16,
        first: rt,
        second: None,
        extension: LoadExtension::Zero,
    }
}

/// A store of tags.
pub(crate) fn store_tags(opc: u8, rn: u8, rt: u8, mode: AddressingMode) -> AccessForm {
    AccessForm {
        kind: if opc % 2 == 1 {
            AccessKind::StoreZeros
        } else {
            AccessKind::StoreTags
        },
        mode,
        base: rn,
        bytes: if opc >= 2 { 32 } else { 16 },
        first: rt,
        second: None,
        extension: LoadExtension::Zero,
    }
}

/// The kind by a field that is 0 of a store.
fn kind_by(field: u8) -> AccessKind {
    if field == 0 {
        AccessKind::Store
    } else {
        AccessKind::Load
    }
}

/// The extension to 64 bits.
fn signed_if(is_signed: bool) -> LoadExtension {
    if is_signed {
        LoadExtension::Sign64
    } else {
        LoadExtension::Zero
    }
}

/// How many bytes each register of a pair has in memory.
fn pair_unit(opc: u8) -> u8 {
    if opc == 2 { 8 } else { 4 }
}

/// The bytes of a constant offset that counts accesses.
pub(crate) fn scaled_offset(imm12: u16, size: u8) -> i32 {
    i32::from(imm12).wrapping_mul(i32::from(byte_count(size) as u8))
}

/// The bytes of a constant offset that counts registers of a pair.
pub(crate) fn pair_offset(opc: u8, imm7: i8) -> i32 {
    i32::from(imm7).wrapping_mul(i32::from(pair_unit(opc)))
}

/// The mode of an offset in a register.
pub(crate) fn register_offset(rm: u8, option: u8, s: u8) -> AddressingMode {
    AddressingMode::RegisterOffset(RegisterOffset { rm, option, s })
}

/// The mode of an access to tags, by its field: 1 is post-indexed, 2 an offset, 3 pre-indexed.
pub(crate) fn tag_mode(mode: u8, granules: i32) -> AddressingMode {
    let bytes = granules.wrapping_mul(16);
    match mode {
        1 => AddressingMode::PostIndexed,
        2 => AddressingMode::Offset(bytes),
        _ => AddressingMode::PreIndexed(bytes),
    }
}
