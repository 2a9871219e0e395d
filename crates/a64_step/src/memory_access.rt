//! Memory accesses of 1, 2, 4 or 8 bytes.

ghost use Rattle.std.specs.Prelude.{◌≡◌, ℕ, false, ◌<◌, ◌≤◌, ◌+◌, ◌*◌, ◌%◌, ◌^◌, is_ok, if◌then◌else◌};
ghost use Rattle.mte_tags.specs.Accesses.{result_of, after_read, write_fault, after_write};
ghost use Rattle.a64_step.specs.MemoryAccess.{number_read, stored_bytes};
ghost use Rattle.a64_registers.specs.Operands.{bytes_of};

use mte_tags::{MemFault, Tagged};

/// The size of an access as a type: what takes it is compiled for that size alone.
pub trait AccessSize {
    /// The access has `2^SIZE` bytes.
    ghost SIZE: { ℕ };

    /// The number at an address, the lowest byte first.
    fn read<M: Tagged>(memory: &mut M, address: u64, checked: bool) -> Result<u64, MemFault>
        ensures answer { result ≡ number_read (M.memory memory.old) address SIZE checked }
        ensures memory { M.memory memory.new
            ≡ (if is_ok result
            then after_read (M.memory memory.old) address (bytes_of SIZE) checked
            else M.memory memory.old) }
        ensures kept { M.kept memory.old memory.new };

    /// Writes the low bytes of a register, all or none.
    fn write<M: Tagged>(
        memory: &mut M,
        address: u64,
        value: u64,
        checked: bool,
    ) -> Result<(), MemFault>
        ensures answer { result
            ≡ result_of (write_fault (M.memory memory.old) address (bytes_of SIZE) checked) }
        ensures memory { M.memory memory.new
            ≡ (if is_ok result
            then after_write (M.memory memory.old) address (stored_bytes SIZE value) checked
            else M.memory memory.old) }
        ensures kept { M.kept memory.old memory.new };
}

/// Eight bits.
pub struct Byte;

impl AccessSize for Byte {
    ghost SIZE = { 0 };

    #[inline(always)]
    #[rattlefmt::skip]
    #[tactic(auto, unfolding(
        crate::specs::MemoryAccess::number_read,
        a64_registers::specs::Operands::bytes_of
    ))]
    fn read<M: Tagged>(memory: &mut M, address: u64, checked: bool) -> Result<u64, MemFault> {
        let mut bytes = [0; 1];
        if let Err(fault) = memory.read(address, &mut bytes, checked) {
            return Err(fault);
        }
        Ok(u64::from(u8::from_le_bytes(bytes)))
    }

    #[inline(always)]
    #[rattlefmt::skip]
    #[tactic(auto, unfolding(
        a64_registers::specs::Operands::bytes_of,
        crate::specs::MemoryAccess::stored_bytes
    ))]
    fn write<M: Tagged>(
        memory: &mut M,
        address: u64,
        value: u64,
        checked: bool,
    ) -> Result<(), MemFault> {
        memory.write(address, &((value % (1 << 8)) as u8).to_le_bytes(), checked)
    }
}

/// 16 bits.
pub struct Halfword;

impl AccessSize for Halfword {
    ghost SIZE = { 1 };

    #[inline(always)]
    #[rattlefmt::skip]
    #[tactic(auto, unfolding(
        crate::specs::MemoryAccess::number_read,
        a64_registers::specs::Operands::bytes_of
    ))]
    fn read<M: Tagged>(memory: &mut M, address: u64, checked: bool) -> Result<u64, MemFault> {
        let mut bytes = [0; 2];
        if let Err(fault) = memory.read(address, &mut bytes, checked) {
            return Err(fault);
        }
        Ok(u64::from(u16::from_le_bytes(bytes)))
    }

    #[inline(always)]
    #[rattlefmt::skip]
    #[tactic(auto, unfolding(
        a64_registers::specs::Operands::bytes_of,
        crate::specs::MemoryAccess::stored_bytes
    ))]
    fn write<M: Tagged>(
        memory: &mut M,
        address: u64,
        value: u64,
        checked: bool,
    ) -> Result<(), MemFault> {
        memory.write(address, &((value % (1 << 16)) as u16).to_le_bytes(), checked)
    }
}

/// 32 bits.
pub struct Word;

impl AccessSize for Word {
    ghost SIZE = { 2 };

    #[inline(always)]
    #[rattlefmt::skip]
    #[tactic(auto, unfolding(
        crate::specs::MemoryAccess::number_read,
        a64_registers::specs::Operands::bytes_of
    ))]
    fn read<M: Tagged>(memory: &mut M, address: u64, checked: bool) -> Result<u64, MemFault> {
        let mut bytes = [0; 4];
        if let Err(fault) = memory.read(address, &mut bytes, checked) {
            return Err(fault);
        }
        Ok(u64::from(u32::from_le_bytes(bytes)))
    }

    #[inline(always)]
    #[rattlefmt::skip]
    #[tactic(auto, unfolding(
        a64_registers::specs::Operands::bytes_of,
        crate::specs::MemoryAccess::stored_bytes
    ))]
    fn write<M: Tagged>(
        memory: &mut M,
        address: u64,
        value: u64,
        checked: bool,
    ) -> Result<(), MemFault> {
        memory.write(address, &((value % (1 << 32)) as u32).to_le_bytes(), checked)
    }
}

/// 64 bits.
pub struct Doubleword;

impl AccessSize for Doubleword {
    ghost SIZE = { 3 };

    #[inline(always)]
    #[rattlefmt::skip]
    #[tactic(auto, unfolding(
        crate::specs::MemoryAccess::number_read,
        a64_registers::specs::Operands::bytes_of
    ))]
    fn read<M: Tagged>(memory: &mut M, address: u64, checked: bool) -> Result<u64, MemFault> {
        let mut bytes = [0; 8];
        if let Err(fault) = memory.read(address, &mut bytes, checked) {
            return Err(fault);
        }
        Ok(u64::from_le_bytes(bytes))
    }

    #[inline(always)]
    #[rattlefmt::skip]
    #[tactic(auto, unfolding(
        a64_registers::specs::Operands::bytes_of,
        crate::specs::MemoryAccess::stored_bytes
    ))]
    fn write<M: Tagged>(
        memory: &mut M,
        address: u64,
        value: u64,
        checked: bool,
    ) -> Result<(), MemFault> {
        memory.write(address, &value.to_le_bytes(), checked)
    }
}

/// Writes the low `2^size` bytes of a register, all or none.
#[inline(always)]
#[rattlefmt::skip]
#[tactic(auto, unfolding(
    a64_registers::specs::Operands::bytes_of,
    crate::specs::MemoryAccess::stored_bytes
))]
pub fn write_number<M: Tagged>(
    memory: &mut M,
    address: u64,
    size: u8,
    value: u64,
    checked: bool,
) -> Result<(), MemFault>
    ensures answer { result
        ≡ result_of (write_fault (M.memory memory.old) address (bytes_of size) checked) }
    ensures memory { M.memory memory.new
        ≡ (if is_ok result
        then after_write (M.memory memory.old) address (stored_bytes size value) checked
        else M.memory memory.old) }
    ensures kept { M.kept memory.old memory.new }
{
    match size {
        0 => Byte::write(memory, address, value, checked),
        1 => Halfword::write(memory, address, value, checked),
        2 => Word::write(memory, address, value, checked),
        _ => Doubleword::write(memory, address, value, checked),
    }
}

/// The number of `2^size` bytes.
#[inline(always)]
#[rattlefmt::skip]
#[tactic(auto, unfolding(
    crate::specs::MemoryAccess::number_read,
    a64_registers::specs::Operands::bytes_of
))]
pub fn read_number<M: Tagged>(
    memory: &mut M,
    address: u64,
    size: u8,
    checked: bool,
) -> Result<u64, MemFault>
    ensures answer { result ≡ number_read (M.memory memory.old) address size checked }
    ensures memory { M.memory memory.new
        ≡ (if is_ok result
        then after_read (M.memory memory.old) address (bytes_of size) checked
        else M.memory memory.old) }
    ensures kept { M.kept memory.old memory.new }
{
    match size {
        0 => Byte::read(memory, address, checked),
        1 => Halfword::read(memory, address, checked),
        2 => Word::read(memory, address, checked),
        _ => Doubleword::read(memory, address, checked),
    }
}

/// The number of `2^size` bytes, whatever their tags. It sets no flag.
#[inline(always)]
pub fn read_unchecked<M: Tagged>(memory: &mut M, address: u64, size: u8) -> Result<u64, MemFault>
    ensures answer { result ≡ number_read (M.memory memory.old) address size false }
    ensures memory { M.memory memory.new ≡ M.memory memory.old }
    ensures kept { M.kept memory.old memory.new }
{
    read_number(memory, address, size, false)
}
