//! The rules of loads and stores for undefined bits.

use crate::state::UndefinedBits;
use a64_access::{AccessForm, AccessKind, LoadExtension};
use a64_bits::{plain, sign_extend};
use a64_registers::Regs;
use shadow_memory::{AccessedBytes, RegisterAccess, Step};
use std::alloc::AllocError;
use undefined_values::UndefinedValue;

impl UndefinedBits {
    /// Notes a load or a store; whether the instruction is one.
    pub(crate) fn note_access(&mut self, step: &Step<'_>) -> Result<bool, AllocError> {
        let Some(form) = &step.form else {
            return Ok(false);
        };
        match &step.access {
            Some(access) if access.bytes.is_write => self.note_store(access)?,
            Some(access) => self.note_load(access, form.extension),
            None => self.note_tags(form, step.before)?,
        }
        Ok(true)
    }

    /// Notes a store of one register or two.
    fn note_store(&mut self, access: &RegisterAccess) -> Result<(), AllocError> {
        self.store(access.bytes, access.first)?;
        match access.second {
            Some(second) => self.store(access.bytes.next(), second),
            None => Ok(()),
        }
    }

    /// Notes a store of a register.
    fn store(&mut self, bytes: AccessedBytes, register: u8) -> Result<(), AllocError> {
        let value = self.register(register);
        self.memory
            .store(plain(bytes.addr), small_count(bytes.count), value)
    }

    /// Notes a load of one register or two.
    fn note_load(&mut self, access: &RegisterAccess, extension: LoadExtension) {
        let first = self.loaded(access.bytes, extension);
        if let Some(register) = access.second {
            let second = self.loaded(access.bytes.next(), extension);
            self.set(register, second);
        }
        self.set(access.first, first);
    }

    /// The undefined bits of the bytes that a register was loaded with.
    fn loaded(&self, bytes: AccessedBytes, extension: LoadExtension) -> UndefinedValue {
        let count = small_count(bytes.count);
        let found = self.memory.load(plain(bytes.addr), count);
        if found.is_defined() {
            return found;
        }
        extended_load(found, extension, count)
    }

    /// Notes a load of a tag, or the zeros that are stored with tags.
    fn note_tags(&mut self, form: &AccessForm, regs: &Regs) -> Result<(), AllocError> {
        match form.kind {
            AccessKind::LoadTag => self.note_loaded_tag(form.first),
            AccessKind::StoreZeros => return self.note_zeros(form, regs),
            _ => {}
        }
        Ok(())
    }

    /// Notes the zeros that are stored with tags.
    fn note_zeros(&mut self, form: &AccessForm, regs: &Regs) -> Result<(), AllocError> {
        let start = plain(form.addr(regs));
        let end = start.saturating_add(form.len());
        self.memory.fill(start, end, UndefinedValue::DEFINED)
    }
}

/// The undefined bits of a register that was loaded with some bytes.
pub(crate) fn extended_load(
    found: UndefinedValue,
    extension: LoadExtension,
    bytes: u8,
) -> UndefinedValue {
    let bits = match extension {
        LoadExtension::Zero => return found,
        LoadExtension::Sign64 => extend_signed(found.bits, bytes),
        LoadExtension::Sign32 => extend_signed(found.bits, bytes) & 0xffff_ffff,
    };
    UndefinedValue::of(bits, found.origin)
}

/// A number of bytes that a register may have.
fn small_count(count: u64) -> u8 {
    count.min(8) as u8
}

/// The bits of a number of bytes, of 1, 2, 4 and 8, with the highest of them in all bits above.
fn extend_signed(bits: u64, bytes: u8) -> u64 {
    match bytes {
        1 => sign_extend(bits, 8),
        2 => sign_extend(bits, 16),
        4 => sign_extend(bits, 32),
        _ => bits,
    }
}
