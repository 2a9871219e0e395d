//! Whether an access or a free is one that its pointer's own chunk allows.

use crate::chunk_table::TracedChunk;
use crate::shadow::{Shadow, is_in_heap};
use a64_access::{AccessForm, AccessKind, AddressingMode};
use a64_bits::plain;
use a64_instr::fields::RegisterOffset;
use a64_registers::Regs;
use common::PAGE_SIZE;
use shadow_memory::{
    AccessedBytes, FreeingFunction, HeapFunction, OriginKind, PointerOrigin, Sign, Step,
};
use std::alloc::AllocError;

/// A use of a pointer that its chunk does not allow.
#[derive(Clone, Copy, Debug, PartialEq, Eq)]
pub enum MisuseKind {
    /// An access to a chunk that was freed.
    AfterFree,
    /// An access past a chunk's end.
    Overflow,
    /// An access in front of a chunk.
    Underflow,
    /// An access to bytes of the heap that no chunk has, by a pointer of which nothing is known.
    NoChunk,
    /// A free of a chunk that was freed.
    DoubleFree,
    /// A free of a pointer into a chunk that is not the one to its start.
    InnerFree,
    /// A free by a function of C or C++ that is not for a chunk of the function that made it.
    MismatchedFree,
    /// A free by an operator of C++ that is told another size than the chunk was made with.
    MismatchedSize,
    /// An access to bytes that the program forbids.
    Forbidden,
}

/// A use of a pointer that its chunk does not allow.
#[derive(Clone, Copy, PartialEq, Eq)]
pub struct Misuse {
    /// The misuse.
    pub kind: MisuseKind,
    /// The plain address of the first byte that is wrong.
    pub addr: u64,
    /// The bytes that are accessed, of one register of a pair.
    pub access: AccessedBytes,
    /// The pointer's own chunk; where nothing is known of the pointer, the one that is or was at
    /// the address.
    pub chunk: Option<TracedChunk>,
    /// Whether nothing is known of the pointer.
    pub is_by_address: bool,
    /// The function of C or C++ that a free is for, where it is known.
    pub function: Option<FreeingFunction>,
}

impl Shadow {
    /// The misuse by an instruction that loads or stores, of which nothing is noted yet. Where
    /// it did not complete, only what is known of its pointer counts.
    pub fn judge(
        &mut self,
        step: &Step<'_>,
        is_completed: bool,
    ) -> Result<Option<Misuse>, AllocError> {
        let Some(form) = &step.form else {
            return Ok(None);
        };
        let Some(access) = &step.access else {
            return self.judge_zeros(form, step.before, is_completed);
        };
        let origin = self.address_origin(form)?;
        if origin == PointerOrigin::STACK || !(is_completed || origin.chunk().is_some()) {
            return Ok(None);
        }
        let found = self.judge_bytes(origin, access.bytes);
        if found.is_some() || access.second.is_none() {
            return Ok(found);
        }
        Ok(self.judge_bytes(origin, access.bytes.next()))
    }

    /// The misuse by an instruction that stores zeros with tags: by all bytes of its granules.
    fn judge_zeros(
        &mut self,
        form: &AccessForm,
        regs: &Regs,
        is_completed: bool,
    ) -> Result<Option<Misuse>, AllocError> {
        if !matches!(form.kind, AccessKind::StoreZeros) {
            return Ok(None);
        }
        let origin = self.address_origin(form)?;
        if origin == PointerOrigin::STACK || !(is_completed || origin.chunk().is_some()) {
            return Ok(None);
        }
        let zeros = AccessedBytes {
            addr: form.addr(regs),
            count: form.len(),
            is_write: true,
            is_register: false,
        };
        Ok(self.judge_bytes(origin, zeros))
    }

    /// Where the pointer points by which an instruction accesses memory.
    pub fn address_origin(&mut self, form: &AccessForm) -> Result<PointerOrigin, AllocError> {
        match form.mode {
            AddressingMode::Literal(_) => Ok(PointerOrigin::UNKNOWN),
            AddressingMode::RegisterOffset(RegisterOffset { rm, option, s }) => {
                let is_plain = option % 4 == 3 && (s == 0 || form.bytes == 1);
                let index = self.pointer_where(rm, is_plain);
                self.combined(self.base(form.base), index, Sign::Plus)
            }
            _ => Ok(self.base(form.base)),
        }
    }

    /// The misuse by a service that accesses bytes by the pointer in x0. Where it did not
    /// complete, only what is known of the pointer counts.
    pub fn judge_service(&self, bytes: AccessedBytes, is_completed: bool) -> Option<Misuse> {
        let origin = self.pointer(0);
        if bytes.count == 0 || !(is_completed || origin.chunk().is_some()) {
            return None;
        }
        self.judge_bytes(origin, bytes)
    }

    /// The misuse of the pointer in x0, which a heap call is to free or to give another size,
    /// made for a function of C or C++, where it is known for which.
    pub fn judge_free(&self, pointer: u64, function: Option<FreeingFunction>) -> Option<Misuse> {
        let chunk = *self.chunk(self.outer(self.pointer(0)))?;
        let kind = if !chunk.is_live {
            MisuseKind::DoubleFree
        } else if plain(pointer) != chunk.start() {
            MisuseKind::InnerFree
        } else if is_mismatched(&chunk, function) {
            MisuseKind::MismatchedFree
        } else if has_other_size(&chunk, function) {
            MisuseKind::MismatchedSize
        } else {
            return None;
        };
        Some(Misuse {
            kind,
            addr: plain(pointer),
            access: AccessedBytes {
                addr: pointer,
                count: 0,
                is_write: true,
                is_register: false,
            },
            chunk: Some(chunk),
            is_by_address: false,
            function,
        })
    }

    /// The misuse by an access through a pointer.
    pub(crate) fn judge_bytes(
        &self,
        origin: PointerOrigin,
        access: AccessedBytes,
    ) -> Option<Misuse> {
        let found = self.judge_by_origin(origin, access);
        if found.is_none() && self.has_own {
            return self.judge_forbidden(access);
        }
        found
    }

    /// The misuse by an access through a pointer to a chunk, or by its address.
    fn judge_by_origin(&self, origin: PointerOrigin, access: AccessedBytes) -> Option<Misuse> {
        match origin.kind() {
            OriginKind::Stack | OriginKind::Place(_) => None,
            OriginKind::Chunk(index) => {
                let chunk = *self.chunks.get(index)?;
                if self.stack == Some(index) && chunk.is_live {
                    return None;
                }
                judge_in(chunk, access, false)
            }
            OriginKind::Unknown | OriginKind::Sum(_) => self.judge_by_address(access),
        }
    }

    /// The misuse by an access through a pointer of unknown origin: by the chunk that is or
    /// was at its address.
    fn judge_by_address(&self, access: AccessedBytes) -> Option<Misuse> {
        let addr = plain(access.addr);
        if !is_in_heap(addr) {
            return None;
        }
        match self.chunk(self.outer(self.memory.owner(addr))) {
            Some(chunk) => judge_in(*chunk, access, true),
            None => Some(Misuse {
                kind: MisuseKind::NoChunk,
                addr,
                access,
                chunk: None,
                is_by_address: true,
                function: None,
            }),
        }
    }
}

/// The misuse by an access to a chunk.
fn judge_in(chunk: TracedChunk, access: AccessedBytes, is_by_address: bool) -> Option<Misuse> {
    let addr = plain(access.addr);
    let kind = if !chunk.is_live {
        MisuseKind::AfterFree
    } else if chunk.holds(addr, access.count)
        || is_part_of_word(&chunk, access)
        || addr < PAGE_SIZE
    {
        return None;
    } else if addr < chunk.start() {
        MisuseKind::Underflow
    } else {
        MisuseKind::Overflow
    };
    let is_past = kind == MisuseKind::Overflow && addr < chunk.end();
    Some(Misuse {
        kind,
        addr: if is_past { chunk.end() } else { addr },
        access,
        chunk: Some(chunk),
        is_by_address,
        function: None,
    })
}

/// Whether a chunk was made for a function whose chunks another one is to free.
fn is_mismatched(chunk: &TracedChunk, freer: Option<FreeingFunction>) -> bool {
    match (chunk.maker, freer) {
        (Some(maker), Some(freer)) => maker.is_mismatched(freer.function),
        _ => false,
    }
}

/// Whether a chunk that an operator of C++ made has another size than the one that frees it is
/// told. One of 0 bytes may have been made with 1.
fn has_other_size(chunk: &TracedChunk, freer: Option<FreeingFunction>) -> bool {
    let size = match (chunk.maker, freer) {
        (Some(HeapFunction::New | HeapFunction::NewArray), Some(freer)) => freer.size,
        _ => None,
    };
    size.is_some_and(|size| size.max(1) != u64::from(chunk.size.max(1)))
}

/// Whether an instruction reads an aligned word that begins in a chunk: functions that look at
/// whole words read past its end, and look at none of those bytes.
fn is_part_of_word(chunk: &TracedChunk, access: AccessedBytes) -> bool {
    let addr = plain(access.addr);
    let is_aligned = match access.count {
        2 => addr % 2 == 0,
        4 => addr % 4 == 0,
        8 => addr % 8 == 0,
        _ => false,
    };
    access.is_register && !access.is_write && is_aligned && chunk.begins_in(addr)
}
