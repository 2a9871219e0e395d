//! The bits that services use and define.

use crate::judgement::{UndefinedUse, UseKind};
use crate::state::UndefinedBits;
use a64_bits::plain;
use common::GRANULE_SIZE;
use shadow_memory::{AccessedBytes, ClientRequest, Full, RequestKind};
use undefined_values::{UndefinedOrigin, UndefinedValue};

/// Which registers a service takes.
#[derive(Clone, Copy, PartialEq, Eq)]
pub enum ServiceArguments {
    /// The lowest byte of x0, which is the exit status.
    ExitStatus,
    /// None.
    None,
    /// x0.
    One,
    /// x0 and x1.
    Two,
}

impl UndefinedBits {
    /// The use of undefined bits by a service: its number in x8, its arguments, or the bytes
    /// that it writes out.
    pub fn judge_service(
        &self,
        arguments: ServiceArguments,
        output: Option<AccessedBytes>,
    ) -> Option<UndefinedUse> {
        let (first, second, number) = (self.register(0), self.register(1), self.register(8));
        let (used, kind) = match arguments {
            _ if !number.is_defined() => (number, UseKind::Argument),
            ServiceArguments::ExitStatus => {
                let bits = first.bits % 256;
                (UndefinedValue::of(bits, first.origin), UseKind::ExitStatus)
            }
            ServiceArguments::None => (UndefinedValue::DEFINED, UseKind::Argument),
            ServiceArguments::One => (first, UseKind::Argument),
            ServiceArguments::Two if first.is_defined() => (second, UseKind::Argument),
            ServiceArguments::Two => (first, UseKind::Argument),
        };
        if !used.is_defined() {
            return Some(UndefinedUse::of(kind, used.origin));
        }
        self.judge_output(output?)
    }

    /// Whether bytes that are written out are undefined.
    fn judge_output(&self, bytes: AccessedBytes) -> Option<UndefinedUse> {
        let (addr, value) = self.memory.first_undefined(plain(bytes.addr), bytes.count)?;
        Some(UndefinedUse {
            kind: UseKind::Output,
            origin: value.origin,
            addr: Some(addr),
        })
    }

    /// Notes a service that completed: its result and the bytes that it wrote are defined.
    pub fn note_service(&mut self, written: Option<AccessedBytes>) -> Result<(), Full> {
        self.set(0, UndefinedValue::DEFINED);
        if let Some(bytes) = written {
            let start = plain(bytes.addr);
            let end = start.saturating_add(bytes.count);
            self.memory.fill(start, end, UndefinedValue::DEFINED)?;
        }
        Ok(())
    }

    /// Notes that the heap call with a number made a chunk of some bytes at a plain address: all of
    /// its granules are defined or not.
    pub fn note_made(
        &mut self,
        call: u64,
        start: u64,
        size: u64,
        is_defined: bool,
    ) -> Result<(), Full> {
        let end = start.saturating_add(size.div_ceil(GRANULE_SIZE).saturating_mul(GRANULE_SIZE));
        let value = if is_defined {
            UndefinedValue::DEFINED
        } else {
            UndefinedValue::of(u64::MAX, UndefinedOrigin::of_chunk(call))
        };
        self.memory.fill(start, end, value)?;
        self.short()
    }

    /// Notes what the program says of its own memory: a chunk is undefined but for its first bytes,
    /// as many as are kept.
    pub fn note_request(&mut self, request: &ClientRequest, kept: u64) -> Result<(), Full> {
        let start = request.start();
        let (start, value) = match request.kind {
            RequestKind::NoAccess => return Ok(()),
            RequestKind::Defined => (start, UndefinedValue::DEFINED),
            RequestKind::Chunk => {
                let origin = UndefinedOrigin::of_own_chunk(request.pc);
                let value = UndefinedValue::of(u64::MAX, origin);
                (start.saturating_add(kept), value)
            }
        };
        self.memory.fill(start, request.end(), value)?;
        self.short()
    }

    /// Notes that a heap call moved the first bytes of a chunk from one plain address to another.
    pub fn note_moved(&mut self, from: u64, to: u64, bytes: u64) -> Result<(), Full> {
        self.memory.copy(from, to, bytes)?;
        self.short()
    }

    /// Notes that the heap call with a number gave a chunk another size where it is: from a plain
    /// address to another what is new is undefined.
    pub fn note_grown(&mut self, call: u64, start: u64, end: u64) -> Result<(), Full> {
        let end = end.div_ceil(GRANULE_SIZE).saturating_mul(GRANULE_SIZE);
        let value = UndefinedValue::of(u64::MAX, UndefinedOrigin::of_chunk(call));
        self.memory.fill(start, end, value)?;
        self.short()
    }

    /// Whether a page found no place.
    fn short(&self) -> Result<(), Full> {
        if self.memory.is_short {
            Err(Full::Pages)
        } else {
            Ok(())
        }
    }
}
