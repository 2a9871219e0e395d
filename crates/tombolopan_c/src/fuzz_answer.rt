//! The report of a run of a machine that is kept.

ghost use Rattle.std.specs.Prelude.{◌≡◌, if◌then◌else◌};
ghost use Rattle.tombolopan_c.specs.LentFuzz.{answer_without, finding_told, trespass_code};

use crate::alone_end::AloneEnd;
use crate::codes::{FREED, NO_CHUNK, NO_REFUSAL, PAST_SIZE};
use heap_bounds::Trespass;
use tenant_snapshot::ExactFinding;

/// The finding of an exact run: the first access to bytes of the heap that no live chunk has, or
/// that the chunk there has not; zero but for `missed` where it found none.
#[repr(C)]
#[derive(Clone, Copy)]
pub struct FuzzFinding {
    /// The number of the instruction among the tenant's, from 1.
    pub step: u64,
    /// The address of the instruction.
    pub pc: u64,
    /// The plain address of the first such byte.
    pub addr: u64,
    /// The address that was used, with the pointer's tag.
    pub pointer: u64,
    /// How many bytes were accessed.
    pub size: u64,
    /// PAST_SIZE, FREED or NO_CHUNK; 0 where there was none.
    pub kind: u32,
    /// 1 where the bytes were written, else 0.
    pub write: u32,
    /// 1 where memory ran out, and nothing was judged from there on; else 0.
    pub missed: u32,
    /// Not used: 0.
    pub unused: u32,
}

impl FuzzFinding {
    /// The report of what was found, if anything was, and whether nothing was missed.
    pub(crate) fn of(found: Option<ExactFinding>, is_complete: bool) -> FuzzFinding
        ensures { result ≡ finding_told found is_complete }
    {
        let none = FuzzFinding {
            step: 0,
            pc: 0,
            addr: 0,
            pointer: 0,
            size: 0,
            kind: 0,
            write: 0,
            missed: one_if(!is_complete),
            unused: 0,
        };
        match found {
            Some(it) => FuzzFinding {
                step: it.step,
                pc: it.pc,
                addr: it.addr,
                pointer: it.span.addr,
                size: it.span.bytes,
                kind: code_of_trespass(it.trespass),
                write: one_if(it.span.is_write),
                ..none
            },
            None => none,
        }
    }
}

/// 1 where a fact holds, else 0.
fn one_if(fact: bool) -> u32
    ensures { result ≡ if fact then 1 else 0 }
{
    if fact { 1 } else { 0 }
}

fn code_of_trespass(trespass: Trespass) -> u32
    ensures { result ≡ trespass_code trespass }
{
    match trespass {
        Trespass::PastSize => PAST_SIZE,
        Trespass::Freed => FREED,
        Trespass::NoChunk => NO_CHUNK,
    }
}

/// How the tenant ended, and what was found.
#[derive(Clone, Copy)]
pub(crate) struct FuzzAnswer {
    pub(crate) end: AloneEnd,
    pub(crate) finding: FuzzFinding,
}

impl FuzzAnswer {
    /// The answer where there was no run.
    pub(crate) fn without_run(code: u32) -> FuzzAnswer
        ensures { result ≡ answer_without code }
    {
        FuzzAnswer {
            end: AloneEnd::without_tenant(code, NO_REFUSAL),
            finding: FuzzFinding::of(None, true),
        }
    }
}
