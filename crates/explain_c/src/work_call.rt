//! The export that tells how much work the slices of a tenant alone are.

ghost use Rattle.std.specs.Prelude.{◌≡◌};

use crate::codes::{OK, OUT_OF_MEMORY, REFUSED};
use crate::service_bytes::ServiceBytes;
use common::Obstacle;
use mte_tags::TagMode;
use mte_tenant::{Admission, Lone, Terms, slice_noted};
use std::alloc::Global;

/// So many bytes are as much work as a step.
const BYTES_OF_STEP: u64 = 2048;

/// The admission of a tenant alone, and its slices, as those of `tb_alone`.
#[repr(C)]
#[derive(Clone, Copy)]
pub struct WorkTerms<'a> {
    /// Its ELF64 image.
    pub image: &'a [u8],
    /// The bytes that it may read.
    pub input: &'a [u8],
    /// How many instructions each of its slices attempts at most.
    pub slices: &'a [u32],
    /// The seed of its random tags and of its heap.
    pub seed: u64,
    /// Its reservation, 1 to 4096 pages.
    pub pages: u32,
    /// How many bytes it may write, at most 65536.
    pub room: u32,
    /// Any number but 0 chooses the asynchronous mode.
    pub asynchronous: u32,
    /// Not used.
    pub unused: u32,
}

impl<'a> WorkTerms<'a> {
    /// They as an admission, under the number 0.
    fn admission(&self) -> Admission<'a> {
        let mode = if self.asynchronous == 0 {
            TagMode::Sync
        } else {
            TagMode::Async
        };
        Admission {
            id: 0,
            image: self.image,
            input: self.input,
            terms: Terms {
                seed: self.seed,
                pages: self.pages,
                room: self.room,
                mode,
            },
        }
    }
}

/// How much work a tenant did.
#[repr(C)]
#[derive(Clone, Copy)]
pub struct WorkEnd {
    /// How many of its slices it ran.
    pub slices: u64,
    /// How many instructions it attempted in them.
    pub steps: u64,
    /// How many bytes its services touched.
    pub bytes: u64,
    /// Steps, and one for each 2048 bytes.
    pub work: u64,
    /// The work before the last of these slices.
    pub before: u64,
    /// OK, REFUSED or OUT_OF_MEMORY.
    pub code: u32,
    /// 1 where it would go on with a next slice, else 0.
    pub running: u32,
}

impl WorkEnd {
    /// The end of a tenant that did nothing.
    fn none(code: u32) -> WorkEnd
        ensures { result.code ≡ code }
    {
        WorkEnd {
            slices: 0,
            steps: 0,
            bytes: 0,
            work: 0,
            before: 0,
            code,
            running: 0,
        }
    }
}

/// Runs a tenant alone for its slices, while it is running and has done less than `most` work, and
/// tells how much it did. What a slice does is the same as in `tb_alone`, and none is cut short, so
/// the last may pass `most`.
#[unsafe(no_mangle)]
pub extern "C" fn tb_work(alloc: Global, terms: &WorkTerms<'_>, most: u64, end: &mut WorkEnd) -> u32
    ensures code { result ≡ end.new.code }
{
    *end = match Lone::new(alloc, &terms.admission()) {
        Ok(machine) => work_of(machine, terms.slices, most),
        Err(Obstacle::Refused(_)) => WorkEnd::none(REFUSED),
        Err(Obstacle::OutOfMemory) => WorkEnd::none(OUT_OF_MEMORY),
    };
    end.code
}

/// Runs a slice, whose services are counted.
fn run_slice(machine: &mut Lone, watch: &mut ServiceBytes, steps: u32) {
    let (parts, memory) = (&mut machine.parts, &mut machine.memory);
    slice_noted(&mut machine.words, watch, parts, memory, steps, 0);
}

/// The work of a machine's slices.
fn work_of(machine: Lone, slices: &[u32], most: u64) -> WorkEnd {
    let mut machine = machine;
    let mut watch = ServiceBytes::new(&machine.parts);
    let mut end = WorkEnd::none(OK);
    for steps in slices {
        if end.work >= most || !machine.parts.is_running() {
            break;
        }
        run_slice(&mut machine, &mut watch, *steps);
        end.slices = end.slices.saturating_add(1);
        end.before = end.work;
        end.steps = machine.parts.history.steps;
        end.bytes = watch.bytes();
        end.work = end.steps.saturating_add(end.bytes / BYTES_OF_STEP);
    }
    end.running = u32::from(machine.parts.is_running());
    end
}
