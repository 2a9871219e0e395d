//! The services, by x8.

ghost use Rattle.std.specs.Prelude.{◌≡◌};
ghost use Rattle.mte_tags.specs.Fixed.{KeepsFixed};
ghost use Rattle.mte_svc.specs.Ready.{IsReady};
ghost use Rattle.mte_svc.specs.Services.{after_svc, after_other_service, after_write_service};
ghost use Rattle.mte_svc.specs.Services.{after_read_service};

use crate::calls::heap_call;
use crate::heap_services::call_heap;
use crate::laws::services_keep_fixed_pages;
use crate::parts::TenantParts;
use mte_tags::{MemFault, Paged, Tagged};
use scudo_heap::{HeapAbort, condition_of_calls};

/// How a service ends.
#[derive(Clone, Copy)]
pub enum SvcEnd {
    /// The tenant resumes after the SVC.
    Resume,
    /// The tenant resumes in its next slice.
    Yield,
    /// It ended itself, with a code.
    Exit(u8),
    /// An access of the service failed.
    Fault(MemFault),
    /// A check of a pointer that was handed to the heap failed.
    Abort(HeapAbort, u64),
}

/// Ends the tenant, with x0 modulo 256.
pub const EXIT: u64 = 0;

/// Appends the x1 bytes at x0 to the output.
pub const WRITE: u64 = 1;

/// Reads the next x1 bytes of the input to x0.
pub const READ: u64 = 2;

/// Returns a chunk of x0 bytes.
pub const MALLOC: u64 = 3;

/// Frees the chunk at x0.
pub const FREE: u64 = 4;

/// Returns a chunk for x0 elements of x1 bytes.
pub const CALLOC: u64 = 5;

/// Gives the chunk at x0 a size of x1 bytes.
pub const REALLOC: u64 = 6;

/// Returns a chunk of x1 bytes at a multiple of x0.
pub const MEMALIGN: u64 = 7;

/// Returns the size of the chunk at x0.
pub const USABLE_SIZE: u64 = 8;

/// Ends the slice.
pub const YIELD: u64 = 9;

/// Returns the steps of the slice that are left.
pub const STEPS_LEFT: u64 = 10;

/// Returns how many more pages may be mapped.
pub const PAGES_LEFT: u64 = 11;

/// The numbers of the services in digits.
pub fn services_in_digits()
    ensures exit { EXIT ≡ 0 }
    ensures write { WRITE ≡ 1 }
    ensures read { READ ≡ 2 }
    ensures malloc { MALLOC ≡ 3 }
    ensures free { FREE ≡ 4 }
    ensures calloc { CALLOC ≡ 5 }
    ensures realloc { REALLOC ≡ 6 }
    ensures memalign { MEMALIGN ≡ 7 }
    ensures usable_size { USABLE_SIZE ≡ 8 }
    ensures yields { YIELD ≡ 9 }
    ensures steps_left { STEPS_LEFT ≡ 10 }
    ensures pages_left { PAGES_LEFT ≡ 11 }
{}

/// The service of an SVC: its number is x8, its arguments are x0 and x1, its result is x0. A number
/// that no service has returns 2^64 - 1. Where it ends the tenant, PC stays at the SVC. No service
/// changes a page that is mapped without WRITE.
pub fn svc<M: Paged>(parts: &mut TenantParts, memory: &mut M) -> SvcEnd
    requires ready { IsReady parts.old (M.Tagged.memory memory.old) }
    ensures served { record { parts = parts.new; memory = M.Tagged.memory memory.new; end = result }
        ≡ after_svc parts.old (M.Tagged.memory memory.old) }
    ensures fixed { KeepsFixed (M.Tagged.memory memory.old) (M.Tagged.memory memory.new) }
    ensures ready { IsReady parts.new (M.Tagged.memory memory.new) }
    ensures kept { M.Tagged.kept memory.old memory.new }
{
    services_keep_fixed_pages();
    parts.heap.recall();
    serve(parts, memory)
}

/// The service with the number in x8.
#[tactic(auto, unfolding(crate::specs::Services::after_svc))]
fn serve<M: Paged>(parts: &mut TenantParts, memory: &mut M) -> SvcEnd
    requires ready { IsReady parts.old (M.Tagged.memory memory.old) }
    ensures served { record { parts = parts.new; memory = M.Tagged.memory memory.new; end = result }
        ≡ after_svc parts.old (M.Tagged.memory memory.old) }
    ensures ready { IsReady parts.new (M.Tagged.memory memory.new) }
    ensures kept { M.Tagged.kept memory.old memory.new }
{
    let (number, first, second) = (parts.regs.x[8], parts.regs.x[0], parts.regs.x[1]);
    match heap_call(number, first, second) {
        Some(call) => call_heap(parts, memory, call),
        None => serve_other(parts, memory),
    }
}

/// The service with the number in x8, which is no call of the heap.
#[tactic(auto, unfolding(crate::specs::Services::after_other_service))]
fn serve_other<M: Paged>(parts: &mut TenantParts, memory: &mut M) -> SvcEnd
    requires ready { IsReady parts.old (M.Tagged.memory memory.old) }
    ensures served { record { parts = parts.new; memory = M.Tagged.memory memory.new; end = result }
        ≡ after_other_service parts.old (M.Tagged.memory memory.old) }
    ensures ready { IsReady parts.new (M.Tagged.memory memory.new) }
    ensures kept { M.Tagged.kept memory.old memory.new }
{
    match parts.regs.x[8] {
        EXIT => SvcEnd::Exit((parts.regs.x[0] % 256) as u8),
        WRITE => write(parts, memory),
        READ => read(parts, memory),
        YIELD => {
            parts.answer(0);
            SvcEnd::Yield
        }
        STEPS_LEFT => {
            let left = parts.left;
            parts.answer(left);
            SvcEnd::Resume
        }
        PAGES_LEFT => {
            let left = memory.pages_left() as u64;
            parts.answer(left);
            SvcEnd::Resume
        }
        _ => {
            parts.answer(u64::MAX);
            SvcEnd::Resume
        }
    }
}

/// Appends the x1 bytes at x0, or as many as there is space for, to the output.
#[tactic(auto, unfolding(crate::specs::Services::after_write_service))]
fn write<M: Tagged>(parts: &mut TenantParts, memory: &mut M) -> SvcEnd
    requires ready { IsReady parts.old (M.memory memory.old) }
    ensures served { record { parts = parts.new; memory = M.memory memory.new; end = result }
        ≡ after_write_service parts.old (M.memory memory.old) }
    ensures ready { IsReady parts.new (M.memory memory.new) }
    ensures kept { M.kept memory.old memory.new }
{
    condition_of_calls();
    let count = parts.regs.x[1].min(parts.history.output.left());
    let addr = parts.regs.x[0];
    match parts.history.output.append_from(memory, addr, count) {
        Ok(()) => {
            parts.answer(count);
            SvcEnd::Resume
        }
        Err(fault) => SvcEnd::Fault(fault),
    }
}

/// Reads the next x1 bytes of the input, or as many as are left, to x0.
#[tactic(auto, unfolding(crate::specs::Services::after_read_service))]
fn read<M: Tagged>(parts: &mut TenantParts, memory: &mut M) -> SvcEnd
    requires ready { IsReady parts.old (M.memory memory.old) }
    ensures served { record { parts = parts.new; memory = M.memory memory.new; end = result }
        ≡ after_read_service parts.old (M.memory memory.old) }
    ensures ready { IsReady parts.new (M.memory memory.new) }
    ensures kept { M.kept memory.old memory.new }
{
    condition_of_calls();
    let count = parts.regs.x[1].min(parts.input.left());
    let addr = parts.regs.x[0];
    match parts.input.copy_to(memory, addr, count) {
        Ok(()) => {
            parts.answer(count);
            SvcEnd::Resume
        }
        Err(fault) => SvcEnd::Fault(fault),
    }
}
