//! How many bytes the services of a tenant touch.

ghost use Rattle.std.specs.Prelude.{None};

use a64_run::{Edges, NoEdges};
use mte_svc::{AnsweredCall, HeapCalls, TenantParts};
use mte_tags::Paged;
use mte_tenant::{NotedAccess, Notes, NotesAccesses, Watch};
use scudo_heap::HeapCall;

/// Adds up the bytes that services touch: those that are written and read, and of each chunk that
/// is made its size, which pays for its making, its copy and its end; with the alignment, since
/// the block has that many more.
#[derive(Clone, Copy)]
pub(crate) struct ServiceBytes {
    bytes: u64,
    /// How many bytes were written so far.
    output: u64,
    /// How many were left to be read.
    input: u64,
    /// How many heap calls there were.
    calls: u64,
}

impl ServiceBytes {
    /// Those of a tenant from now on.
    pub(crate) fn new(parts: &TenantParts) -> ServiceBytes {
        ServiceBytes {
            bytes: 0,
            output: parts.history.output.as_slice().len() as u64,
            input: parts.input.left(),
            calls: parts.history.calls.count(),
        }
    }

    /// How many they are.
    pub(crate) fn bytes(&self) -> u64 {
        self.bytes
    }

    /// Adds the bytes since it looked last, which is at most one service ago.
    fn look(&mut self, parts: &TenantParts) {
        let (output, input) = (
            parts.history.output.as_slice().len() as u64,
            parts.input.left(),
        );
        let streamed = output
            .abs_diff(self.output)
            .saturating_add(input.abs_diff(self.input));
        self.bytes = self.bytes.saturating_add(streamed);
        (self.output, self.input) = (output, input);
        let calls = &parts.history.calls;
        if calls.count() != self.calls {
            self.calls = calls.count();
            self.bytes = self.bytes.saturating_add(made_last(calls));
        }
    }
}

/// The bytes of the chunk that the last heap call made.
fn made_last(calls: &HeapCalls) -> u64 {
    match calls.kept() {
        0 => 0,
        kept => match calls.get(kept - 1) {
            Some(call) => made_by(&call),
            None => 0,
        },
    }
}

/// The bytes of the chunk that a heap call made.
fn made_by(it: &AnsweredCall) -> u64 {
    if it.answer == 0 {
        return 0;
    }
    match it.call {
        HeapCall::Malloc { size } => size,
        HeapCall::Calloc { count, size } => count.saturating_mul(size),
        HeapCall::Realloc { pointer: _, size } => size,
        HeapCall::Memalign { alignment, size } => size.saturating_add(alignment),
        HeapCall::Free { pointer: _ } | HeapCall::UsableSize { pointer: _ } => 0,
    }
}

impl NotesAccesses for ServiceBytes {
    fn counts_tags(&self) -> bool {
        false
    }

    fn note(&mut self, _access: NotedAccess) {}
}

impl Edges for ServiceBytes {
    fn taken(&mut self, _from: u64, _word: u32, _to: u64) {}
}

impl Notes for ServiceBytes {
    type Counts = NoEdges;

    fn follows(&self) -> bool {
        false
    }

    fn take_counts(&mut self) -> NoEdges {
        NoEdges
    }

    fn put_counts(&mut self, _counts: NoEdges) {}

    fn pass<M: Paged>(&mut self, _parts: &TenantParts, _memory: &mut M) {}
}

impl Watch for ServiceBytes {
    ghost log = { λ _. None };

    fn before<M: Paged>(&mut self, _parts: &TenantParts, _memory: &mut M) {}

    fn after<M: Paged>(&mut self, parts: &TenantParts, _memory: &mut M) {
        self.look(parts);
    }
}
