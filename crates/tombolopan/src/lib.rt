//! All that a program needs which builds on Tombolopan, in one crate:
//!
//! - instructions: `decode`, `Decoder`, `Instr`, and their text, `Text` and `TextAt`;
//! - a memory with tags: `Flat`, over the traits `Tagged` and `Paged`, or one of your own over
//!   `PageStore`;
//! - `step` and `run` over any such memory, `run_cached` with a table of decoded instructions
//!   (`OpCache`), `run_traced` that enters instructions and accesses in arrays of the caller;
//! - a heap with tags: `Heap` in a memory, `HeapBench` with one of its own, `answer` over any;
//! - ELF64 images: `plan`, `load`;
//! - a tenant alone: `Lone`, `run_alone`; with a watch: `slice_watched`; brought back to a
//!   snapshot: `SnapshotTenant`, whose branches an `EdgeMap` counts, and whose accesses an
//!   `ExactWatch` judges;
//! - tenants over shared frames: `Host`;
//! - sessions: `report`, `run_session` over any `Sink`, `run_both`.
//!
//! docs/RUST.md has a first use of each.
#![tactic(auto)]

mod accessed_value;
mod heap_access;
mod heap_answer;
mod heap_bench;
mod heap_op;
mod instruction_access;
pub mod kinds;
mod session_report;
mod trace_arrays;
mod trace_laws;
mod trace_request;
mod traced_run;

pub use a64_decode::{Decoder, decode};
pub use a64_instr::Instr;
pub use a64_run::{OpCache, run_cached, run_on_cache};
pub use a64_step::{Outcome, Regs, Stop, run, step};
pub use a64_text::{Text, TextAt};
pub use common::Obstacle;
pub use heap_answer::answer;
pub use heap_bench::HeapBench;
pub use heap_bounds::{Bounds, Span, Trespass};
pub use heap_op::{HeapAnswer, HeapOp};
pub use instruction_access::{InstructionAccess, access_of};
pub use mte_elf::{ElfError, Plan, Segment, load, plan};
pub use mte_flat::Flat;
pub use mte_sched::{Host, Tenant};
pub use mte_session::{
    Event, ScriptError, ScriptFault, Session, SessionError, Sink, Source, StreamError, WriteFault,
    parse_script, read_whole, run_both, run_session, write_report,
};
pub use mte_svc::{AnsweredCall, HeapCalls, Input, Output};
pub use mte_tags::{
    Attrs, FaultKind, MemFault, NoPagesLeft, PageStore, Paged, Rgsr, TagMode, TagState, Tagged,
    choose_non_excluded, tag_of, with_tag,
};
pub use mte_tenant::{
    Admission, AdmitError, Lone, NotLive, Record, Refusal, Status, TenantParts, Terms, Watch,
    admit_alone, run_alone, settle, slice, slice_watched,
};
pub use scudo_heap::{Heap, HeapAbort, HeapCall, condition_of_calls};
pub use session_report::report;
pub use tenant_snapshot::{
    CountedEdges, EdgeMap, Edges, ExactFinding, ExactWatch, NoEdges, RunWatch, SnapshotTenant,
};
pub use trace_arrays::{TraceArrays, TracedAccess, TracedInstruction};
pub use trace_laws::{steps_without_access_keep_memory, traces_are_runs};
pub use trace_request::TraceRequest;
pub use traced_run::{TraceEnd, run_traced};
