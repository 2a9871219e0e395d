//! Sessions, a tenant alone, a tagged memory, a step, a run and a heap for programs in C: exports
//! over memory that the caller lends to each call. Nothing is kept between calls but the machine
//! that `tb_fuzz_new` makes and `tb_fuzz_free` frees, and only these, `tb_fuzz_run`,
//! `tb_fuzz_run_exact`, `tb_fuzz_run_compared`, `tb_session`, `tb_alone`, `tb_machine_acts`,
//! `tb_machine_pages`, `tb_heap_calls`, `tb_heap_replay`, `tb_heap_pages` and `tb_heap_live`
//! allocate.
#![tactic(auto)]

mod act;
mod act_kinds;
mod alone_calls;
mod alone_end;
mod blocks;
mod build_calls;
mod codes;
mod compare_calls;
mod faults;
mod find;
mod fuzz_answer;
mod fuzz_calls;
mod fuzz_input;
mod heap_lists;
mod kept_calls;
mod lent;
mod lent_bytes;
mod lent_heap;
mod lent_page;
mod lent_regs;
mod lent_step;
mod lent_terms;
mod live_chunks;
mod machine;
mod machine_calls;
mod memory;
mod memory_calls;
mod page_calls;
mod pages;
mod refusal_codes;
mod registers;
mod replay_calls;
mod run_calls;
mod run_until;
mod session_calls;
mod session_end;
mod status_report;
mod stops;
mod text_calls;
mod traces;

pub use act::MachineAct;
pub use act_kinds::acts_in_digits;
pub use alone_calls::tb_alone;
pub use alone_end::AloneEnd;
pub use build_calls::tb_build_info;
pub use codes::{
    aborts_in_digits, answers_in_digits, faults_in_digits, heap_calls_in_digits, pages_in_digits,
    refusals_in_digits, script_faults_in_digits, statuses_in_digits, trespasses_in_digits,
};
pub use compare_calls::{tb_fuzz_read, tb_fuzz_run_compared};
pub use faults::FaultReport;
pub use fuzz_answer::FuzzFinding;
pub use fuzz_calls::{tb_fuzz_free, tb_fuzz_new, tb_fuzz_run, tb_fuzz_run_exact};
pub use fuzz_input::LentFuzzInput;
pub use heap_lists::tb_heap_calls;
pub use kept_calls::KeptCall;
pub use lent::LentTagState;
pub use lent_bytes::LentBytes;
pub use lent_heap::{HeapSetup, LentHeapCall};
pub use lent_page::LentPage;
pub use lent_regs::LentRegs;
pub use lent_step::HeapStep;
pub use lent_terms::LentTerms;
pub use live_chunks::{LiveChunk, tb_heap_live};
pub use machine_calls::{MachineEnd, tb_machine_acts, tb_machine_pages};
pub use memory_calls::{TagStore, tb_load, tb_load_tag, tb_read, tb_store_tags, tb_write};
pub use page_calls::{tb_map, tb_memory_init, tb_unmap, tb_version};
pub use pages::PageEntry;
pub use replay_calls::{tb_heap_pages, tb_heap_replay};
pub use run_calls::{tb_run, tb_step};
pub use run_until::tb_run_until;
pub use session_calls::tb_session;
pub use session_end::SessionEnd;
pub use status_report::StatusReport;
pub use stops::StopReport;
pub use text_calls::tb_disassemble;
pub use traces::{TraceReport, tb_run_traced};
