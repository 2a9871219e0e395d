//! The shadow of a tenant's memory and registers while it runs: of which pages something is
//! known, where pointers point, what an instruction did, and which function of C or C++ makes or
//! frees a chunk; and what a program says of its own chunks.
#![tactic(auto)]

mod access;
mod called_function;
mod client_request;
mod function_table;
mod function_watch;
mod heap_function;
mod memory_shadow;
mod origin;
mod page_numbers;
mod pointer_sums;
mod register_use;
mod shadow_page;
mod step;

pub use access::{AccessedBytes, RegisterAccess};
pub use called_function::CalledFunction;
pub use client_request::{ClientRequest, RequestKind};
pub use function_watch::{FreeingFunction, HeapFunctionWatch, ReturnedChunk};
pub use heap_function::HeapFunction;
pub use memory_shadow::MemoryShadow;
pub use origin::{OriginKind, PointerOrigin, Provenance};
pub use page_numbers::PageNumbers;
pub use pointer_sums::{PointerSums, Sign};
pub use register_use::{
    BranchKind, InstructionClass, PointerRule, RegisterUse, RegisterUses, ValueSource,
};
pub use step::{Full, Step};
