//! The report of a tenant for other programs: as JSON, as a log in SARIF, and as a page of HTML
//! that shows the heap step by step.
#![tactic(auto)]

mod document;
mod heap_page;
mod json;
mod sarif;

pub use document::Document;
