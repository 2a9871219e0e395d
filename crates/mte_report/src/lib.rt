//! Why a tenant ended, in words: the cause, whose granule an address is in, the calls that led to
//! it, the registers, the pages and the last instructions. And its heap as a picture.
#![tactic(auto)]

mod context;
mod drawing;
mod explanation;
mod findings;
mod hints;
mod leaks;
mod report;
mod stacks;
mod story;

pub use context::Context;
pub use explanation::Explanation;
pub use findings::FindingList;
pub use hints::requested_bytes;
pub use report::Report;
pub use tenant_map::PictureForm;
