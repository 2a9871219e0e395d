//! A tenant's memory over frames that it shares with others.
#![tactic(auto)]

mod clearing;
mod laws;
mod mapping;
mod remembered;
mod space;
mod translation;
mod writing;

pub use clearing::unmap_all;
pub use laws::{other_tenants_stay, pages_of_a_space, written_frames_are_pages};
pub use remembered::RememberedPages;
pub use space::{Space, Tenancy};
