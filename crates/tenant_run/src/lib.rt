//! A run of one tenant, what watches it, and how it ended.
#![tactic(auto)]

mod bench;
mod ending;
mod line_log;
mod lone;
mod observer;
mod output_stream;
mod progress;
mod refusal;
mod seeds;
mod slices;
mod store_watcher;
mod survey;
mod tracer;
mod whole_file;

pub use bench::{TenantBench, WatchLevel, Watcher};
pub use ending::{LastLine, REFUSED, TenantEnding};
pub use line_log::{finder_of, observer_of, quiet_observer};
pub use lone::{LoneTenant, admission_of, wants_second_run};
pub use observer::Observer;
pub use refusal::{RefusalLines, remedy_of};
pub use store_watcher::StoreWatcher;
pub use survey::Survey;
pub use whole_file::{WholeFile, replace_file};
