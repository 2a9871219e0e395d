//! Values of a command line that `clap` accepted, and that are refused.

use crate::file_names::has_shared_name;
use run_terms::{CHECK_FAULT, Options, OutputOptions};

/// Why values that `clap` accepted are refused.
#[derive(Clone, Copy)]
pub enum Fault {
    /// The seed is no number of up to 16 digits.
    Seed,
    /// The trace is not from one step to another.
    Trace,
    /// A word is no kind of what is checked.
    Check,
    /// The report of findings is off, they have an exit status, or the run goes on after them, but
    /// nothing is checked.
    Unchecked,
    /// Lost chunks have an exit status, but are not looked for.
    Lost,
    /// There are frames without a script.
    Frames,
    /// Output is to be raw without a script.
    RawOutput,
    /// A file that is written is also read, or written twice.
    Names,
    /// An argument that `--script` needs is missing.
    Script,
    /// There is no image, or more than one.
    Files,
}

impl Fault {
    /// The fault.
    pub fn text(self) -> &'static str {
        match self {
            Fault::Seed => "the seed is not a number of 1 to 16 hexadecimal digits",
            Fault::Trace => "the trace is not FROM-TO, two step numbers, the lower one first",
            Fault::Check => CHECK_FAULT,
            Fault::Unchecked => "--suppressions, --continue and --check-status are for --check",
            Fault::Lost => "--lost-status is for --check with leaks",
            Fault::Frames => "--frames is for a session: it wants --script",
            Fault::RawOutput => "--raw-output is for a session: it wants --script",
            Fault::Names => {
                "--json, --sarif, --html, --map, --core, --profile, --trace-file and --progress \
                 want different files, and none that is read"
            }
            Fault::Script => {
                "--script has two values, a file and a tenant's number, and wants --frames"
            }
            Fault::Files => "without --script there is one file, the image",
        }
    }
}

/// Which values do not go together, if some do not.
pub(crate) fn fault_of(options: &Options) -> Option<Fault> {
    if options.output.is_raw && options.replay.is_none() {
        Some(Fault::RawOutput)
    } else if has_shared_name(options) {
        Some(Fault::Names)
    } else {
        check_fault(&options.output)
    }
}

/// The fault of a check's options.
fn check_fault(output: &OutputOptions) -> Option<Fault> {
    let has_terms = output.suppressions.is_some()
        || output.found_status.is_some()
        || output.continues;
    if output.check.is_none() && has_terms {
        Some(Fault::Unchecked)
    } else if output.lost_status.is_some() && !output.check.leaks {
        Some(Fault::Lost)
    } else {
        None
    }
}
