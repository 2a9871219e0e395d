//! The options of the program.

ghost use Rattle.std.specs.Prelude.{◌<◌, ◌≤◌};

use crate::kind_words::CheckKinds;
use tenant_terms::Terms;

/// A tenant of a session.
#[derive(Drop)]
pub struct Replay {
    /// The script's file name.
    pub script: String,
    /// The tenant's number.
    pub id: u16,
    /// The frames of the host.
    pub frames: u32,
}

/// The terms of a tenant that is alone, besides its image.
#[derive(Drop)]
pub struct RunOptions {
    /// The input's file name.
    pub input: Option<String>,
    /// Its terms.
    pub terms: Terms,
    /// Under how many seeds it is run; the first is the one of its terms.
    pub seeds: u32,
    ghost some: { 0 < terms.pages },
    ghost most: { terms.pages ≤ 4096 },
}

/// How long a tenant that is alone runs.
#[derive(Drop)]
pub struct RunLength {
    /// After how many steps the tenant is given up.
    pub steps: u64,
    /// The steps of its slices, where they are named.
    pub slices: Option<Vec<u32>>,
    /// The name of the file that gets a line after each slice, and whose end is that of the run.
    pub progress: Option<String>,
}

/// Which lines are written.
#[derive(Clone, Copy)]
pub struct Traced {
    /// The first step whose instruction has a line.
    pub from: u64,
    /// The last one.
    pub to: u64,
    /// Whether each service has a line.
    pub services: bool,
}

/// The outputs of a run.
pub struct OutputOptions {
    /// How many of the last instructions are remembered.
    pub last: usize,
    /// How many of them are written.
    pub last_lines: usize,
    /// How many of the last calls and returns are written.
    pub turns: usize,
    /// The lines that are written while it runs.
    pub traced: Option<Traced>,
    /// The name of the file that they are written into, instead of standard error.
    pub trace_file: Option<String>,
    /// Whether the live chunks are written.
    pub leaks: bool,
    /// Whether the numbers of the run are written.
    pub statistics: bool,
    /// The name of the file that the heap is drawn into.
    pub map: Option<String>,
    /// The name of the file that what happened is written into, for a program to read.
    pub json: Option<String>,
    /// The name of the file that what happened is written into as a log in SARIF.
    pub sarif: Option<String>,
    /// The name of the file that a page is written into which shows the heap step by step.
    pub page: Option<String>,
    /// Whether accesses are to keep to the bytes of chunks.
    pub exact: Exactness,
    /// The checks besides the tags.
    pub check: CheckKinds,
    /// The name of the file with what of that is not told.
    pub suppressions: Option<String>,
    /// Whether the run goes on after what a check finds.
    pub continues: bool,
    /// The exit status where something was found, instead of 137.
    pub found_status: Option<u8>,
    /// The exit status of a tenant that exited and lost chunks, instead of its own.
    pub lost_status: Option<u8>,
    /// The name of the file that the tenant's core is written into.
    pub core: Option<String>,
    /// The name of the file that the profile of the run is written into.
    pub profile: Option<String>,
    /// Whether output for which there is no space is a failure.
    pub is_whole: bool,
    /// Whether the output of a session's tenant is written as it is, instead of its lines of the
    /// report.
    pub is_raw: bool,
}

impl Drop for OutputOptions {
    fn drop(self) {
        let OutputOptions {
            last: _,
            last_lines: _,
            turns: _,
            traced: _,
            trace_file: _,
            leaks: _,
            statistics: _,
            map: _,
            json: _,
            sarif: _,
            page: _,
            exact: _,
            check: _,
            suppressions: _,
            continues: _,
            found_status: _,
            lost_status: _,
            core: _,
            profile: _,
            is_whole: _,
            is_raw: _,
        } = self;
    }
}

/// Which accesses are to keep to the bytes of chunks.
#[derive(Clone, Copy, PartialEq, Eq)]
pub enum Exactness {
    /// None: the tags alone decide.
    Tags,
    /// Those that write.
    Writes,
    /// All.
    All,
}

/// The options of the program.
pub struct Options {
    /// The names of the files: the image, or the files of a script.
    pub files: Vec<String>,
    /// The tenant of a session that is replayed, if one is.
    pub replay: Option<Replay>,
    /// The terms of a tenant that is alone.
    pub run: RunOptions,
    /// How long it runs.
    pub length: RunLength,
    /// The outputs of it.
    pub output: OutputOptions,
    /// Whether GDB debugs it.
    pub is_debugged: bool,
}

impl Drop for Options {
    fn drop(self) {
        let Options {
            files: _,
            replay: _,
            run: _,
            length: _,
            output: _,
            is_debugged: _,
        } = self;
    }
}

impl Options {
    /// The name of the file with a number from 1.
    pub fn file_name(&self, number: u32) -> &str {
        let index = (number as usize).saturating_sub(1);
        self.files.get(index).map_or("", |name| name.as_str())
    }

    /// The steps after which the tenant is given up.
    pub fn limit(&self) -> u64 {
        match self.replay {
            Some(_) => u64::MAX,
            None => self.length.steps,
        }
    }
}
