//! How the program ends: its exit status, and its line on standard error.

ghost use Rattle.std.specs.Prelude.{◌≡◌, ◌⊎◌};
ghost use Rattle.mte_streams.specs.Writing.{Writes, WroteAll, WrotePart};
ghost use Rattle.mte_session.specs.Endings.{status_of, ending_text, ending_of, read_ending};

use crate::session::SessionError;
use crate::text::write_parts;
use itoa::Buffer;
use mte_script::ScriptFault;
use mte_streams::{ReadFault, Sink, WriteFault};

/// How a run of the program ended, after its command line was read.
#[derive(Clone, Copy, Debug, PartialEq, Eq)]
pub enum Ending<'a> {
    /// The report was written.
    Done,
    /// The script's first faulty line, counted from 1, and what is wrong with it.
    Script(u64, ScriptFault),
    /// An allocation failed.
    Memory,
    /// A file could not be read; its name as it was given.
    Read(&'a str),
    /// Standard output could not be written.
    Write,
}

/// Writes the line for standard error, if there is one, and returns the exit status, whether or not
/// the line could be written: 0 done, 3 script, 4 memory, 5 read, 6 write.
pub fn finish<W: Sink>(ending: &Ending<'_>, out: &mut W) -> u8
    ensures status { result ≡ status_of ending.now }
    ensures line { WroteAll (W.log out.old) (W.log out.new) (ending_text ending.now)
        ⊎ WrotePart (W.log out.old) (W.log out.new) (ending_text ending.now) }
{
    let _ = write_line(ending, out);
    match ending {
        Ending::Done => 0,
        Ending::Script(_, _) => 3,
        Ending::Memory => 4,
        Ending::Read(_) => 5,
        Ending::Write => 6,
    }
}

/// Writes the line for standard error, if there is one.
fn write_line<W: Sink>(ending: &Ending<'_>, out: &mut W) -> Result<(), WriteFault>
    ensures { Writes (W.log out.old) (W.log out.new) result (ending_text ending.now) }
{
    match ending {
        Ending::Done => write_parts(out, &[]),
        Ending::Script(line, fault) => {
            let mut digits = Buffer::new();
            let number = digits.format(*line).as_bytes();
            write_parts(
                out,
                &[
                    b"mte_host: script line ",
                    number,
                    b": ",
                    fault.name().as_bytes(),
                    b"\n",
                ],
            )
        }
        Ending::Memory => write_parts(out, &[b"mte_host: out of memory\n"]),
        Ending::Read(name) => {
            write_parts(out, &[b"mte_host: cannot read ", name.as_bytes(), b"\n"])
        }
        Ending::Write => write_parts(out, &[b"mte_host: cannot write\n"]),
    }
}

impl<'a> Ending<'a> {
    /// The ending where a file cannot be read as a whole: `Memory` where an allocation failed, else
    /// `Read`.
    pub fn of_read(fault: ReadFault, name: &'a str) -> Ending<'a>
        ensures { result ≡ read_ending fault name.entry }
    {
        match fault {
            ReadFault::OutOfMemory => Ending::Memory,
            ReadFault::Read | ReadFault::TooLong => Ending::Read(name),
        }
    }
}

impl<'a> From<SessionError> for Ending<'a> {
    ghost from_gives = { λ e r. r ≡ ending_of e };

    fn from(error: SessionError) -> Ending<'a> {
        match error {
            SessionError::Script(line, fault) => Ending::Script(line, fault),
            SessionError::OutOfMemory => Ending::Memory,
            SessionError::Write => Ending::Write,
        }
    }
}
