//! Files that are read by their names.

ghost use Rattle.std.specs.Prelude.{◌≡◌, map, IfOk, IfErr};
ghost use Rattle.mte_session.specs.Files.{contents};
ghost use Rattle.mte_session.specs.Reads.{FilesLog, after_file, names_of, ReadInOrder, Stopped};

use crate::ending::Ending;
use mte_streams::ReadFault;
use std::alloc::Global;

/// Where files are found by their names.
pub trait Files {
    /// Which files were read, and what came of each, as far as it is known: a system says nothing.
    ghost log: { Self → FilesLog };

    /// All bytes of the file with a name, or why it could not be read.
    fn read_file(&mut self, alloc: Global, name: &str) -> Result<Vec<u8>, ReadFault>
        ensures log { log self.new ≡ after_file (log self.old) name.now result };
}

/// Reads the files with these names, in order, up to the first that cannot be read.
pub fn read_files<'a, F: Files>(
    alloc: Global,
    files: &mut F,
    names: &'a [String],
) -> Result<Vec<Vec<u8>>, Ending<'a>>
    ensures all { IfOk result (λ whole. ReadInOrder (names_of names.now) (contents whole.items)
        (F.log files.old) (F.log files.new)) }
    ensures stopped { IfErr result (λ ending. Stopped (names_of names.now) ending
        (F.log files.old) (F.log files.new)) }
{
    let mut whole = Vec::new(alloc);
    for name in names {
        let bytes = match files.read_file(alloc, name.as_str()) {
            Ok(bytes) => bytes,
            Err(fault) => return Err(Ending::of_read(fault, name.as_str())),
        };
        if whole.push(bytes).is_err() {
            return Err(Ending::Memory);
        }
    }
    Ok(whole)
}
