//! Files of the system. What they give is not known to any contract.

ghost use Rattle.std.specs.Prelude.{None};

use mte_session::{Files, ReadFault, StreamSource, read_whole};
use std::alloc::Global;
use std::fs::File;

/// The files of the system.
#[derive(Drop)]
pub struct SystemFiles<'a>(pub &'a HostRuntime);

impl<'a> Files for SystemFiles<'a> {
    ghost log = { λ _. None };

    fn read_file(&mut self, alloc: Global, name: &str) -> Result<Vec<u8>, ReadFault> {
        let Ok(file) = File::open(self.0, name) else {
            return Err(ReadFault::Read);
        };
        let expected = match file.metadata() {
            Ok(metadata) => metadata.len() as usize,
            Err(_) => 0,
        };
        read_whole(alloc, &mut StreamSource(file), expected)
    }
}
