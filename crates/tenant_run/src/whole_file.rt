//! Files that are written whole or not at all, and never through a link.

use std::fs::File;
use std::io::{BufWriter, Write};
use std::{fs, io};

/// How many names are tried for what is not whole yet.
const TRIES: u32 = 100;

/// A file that is written next to its name, which it gets once it is whole: up to then there is
/// what was there. A device or a pipe is written as it is.
#[derive(Drop)]
pub struct WholeFile<'n> {
    out: BufWriter<File>,
    name: &'n str,
    /// The name that it has up to then; none of a device or a pipe.
    part: Option<String>,
}

impl<'n> WholeFile<'n> {
    /// An empty file that is to have a name.
    pub fn create(rt: &HostRuntime, name: &'n str) -> io::Result<WholeFile<'n>> {
        if is_special(rt, name) {
            let out = BufWriter::new(rt.alloc(), File::create(rt, name)?)?;
            return Ok(WholeFile {
                out,
                name,
                part: None,
            });
        }
        if is_folder(rt, name) {
            return Err(io::Error::from(io::ErrorKind::IsADirectory));
        }
        let (file, part) = create_part(rt, name)?;
        match BufWriter::new(rt.alloc(), file) {
            Ok(out) => Ok(WholeFile {
                out,
                name,
                part: Some(part),
            }),
            Err(error) => {
                let _ = fs::remove_file(rt, part.as_str());
                Err(error)
            }
        }
    }

    /// Gives the file its name where all of it was written; else there is no such file.
    pub fn conclude(mut self, rt: &HostRuntime, written: io::Result<()>) -> io::Result<()> {
        let flushed = match written {
            Ok(()) => self.out.flush(),
            Err(error) => Err(error),
        };
        let Some(part) = &self.part else {
            return flushed;
        };
        let named = match flushed {
            Ok(()) => fs::rename(rt, part.as_str(), self.name),
            Err(error) => Err(error),
        };
        if named.is_err() {
            let _ = fs::remove_file(rt, part.as_str());
        }
        named
    }
}

impl<'n> Write for WholeFile<'n> {
    fn write(&mut self, bytes: &[u8]) -> io::Result<usize> {
        self.out.write(bytes)
    }

    fn flush(&mut self) -> io::Result<()> {
        self.out.flush()
    }
}

/// An empty file with a name, for what is written while a tenant runs. A file that is there is
/// replaced, and not what a link leads to.
pub fn replace_file(rt: &HostRuntime, name: &str) -> io::Result<File> {
    let is_replaced = match fs::symlink_metadata(rt, name) {
        Ok(found) => found.is_file() || found.is_symlink() && !is_special(rt, name),
        Err(_) => false,
    };
    if is_replaced {
        fs::remove_file(rt, name)?;
    }
    File::create(rt, name)
}

/// Whether a name is that of a device or a pipe, or of a link to one.
fn is_special(rt: &HostRuntime, name: &str) -> bool {
    match fs::metadata(rt, name) {
        Ok(found) => !found.is_file() && !found.is_dir(),
        Err(_) => false,
    }
}

/// Whether a name is that of a folder, or of a link to one.
fn is_folder(rt: &HostRuntime, name: &str) -> bool {
    match fs::metadata(rt, name) {
        Ok(found) => found.is_dir(),
        Err(_) => false,
    }
}

/// A new file next to a name, and its own name.
fn create_part(rt: &HostRuntime, name: &str) -> io::Result<(File, String)> {
    for number in 1..TRIES {
        let part = format!(in rt.alloc(); "{name}.part{number}")?;
        match File::create_new(rt, part.as_str()) {
            Ok(file) => return Ok((file, part)),
            Err(error) => {
                if error.kind() != io::ErrorKind::AlreadyExists {
                    return Err(error);
                }
            }
        }
    }
    Err(io::Error::from(io::ErrorKind::AlreadyExists))
}
