//! The title of a picture of the heap.

use run_terms::Options;
use std::fmt;

/// The name of the run: the image's name without its folder, or a tenant of a script.
#[derive(Clone, Copy)]
pub struct MapTitle<'a>(pub &'a Options);

impl<'a> fmt::Display for MapTitle<'a> {
    fn fmt<W: fmt::Write>(&self, f: &mut fmt::Formatter<W>) -> fmt::Result {
        if let Some(replay) = &self.0.replay {
            let (id, script) = (replay.id, without_folder(replay.script.as_str()));
            return write!(f, "tenant {id} of {script}");
        }
        match self.0.files.first() {
            Some(image) => f.write_str(without_folder(image.as_str())),
            None => Ok(()),
        }
    }
}

/// The text after the last slash of a file's name.
fn without_folder(name: &str) -> &str {
    match name.rsplit_once('/') {
        Some((_, last)) => last,
        None => name,
    }
}
