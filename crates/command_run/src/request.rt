//! The request of a command line, with the bytes of the files that it names.

use mte_session::file_of;
use mte_tags::TagMode;
use run_terms::{Options, Suppressions};

/// The request of a command line, with the bytes of the files that it names.
#[derive(Clone, Copy)]
pub struct RunRequest<'a, 'x> {
    /// The system.
    pub rt: &'x HostRuntime,
    /// The command line.
    pub options: &'a Options,
    /// The bytes of its files.
    pub files: &'x [Vec<u8>],
    /// Which findings are not written.
    pub suppressions: &'x Suppressions,
}

/// An image.
#[derive(Clone, Copy)]
pub struct Image<'x> {
    /// The name of its file.
    pub name: &'x str,
    /// Its bytes.
    pub bytes: &'x [u8],
}

/// A run of a tenant, besides the tenant.
#[derive(Clone, Copy)]
pub struct Run<'x> {
    /// Its image.
    pub image: Image<'x>,
    /// Its seed, where it ran alone.
    pub seed: Option<u64>,
    /// The mode of tag checks.
    pub mode: TagMode,
}

impl<'a, 'x> RunRequest<'a, 'x> {
    /// The image in the file with a number from 1.
    pub fn image(&self, number: u32) -> Image<'_> {
        Image {
            name: self.options.file_name(number),
            bytes: file_of(self.files, number),
        }
    }
}
