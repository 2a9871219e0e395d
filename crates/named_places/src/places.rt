//! The variables of a tenant.

use crate::blocks::BlockNotes;
use crate::frames::FrameStack;
use crate::marks::RegisterMarks;
use crate::table::PlaceTable;
use debug_variables::{FrameFunction, FrameVariables, ImageObjects};
use std::alloc::{AllocError, Global};

/// The variables of an image, the frames of its functions, and the pointers
/// to them.
pub struct NamedPlaces {
    pub(crate) alloc: Global,
    pub(crate) variables: FrameVariables,
    pub(crate) objects: ImageObjects,
    pub(crate) table: PlaceTable,
    pub(crate) frames: FrameStack,
    pub(crate) marks: RegisterMarks,
    pub(crate) blocks: BlockNotes,
}

impl Drop for NamedPlaces {
    fn drop(self) {
        let NamedPlaces {
            alloc: _,
            variables: _,
            objects: _,
            table: _,
            frames: _,
            marks: _,
            blocks: _,
        } = self;
    }
}

impl NamedPlaces {
    /// Of a tenant of an image, at its first instruction.
    pub fn new(alloc: Global, image: &[u8]) -> Result<NamedPlaces, AllocError> {
        let variables = FrameVariables::of(alloc, image)?;
        let objects = ImageObjects::of(alloc, image)?;
        let table = PlaceTable::new(alloc, &objects, &variables)?;
        Ok(NamedPlaces {
            alloc,
            variables,
            objects,
            table,
            frames: FrameStack::new(alloc),
            marks: RegisterMarks::NONE,
            blocks: BlockNotes::NONE,
        })
    }

    /// The function at an address, if it is known.
    pub(crate) fn function_at(&self, pc: u64) -> Option<FrameFunction> {
        self.variables.function_at(pc).copied()
    }

    /// Whether the function at an address is known, and was not optimized.
    pub(crate) fn is_exact_at(&self, pc: u64) -> bool {
        self.function_at(pc)
            .is_some_and(|function| !function.is_optimized)
    }
}
