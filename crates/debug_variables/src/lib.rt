//! Where an image has its variables: those of frames by `.debug_info` (DWARF 5 and DWARF 4, 2.5,
//! 3.3 and 4.1), and those of the image by its symbols (System V ABI, Object Files: `Elf64_Sym`).
//! Entries that cannot be read are left out: a file with wrong entries has fewer variables.
#![tactic(auto)]

mod blocks;
mod declaration;
mod frame_table;
mod object_table;
mod search;
mod types;

pub use blocks::LexicalBlock;
pub use declaration::{Declaration, VariableName};
pub use frame_table::{
    FrameBase, FrameBases, FrameFunction, FrameVariable, FrameVariables, Neighbor, PlacedVariable,
};
pub use object_table::{ImageObject, ImageObjects};
