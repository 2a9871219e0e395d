//! The blocks that sessions run before their tables of decoded instructions. tools/translate.py
//! puts those of images in their place.

/// None are compiled.
pub use a64_run::NoBlocks as Hot;
