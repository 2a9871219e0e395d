//! The blocks that fuzzed runs take before their table of decoded instructions. tools/translate.py
//! puts those of images in their place.

/// None are compiled.
pub use a64_run::NoBlocks as Hot;
