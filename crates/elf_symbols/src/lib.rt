//! The names of an image's addresses, by its symbols, as their source writes them: what linkers
//! make of names of C++ (Itanium C++ ABI, 5.1 "External Names") and of Rust (its legacy form) is
//! read.
#![tactic(auto)]

mod name_parts;
mod pieces;
mod plain;
mod printer;
mod questions;
mod rust_names;
mod symbol_name;
mod symbols;

pub use symbol_name::{ShownName, SymbolName};
pub use symbols::{Label, SymbolOffset, Symbols};
