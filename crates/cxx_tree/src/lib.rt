//! The tree of what a linker's name of C++ says (Itanium C++ ABI, 5.1 "External Names").
#![tactic(auto)]

mod encodings;
mod expressions;
mod lists;
mod nested_names;
mod nodes;
mod operators;
mod parser;
mod reader;
mod special_names;
mod types;

pub use nodes::{Id, Node, Nodes};
pub use parser::Parser;
pub use reader::NameReader;
