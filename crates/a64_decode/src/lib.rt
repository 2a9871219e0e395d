//! The instruction of a word, and a cache of decoded words.
#![tactic(auto)]

mod decode_cache;
mod decoder;
mod groups;
mod row;
mod rows;

pub use decode_cache::Decoder;
pub use decoder::{decode, words_are_unique, words_mean};
