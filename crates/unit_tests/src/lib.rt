//! Tests of what no program and no call of the library reaches: types and laws of Rattle, and what
//! embedders in Rattle call.
#![tactic(auto)]

#[cfg(test)]
mod commands;
#[cfg(test)]
mod compiled_blocks;
#[cfg(test)]
mod doubles;
#[cfg(test)]
mod embedding;
#[cfg(test)]
mod hosts;
#[cfg(test)]
mod images;
#[cfg(test)]
mod laws;
#[cfg(test)]
mod lookaside;
#[cfg(test)]
mod sizes;
#[cfg(test)]
mod streams;
#[cfg(test)]
mod tenants;
#[cfg(test)]
mod texts;
