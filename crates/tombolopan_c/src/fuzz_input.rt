//! The start of a run of a machine that is kept, which the caller lends.

/// The input of a run, its slices, and how its edges are counted.
#[repr(C)]
#[derive(Clone, Copy)]
pub struct LentFuzzInput<'a> {
    /// The bytes that the tenant may read.
    pub input: &'a [u8],
    /// How many instructions each of the run's slices attempts at most.
    pub slices: &'a [u32],
    /// Any number but 0 keeps a count at 255; else 0 comes after it.
    pub saturating: u32,
    /// Not used.
    pub unused: u32,
}
