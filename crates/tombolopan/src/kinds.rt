//! The kinds of accesses, as sums of numbers.

ghost use Rattle.std.specs.Prelude.{◌≡◌};

/// Bytes are read.
pub const ACCESS_READ: u32 = 1;
/// Bytes are written.
pub const ACCESS_WRITE: u32 = 2;
/// A tag is read.
pub const ACCESS_READ_TAG: u32 = 4;
/// Tags are written.
pub const ACCESS_WRITE_TAG: u32 = 8;

/// The kinds in digits, as `tombolopan.h` has them.
pub fn kinds_in_digits()
    ensures read { ACCESS_READ ≡ 1 }
    ensures write { ACCESS_WRITE ≡ 2 }
    ensures read_tag { ACCESS_READ_TAG ≡ 4 }
    ensures write_tag { ACCESS_WRITE_TAG ≡ 8 }
{}
