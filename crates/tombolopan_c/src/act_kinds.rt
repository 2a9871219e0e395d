//! The acts on a machine, by their numbers.

ghost use Rattle.std.specs.Prelude.{◌≡◌};

/// A slice of at most `number` steps; it answers how many steps there were so far.
pub const ACT_SLICE: u32 = 1;
/// Reads the register with a number: x0 to x30 are 0 to 30, SP is 31, PC is 32.
pub const ACT_GET: u32 = 2;
/// Makes `value` the register with a number; of PC 56 bits count.
pub const ACT_SET: u32 = 3;
/// Reads eight bytes, the lowest first, and compares no tags.
pub const ACT_LOAD: u32 = 4;
/// Writes eight bytes, the lowest first, and compares no tags.
pub const ACT_STORE: u32 = 5;
/// Reads the allocation tag of a granule.
pub const ACT_LOAD_TAG: u32 = 6;

/// The number of SP.
pub const SP: u32 = 31;
/// The number of PC.
pub const PC: u32 = 32;

/// The numbers in digits, as `tombolopan.h` has them.
pub fn acts_in_digits()
    ensures slice { ACT_SLICE ≡ 1 }
    ensures get { ACT_GET ≡ 2 }
    ensures set { ACT_SET ≡ 3 }
    ensures load { ACT_LOAD ≡ 4 }
    ensures store { ACT_STORE ≡ 5 }
    ensures load_tag { ACT_LOAD_TAG ≡ 6 }
    ensures sp { SP ≡ 31 }
    ensures pc { PC ≡ 32 }
{}
