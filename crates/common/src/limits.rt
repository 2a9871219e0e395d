//! Sizes that the architecture fixes, and the limits of a tenant.

ghost use Rattle.std.specs.Prelude.{◌≡◌};

/// The bytes of a page, and of a frame that holds it.
pub const PAGE_SIZE: u64 = 4096;

/// The bytes of a granule, which has one allocation tag (Arm ARM DDI 0487, FEAT_MTE2).
pub const GRANULE_SIZE: u64 = 16;

/// The most frames that an arena has.
pub const MAX_FRAMES: usize = 65536;

/// The most pages that a tenant reserves, and that a heap or its parts are made for.
pub const MAX_PAGES: u64 = 4096;

/// The most bytes of output that a tenant has capacity for.
pub const MAX_OUTPUT: u64 = 65536;

/// The most instructions that a slice attempts.
pub const MAX_STEPS: u64 = 1_048_576;

/// The sizes and the limits in digits.
pub fn limits_in_digits()
    ensures page { PAGE_SIZE ≡ 4096 }
    ensures granule { GRANULE_SIZE ≡ 16 }
    ensures frames { MAX_FRAMES ≡ 65536 }
    ensures pages { MAX_PAGES ≡ 4096 }
    ensures output { MAX_OUTPUT ≡ 65536 }
    ensures steps { MAX_STEPS ≡ 1048576 }
{}
