//! The address map of a tenant: ranges of plain addresses, lowest first. Each range ends before
//! the address that is named its end.

ghost use Rattle.std.specs.Prelude.{◌≡◌};

use crate::limits::{MAX_PAGES, PAGE_SIZE};

/// The first address that an image may use. Page 0 is never mapped.
pub const IMAGE_START: u64 = 0x1000;

/// The end of the range of images.
pub const IMAGE_END: u64 = 0x1000_0000;

/// The region of size class c begins at `REGIONS_START + c * REGION_SIZE`.
pub const REGIONS_START: u64 = 0x1000_0000;

/// The bytes of the region of a size class.
pub const REGION_SIZE: u64 = 0x100_0000;

/// The first address of the range of secondary chunks.
pub const SECONDARY_START: u64 = 0x3D00_0000;

/// The end of the range of secondary chunks.
pub const SECONDARY_END: u64 = 0x3F00_0000;

/// The first address of the stack.
pub const STACK_START: u64 = 0x3FFF_C000;

/// The end of the stack, which is the stack pointer that a tenant starts with.
pub const STACK_END: u64 = 0x4000_0000;

/// The pages of the stack.
pub const STACK_PAGES: u64 = 4;

/// No page at or above this address is ever mapped.
pub const ADDRESS_END: u64 = 0x4000_0000;

/// The number of size classes, 1 to 44 (Scudo, `size_class_map.h`).
const CLASSES: u64 = 44;

const _: () = prove!(IMAGE_START >= PAGE_SIZE && IMAGE_END <= REGIONS_START + REGION_SIZE);

const _: () = prove!(REGIONS_START + (CLASSES + 1) * REGION_SIZE <= SECONDARY_START);

const _: () = prove!(MAX_PAGES * PAGE_SIZE <= REGION_SIZE);

const _: () = prove!(SECONDARY_START < SECONDARY_END && SECONDARY_END <= STACK_START);

const _: () = prove!(STACK_START + STACK_PAGES * PAGE_SIZE == STACK_END);

const _: () = prove!(STACK_END <= ADDRESS_END);

/// The ranges in digits.
pub fn ranges_in_digits()
    ensures image_start { IMAGE_START ≡ 4096 }
    ensures image_end { IMAGE_END ≡ 268435456 }
    ensures regions_start { REGIONS_START ≡ 268435456 }
    ensures region_size { REGION_SIZE ≡ 16777216 }
    ensures secondary_start { SECONDARY_START ≡ 1023410176 }
    ensures secondary_end { SECONDARY_END ≡ 1056964608 }
    ensures stack_start { STACK_START ≡ 1073725440 }
    ensures stack_end { STACK_END ≡ 1073741824 }
    ensures stack_pages { STACK_PAGES ≡ 4 }
    ensures address_end { ADDRESS_END ≡ 1073741824 }
{}
