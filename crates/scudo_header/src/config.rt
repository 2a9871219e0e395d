//! The settings of the heap (Scudo, `allocator_config.def`, `size_class_map.h`, `local_cache.h`).

ghost use Rattle.std.specs.Prelude.{◌≡◌};

/// The number of size classes: they are 1 to this.
pub const CLASSES: u8 = 44;

/// The bytes of the largest class's blocks.
pub const LARGEST_CLASS_SIZE: u64 = 131_072;

/// The largest size of a class's blocks of which a local cache holds `MAX_COUNT`.
pub const SMALL_SIZE: u64 = 512;

/// The most blocks of a class that a local cache or a batch holds (`MaxCount`).
pub const MAX_COUNT: usize = 28;

/// The count for the classes of blocks above `SMALL_SIZE` bytes.
pub const MAX_COUNT_ABOVE: usize = 8;

/// The most bytes of a request.
pub const MAX_REQUEST: u64 = 1_048_576;

/// The alignment of a chunk for which none is requested, and the least one.
pub const MIN_ALIGNMENT: u64 = 16;

/// The largest alignment of a request.
pub const MAX_ALIGNMENT: u64 = 4096;

/// The settings in digits.
pub fn settings_in_digits()
    ensures classes { CLASSES ≡ 44 }
    ensures largest { LARGEST_CLASS_SIZE ≡ 131072 }
    ensures small { SMALL_SIZE ≡ 512 }
    ensures count { MAX_COUNT ≡ 28 }
    ensures count_above { MAX_COUNT_ABOVE ≡ 8 }
    ensures request { MAX_REQUEST ≡ 1048576 }
    ensures least_alignment { MIN_ALIGNMENT ≡ 16 }
    ensures alignment { MAX_ALIGNMENT ≡ 4096 }
{}
