//! The size classes (Scudo, `size_class_map.h`: the fixed map with MinSizeLog 5, MidSizeLog 8, S
//! 2).

ghost use Rattle.std.specs.Prelude.{◌≡◌, ◌↔◌, ◌≤◌, ◌<◌, ◌%◌, ◌^◌, ◌==◌, IfSome, IsNone};
ghost use Rattle.scudo_header.specs.Classes.{size_of, class_for, IsClass, IsLeastClass};
ghost use Rattle.scudo_header.specs.Regions.{region_of};

use crate::config::{CLASSES, LARGEST_CLASS_SIZE};
use common::{REGION_SIZE, REGIONS_START};

/// The size up to which the sizes are the multiples of 32.
const MIDDLE_SIZE: u64 = 256;

/// Its binary logarithm.
const MIDDLE_SIZE_LOG: u32 = 8;

static SIZES: [u64; 45] = [
    0, 32, 64, 96, 128, 160, 192, 224, 256, 320, 384, 448, 512, 640, 768, 896, 1024, 1280, 1536,
    1792, 2048, 2560, 3072, 3584, 4096, 5120, 6144, 7168, 8192, 10240, 12288, 14336, 16384, 20480,
    24576, 28672, 32768, 40960, 49152, 57344, 65536, 81920, 98304, 114_688, 131_072,
];

/// 2^41 by each size, rounded up.
static RECIPROCALS: [u64; 45] = [
    0,
    68_719_476_736,
    34_359_738_368,
    22_906_492_246,
    17_179_869_184,
    13_743_895_348,
    11_453_246_123,
    9_817_068_106,
    8_589_934_592,
    6_871_947_674,
    5_726_623_062,
    4_908_534_053,
    4_294_967_296,
    3_435_973_837,
    2_863_311_531,
    2_454_267_027,
    2_147_483_648,
    1_717_986_919,
    1_431_655_766,
    1_227_133_514,
    1_073_741_824,
    858_993_460,
    715_827_883,
    613_566_757,
    536_870_912,
    429_496_730,
    357_913_942,
    306_783_379,
    268_435_456,
    214_748_365,
    178_956_971,
    153_391_690,
    134_217_728,
    107_374_183,
    89_478_486,
    76_695_845,
    67_108_864,
    53_687_092,
    44_739_243,
    38_347_923,
    33_554_432,
    26_843_546,
    22_369_622,
    19_173_962,
    16_777_216,
];

/// The bytes of the blocks of a class, 1 to `CLASSES` (`getSizeByClassId`).
#[inline]
pub fn size_of_class(class: u8) -> u64
    requires class { IsClass class }
    ensures size { result ≡ size_of class }
    ensures least { 32 ≤ result }
    ensures most { result ≤ LARGEST_CLASS_SIZE }
    ensures multiple { result % 32 ≡ 0 }
{
    SIZES[class as usize]
}

/// The first address of a class's region.
#[inline(always)]
pub fn region_start(class: u8) -> u64
    ensures { result ≡ region_of class }
{
    REGIONS_START + u64::from(class) * REGION_SIZE
}

/// Whether a distance below 2^24 is a multiple of the bytes of a class's blocks. A product with the
/// reciprocal gives the one number that it may be the multiple by.
#[inline]
pub fn is_multiple(class: u8, distance: u64) -> bool
    requires class { IsClass class }
    requires near { distance < 2 ^ 24 }
    ensures { result ≡ (distance % size_of class == 0) }
{
    let number = (distance * RECIPROCALS[class as usize]) >> 41;
    number * SIZES[class as usize] == distance
}

/// The least class whose blocks hold `need` bytes (`getClassIdBySize`). There is none where `need`
/// is above `LARGEST_CLASS_SIZE`.
#[inline]
pub fn class_of(need: u64) -> Option<u8>
    ensures class { result ≡ class_for need }
    ensures least { IfSome result (λ class. IsLeastClass class need) }
    ensures none { IsNone result ↔ (LARGEST_CLASS_SIZE < need) }
{
    if need > LARGEST_CLASS_SIZE {
        return None;
    }
    if need <= MIDDLE_SIZE {
        Some(class_by_units(need))
    } else {
        Some(class_by_quarters(need))
    }
}

/// The least class where the sizes are the multiples of 32.
#[inline]
fn class_by_units(need: u64) -> u8
    requires { need ≤ MIDDLE_SIZE }
    ensures { IsLeastClass result need }
{
    ((need.max(1) + 31) / 32) as u8
}

/// The least class where the sizes go up by quarters of a power of two.
#[inline]
fn class_by_quarters(need: u64) -> u8
    requires above { MIDDLE_SIZE < need }
    requires most { need ≤ LARGEST_CLASS_SIZE }
    ensures { IsLeastClass result need }
{
    let last = need - 1;
    let log = last.ilog2();
    let quarters = last >> (log - 2);
    (u64::from(log - MIDDLE_SIZE_LOG) * 4 + quarters + 5) as u8
}
