//! The tag of an address, and the choice of a tag.

ghost use Rattle.std.specs.Prelude.{◌≡◌, ◌+◌, ◌-◌, ◌*◌, ◌%◌, ◌<◌, ◌≤◌, ◌^◌};
ghost use Rattle.std.specs.Prelude.{length, count_by, slice_index, nat_lt};
ghost use Rattle.a64_bits.specs.Addresses.{address_tag};
ghost use Rattle.mte_tags.specs.TagChoice.{allowed_tags, chosen_tag};

const TAG_UNIT: u64 = 1 << 56;

/// For each exclude mask of eight tags how many it leaves, and in octal digits which, the lowest
/// last.
#[rattlefmt::skip]
static ALLOWED: [u32; 256] = [
    0o10_76543210, 0o7_07654321, 0o7_07654320, 0o6_00765432, 0o7_07654310, 0o6_00765431,
    0o6_00765430, 0o5_00076543, 0o7_07654210, 0o6_00765421, 0o6_00765420, 0o5_00076542,
    0o6_00765410, 0o5_00076541, 0o5_00076540, 0o4_00007654, 0o7_07653210, 0o6_00765321,
    0o6_00765320, 0o5_00076532, 0o6_00765310, 0o5_00076531, 0o5_00076530, 0o4_00007653,
    0o6_00765210, 0o5_00076521, 0o5_00076520, 0o4_00007652, 0o5_00076510, 0o4_00007651,
    0o4_00007650, 0o3_00000765, 0o7_07643210, 0o6_00764321, 0o6_00764320, 0o5_00076432,
    0o6_00764310, 0o5_00076431, 0o5_00076430, 0o4_00007643, 0o6_00764210, 0o5_00076421,
    0o5_00076420, 0o4_00007642, 0o5_00076410, 0o4_00007641, 0o4_00007640, 0o3_00000764,
    0o6_00763210, 0o5_00076321, 0o5_00076320, 0o4_00007632, 0o5_00076310, 0o4_00007631,
    0o4_00007630, 0o3_00000763, 0o5_00076210, 0o4_00007621, 0o4_00007620, 0o3_00000762,
    0o4_00007610, 0o3_00000761, 0o3_00000760, 0o2_00000076, 0o7_07543210, 0o6_00754321,
    0o6_00754320, 0o5_00075432, 0o6_00754310, 0o5_00075431, 0o5_00075430, 0o4_00007543,
    0o6_00754210, 0o5_00075421, 0o5_00075420, 0o4_00007542, 0o5_00075410, 0o4_00007541,
    0o4_00007540, 0o3_00000754, 0o6_00753210, 0o5_00075321, 0o5_00075320, 0o4_00007532,
    0o5_00075310, 0o4_00007531, 0o4_00007530, 0o3_00000753, 0o5_00075210, 0o4_00007521,
    0o4_00007520, 0o3_00000752, 0o4_00007510, 0o3_00000751, 0o3_00000750, 0o2_00000075,
    0o6_00743210, 0o5_00074321, 0o5_00074320, 0o4_00007432, 0o5_00074310, 0o4_00007431,
    0o4_00007430, 0o3_00000743, 0o5_00074210, 0o4_00007421, 0o4_00007420, 0o3_00000742,
    0o4_00007410, 0o3_00000741, 0o3_00000740, 0o2_00000074, 0o5_00073210, 0o4_00007321,
    0o4_00007320, 0o3_00000732, 0o4_00007310, 0o3_00000731, 0o3_00000730, 0o2_00000073,
    0o4_00007210, 0o3_00000721, 0o3_00000720, 0o2_00000072, 0o3_00000710, 0o2_00000071,
    0o2_00000070, 0o1_00000007, 0o7_06543210, 0o6_00654321, 0o6_00654320, 0o5_00065432,
    0o6_00654310, 0o5_00065431, 0o5_00065430, 0o4_00006543, 0o6_00654210, 0o5_00065421,
    0o5_00065420, 0o4_00006542, 0o5_00065410, 0o4_00006541, 0o4_00006540, 0o3_00000654,
    0o6_00653210, 0o5_00065321, 0o5_00065320, 0o4_00006532, 0o5_00065310, 0o4_00006531,
    0o4_00006530, 0o3_00000653, 0o5_00065210, 0o4_00006521, 0o4_00006520, 0o3_00000652,
    0o4_00006510, 0o3_00000651, 0o3_00000650, 0o2_00000065, 0o6_00643210, 0o5_00064321,
    0o5_00064320, 0o4_00006432, 0o5_00064310, 0o4_00006431, 0o4_00006430, 0o3_00000643,
    0o5_00064210, 0o4_00006421, 0o4_00006420, 0o3_00000642, 0o4_00006410, 0o3_00000641,
    0o3_00000640, 0o2_00000064, 0o5_00063210, 0o4_00006321, 0o4_00006320, 0o3_00000632,
    0o4_00006310, 0o3_00000631, 0o3_00000630, 0o2_00000063, 0o4_00006210, 0o3_00000621,
    0o3_00000620, 0o2_00000062, 0o3_00000610, 0o2_00000061, 0o2_00000060, 0o1_00000006,
    0o6_00543210, 0o5_00054321, 0o5_00054320, 0o4_00005432, 0o5_00054310, 0o4_00005431,
    0o4_00005430, 0o3_00000543, 0o5_00054210, 0o4_00005421, 0o4_00005420, 0o3_00000542,
    0o4_00005410, 0o3_00000541, 0o3_00000540, 0o2_00000054, 0o5_00053210, 0o4_00005321,
    0o4_00005320, 0o3_00000532, 0o4_00005310, 0o3_00000531, 0o3_00000530, 0o2_00000053,
    0o4_00005210, 0o3_00000521, 0o3_00000520, 0o2_00000052, 0o3_00000510, 0o2_00000051,
    0o2_00000050, 0o1_00000005, 0o5_00043210, 0o4_00004321, 0o4_00004320, 0o3_00000432,
    0o4_00004310, 0o3_00000431, 0o3_00000430, 0o2_00000043, 0o4_00004210, 0o3_00000421,
    0o3_00000420, 0o2_00000042, 0o3_00000410, 0o2_00000041, 0o2_00000040, 0o1_00000004,
    0o4_00003210, 0o3_00000321, 0o3_00000320, 0o2_00000032, 0o3_00000310, 0o2_00000031,
    0o2_00000030, 0o1_00000003, 0o3_00000210, 0o2_00000021, 0o2_00000020, 0o1_00000002,
    0o2_00000010, 0o1_00000001, 0o1_00000000, 0o0_00000000,
];

/// 2^16 divided by each number from 1 to 16, rounded up.
static INVERSES: [u32; 17] = [
    0, 65_536, 32_768, 21_846, 16_384, 13_108, 10_923, 9363, 8192, 7282, 6554, 5958, 5462, 5042,
    4682, 4370, 4096,
];

/// The tag of an address: its bits 59 to 56 (Arm ARM DDI 0487, AArch64.LogicalAddressTag).
pub fn tag_of(address: u64) -> u8
    ensures { result ≡ address_tag address }
{
    (address / TAG_UNIT % 16) as u8
}

/// The address with another tag, below 16, in its bits 59 to 56; the other bits stay
/// (Arm ARM DDI 0487, AArch64.AddressWithAllocationTag).
pub fn with_tag(address: u64, tag: u8) -> u64
    requires { tag < 16 }
    ensures { result ≡ address - 2 ^ 56 * address_tag address + 2 ^ 56 * tag }
{
    address - TAG_UNIT * u64::from(tag_of(address)) + TAG_UNIT * u64::from(tag)
}

/// The tag that stands `offset` allowed places after `tag`, in a circle; with offset 0 the first
/// allowed one at or after `tag`. Bit t of `exclude` excludes the tag t; where all 16 are set the
/// result is 0. Tag and offset are below 16 (Arm ARM DDI 0487, ChooseNonExcludedTag).
pub fn choose_non_excluded(tag: u8, offset: u8, exclude: u16) -> u8
    requires tag { tag < 16 }
    requires offset { offset < 16 }
    ensures choice { result ≡ chosen_tag tag offset exclude }
    ensures below { result < 16 }
{
    let count = count_allowed(exclude);
    if count == 0 {
        return 0;
    }
    let rank = if offset == 0 {
        count_below(exclude, tag)
    } else {
        count_below(exclude, tag + 1) + u32::from(offset) - 1
    };
    allowed_at(exclude, remainder(rank, count))
}

/// The remainder of a rank by a number of tags, without a division.
#[inline]
fn remainder(rank: u32, count: u32) -> u32
    requires rank { rank < 32 }
    requires some { 0 < count }
    requires most { count ≤ 16 }
    ensures { result ≡ rank % count }
{
    let times = (rank * INVERSES[count as usize]) >> 16;
    rank - times * count
}

/// How many tags are not excluded.
#[inline]
fn count_allowed(exclude: u16) -> u32
    ensures count { result ≡ length (allowed_tags exclude) }
    ensures most { result ≤ 16 }
{
    (ALLOWED[(exclude % 256) as usize] >> 24) + (ALLOWED[(exclude / 256) as usize] >> 24)
}

/// The tag of a rank, from 0 on, among those that are not excluded.
#[inline]
fn allowed_at(exclude: u16, rank: u32) -> u8
    requires { rank < length (allowed_tags exclude) }
    ensures tag { result ≡ slice_index (allowed_tags exclude) rank }
    ensures below { result < 16 }
{
    let low = ALLOWED[(exclude % 256) as usize];
    let count = low >> 24;
    if rank < count {
        return ((low >> (3 * rank)) % 8) as u8;
    }
    let high = ALLOWED[(exclude / 256) as usize];
    ((high >> (3 * (rank - count))) % 8) as u8 + 8
}

/// How many tags below a bound are not excluded.
#[inline]
fn count_below(exclude: u16, bound: u8) -> u32
    requires { bound ≤ 16 }
    ensures count { result ≡ count_by (λ a. nat_lt a bound) (allowed_tags exclude) }
    ensures most { result ≤ 16 }
{
    let others = (0x1_0000 - (1u32 << bound)) as u16;
    count_allowed(exclude | others)
}
