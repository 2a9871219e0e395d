//! Tags of granules, two a byte: an even granule's in the low half, an odd one's in the high half.

ghost use Rattle.std.specs.Prelude.{◌≡◌, ◌+◌, ◌*◌, ◌/◌, ◌%◌, ◌<◌, ◌≤◌, length, slice_set};
ghost use Rattle.mte_arena.specs.Blocks.{half, tags_of_bytes};
ghost use Rattle.mte_arena.specs.Frames.{IsTagRun, with_run};

/// The longest run that is written without a call: two whole bytes and a half.
const SHORT_RUN: usize = 5;

pub(crate) fn half_of(byte: u8, g: usize) -> u8
    ensures { result ≡ half byte g }
{
    (byte >> (4 * (g % 2))) % 16
}

/// The byte with another tag for the granule `g`.
fn with_half(byte: u8, g: usize, tag: u8) -> u8
    requires { tag < 16 }
    ensures own { half result g ≡ tag }
    ensures other { half result (g + 1) ≡ half byte (g + 1) }
{
    if g % 2 == 0 {
        byte / 16 * 16 + tag
    } else {
        tag * 16 + byte % 16
    }
}

/// Sets the tag of the granule `g`.
pub(crate) fn set_half(packed: &mut [u8], g: usize, tag: u8)
    requires { IsTagRun (length packed.old * 2) g 1 tag }
    ensures tags { tags_of_bytes packed.new ≡ slice_set (tags_of_bytes packed.old) g tag }
    ensures len { length packed.new ≡ length packed.old }
{
    packed[g / 2] = with_half(packed[g / 2], g, tag);
}

/// Sets the tags of the `count` granules from `first` on, in whole bytes but for the ends.
#[inline(always)]
pub(crate) fn set_run(packed: &mut [u8], first: usize, count: usize, tag: u8)
    requires { IsTagRun (length packed.old * 2) first count tag }
    ensures tags { tags_of_bytes packed.new ≡ with_run (tags_of_bytes packed.old) first count tag }
    ensures len { length packed.new ≡ length packed.old }
{
    if count == 0 {
        return;
    }
    if first % 2 == 0 {
        set_even_run(packed, first, count, tag);
    } else {
        set_half(packed, first, tag);
        set_even_run(packed, first + 1, count - 1, tag);
    }
}

/// Writes a run that begins at an even granule: a short one, as a small chunk has, without a call.
#[inline(never)]
fn set_even_run(packed: &mut [u8], first: usize, count: usize, tag: u8)
    requires run { IsTagRun (length packed.old * 2) first count tag }
    requires even { first % 2 ≡ 0 }
    ensures tags { tags_of_bytes packed.new ≡ with_run (tags_of_bytes packed.old) first count tag }
    ensures len { length packed.new ≡ length packed.old }
{
    if count > SHORT_RUN {
        set_long_run(packed, first, count, tag);
        return;
    }
    set_few_pairs(packed, first / 2, count / 2, tag);
    set_odd_end(packed, first, count, tag);
}

/// Sets both tags of each of at most two bytes from `from` on.
#[inline(always)]
fn set_few_pairs(packed: &mut [u8], from: usize, count: usize, tag: u8)
    requires run { IsTagRun (length packed.old * 2) (from * 2) (count * 2) tag }
    requires few { count ≤ 2 }
    ensures tags { tags_of_bytes packed.new
        ≡ with_run (tags_of_bytes packed.old) (from * 2) (count * 2) tag }
    ensures len { length packed.new ≡ length packed.old }
{
    if count == 0 {
        return;
    }
    packed[from] = tag * 17;
    if count == 2 {
        packed[from + 1] = tag * 17;
    }
}

/// Sets the last tag of a run of an odd number of granules that begins at an even granule.
#[inline(always)]
fn set_odd_end(packed: &mut [u8], first: usize, count: usize, tag: u8)
    requires run { IsTagRun (length packed.old * 2) first count tag }
    requires even { first % 2 ≡ 0 }
    ensures tags { tags_of_bytes packed.new
        ≡ with_run (tags_of_bytes packed.old) (first + count / 2 * 2) (count % 2) tag }
    ensures len { length packed.new ≡ length packed.old }
{
    if count % 2 == 1 {
        set_low_half(packed, first / 2 + count / 2, tag);
    }
}

/// Sets the tag of the even granule of the byte `at`.
#[inline(always)]
fn set_low_half(packed: &mut [u8], at: usize, tag: u8)
    requires { IsTagRun (length packed.old * 2) (at * 2) 1 tag }
    ensures tags { tags_of_bytes packed.new ≡ slice_set (tags_of_bytes packed.old) (at * 2) tag }
    ensures len { length packed.new ≡ length packed.old }
{
    packed[at] = packed[at] / 16 * 16 + tag;
}

/// Writes a run of any length that begins at an even granule.
// In `set_even_run` its call of `memset` would make each short run save registers. The call comes
// last, so that few values live across it.
#[inline(never)]
fn set_long_run(packed: &mut [u8], first: usize, count: usize, tag: u8)
    requires run { IsTagRun (length packed.old * 2) first count tag }
    requires even { first % 2 ≡ 0 }
    ensures tags { tags_of_bytes packed.new ≡ with_run (tags_of_bytes packed.old) first count tag }
    ensures len { length packed.new ≡ length packed.old }
{
    set_odd_end(packed, first, count, tag);
    set_pairs(packed, first / 2, count / 2, tag);
}

/// Sets both tags of each of the `count` bytes from `from` on.
fn set_pairs(packed: &mut [u8], from: usize, count: usize, tag: u8)
    requires { IsTagRun (length packed.old * 2) (from * 2) (count * 2) tag }
    ensures tags { tags_of_bytes packed.new
        ≡ with_run (tags_of_bytes packed.old) (from * 2) (count * 2) tag }
    ensures len { length packed.new ≡ length packed.old }
{
    packed[from..from + count].fill(tag * 17);
}
