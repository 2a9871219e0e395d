//! Sizes of accesses as types: what takes one is compiled for that size alone.

ghost use Rattle.std.specs.Prelude.{◌≡◌, ℕ, ◌<◌, ◌≤◌};

/// How many bytes an access has, at most 16.
pub(crate) trait Size {
    /// The bytes.
    ghost BYTES: { ℕ };

    /// The same as a value.
    fn bytes() -> usize
        ensures bytes { result ≡ BYTES }
        ensures some { 0 < BYTES }
        ensures most { BYTES ≤ 16 };
}

/// A halfword.
pub(crate) struct Two;

impl Size for Two {
    ghost BYTES = { 2 };

    #[inline(always)]
    fn bytes() -> usize {
        2
    }
}

/// A word.
pub(crate) struct Four;

impl Size for Four {
    ghost BYTES = { 4 };

    #[inline(always)]
    fn bytes() -> usize {
        4
    }
}

/// A doubleword.
pub(crate) struct Eight;

impl Size for Eight {
    ghost BYTES = { 8 };

    #[inline(always)]
    fn bytes() -> usize {
        8
    }
}

/// A pair of doublewords.
pub(crate) struct Sixteen;

impl Size for Sixteen {
    ghost BYTES = { 16 };

    #[inline(always)]
    fn bytes() -> usize {
        16
    }
}
