//! Remembered bytes of a live chunk.

ghost use Rattle.std.specs.Prelude.{◌≡◌, ◌≤◌, ◌<◌, ◌+◌, ◌^◌, true};

/// The bytes of a live chunk.
#[derive(Clone, Copy)]
pub(crate) struct LiveBytes {
    pub(crate) start: u64,
    pub(crate) len: u64,
    ghost fits: { start + len < 2 ^ 64 },
}

impl LiveBytes {
    /// No chunk.
    #[inline(always)]
    pub(crate) fn none() -> LiveBytes
        ensures { result.len ≡ 0 }
    {
        LiveBytes { start: 0, len: 0 }
    }

    /// Whether it has all bytes of an access, one at least.
    #[inline(always)]
    pub(crate) fn has(&self, first: u64, bytes: u64) -> bool
        ensures some { result ≡ true → 0 < self.now.len }
        ensures from { result ≡ true → self.now.start ≤ first }
        ensures to { result ≡ true → first + bytes ≤ self.now.start + self.now.len }
    {
        let offset = first.wrapping_sub(self.start);
        offset < self.len && bytes <= self.len - offset
    }
}
