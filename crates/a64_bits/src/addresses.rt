//! Parts of an address.

ghost use Rattle.std.specs.Prelude.{◌≡◌};
ghost use Rattle.a64_bits.specs.Addresses;

/// The plain address: the low 56 bits, below 2^56.
#[inline(always)]
pub fn plain(address: u64) -> u64
    ensures { result ≡ Addresses.plain address }
{
    address % (1 << 56)
}
