//! Which loads, stores and pairs there are, and which bases they may write back.

ghost use Rattle.std.specs.Prelude.{◌<◌, IsTrue, ◌↔◌};
ghost use Rattle.a64_asm.specs.FieldTests.{Holds};
ghost use Rattle.a64_asm.specs.Encoding.{load_store, load_store_pair, write_back};

/// Whether there is a load or store of 2^`size` bytes with `opc`, both below 4.
#[inline(always)]
pub fn is_load_store(size: u8, opc: u8) -> bool
    requires size { size < 4 }
    requires opc { opc < 4 }
    ensures { IsTrue result ↔ Holds (load_store size opc) }
{
    match size {
        2 => opc < 3,
        3 => opc < 2,
        _ => true,
    }
}

/// Whether there is a pair with `opc`, a load where `l` is 1, of the registers `rt` and `rt2`.
#[inline(always)]
pub fn is_load_store_pair(opc: u8, l: u8, rt: u8, rt2: u8) -> bool
    requires opc { opc < 4 }
    requires l { l < 2 }
    ensures { IsTrue result ↔ Holds (load_store_pair opc l rt rt2) }
{
    if opc == 3 || opc == 1 && l == 0 {
        return false;
    }
    l == 0 || rt != rt2
}

/// Whether the base `rn` may be written back by an access of the register `rt`: they differ, or
/// `rn` is SP (31).
#[inline(always)]
pub fn may_write_back(rn: u8, rt: u8) -> bool
    ensures { IsTrue result ↔ Holds (write_back rn rt) }
{
    rn != rt || rn == 31
}
