//! The conditions on the flags.

ghost use Rattle.std.specs.Prelude.{◌≡◌, ◌<◌};
ghost use Rattle.a64_registers.specs.Conditions.{holds};

use a64_bits::Flags;

/// Whether a condition of four bits holds (ConditionHolds): the upper three select a test, and the
/// lowest inverts it, but for the last condition, which always holds.
#[inline(always)]
#[tactic(auto, unfolding(crate::specs::Conditions::holds))]
pub fn condition_holds(flags: Flags, cond: u8) -> bool
    requires { cond < 16 }
    ensures { result ≡ holds flags cond }
{
    let test = match cond / 2 {
        0 => flags.z,
        1 => flags.c,
        2 => flags.n,
        3 => flags.v,
        4 => flags.c && !flags.z,
        5 => flags.n == flags.v,
        6 => !flags.z && flags.n == flags.v,
        _ => return true,
    };
    if cond % 2 == 1 { !test } else { test }
}
