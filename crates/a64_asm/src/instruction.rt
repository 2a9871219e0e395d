//! The word of an instruction.

ghost use Rattle.std.specs.Option.{SomeIff};
ghost use Rattle.a64_asm.specs.Encoding.{IsAllowed, word_of};

use crate::rows::word_by_row;
use a64_instr::Instr;

/// The word of `instr`: the base of its row plus its fields at their places (Arm ARM DDI 0487,
/// C4.1). `None` if and only if a field exceeds its width or has a value that the row refuses.
pub fn encode(instr: &Instr) -> Option<u32>
    ensures { SomeIff result (IsAllowed instr.now) (word_of instr.now) }
{
    word_by_row(instr)
}
