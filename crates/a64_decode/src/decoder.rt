//! The instruction of a word.

ghost use Rattle.std.specs.Prelude.{◌≡◌, ◌↔◌, ℕ, IfSome};
ghost use Rattle.a64_asm.specs.Encoding.{IsAllowed, IsWordOf, word_of};
ghost use Rattle.a64_instr.specs.declared.instruction.Instr.{Instr};
ghost use Rattle.a64_decode.specs.Decoded.{instr_of_word};

use crate::groups::read;
use a64_asm::Instr;

/// The instruction whose word is `word` (Arm ARM DDI 0487, C4.1), `None` if and only if the profile
/// has none.
#[inline]
pub fn decode(word: u32) -> Option<Instr>
    ensures means { (i : Instr) → ((result ≡ Some i) ↔ IsWordOf word i) }
    // The same as a function of the word, for those who have to name the instruction.
    ensures value { result ≡ instr_of_word word }
    ensures fits { IfSome result IsAllowed }
{
    let mut found = None;
    read(word, &mut found);
    found
}

/// A word means the instruction that it is the word of, and nothing where there is none.
pub fn words_mean()
    ensures { (w : ℕ) (i : Instr) → ((instr_of_word w ≡ Some i) ↔ IsWordOf w i) }
{}

/// No two instructions have the same word.
pub fn words_are_unique()
    ensures { (i j : Instr)
        → IsAllowed i → IsAllowed j → word_of i ≡ word_of j → i ≡ j }
{}
