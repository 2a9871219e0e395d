//! What branches do to the calls that are open.

use elf_symbols::SymbolOffset;

/// BR, BLR and RET without their register (Arm ARM DDI 0487, C6.2).
const BY_REGISTER: u32 = 0xFFFF_FC1F;

/// What a branch does to the calls that are open.
#[derive(Clone, Copy, PartialEq, Eq)]
pub enum CallChange {
    /// Nothing.
    Stay,
    /// A call is opened.
    Call,
    /// The last call becomes another one, of the function whose first instruction follows.
    Tail,
    /// A call is closed, or several are: a function goes on that has the next instruction.
    Return,
}

impl CallChange {
    /// What the branch of a word does, by the symbols of its own place and of the next one.
    pub fn of(word: u32, from: &SymbolOffset<'_>, to: &SymbolOffset<'_>) -> CallChange {
        // BL, then BLR, then RET.
        if word >> 26 == 0x25 || word & BY_REGISTER == 0xD63F_0000 {
            return CallChange::Call;
        }
        if word & BY_REGISTER == 0xD65F_0000 {
            return CallChange::Return;
        }
        match to.shares_function(from) {
            Some(false) if to.offset() == 0 => CallChange::Tail,
            Some(false) => CallChange::Return,
            _ => CallChange::Stay,
        }
    }
}
