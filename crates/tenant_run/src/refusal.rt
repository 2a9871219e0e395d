//! The texts of a tenant's refusal.

use crate::ending::REFUSED;
use mte_elf::ElfError;
use mte_tenant::AdmitError;
use std::fmt;

/// The lines of a tenant alone that is refused.
#[derive(Clone, Copy)]
pub struct RefusalLines(pub AdmitError);

impl fmt::Display for RefusalLines {
    fn fmt<W: fmt::Write>(&self, f: &mut fmt::Formatter<W>) -> fmt::Result {
        let error = self.0;
        let remedy = remedy_of(error);
        write!(f, "mte_run: the tenant is refused: {error}{remedy}\n")?;
        write!(f, "mte_run: ended by refusal, status {REFUSED}\n")
    }
}

/// The text after the name of a refusal.
pub fn remedy_of(error: AdmitError) -> &'static str {
    match error {
        AdmitError::Image(error) => remedy_of_image(error),
        AdmitError::ReservationTooSmall => ": --pages gives it more",
        _ => "",
    }
}

/// The text after the name of an image's refusal.
fn remedy_of_image(error: ElfError) -> &'static str {
    match error {
        ElfError::Short | ElfError::NotElf64 | ElfError::NotAarch64 => {
            ": is it an ELF64 file for AArch64?"
        }
        ElfError::NotExec => {
            ": position independent, or an object file: link with -static and no -pie"
        }
        ElfError::BadHeaders => ": the file is damaged",
        ElfError::Interpreter => ": it wants a dynamic linker: link with -static",
        ElfError::SegmentRange => {
            ": a segment is not in 0x1000 to 0x0FFFFFFF (-Wl,-Ttext-segment=ADDRESS), or not in \
             the file"
        }
        ElfError::Overlap => ": two segments share a page: link with -Wl,-z,separate-code",
        ElfError::NoEntry => ": the entry is in no executable segment: is there a _start?",
    }
}
