//! Why an access failed, and where.

ghost use Rattle.std.specs.Prelude.{◌≡◌};
ghost use Rattle.mte_tags.specs.FaultNames.{kind_name};

/// Why an access failed.
#[derive(Clone, Copy, PartialEq, Eq, Debug)]
pub enum FaultKind {
    /// No page is mapped there.
    Translation,
    /// The page lacks READ, WRITE or EXEC.
    Permission,
    /// The address tag is not the granule's allocation tag.
    TagCheck,
    /// A store of tags at an address that is not a multiple of 16.
    Alignment,
    /// A stack pointer used as a base that is not a multiple of 16.
    SpAlignment,
    /// A fetch at an address that is not a multiple of 4.
    PcAlignment,
}

impl FaultKind {
    /// Its name in a report.
    pub fn name(self) -> &'static str
        ensures { result.now ≡ kind_name self }
    {
        match self {
            FaultKind::Translation => "Translation",
            FaultKind::Permission => "Permission",
            FaultKind::TagCheck => "TagCheck",
            FaultKind::Alignment => "Alignment",
            FaultKind::SpAlignment => "SpAlignment",
            FaultKind::PcAlignment => "PcAlignment",
        }
    }
}

/// A synchronous data or instruction abort: the first byte or granule of an access that failed
/// (Arm ARM DDI 0487, AArch64.CheckTag and the fault types of FaultRecord).
#[derive(Clone, Copy, PartialEq, Eq, Debug)]
pub struct MemFault {
    /// The plain address that failed, below 2^56. For the alignment kinds the unaligned address.
    pub addr: u64,
    pub kind: FaultKind,
    /// Whether a store failed.
    pub write: bool,
    /// The tag of the address that was used, below 16.
    pub ptr_tag: u8,
    /// The allocation tag that differs, for TagCheck; 0 for the other kinds.
    pub mem_tag: u8,
}

/// Rebuilds the result field by field, so that the compiler keeps it in registers.
#[inline(always)]
pub(crate) fn by_fields(answer: Result<(), MemFault>) -> Result<(), MemFault>
    ensures { result ≡ answer }
{
    match answer {
        Ok(()) => Ok(()),
        Err(fault) => Err(MemFault {
            addr: fault.addr,
            kind: fault.kind,
            write: fault.write,
            ptr_tag: fault.ptr_tag,
            mem_tag: fault.mem_tag,
        }),
    }
}
