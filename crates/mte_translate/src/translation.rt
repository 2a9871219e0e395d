//! An entry of a translation lookaside buffer.

ghost use Rattle.std.specs.Prelude.{◌≡◌};
ghost use Rattle.mte_translate.specs.Translations.{is_for};

use mte_tags::Attrs;

/// The most translations that stand at once.
pub const TLB_ENTRIES: usize = 64;

/// The translations of a buffer in digits.
pub fn tlb_entries_in_digits()
    ensures { TLB_ENTRIES ≡ 64 }
{}

/// The translation of one page of one address space.
#[derive(Clone, Copy)]
pub struct Translation {
    /// The address space identifier (Arm ARM DDI 0487, D8.16): the key of a tenant.
    pub asid: usize,
    /// The number of the page: its address divided by 4096.
    pub page: u64,
    /// The number of the frame that holds the page.
    pub frame: usize,
    /// The attributes of the page.
    pub attrs: Attrs,
}

impl Translation {
    /// Whether it translates the page in the address space.
    #[inline]
    pub(crate) fn is_for(&self, asid: usize, page: u64) -> bool
        ensures { result ≡ is_for asid page self.now }
    {
        self.asid == asid && self.page == page
    }
}

/// The value of unused entries.
impl Default for Translation {
    fn default() -> Translation {
        Translation {
            asid: 0,
            page: 0,
            frame: 0,
            attrs: Attrs::NONE,
        }
    }
}
