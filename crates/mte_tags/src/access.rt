//! The requirements of an access on a page, and how it fails.

ghost use Rattle.std.specs.Prelude.{◌≡◌, ◌&&◌, false};
ghost use Rattle.mte_tags.specs.Memory.{has};
ghost use Rattle.mte_tags.specs.Accesses.{read_access, write_access, fetch_access, without_check};
ghost use Rattle.mte_tags.specs.Accesses.{fault};

use crate::attrs::Attrs;
use crate::fault::{FaultKind, MemFault};
use crate::tags::tag_of;

/// The requirements of an access on each of its bytes.
#[derive(Clone, Copy)]
pub struct Access {
    /// The bits of `Attrs` that the page must have.
    pub need: u8,
    /// Whether it is a store.
    pub write: bool,
    /// Whether address tags are compared with allocation tags, on TAGGED pages.
    pub checked: bool,
    /// The tag of the address that is used, below 16.
    pub tag: u8,
}

impl Access {
    /// A read at an address, which needs READ.
    pub(crate) fn reading(addr: u64, checked: bool) -> Access
        ensures { result ≡ read_access addr checked }
    {
        Access {
            need: Attrs::READ.0,
            write: false,
            checked,
            tag: tag_of(addr),
        }
    }

    /// A write at an address, which needs WRITE.
    pub(crate) fn writing(addr: u64, checked: bool) -> Access
        ensures { result ≡ write_access addr checked }
    {
        Access {
            need: Attrs::WRITE.0,
            write: true,
            checked,
            tag: tag_of(addr),
        }
    }

    /// A fetch at an address, which needs EXEC.
    pub fn fetching(pc: u64) -> Access
        ensures { result ≡ fetch_access pc }
    {
        Access {
            need: Attrs::EXEC.0,
            write: false,
            checked: false,
            tag: tag_of(pc),
        }
    }

    /// This access without a comparison of tags.
    pub(crate) fn unchecked(&self) -> Access
        ensures { result ≡ without_check self.now }
    {
        let mut other = *self;
        other.checked = false;
        other
    }

    /// One that requires attributes alone.
    pub(crate) fn needing(attrs: Attrs) -> Access
        ensures { result
            ≡ record { need = attrs.0; write = false; checked = false; tag = 0 } }
    {
        Access {
            need: attrs.0,
            write: false,
            checked: false,
            tag: 0,
        }
    }

    /// One that requires nothing but a mapped page.
    pub(crate) fn mapped() -> Access
        ensures { result ≡ record { need = 0; write = false; checked = false; tag = 0 } }
    {
        Access {
            need: 0,
            write: false,
            checked: false,
            tag: 0,
        }
    }

    /// Whether a page with these attributes has all that it requires.
    #[inline(always)]
    pub(crate) fn is_permitted(&self, attrs: Attrs) -> bool
        ensures { result ≡ has attrs.0 self.now.need }
    {
        attrs.contains(Attrs(self.need))
    }

    /// Whether tags are compared on a page with these attributes.
    #[inline(always)]
    pub(crate) fn is_compared(&self, attrs: Attrs) -> bool
        ensures { result ≡ (self.now.checked && has attrs.0 8) }
    {
        self.checked && attrs.contains(Attrs::TAGGED)
    }

    /// The fault of this access at a plain address; `mem_tag` is the granule's tag for TagCheck,
    /// else 0.
    pub fn fault(&self, kind: FaultKind, addr: u64, mem_tag: u8) -> MemFault
        ensures { result ≡ fault kind self.now addr mem_tag }
    {
        MemFault {
            kind,
            addr,
            write: self.write,
            ptr_tag: self.tag,
            mem_tag,
        }
    }
}
