//! The terms of a tenant alone, which the caller lends.

ghost use Rattle.std.specs.Prelude.{◌≡◌};
ghost use Rattle.mte_tenant.specs.Admissions.{start_in};
ghost use Rattle.tombolopan_c.specs.LoneTenants.{lent_start};

use mte_tags::TagMode;
use mte_tenant::{Admission, Terms};

/// The admission of a tenant alone, and its slices.
#[repr(C)]
#[derive(Clone, Copy)]
pub struct LentTerms<'a> {
    /// Its ELF64 image.
    pub image: &'a [u8],
    /// The bytes that it may read.
    pub input: &'a [u8],
    /// How many instructions each of its slices attempts at most.
    pub slices: &'a [u32],
    /// The seed of its random tags and of its heap.
    pub seed: u64,
    /// Its reservation, 1 to 4096 pages.
    pub pages: u32,
    /// How many bytes it may write, at most 65536.
    pub room: u32,
    /// Any number but 0 chooses the asynchronous mode.
    pub asynchronous: u32,
    /// Not used.
    pub unused: u32,
}

impl<'a> LentTerms<'a> {
    /// They as an admission, under the number 0.
    pub(crate) fn admission(&self) -> Admission<'a>
        ensures start { start_in result ≡ lent_start self.now }
        ensures number { result.id ≡ 0 }
        ensures pages { result.terms.pages ≡ self.now.pages }
    {
        let mode = if self.asynchronous == 0 {
            TagMode::Sync
        } else {
            TagMode::Async
        };
        Admission {
            id: 0,
            image: self.image,
            input: self.input,
            terms: Terms {
                seed: self.seed,
                pages: self.pages,
                room: self.room,
                mode,
            },
        }
    }
}
