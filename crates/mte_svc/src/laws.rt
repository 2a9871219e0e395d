//! Facts that no service changes.

ghost use Rattle.std.specs.Prelude.{◌≡◌};
ghost use Rattle.mte_tags.specs.Memory.{Memory};
ghost use Rattle.mte_tags.specs.Fixed.{KeepsFixed};
ghost use Rattle.scudo_heap.specs.Served.{HeapOwnsItsPages};
ghost use Rattle.scudo_heap.specs.Sound.{IsSound};
ghost use Rattle.mte_svc.specs.Services.{after_svc};

use crate::parts::TenantParts;

/// No service changes a page that is mapped without WRITE: neither its bytes, nor its attributes,
/// nor whether it is mapped.
pub fn services_keep_fixed_pages()
    ensures { (p : TenantParts) (m : Memory)
        → HeapOwnsItsPages m p.heap
        → IsSound p.heap
        → KeepsFixed m (after_svc p m).memory }
{}
