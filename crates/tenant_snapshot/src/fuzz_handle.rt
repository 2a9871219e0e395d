//! A pointer to a boxed machine, or null.

ghost use Rattle.std.specs.Prelude.{◌≡◌, Option, Some, None, option_map};
ghost use Rattle.tenant_snapshot.specs.declared.tenant.SnapshotTenant.{SnapshotTenant as Machine};
ghost use Rattle.tenant_snapshot.specs.Held.{held_at, coded_held};

use crate::loose_box::LooseBox;
use crate::tenant::SnapshotTenant;
use std::alloc::Global;
use std::marker::Model;
use std::mem::replace;
use std::ptr::null_mut;

/// A boxed machine, or none: what C keeps between calls.
#[repr(C)]
#[derive(Drop)]
pub struct FuzzHandle {
    machine: *mut u8,
    /// The machine.
    pub ghost value: { Option Machine } by { coded_held },
}

impl Model for FuzzHandle {
    ghost also_owns = { λ h. held_at h.machine h.value };
}

impl FuzzHandle {
    /// Takes the machine out, if there is one; then there is none.
    pub fn take(&mut self, alloc: Global) -> Option<Box<SnapshotTenant>>
        ensures taken { option_map (λ b. b.value) result ≡ self.old.value }
        ensures none { self.new.value ≡ None }
    {
        replace(self, FuzzHandle::none()).into_box(alloc)
    }

    /// Keeps a machine. There is none before.
    pub fn put(&mut self, machine: Box<SnapshotTenant>)
        ensures { self.new.value ≡ Some machine.value }
    {
        *self = FuzzHandle::tight(LooseBox::of(machine));
    }

    /// Frees the machine, if there is one.
    pub fn free(&mut self, alloc: Global)
        ensures { self.new.value ≡ None }
    {
        let _machine = self.take(alloc);
    }

    /// The machine, if there is one.
    fn into_box(self, alloc: Global) -> Option<Box<SnapshotTenant>>
        ensures { option_map (λ b. b.value) result ≡ self.value }
    {
        match self.loose(alloc) {
            Some(machine) => Some(machine.into_box()),
            None => None,
        }
    }

    /// No machine.
    pub fn none() -> FuzzHandle
        ensures { result.value ≡ None }
    {
        FuzzHandle {
            machine: null_mut(),
        }
    }

    /// The owner of a machine, as a handle.
    fn tight(machine: LooseBox<SnapshotTenant, Global>) -> FuzzHandle
        ensures { result.value ≡ Some machine.value }
    {
        let LooseBox { at, alloc: _ } = machine;
        FuzzHandle {
            machine: at as *mut u8,
        }
    }

    /// The owner of the machine, if there is one.
    fn loose(self, alloc: Global) -> Option<LooseBox<SnapshotTenant, Global>>
        ensures { option_map (λ l. l.value) result ≡ self.value }
    {
        let FuzzHandle { machine } = self;
        if machine.is_null() {
            None
        } else {
            Some(LooseBox {
                at: machine as *mut SnapshotTenant,
                alloc,
            })
        }
    }
}
