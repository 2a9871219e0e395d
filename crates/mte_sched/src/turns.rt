//! One tenant's turn, next to the others: a slice, a stop.

ghost use Rattle.std.specs.Prelude.{◌≡◌, ◌+◌, map, length, count_by, vec_capacity};
ghost use Rattle.mte_sched.specs.Contents.{tenant_after_slice, tenant_after_stop};
ghost use Rattle.mte_tenant.specs.Ledger.{is_live};
ghost use Rattle.mte_sched.specs.Tenants.{tenants_in, entries_in};
ghost use Rattle.mte_sched.specs.Sharing.{IsSharing, HasLiveAt};

use crate::memory::stop_memory;
use crate::tenant::{Caches, Holding, Live, Tenant};
use a64_run::CompiledBlocks;
use mte_frames::FramePool;
use mte_svc::TenantParts;
use mte_tenant::halt;
use mte_translate::Tlb;

/// A slice of the tenant that has the number, and of no other.
pub(crate) fn slice_at<T: CompiledBlocks>(
    pool: &mut FramePool,
    caches: &mut Caches,
    tenants: &mut [Tenant],
    asid: usize,
    id: u16,
    steps: u32,
)
    requires sharing { IsSharing pool.old caches.old.tlb tenants.old }
    requires live { HasLiveAt tenants.old asid id }
    ensures sharing { IsSharing pool.new caches.new.tlb tenants.new }
    ensures frames { length pool.new.frames ≡ length pool.old.frames }
    ensures capacities { pool.new.capacities ≡ pool.old.capacities }
    ensures tenants { tenants_in pool.new tenants.new
        ≡ map (tenant_after_slice id steps) (tenants_in pool.old tenants.old) }
{
    let tenant = &mut tenants[asid];
    if let Holding::Live(live) = &mut tenant.holding {
        pool.recall();
        live.slice::<T>(pool, caches, asid, tenant.pages, steps);
        pool.recall();
    }
}

/// A stop of the tenant that has the number, and of no other. Its record stays; all else that it
/// has is given back.
pub(crate) fn stop_at(
    pool: &mut FramePool,
    tlb: &mut Tlb,
    tenants: &mut Vec<Tenant>,
    asid: usize,
    id: u16,
)
    requires sharing { IsSharing pool.old tlb.old tenants.old.items }
    requires live { HasLiveAt tenants.old.items asid id }
    ensures sharing { IsSharing pool.new tlb.new tenants.new.items }
    ensures frames { length pool.new.frames ≡ length pool.old.frames }
    ensures capacities { pool.new.capacities ≡ pool.old.capacities }
    ensures room { vec_capacity tenants.new ≡ vec_capacity tenants.old }
    ensures tenants { tenants_in pool.new tenants.new.items
        ≡ map (tenant_after_stop id) (tenants_in pool.old tenants.old.items) }
    ensures live { count_by is_live (entries_in tenants.new.items) + 1
        ≡ count_by is_live (entries_in tenants.old.items) }
{
    // the last takes its place until it comes back
    let Tenant { pages, holding } = tenants.swap_remove(asid);
    let Holding::Live(live) = holding else {
        unreachable!();
    };
    let Live { parts, memory } = live;
    let mut parts = Box::into_inner(parts);
    halt(&mut parts);
    stop_memory(pool, tlb, asid, pages, memory);
    let TenantParts { history, .. } = parts;
    let last = tenants.len();
    tenants.push_reserved(Tenant {
        pages,
        holding: Holding::Gone(history),
    });
    tenants.swap(asid, last);
}
