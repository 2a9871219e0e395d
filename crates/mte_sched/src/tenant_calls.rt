//! The calls of a host for a tenant.

ghost use Rattle.std.specs.Prelude.{◌≡◌, ◌==◌, ◌&&◌, option_map};
ghost use Rattle.mte_tenant.specs.Ledger.{has_id, has_live_id};
ghost use Rattle.mte_sched.specs.Tenants.{record_in, entry_in};
ghost use Rattle.mte_sched.specs.Views.{find_page_cases, HasSomeTable};

use crate::tenant::{Holding, Tenant};
use mte_frames::FramePool;
use mte_svc::Record;

impl Tenant {
    /// Its record.
    pub fn record(&self) -> &Record
        ensures { result.now ≡ record_in self.now }
    {
        match &self.holding {
            Holding::Live(live) => &live.parts.history,
            Holding::Gone(record) => record,
        }
    }

    /// Whether it is live: admitted, and not stopped.
    pub fn is_live(&self) -> bool
        ensures { result ≡ (entry_in self.now).live }
    {
        match &self.holding {
            Holding::Live(_) => true,
            Holding::Gone(_) => false,
        }
    }

    /// Whether it has the number.
    pub(crate) fn has_id(&self, id: u16) -> bool
        ensures { result ≡ has_id id (entry_in self.now) }
    {
        self.record().id == id
    }

    /// Whether it is live and has the number.
    pub(crate) fn has_live_id(&self, id: u16) -> bool
        ensures { result ≡ has_live_id id (entry_in self.now) }
    {
        self.is_live() && self.has_id(id)
    }

    /// The frame of a page, by its table.
    pub(crate) fn find_frame(&self, pool: &FramePool, page: u64) -> Option<usize>
        requires { HasSomeTable pool.now self.now.holding }
        ensures { result ≡ option_map (λ x. x.0) (find_page_cases pool.now page self.now.holding) }
    {
        match &self.holding {
            Holding::Live(live) => {
                let (frame, _) = live.memory.table.walk(pool, page)?;
                Some(frame)
            }
            Holding::Gone(_) => None,
        }
    }
}
