//! Where a tenant is, by its number.

ghost use Rattle.std.specs.Prelude.{◌≡◌, ◌+◌, ◌<◌, ◌≤◌, [], get_or, slice_set};
ghost use Rattle.std.specs.Prelude.{IfOk, vec_capacity};
ghost use Rattle.mte_sched.specs.declared.index.TheConstants.{NUMBERS};

use std::alloc::{AllocError, Global};

/// How many numbers there are.
pub(crate) const NUMBERS: usize = 65536;

/// For each number, where the tenant that was admitted with it is among all tenants. For a
/// number that was never admitted it has some position, where no tenant with the number is. The
/// numbers past its end have position 0.
#[derive(Drop)]
pub(crate) struct Index {
    positions: Vec<u16>,
    ghost room: { NUMBERS ≤ vec_capacity positions },
}

impl Index {
    ghost use Rattle.mte_sched.specs.Sharing.{positions_for};

    /// Position 0 for all numbers. It has memory for all of them, and takes no more.
    pub(crate) fn new(alloc: Global) -> Result<Index, AllocError>
        ensures { IfOk result (λ index. index.positions.items ≡ []) }
    {
        let positions = Vec::with_capacity(alloc, NUMBERS)?;
        Ok(Index { positions })
    }

    /// The one place where the tenant with the number can be.
    pub(crate) fn position(&self, id: u16) -> usize
        ensures { result ≡ get_or self.now.positions.items id 0 }
    {
        match self.positions.get(usize::from(id)) {
            Some(position) => usize::from(*position),
            None => 0,
        }
    }

    /// Enters where the tenant with the number is.
    pub(crate) fn enter(&mut self, id: u16, position: usize)
        requires { position < NUMBERS }
        ensures entered { self.new.positions.items
            ≡ slice_set (positions_for self.old.positions.items (id + 1)) id position }
        ensures room { vec_capacity self.new.positions ≡ vec_capacity self.old.positions }
    {
        let id = usize::from(id);
        for _ in self.positions.len()..id + 1 {
            self.positions.push_reserved(0);
        }
        self.positions[id] = position as u16;
    }
}
