//! An admitted tenant.

use crate::memory::TenantMemory;
use a64_run::OpCache;
use mte_svc::{Record, TenantParts};
use mte_translate::Tlb;

/// An admitted tenant.
#[derive(Drop)]
pub struct Tenant {
    /// Its reservation.
    pub(crate) pages: u32,
    /// Its machine or its record.
    pub(crate) holding: Holding,
}

/// The state of a tenant: its machine, and once it was stopped its record alone.
#[derive(Drop)]
pub(crate) enum Holding {
    Live(Live),
    Gone(Record),
}

/// A machine.
#[derive(Drop)]
pub(crate) struct Live {
    /// All of it but its memory. It is apart, so that a stopped tenant needs no space for it.
    pub(crate) parts: Box<TenantParts>,
    /// Where its memory is.
    pub(crate) memory: TenantMemory,
}

/// The caches that all tenants share.
#[derive(Drop)]
pub(crate) struct Caches {
    pub(crate) tlb: Tlb,
    /// The decoded instructions, which hold for all of them.
    pub(crate) ops: OpCache,
}
