//! A tenant of a session, and the same tenant in two sessions.

ghost use Rattle.mte_sched.specs.Isolation.{LedgerFollows, NumbersStay, TenantsAreAlone};
ghost use Rattle.mte_sched.specs.Isolation.{TenantsAreIsolated};
ghost use Rattle.mte_sched.specs.Behaviours.{BehavioursAreAlone, BehavioursAreIsolated};
ghost use Rattle.mte_sched.specs.Flags.{FlagIsClear};
ghost use Rattle.mte_sched.specs.Bounds.{SlicesAreBounded, TurnsAreBounded};

/// The tenants cannot change who is admitted: a call changes a host's ledger as the ledger
/// says.
pub fn ledger_follows()
    ensures { LedgerFollows }
{}

/// Nothing changes the number in a tenant's record.
pub fn numbers_stay()
    ensures { NumbersStay }
{}

/// After every list of calls a host's tenants are the accepted admissions, each of them alone after
/// its own slices and its own stop, whatever these make of it: M is what a live tenant is, and R
/// what its stop leaves.
pub fn behaviours_are_alone<M, R>()
    ensures { BehavioursAreAlone M R }
{}

/// Two sessions that agree for a tenant have the same of it, whatever other tenants there are and
/// whatever they do, and whatever a tenant is. `tenants_are_isolated` is this law of machines.
pub fn behaviours_are_isolated<M, R>()
    ensures { BehavioursAreIsolated M R }
{}

/// After every list of calls a host's tenants are the accepted admissions, each of them its machine
/// alone after its own slices and its own stop.
pub fn tenants_are_alone()
    ensures { TenantsAreAlone }
{}

/// Two sessions that agree for a tenant have the same of it, whatever other tenants there are and
/// whatever they do.
pub fn tenants_are_isolated()
    ensures { TenantsAreIsolated }
{}

/// Between the calls of a session the flag of a tenant that is running is clear.
pub fn flag_is_clear()
    ensures { FlagIsClear }
{}

/// A slice of n steps attempts at most n instructions, of a machine alone and of a host's tenant.
pub fn slices_are_bounded()
    ensures machine { SlicesAreBounded }
    ensures host { TurnsAreBounded }
{}
