//! The admission of a tenant, and why it is refused.

ghost use Rattle.std.specs.Prelude.{◌≡◌, ◌↔◌, ◌+◌, ◌<◌, ◌≤◌, IfOk, IfErr, OnOk, IsErrOf, Some};
ghost use Rattle.std.specs.Prelude.{None, IsTrue, false, option_map};
ghost use Rattle.common.specs.Obstacles.{IfRefused};
ghost use Rattle.mte_elf.specs.Headers.{entry_of, segments_of};
ghost use Rattle.mte_elf.specs.Images.{refusal_of, pages_of};
ghost use Rattle.mte_tenant.specs.declared.admission.AdmitError.TheVariants.{Image};
ghost use Rattle.mte_tenant.specs.Admissions.{start_in};
ghost use Rattle.mte_tenant.specs.Ledger.{charge_of, is_bad, first_of, admission_tests};
ghost use Rattle.mte_tenant.specs.Names.{admit_name, not_live_name};

use crate::refusal::Refusal;
use common::{MAX_OUTPUT, MAX_PAGES, Obstacle, STACK_PAGES};
use mte_elf::{ElfError, Plan, plan};
use std::alloc::Global;
use std::error::Error;
use std::fmt;
use tenant_terms::Terms;

/// The most tenants that are live at once.
pub const MAX_LIVE: usize = 255;

/// The most tenants in digits.
pub fn live_limit_in_digits()
    ensures { MAX_LIVE ≡ 255 }
{}

/// The admission of a tenant.
#[derive(Clone, Copy)]
pub struct Admission<'a> {
    /// Its number, never admitted before.
    pub id: u16,
    /// Its ELF64 image.
    pub image: &'a [u8],
    /// The bytes that it may read.
    pub input: &'a [u8],
    /// Its seed, reservation, room and tag mode.
    pub terms: Terms,
}

/// The facts of a ledger for an admission.
#[derive(Clone, Copy)]
pub struct LedgerFacts {
    /// Whether its number was admitted before, stopped or not.
    pub known: bool,
    /// How many frames live tenants leave.
    pub left: u64,
    /// How many tenants are live.
    pub live: usize,
}

/// Why an admission is refused, in the order in which it is tested. A refusal changes nothing.
#[derive(Clone, Copy, Debug, PartialEq, Eq)]
pub enum AdmitError {
    /// The number was admitted before, stopped or not.
    Duplicate,
    /// The reservation or the room is out of its limits.
    BadReservation,
    /// The image is refused.
    Image(ElfError),
    /// The image's pages and the stack's exceed the reservation.
    ReservationTooSmall,
    /// The charge exceeds the frames that live tenants leave.
    NoFrames,
    /// The host has as many tenants as it can have.
    TooManyLive,
}

/// No live tenant has the number.
#[derive(Clone, Copy, Debug, PartialEq, Eq)]
pub struct NotLive;

impl fmt::Display for AdmitError {
    ghost output = { λ error. Some (admit_name error) };

    fn fmt<W: fmt::Write>(&self, f: &mut fmt::Formatter<W>) -> fmt::Result {
        f.write_str(self.name())
    }
}

impl Error for AdmitError {}

impl AdmitError {
    /// Its name in a report; of an image's refusal the loader's name.
    pub fn name(self) -> &'static str
        ensures { result.now ≡ admit_name self }
    {
        match self {
            AdmitError::Image(error) => error.name(),
            AdmitError::Duplicate => "Duplicate",
            AdmitError::BadReservation => "BadReservation",
            AdmitError::ReservationTooSmall => "ReservationTooSmall",
            AdmitError::NoFrames => "NoFrames",
            AdmitError::TooManyLive => "TooManyLive",
        }
    }
}

impl fmt::Display for NotLive {
    ghost output = { λ _. Some not_live_name };

    fn fmt<W: fmt::Write>(&self, f: &mut fmt::Formatter<W>) -> fmt::Result {
        f.write_str(Refusal::NotLive.name())
    }
}

impl Error for NotLive {}

/// How many frames a reservation is charged: its pages, and one more than them for its tables.
pub fn charge(pages: u32) -> u64
    ensures { result ≡ charge_of pages }
{
    2 * u64::from(pages) + 1
}

/// The plan of an admission's image, or the first refusal that applies. Only `OutOfMemory`, where
/// an allocation failed, can come instead of the refusals from `Image` on. `accepted_means` says
/// what follows from `accepted`.
pub fn accept(
    alloc: Global,
    admission: &Admission<'_>,
    facts: LedgerFacts,
) -> Result<Plan, Obstacle<AdmitError>>
    ensures accepted { OnOk result
        (first_of (admission_tests facts (start_in admission.now)) ≡ None) }
    ensures entry { IfOk result (λ p. p.entry ≡ entry_of admission.now.image.now) }
    ensures segments { IfOk result (λ p. p.segments.items ≡ segments_of admission.now.image.now) }
    ensures refused { IfErr result (λ o. IfRefused o (λ e.
        first_of (admission_tests facts (start_in admission.now)) ≡ Some e)) }
    ensures memory { IsErrOf result Obstacle.OutOfMemory
        → (facts.known ≡ false) × (is_bad admission.now.terms ≡ false) }
{
    if facts.known {
        return Err(Obstacle::Refused(AdmitError::Duplicate));
    }
    if is_bad_reservation(admission) {
        return Err(Obstacle::Refused(AdmitError::BadReservation));
    }
    let plan = plan_of(alloc, admission.image)?;
    if !holds_image(admission.terms.pages, plan.pages) {
        return Err(Obstacle::Refused(AdmitError::ReservationTooSmall));
    }
    if charge(admission.terms.pages) > facts.left {
        return Err(Obstacle::Refused(AdmitError::NoFrames));
    }
    if facts.live >= MAX_LIVE {
        return Err(Obstacle::Refused(AdmitError::TooManyLive));
    }
    Ok(plan)
}

/// The facts about an admission that no test refuses.
pub fn accepted_means(facts: LedgerFacts, admission: &Admission<'_>)
    requires { first_of (admission_tests facts (start_in admission.now)) ≡ None }
    ensures fresh { facts.known ≡ false }
    ensures good { is_bad admission.now.terms ≡ false }
    ensures some { 0 < admission.now.terms.pages }
    ensures most { admission.now.terms.pages ≤ MAX_PAGES }
    ensures image { refusal_of admission.now.image.now ≡ None }
    ensures room { pages_of admission.now.image.now + STACK_PAGES ≤ admission.now.terms.pages }
    ensures frames { charge_of admission.now.terms.pages ≤ facts.left }
    ensures few { facts.live < MAX_LIVE }
{}

/// Whether a reservation or a room is out of its limits.
pub fn is_bad_reservation(admission: &Admission<'_>) -> bool
    ensures bad { result ≡ is_bad admission.now.terms }
    ensures some { result ≡ false → 0 < admission.now.terms.pages }
    ensures most { result ≡ false → admission.now.terms.pages ≤ MAX_PAGES }
{
    let (pages, room) = (
        u64::from(admission.terms.pages),
        u64::from(admission.terms.room),
    );
    pages == 0 || pages > MAX_PAGES || room > MAX_OUTPUT
}

/// An image's plan, or its refusal as one of the admission.
fn plan_of(alloc: Global, image: &[u8]) -> Result<Plan, Obstacle<AdmitError>>
    ensures image { IfOk result (λ p. refusal_of image.now ≡ None) }
    ensures entry { IfOk result (λ p. p.entry ≡ entry_of image.now) }
    ensures pages { IfOk result (λ p. p.pages ≡ pages_of image.now) }
    ensures segments { IfOk result (λ p. p.segments.items ≡ segments_of image.now) }
    ensures refused { IfErr result (λ o.
        IfRefused o (λ e. option_map Image (refusal_of image.now) ≡ Some e)) }
{
    match plan(alloc, image) {
        Ok(plan) => Ok(plan),
        Err(Obstacle::OutOfMemory) => Err(Obstacle::OutOfMemory),
        Err(Obstacle::Refused(error)) => Err(Obstacle::Refused(AdmitError::Image(error))),
    }
}

/// Whether a reservation holds an image's pages and a stack's.
fn holds_image(reservation: u32, pages: u64) -> bool
    ensures { IsTrue result ↔ (pages + STACK_PAGES ≤ reservation) }
{
    u128::from(pages) + u128::from(STACK_PAGES) <= u128::from(reservation)
}
