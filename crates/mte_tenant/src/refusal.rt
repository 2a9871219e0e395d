//! The events that a host refuses.

ghost use Rattle.std.specs.Prelude.{◌≡◌};
ghost use Rattle.mte_tenant.specs.Names.{refusal_name};

use crate::admission::AdmitError;

/// Why an event was refused.
#[derive(Clone, Copy, Debug, PartialEq, Eq)]
pub enum Refusal {
    /// An admission.
    Admit(AdmitError),
    /// A slice or a stop.
    NotLive,
}

impl Refusal {
    /// Its name in a report.
    pub fn name(self) -> &'static str
        ensures { result.now ≡ refusal_name self }
    {
        match self {
            Refusal::Admit(error) => error.name(),
            Refusal::NotLive => "NotLive",
        }
    }
}

/// An event that was refused, counted from 1.
#[derive(Clone, Copy, Debug, PartialEq, Eq)]
pub struct Refused {
    /// Which event.
    pub event: u64,
    /// Why.
    pub refusal: Refusal,
}
