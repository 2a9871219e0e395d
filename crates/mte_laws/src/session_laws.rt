//! Laws of a session in parts: a session of its own for each of its tenants, run anywhere, whose
//! reports together are the session's.

ghost use Rattle.mte_laws.specs.SessionParts.{DecisionsNeedNoSteps, AcceptedAlone};
ghost use Rattle.mte_laws.specs.SessionParts.{ReportInParts, ScriptInParts, TextsInParts};
ghost use Rattle.mte_laws.specs.ScriptLines.{LinesMayBeLeftOut};

/// Where no line of a script is faulty, a script of some of its lines has the events of those.
pub fn lines_may_be_left_out()
    ensures { LinesMayBeLeftOut }
{}

/// Which calls a session's host refuses, and why, is decided without a step of any tenant.
pub fn decisions_need_no_steps()
    ensures { DecisionsNeedNoSteps }
{}

/// An event of a tenant that a session accepts, a session of the tenant's own accepts: a host with
/// frames for its reservation and no more, its admission, its own slices and its own stop. Those
/// are no more frames than the session had.
pub fn accepted_alone()
    ensures { AcceptedAlone }
{}

/// A session's report is the lines of what it refused, and the reports of its tenants' own
/// sessions, in the order of their admissions. So these may be run anywhere, and put together: a
/// session of each accepted admission, on frames for its reservation, over the same files and its
/// own events. The lines of these, taken from the script, are a script of them.
pub fn report_in_parts()
    ensures sessions { ReportInParts }
    ensures scripts { ScriptInParts }
    ensures texts { TextsInParts }
{
    lines_may_be_left_out();
}
