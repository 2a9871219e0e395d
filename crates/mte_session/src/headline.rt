//! Two sessions, and what they wrote of one tenant.

ghost use Rattle.std.specs.Prelude.{◌≡◌, ◌⊎◌, ◌≤◌, OnOk, IfErr};
ghost use Rattle.mte_session.specs.Headline.{input_of, AgreeFor, WroteAlike};
ghost use Rattle.mte_session.specs.Outcomes.{Reported, Failed, Unwritten};

use crate::session::{SessionError, run_session};
use mte_sched::numbers_stay;
use mte_streams::Sink;
use std::alloc::Global;

/// The inputs of a session: a host's frames, a script, and the files that it refers to.
#[derive(Clone, Copy)]
pub struct Session<'a> {
    /// The frames of the host, 1 to 65536.
    pub frames: u32,
    /// The script.
    pub script: &'a [u8],
    /// Its files.
    pub files: &'a [Vec<u8>],
}

/// Runs two sessions, each with a writer of its own. Where both admit the tenant `id` with the same
/// image, input, seed, reservation, room and tag mode, and give it the same slices and the same
/// stop, both reports have the same lines of it, from `tenant` to `end`: whatever the other tenants
/// of either session are and do. Where one of them fails, its error is returned, and the second is
/// not run after the first failed.
pub fn run_both<W: Sink>(
    alloc: Global,
    id: u16,
    one: &Session<'_>,
    other: &Session<'_>,
    first: &mut W,
    second: &mut W,
) -> Result<(), SessionError>
    requires some { 1 ≤ one.now.frames }
    requires few { one.now.frames ≤ 65536 }
    requires some_other { 1 ≤ other.now.frames }
    requires few_other { other.now.frames ≤ 65536 }
    ensures one { OnOk result (Reported (input_of one.now) (W.log first.old) (W.log first.new)) }
    ensures other { OnOk result
        (Reported (input_of other.now) (W.log second.old) (W.log second.new)) }
    ensures same { OnOk result ((agree : AgreeFor id (input_of one.now) (input_of other.now))
        → WroteAlike id agree.agree.life (W.log first.old) (W.log first.new)
        (W.log second.old) (W.log second.new)) }
    ensures failed { IfErr result (λ e.
        (Failed (input_of one.now) (W.log first.old) (W.log first.new) e
        × Unwritten (W.log second.old) (W.log second.new))
        ⊎ (Reported (input_of one.now) (W.log first.old) (W.log first.new)
        × Failed (input_of other.now) (W.log second.old) (W.log second.new) e)) }
{
    numbers_stay();
    run_session(alloc, one.frames, one.script, one.files, first)?;
    run_session(alloc, other.frames, other.script, other.files, second)
}
