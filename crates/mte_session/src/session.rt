//! A session: a script in, its report out.

ghost use Rattle.std.specs.Prelude.{◌≡◌, [], ◌≤◌, map, OnOk, OnErr, IfOk, IfErr, Err, Some};
ghost use Rattle.std.specs.Prelude.{None};
ghost use Rattle.common.specs.Obstacles.{IfRefused};
ghost use Rattle.mte_streams.specs.Writing.{Writes};
ghost use Rattle.mte_sched.specs.Contents.{after_call};
ghost use Rattle.mte_sched.specs.Hosts.{content_of};
ghost use Rattle.mte_session.specs.declared.session.SessionError.TheVariants.{OutOfMemory};
ghost use Rattle.mte_session.specs.Files.{contents};
ghost use Rattle.mte_session.specs.Sessions.{call_of, calls_of, refused_texts};
ghost use Rattle.mte_session.specs.Progress.{record_texts};
ghost use Rattle.mte_session.specs.Progress.{progress_text, refusal_in, run_all};
ghost use Rattle.mte_session.specs.Outcomes.{session_error, Reported, Failed};

use crate::files::admission_of;
use crate::refusals::write_refusal;
use crate::report::write_report;
use a64_run::{CompiledBlocks, NoBlocks};
use common::Obstacle;
use mte_sched::{Host, Refusal, Refused, Tenant, ledger_follows, tenants_are_alone};
use mte_script::{Event, ScriptError, ScriptFault, parse_script};
use mte_streams::{Sink, WriteFault};
use std::alloc::{AllocError, Global};
use thiserror::Error;

/// Why a session has no whole report.
#[derive(Clone, Copy, Debug, PartialEq, Eq, Error)]
pub enum SessionError {
    /// The script's first faulty line, counted from 1, and what is wrong with it; nothing was
    /// written.
    #[error("script line {0}: {1}")]
    Script(u64, ScriptFault),
    /// An allocation failed; nothing was written.
    #[error("out of memory")]
    OutOfMemory,
    /// A write failed; a prefix of the report was written.
    #[error("cannot write")]
    Write,
}

/// Runs a script on a host of `frames` frames, 1 to 65536, and writes its report: a line for each
/// refused event, then the lines of each admitted tenant.
///
/// On `Ok` the report was written, and nothing else; on `Write` a prefix of it, and a write failed.
/// On `Script`, the script's first faulty line with its first fault, and on `OutOfMemory`, which
/// comes only where an allocation failed, no write was made. Blocks that were compiled change
/// nothing of it.
pub fn run_session_with_blocks<W: Sink, T: CompiledBlocks>(
    alloc: Global,
    frames: u32,
    script: &[u8],
    files: &[Vec<u8>],
    out: &mut W,
) -> Result<(), SessionError>
    requires some { 1 ≤ frames }
    requires few { frames ≤ 65536 }
    ensures done { OnOk result (Reported
        (record { frames = frames; files = contents files.now; script = script.now })
        (W.log out.old) (W.log out.new)) }
    ensures failed { IfErr result (Failed
        (record { frames = frames; files = contents files.now; script = script.now })
        (W.log out.old) (W.log out.new)) }
{
    let events = parse_script(alloc, script, files)?;
    let Ok(mut host) = Host::new(alloc, frames) else {
        return Err(SessionError::OutOfMemory);
    };
    let refused = run_events::<T>(alloc, &mut host, events.as_slice(), files)?;
    ledger_follows();
    tenants_are_alone();
    match write_session(&host, refused.as_slice(), out) {
        Ok(()) => Ok(()),
        Err(_) => Err(SessionError::Write),
    }
}

/// The same session by the tables of decoded instructions alone.
pub fn run_session<W: Sink>(
    alloc: Global,
    frames: u32,
    script: &[u8],
    files: &[Vec<u8>],
    out: &mut W,
) -> Result<(), SessionError>
    requires some { 1 ≤ frames }
    requires few { frames ≤ 65536 }
    ensures done { OnOk result (Reported
        (record { frames = frames; files = contents files.now; script = script.now })
        (W.log out.old) (W.log out.new)) }
    ensures failed { IfErr result (Failed
        (record { frames = frames; files = contents files.now; script = script.now })
        (W.log out.old) (W.log out.new)) }
{
    run_session_with_blocks::<W, NoBlocks>(alloc, frames, script, files, out)
}

/// Writes the report of what became of a host.
fn write_session<W: Sink>(host: &Host, refused: &[Refused], out: &mut W) -> Result<(), WriteFault>
    ensures { Writes (W.log out.old) (W.log out.new) result
        (progress_text (record { content = content_of host.now; refused = refused.now })) }
{
    write_refusals(refused, out)?;
    write_tenants(host.tenants(), out)
}

/// Writes the lines of each tenant.
fn write_tenants<W: Sink>(tenants: &[Tenant], out: &mut W) -> Result<(), WriteFault>
    ensures { Writes (W.log out.old) (W.log out.new) result
        (record_texts tenants.now) }
{
    for tenant in tenants {
        write_report(tenant.record(), out)?;
    }
    Ok(())
}

/// Writes a line for each refused event.
fn write_refusals<W: Sink>(refused: &[Refused], out: &mut W) -> Result<(), WriteFault>
    ensures { Writes (W.log out.old) (W.log out.new) result (refused_texts refused.now) }
{
    for refusal in refused {
        write_refusal(refusal, out)?;
    }
    Ok(())
}

/// Executes the events in order, and returns those that were refused. What it keeps of them is
/// reserved before the first event, so that none fails for want of it.
fn run_events<T: CompiledBlocks>(
    alloc: Global,
    host: &mut Host,
    events: &[Event],
    files: &[Vec<u8>],
) -> Result<Vec<Refused>, SessionError>
    ensures played { IfOk result (λ refused.
        run_all (record { content = content_of host.old; refused = [] })
        (calls_of (contents files.now) events.now) 1
        ≡ record { content = content_of host.new; refused = refused.items }) }
    ensures memory { IfErr result (λ e. e ≡ SessionError.OutOfMemory) }
{
    let mut refused = Vec::with_capacity(alloc, events.len())?;
    for (before, event) in events.iter().enumerate() {
        match play::<T>(alloc, host, event, files) {
            Ok(()) => {}
            Err(Obstacle::OutOfMemory) => return Err(SessionError::OutOfMemory),
            Err(Obstacle::Refused(refusal)) => {
                let event = before as u64 + 1;
                refused.push_reserved(Refused { event, refusal });
            }
        }
    }
    Ok(refused)
}

/// Executes one event. `OutOfMemory` comes of an admission alone.
#[rattlefmt::skip]
#[tactic(
    auto,
    unfolding(
        mte_tenant::specs::Ledger::call_refusal,
        mte_sched::specs::Contents::after_call,
        mte_sched::specs::Contents::after_admit,
        mte_sched::specs::Contents::after_slice_of,
        mte_sched::specs::Contents::after_stop_of
    )
)]
fn play<T: CompiledBlocks>(
    alloc: Global,
    host: &mut Host,
    event: &Event,
    files: &[Vec<u8>],
) -> Result<(), Obstacle<Refusal>>
    ensures accepted { OnOk result
        (refusal_in (content_of host.old) (call_of (contents files.now) event.now) ≡ None) }
    ensures ok { OnOk result (content_of host.new
        ≡ after_call (content_of host.old) (call_of (contents files.now) event.now)) }
    ensures refused { IfErr result (λ o. IfRefused o (λ r.
        refusal_in (content_of host.old) (call_of (contents files.now) event.now) ≡ Some r)) }
    ensures err { OnErr result (content_of host.new ≡ content_of host.old) }
{
    match *event {
        Event::Admit { id, image, input, terms } => {
            let admission = admission_of(files, id, image, input, terms);
            match host.admit(alloc, &admission) {
                Ok(()) => Ok(()),
                Err(Obstacle::OutOfMemory) => Err(Obstacle::OutOfMemory),
                Err(Obstacle::Refused(error)) => Err(Obstacle::Refused(Refusal::Admit(error))),
            }
        }
        Event::Slice { id, steps } => match host.slice_with_blocks::<T>(id, steps) {
            Ok(()) => Ok(()),
            Err(_) => Err(Obstacle::Refused(Refusal::NotLive)),
        },
        Event::Stop { id } => match host.stop(id) {
            Ok(()) => Ok(()),
            Err(_) => Err(Obstacle::Refused(Refusal::NotLive)),
        },
    }
}

impl From<Obstacle<ScriptError>> for SessionError {
    ghost from_gives = { λ o r. r ≡ session_error o };

    fn from(obstacle: Obstacle<ScriptError>) -> SessionError {
        match obstacle {
            Obstacle::OutOfMemory => SessionError::OutOfMemory,
            Obstacle::Refused(error) => SessionError::Script(error.line, error.fault),
        }
    }
}

impl From<AllocError> for SessionError {
    ghost from_gives = { λ _ r. r ≡ OutOfMemory };

    fn from(_error: AllocError) -> SessionError {
        SessionError::OutOfMemory
    }
}
