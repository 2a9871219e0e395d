//! One tenant of a session, without the others.

ghost use Rattle.std.specs.Prelude.{◌≡◌, ℕ, List, [], if◌then◌else◌, OnOk, OnErr, IfOk, IfErr};
ghost use Rattle.std.specs.Prelude.{Some, None};
ghost use Rattle.common.specs.Obstacles.{IfRefused};
ghost use Rattle.mte_tenant.specs.Machines.{machine_of};
ghost use Rattle.mte_tenant.specs.Ledger.{call_refusal};
ghost use Rattle.mte_sched.specs.Contents.{after_call};
ghost use Rattle.mte_sched.specs.Hosts.{content_of, ledger_in};
ghost use Rattle.mte_session.specs.Files.{contents};
ghost use Rattle.mte_session.specs.Sessions.{call_of, session_of};
ghost use Rattle.command_run.specs.Replays.{IsReplay, number_in, with_no_steps, machine_after, HasPages};
ghost use Rattle.command_run.specs.Replays.{IsStarted, IsPlayed};

use crate::session_replay::SessionReplay;
use common::Obstacle;
use mte_sched::{Host, ledger_follows};
use mte_session::{Event, Sink, admission_of, write_refusal};
use mte_tenant::{Refusal, Refused};
use run_terms::Failure;
use std::alloc::Global;
use tenant_run::{TenantBench, Watcher};

/// A tenant that ran as in its session.
#[derive(Drop)]
pub struct Replayed {
    /// The tenant.
    pub bench: TenantBench,
    /// The number of the file with its image.
    pub image: u32,
}

/// Runs what a session does to its tenant, and writes the lines of that tenant's refused events. A
/// host that is new decides which events are refused, and runs no instruction: what a tenant does
/// cannot change what is refused. `None` where the session never admits the tenant.
pub fn replay_tenant<'a, W: Sink, O: Watcher>(
    alloc: Global,
    host: &mut Host,
    session: &SessionReplay<'a, '_>,
    observer: &mut O,
    out: &mut W,
) -> Result<Option<Replayed>, Failure<'a>>
    requires new { (content_of host.old).tenants ≡ [] }
    ensures { IfOk result (IsReplay session.now.replay.now.id (contents session.now.files.now)
        (session_of (content_of host.old).frames (contents session.now.files.now)
        session.now.events.now)) }
{
    ledger_follows();
    let id = session.replay.id;
    let events = session.events;
    let files = session.files;
    let mut replayed = None;
    for (before, event) in events.iter().enumerate() {
        match decide(alloc, host, event, files) {
            Ok(()) => {
                replayed = followed(alloc, id, replayed, event, files, observer)?;
            }
            Err(Obstacle::OutOfMemory) => return Err(Failure::Memory),
            Err(Obstacle::Refused(refusal)) => {
                let event_number = before as u64 + 1;
                tell_refusal(event_number, refusal, number_of(event) == id, out)?;
            }
        }
    }
    Ok(replayed)
}

/// Writes the line of an event that is refused to the tenant itself.
fn tell_refusal<'a, W: Sink>(
    event: u64,
    refusal: Refusal,
    is_own: bool,
    out: &mut W,
) -> Result<(), Failure<'a>> {
    if is_own {
        write_refusal(&Refused { event, refusal }, out)?;
    }
    Ok(())
}

/// Whether a host accepts an event, whose slices attempt no instruction.
#[rattlefmt::skip]
#[tactic(
    auto,
    unfolding(
        mte_tenant::specs::Ledger::call_refusal,
        mte_sched::specs::Contents::after_call,
        mte_sched::specs::Contents::after_admit,
        mte_sched::specs::Contents::after_slice_of,
        mte_sched::specs::Contents::after_stop_of
    )
)]
pub fn decide(
    alloc: Global,
    host: &mut Host,
    event: &Event,
    files: &[Vec<u8>],
) -> Result<(), Obstacle<Refusal>>
    ensures accepted { OnOk result (call_refusal (content_of host.old).frames (ledger_in host.old)
        (call_of (contents files.now) event.now) ≡ None) }
    ensures ok { OnOk result (content_of host.new ≡ after_call (content_of host.old)
        (with_no_steps (call_of (contents files.now) event.now))) }
    ensures refused { IfErr result (λ o. IfRefused o (λ r.
        call_refusal (content_of host.old).frames (ledger_in host.old)
        (call_of (contents files.now) event.now) ≡ Some r)) }
    ensures err { OnErr result (content_of host.new ≡ content_of host.old) }
{
    match *event {
        Event::Admit { id, image, input, terms } => {
            let admission = admission_of(files, id, image, input, terms);
            match host.admit(alloc, &admission) {
                Ok(()) => Ok(()),
                Err(Obstacle::OutOfMemory) => Err(Obstacle::OutOfMemory),
                Err(Obstacle::Refused(error)) => Err(Obstacle::Refused(Refusal::Admit(error))),
            }
        }
        Event::Slice { id, .. } => match host.slice(id, 0) {
            Ok(()) => Ok(()),
            Err(_) => Err(Obstacle::Refused(Refusal::NotLive)),
        },
        Event::Stop { id } => match host.stop(id) {
            Ok(()) => Ok(()),
            Err(_) => Err(Obstacle::Refused(Refusal::NotLive)),
        },
    }
}

/// The tenant with the number after an accepted event, whichever tenant it names.
fn followed<'a, O: Watcher>(
    alloc: Global,
    id: u16,
    replayed: Option<Replayed>,
    event: &Event,
    files: &[Vec<u8>],
    observer: &mut O,
) -> Result<Option<Replayed>, Failure<'a>>
    requires some { HasPages (call_of (contents files.now) event.now) }
    ensures own { IfOk result (λ r. number_in (call_of (contents files.now) event.now) ≡ id
        → IsPlayed (contents files.now) (call_of (contents files.now) event.now) replayed r) }
    ensures other { IfOk result (λ r.
        (number_in (call_of (contents files.now) event.now) ≡ id → ⊥) → r ≡ replayed) }
{
    if number_of(event) == id {
        played(alloc, replayed, event, files, observer)
    } else {
        Ok(replayed)
    }
}

/// The tenant that an accepted event names, after the event.
fn played<'a, O: Watcher>(
    alloc: Global,
    replayed: Option<Replayed>,
    event: &Event,
    files: &[Vec<u8>],
    observer: &mut O,
) -> Result<Option<Replayed>, Failure<'a>>
    requires some { HasPages (call_of (contents files.now) event.now) }
    ensures { IfOk result
        (IsPlayed (contents files.now) (call_of (contents files.now) event.now) replayed) }
{
    match replayed {
        Some(Replayed { mut bench, image }) => {
            turn(&mut bench, event, observer);
            Ok(Some(Replayed { bench, image }))
        }
        None => started(alloc, event, files),
    }
}

/// Runs what an accepted event does to the tenant that it names.
fn turn<O: Watcher>(bench: &mut TenantBench, event: &Event, observer: &mut O)
    ensures { (files : List (List ℕ)) → machine_of bench.new.parts bench.new.memory
        ≡ machine_after (call_of files event.now) (machine_of bench.old.parts bench.old.memory) }
{
    match *event {
        Event::Admit { .. } => {}
        Event::Slice { steps, .. } => bench.slice(observer, steps),
        Event::Stop { .. } => bench.stop(),
    }
}

/// The tenant that an accepted event admits, if it is an admission.
fn started<'a>(
    alloc: Global,
    event: &Event,
    files: &[Vec<u8>],
) -> Result<Option<Replayed>, Failure<'a>>
    requires some { HasPages (call_of (contents files.now) event.now) }
    ensures { IfOk result
        (IsStarted (contents files.now) (call_of (contents files.now) event.now)) }
{
    match *event {
        Event::Admit {
            id,
            image,
            input,
            terms,
        } => {
            let admission = admission_of(files, id, image, input, terms);
            match TenantBench::new(alloc, &admission) {
                Ok(bench) => Ok(Some(Replayed { bench, image })),
                Err(_) => Err(Failure::Memory),
            }
        }
        Event::Slice { .. } | Event::Stop { .. } => Ok(None),
    }
}

/// The number of the tenant that an event names.
fn number_of(event: &Event) -> u16
    ensures { (files : List (List ℕ)) → result ≡ number_in (call_of files event.now) }
{
    match event {
        Event::Admit { id, .. } | Event::Slice { id, .. } | Event::Stop { id } => *id,
    }
}
