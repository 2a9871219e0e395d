//! Why a tenant ended.

use crate::traveller::Traveller;
use circular_buffer::HeapCircularBuffer;
use debuggee::Debuggee;
use mte_backtrace::Names;
use mte_report::Report;
use mte_tenant::{Status, TenantParts};
use run_cause::{Finding, LastStore, StoreWatch, TargetLoad};
use run_records::{Book, Moment};
use std::alloc::{AllocError, Global};
use std::io;
use std::io::Write;

/// The tenant that is debugged.
#[derive(Clone, Copy)]
pub struct DebugSubject<'a> {
    /// The image.
    pub image: &'a [u8],
    /// The name of its file.
    pub name: &'a str,
    /// The seed, where it runs alone.
    pub seed: Option<u64>,
}

/// Writes why a tenant ended, as the report has it: it runs again for that. Of one that can
/// continue it writes how many steps it has done.
pub fn tell_why<W: Write>(
    alloc: Global,
    out: &mut W,
    tenant: &Traveller<'_>,
    subject: &DebugSubject<'_>,
) -> io::Result<()> {
    if tenant.can_go_on() {
        let steps = tenant.position();
        return writeln!(out, "it is running, after {steps} steps");
    }
    let (past, mut remembered) = retold(alloc, tenant)?;
    remembered.finding = tenant.finding().copied();
    if remembered.finding.is_none() {
        remembered.store = store_of(
            alloc,
            tenant,
            &past.parts().history.status,
            &remembered.last,
        )?;
    }
    let limit = past.limit();
    let (parts, mut memory) = past.into_machine();
    let names = Names::of(alloc, subject.image)?;
    let report = report_of(
        &parts,
        &remembered,
        limit,
        &names,
        subject.name,
        subject.seed,
    );
    report.write(alloc, out, &mut memory)
}

/// How many of the last instructions are remembered, by which a cause is found.
const LAST: usize = 16;

/// The records of a tenant that runs again.
#[derive(Drop)]
struct Remembered {
    /// Its heap calls.
    book: Book,
    /// Its last instructions, the oldest first.
    last: HeapCircularBuffer<Moment>,
    /// The store that wrote the target last of the jump to no code that ended it, if it is known.
    store: Option<LastStore>,
    /// What a check of it found, where that ended it.
    finding: Option<Finding>,
}

/// The report of a machine, by what is remembered of it, under the name of its image's file.
fn report_of<'x, 'n>(
    parts: &'x TenantParts,
    remembered: &'x Remembered,
    limit: u64,
    names: &'x Names<'n>,
    name: &'x str,
    seed: Option<u64>,
) -> Report<'x> {
    Report {
        parts,
        book: &remembered.book,
        last: Some(&remembered.last),
        last_count: 0,
        turns: None,
        limit,
        names,
        image: name,
        seed,
        finding: remembered.finding.as_ref(),
        findings: None,
        store: remembered.store.as_ref(),
        statistics: None,
        is_cut: false,
    }
}

/// The same tenant where it is, and what is remembered of its way: it runs again for that.
fn retold<'a>(
    alloc: Global,
    tenant: &Traveller<'a>,
) -> Result<(Debuggee<'a>, Remembered), AllocError> {
    let (mut past, steps) = tenant.past(alloc)?;
    let mut remembered = Remembered {
        book: Book::new(alloc)?,
        last: HeapCircularBuffer::with_capacity(alloc, LAST)?,
        store: None,
        finding: None,
    };
    for done in 0..steps {
        if steps - done <= LAST as u64 {
            remembered.last.push_back(moment_of(&mut past));
        }
        past.attempt();
        past.note_in(&mut remembered.book);
    }
    Ok((past, remembered))
}

/// The store that wrote the target last of the jump to no code that ended a tenant, if one did: it
/// runs again for that, up to the load of the target.
fn store_of(
    alloc: Global,
    tenant: &Traveller<'_>,
    status: &Status,
    last: &HeapCircularBuffer<Moment>,
) -> Result<Option<LastStore>, AllocError> {
    let Some(load) = TargetLoad::of_end(status, Some(last)) else {
        return Ok(None);
    };
    let mut watch = StoreWatch::new(load);
    let (mut past, _) = tenant.past(alloc)?;
    for _ in 0..load.step {
        let moment = moment_of(&mut past);
        past.attempt();
        past.show_to(&mut watch, &moment);
    }
    Ok(watch.found())
}

/// The instruction that is attempted next.
fn moment_of(past: &mut Debuggee<'_>) -> Moment {
    let regs = *past.regs();
    Moment {
        step: past.steps().saturating_add(1),
        word: past.word_at(regs.pc),
        regs,
    }
}
