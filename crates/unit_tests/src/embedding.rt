//! The examples of docs/RUST.md in Rattle, once each, by `tombolopan` alone: a step, a heap, a
//! tenant alone, a host of two tenants, and the report of a session.

use crate::images::{HI, image};
use anyhow::{Result, bail};
use std::test::Fail;
use tombolopan::{
    Admission, Attrs, Flat, HeapAnswer, HeapBench, HeapCall, HeapOp, Host, Lone, Paged, Regs, Rgsr,
    Status, TagMode, Tagged, Terms, Text, decode, report, run_alone, step,
};

/// `add x0, x0, #1`
const WORD: u32 = 0x9100_0400;

const CODE: u64 = 0x10000;

const STACK_END: u64 = 0x4000_0000;

/// An instruction is decoded and printed, written into a page of a tagged memory, and stepped.
fn first_step(rt: &HostRuntime) -> Result<()> {
    let Some(instr) = decode(WORD) else {
        bail!("no instruction has this word");
    };
    println!(rt; "{}", Text(instr))?;
    let mut memory = Flat::new(rt.alloc(), 1, TagMode::Sync)?;
    if memory.map_pages(CODE / 4096, 1, Attrs::ALL).is_err() {
        bail!("no page is left");
    }
    if let Err(fault) = memory.write(CODE, &WORD.to_le_bytes(), false) {
        bail!("{fault:?}");
    }
    let mut regs = Regs::new(CODE, STACK_END);
    regs.x[0] = 41;
    let outcome = step(&mut regs, &mut memory);
    let (sum, pc) = (regs.x[0], regs.pc);
    println!(rt; "{outcome:?}: x0 is {sum}, pc is {pc:#x}")?;
    if sum != 42 || pc != 0x10004 {
        bail!("another sum or another place");
    }
    Ok(())
}

#[test]
fn a_step(rt: HostRuntime) {
    assert!(rt; first_step(&rt).is_ok());
}

/// A chunk is freed, and a load through the old pointer is refused.
#[test]
fn a_heap(rt: HostRuntime) -> Result<(), Fail> {
    let rgsr = Rgsr { tag: 0, seed: 1 };
    let mut bench = HeapBench::new(rt.alloc(), 1, 64, TagMode::Sync, rgsr)?;
    let HeapAnswer::Value(pointer) = bench.answer(&HeapOp::Call(HeapCall::Malloc { size: 24 }))
    else {
        return Err(Fail::from("malloc never aborts"));
    };
    assert!(rt; pointer == 0x0100_0000_1200_0010);
    let before = bench.answer(&HeapOp::Load { addr: pointer });
    let _ = bench.answer(&HeapOp::Call(HeapCall::Free { pointer }));
    let after = bench.answer(&HeapOp::Load { addr: pointer });
    assert!(rt; matches!(before, HeapAnswer::Value(_)));
    assert!(rt; matches!(after, HeapAnswer::Fault(_)));
    Ok(())
}

/// A tenant of an image.
fn admission_of(id: u16, image: &[u8]) -> Admission<'_> {
    Admission {
        id,
        image,
        input: &[],
        terms: Terms {
            seed: 1,
            pages: 5,
            room: 16,
            mode: TagMode::Sync,
        },
    }
}

/// A tenant alone, at once and slice by slice.
#[test]
fn a_tenant_alone(rt: HostRuntime) -> Result<(), Fail> {
    let file = image(rt.alloc(), &HI)?;
    let admission = admission_of(1, file.as_slice());
    let record = run_alone(rt.alloc(), &admission, &[5, 100])?;
    let mut lone = Lone::new(rt.alloc(), &admission)?;
    lone.slices(&[5]);
    lone.slice(100);
    assert!(rt; record.status == Status::Exited(0) && record.steps == 8);
    assert!(rt; lone.parts.history.status == record.status);
    assert!(rt; lone.parts.history.steps == record.steps);
    Ok(())
}

/// A host of 22 frames has capacity for two tenants, each charged 11.
#[test]
fn a_host(rt: HostRuntime) -> Result<(), Fail> {
    let file = image(rt.alloc(), &HI)?;
    let mut host = Host::new(rt.alloc(), 22)?;
    host.admit(rt.alloc(), &admission_of(1, file.as_slice()))?;
    host.admit(rt.alloc(), &admission_of(2, file.as_slice()))?;
    let third = host.admit(rt.alloc(), &admission_of(3, file.as_slice()));
    assert!(rt; third.is_err());
    host.slice(2, 100)?;
    host.stop(1)?;
    Ok(())
}

/// A session of one tenant, and one slice.
const SCRIPT: &[u8] =
    b"admit 1 image 1 input 0 seed 0000000000000001 frames 5 out 16\nslice 1 100\n";

/// A session that always answered out of memory would meet every contract. This one runs a tenant
/// to its end, and has its report.
#[test]
fn the_report_of_a_session(rt: HostRuntime) -> Result<(), Fail> {
    let mut files = Vec::new(rt.alloc());
    files.push(image(rt.alloc(), &HI)?)?;
    let text = report(rt.alloc(), 11, SCRIPT, files.as_slice())?;
    assert_eq!(rt;
        text.as_slice(),
        b"tenant 1\nstatus exit 0\nsteps 8\noutput 2 4869\nheap 0\nend\n".as_slice()
    );
    Ok(())
}
