//! Sessions of several tenants.

use crate::doubles::MemorySink;
use crate::images::{CORRUPTS, HI, LARGE_FREED, UNTAGGED, image};
use mte_session::{Session, run_both};
use std::alloc::{AllocError, Global};
use std::test::Fail;

/// The image of a program, and those of tenants next to it.
fn files_of(alloc: Global, words: &[u32]) -> Result<Vec<Vec<u8>>, AllocError> {
    let programs: [&[u32]; 4] = [words, &LARGE_FREED, &UNTAGGED, &CORRUPTS];
    let mut files = Vec::new(alloc);
    for words in programs {
        files.push(image(alloc, words)?)?;
    }
    Ok(files)
}

/// A tenant alone.
const ALONE: &[u8] = b"admit 7 image 1 input 1 seed 0000000000000001 frames 60 out 16\n\
      slice 7 5\nslice 7 100\nslice 7 100\nstop 7\n";

/// The tenant next to three others that come, run and stop between its slices.
const BESIDE: &[u8] = b"admit 1 image 2 input 0 seed 0000000000000001 frames 60 out 16\nslice 1 6\n\
      admit 2 image 3 input 0 seed 0000000000000001 frames 5 out 16\nslice 2 100\n\
      stop 2\nadmit 3 image 4 input 0 seed 0000000000000002 frames 9 out 16\n\
      slice 3 5\nadmit 7 image 1 input 1 seed 0000000000000001 frames 60 out 16\n\
      slice 1 100\nslice 7 5\nslice 3 100\nslice 2 1\nstop 3\nslice 1 100\n\
      slice 7 100\nstop 1\nslice 7 100\nstop 7\nstop 7\n";

/// The reports of the program alone and next to others.
fn both_reports(alloc: Global, words: &[u32]) -> Result<(Vec<u8>, Vec<u8>), Fail> {
    let files = files_of(alloc, words)?;
    let alone = Session {
        frames: 200,
        script: ALONE,
        files: files.as_slice(),
    };
    let beside = Session {
        frames: 4000,
        script: BESIDE,
        files: files.as_slice(),
    };
    let mut one = MemorySink::new(alloc);
    let mut other = MemorySink::new(alloc);
    run_both(alloc, 7, &alone, &beside, &mut one, &mut other)?;
    Ok((one.held, other.held))
}

/// A program alone; then next to three tenants. Its lines are the whole report of the one session,
/// and the last lines of the other.
#[test]
fn alone_and_beside_others(rt: HostRuntime) -> Result<(), Fail> {
    let (one, other) = both_reports(rt.alloc(), &HI)?;
    assert!(rt; one.starts_with(b"tenant 7\nstatus "));
    assert!(rt; other.len() > one.len());
    assert!(rt; other.ends_with(one.as_slice()));
    Ok(())
}
