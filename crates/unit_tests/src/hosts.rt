//! The calls of a host that no program makes: frames and pages of its tenants.

use crate::images::{HEADERS, HI, ILLEGAL, image};
use common::{PAGE_SIZE, STACK_START};
use mte_sched::{Admission, Host, NotLive, Status, Terms};
use mte_tags::TagMode;
use std::alloc::Global;
use std::process::Abort;
use std::test::Fail;

/// A tenant of five pages, on an image.
fn admission_of(id: u16, image: &[u8]) -> Admission<'_> {
    Admission {
        id,
        image,
        input: &[],
        terms: Terms {
            seed: 1,
            pages: 5,
            room: 16,
            mode: TagMode::Sync,
        },
    }
}

/// A host with one tenant alone.
fn host_of_one(alloc: Global, id: u16, words: &[u32]) -> Result<Host, Fail> {
    let file = image(alloc, words)?;
    let mut host = Host::new(alloc, 11)?;
    host.admit(alloc, &admission_of(id, file.as_slice()))?;
    Ok(host)
}

/// Two pages of the live tenant 7 have a frame each, and what is no page of it has none. The
/// stopped tenant has no frames, and can still be seen.
#[test]
fn frames_of_a_tenant(rt: HostRuntime) -> Result<(), Fail> {
    let mut host = host_of_one(rt.alloc(), 7, &HI)?;
    let stack = STACK_START / PAGE_SIZE;
    let frames = (host.frame_of(7, stack), host.frame_of(7, stack + 1));
    assert!(rt; frames.0.is_some() && frames.0 != frames.1);
    assert!(rt; host.frame_of(7, 0).is_none() && host.frame_of(8, stack).is_none());
    host.stop(7)?;
    assert!(rt; host.frame_of(7, stack).is_none());
    assert!(rt; host.pool().frames() == 11);
    assert!(rt; host.view(7).is_some() && host.view(8).is_none());
    Ok(())
}

/// Copies the words of an image over the first bytes of a page.
fn copy_words(page: &mut [u8; 4096], file: &[u8]) {
    for (byte, code) in page.iter_mut().zip(file.iter().skip(HEADERS)) {
        *byte = *code;
    }
}

/// Writes another program over tenant 1's.
fn write_page(rt: &impl Abort, alloc: Global, host: &mut Host) -> Result<(), Fail> {
    assert!(rt; host.page_mut(1, 0).is_none() && host.page_mut(2, 16).is_none());
    let code = image(alloc, &HI)?;
    let Some(page) = host.page_mut(1, 16) else {
        return Err(Fail::from(NotLive));
    };
    copy_words(page, code.as_slice());
    Ok(())
}

/// The word that is written to a page of code is what the tenant then runs.
#[test]
fn a_page_is_written_by_the_host(rt: HostRuntime) -> Result<(), Fail> {
    let mut host = host_of_one(rt.alloc(), 1, &ILLEGAL)?;
    write_page(&rt, rt.alloc(), &mut host)?;
    host.slice(1, 100)?;
    let Some(log) = host.view(1) else {
        return Err(Fail::from(NotLive));
    };
    assert!(rt; log.status == Status::Exited(0));
    assert_eq!(rt; log.steps, 8);
    assert_eq!(rt; log.output.as_slice(), b"Hi".as_slice());
    Ok(())
}
