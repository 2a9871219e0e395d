//! Sizes that no program can ask for: all pages of the range of large chunks, and of addresses.

use mte_flat::Flat;
use mte_tags::TagMode;
use scudo_secondary::Secondary;
use std::test::Fail;

/// Whether there is a page, 33 pages or all of the range to be had, and no more.
fn places_whole_range(maps: &Secondary) -> bool {
    let first = Some(0x3D00_1000);
    let all = maps.place(1) == first && maps.place(33) == first && maps.place(8190) == first;
    all && maps.place(8191).is_none() && maps.place(u64::MAX).is_none()
}

#[test]
fn whole_ranges(rt: HostRuntime) -> Result<(), Fail> {
    let maps = Secondary::new(rt.alloc(), 512)?;
    let many = Flat::new(rt.alloc(), 1 << 58, TagMode::Sync).is_err();
    assert!(rt; many && places_whole_range(&maps));
    Ok(())
}
