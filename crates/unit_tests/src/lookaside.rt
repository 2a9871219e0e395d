//! Which translations a lookaside buffer of 64 holds.

use mte_tags::Attrs;
use mte_translate::{
    Tlb, fill_adds_its_own, forget_drops_its_own, lookup_returns_what_stands,
    table_pages_in_digits, tlb_entries_in_digits,
};

/// Fills a page's translation, and tests that it is then returned at once.
fn fill(tlb: &mut Tlb, asid: usize, page: u64, frame: usize) -> bool {
    tlb.fill(asid, page, frame, Attrs::DATA);
    tlb.quick_lookup(asid, page) == Some((frame, Attrs::DATA))
}

fn stands(tlb: &Tlb, asid: usize, page: u64, frame: usize) -> bool {
    tlb.lookup(asid, page) == Some((frame, Attrs::DATA))
}

/// Fills the translations of 65 pages from 1 on, and whether each is returned at once.
fn fill_all(tlb: &mut Tlb) -> bool {
    for page in 1..66 {
        if !fill(tlb, 7, page, 1000 + page as usize) {
            return false;
        }
    }
    true
}

/// Whether the translations of the pages 4 to 66 are there.
fn all_stand(tlb: &Tlb) -> bool {
    for page in 4..67 {
        let quick = tlb.quick_lookup(7, page).is_some();
        if !quick || !stands(tlb, 7, page, 1000 + page as usize) {
            return false;
        }
    }
    true
}

/// Whether those of the pages 1 and 3 are gone, the oldest where 2 was filled again.
fn two_are_gone(tlb: &Tlb) -> bool {
    let gone = tlb.lookup(7, 1).is_none() && tlb.lookup(7, 3).is_none();
    gone && tlb.len() == 64 && stands(tlb, 7, 2, 2)
}

#[test]
fn the_oldest_translation_is_dropped(rt: HostRuntime) {
    let mut tlb = Tlb::new();
    let none = tlb.lookup(0, 0).is_none();
    let filled = fill_all(&mut tlb) && fill(&mut tlb, 7, 2, 2) && fill(&mut tlb, 7, 66, 1066);
    assert!(rt; none && filled && two_are_gone(&tlb) && all_stand(&tlb));
}

/// Fills the translations of eight pages of two address spaces.
fn fill_both(tlb: &mut Tlb) -> bool {
    for page in 0..8 {
        if !fill(tlb, 1, page, 1) || !fill(tlb, 2, page, 2) {
            return false;
        }
    }
    true
}

/// Whether none of the second's eight translations is left, and of the first's all but one.
fn second_is_forgotten(tlb: &Tlb) -> bool {
    for page in 0..8 {
        if tlb.lookup(2, page).is_some() || stands(tlb, 1, page, 1) != (page != 3) {
            return false;
        }
    }
    true
}

#[test]
fn each_address_space_has_its_own(rt: HostRuntime) {
    let mut tlb = Tlb::new();
    let filled = fill_both(&mut tlb);
    tlb.forget(1, 3);
    assert!(rt; filled && tlb.lookup(1, 3).is_none() && stands(&tlb, 2, 3, 2));
    tlb.forget_all(2);
    assert!(rt; second_is_forgotten(&tlb));
    fill_adds_its_own();
    forget_drops_its_own();
    lookup_returns_what_stands();
    table_pages_in_digits();
    tlb_entries_in_digits();
}
