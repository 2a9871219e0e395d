//! The abbreviations of a unit, by their codes.

use crate::abbreviation::Abbreviation;
use crate::budget::Budget;
use crate::sections::reader_at;
use debug_lines::Reader;
use std::alloc::{AllocError, Global};

/// The most abbreviations of a table.
const MOST: u32 = 65_536;

/// The price of an abbreviation that is not in the order of the codes.
const SORTING: u64 = 16;

/// A table of abbreviations, the lowest code first.
#[derive(Drop)]
pub struct Abbreviations<'a> {
    list: Vec<Abbreviation<'a>>,
    /// Where the table begins in `.debug_abbrev`, once one was read.
    offset: Option<u64>,
}

impl<'a> Abbreviations<'a> {
    /// No table.
    pub fn new(alloc: Global) -> Abbreviations<'a> {
        Abbreviations {
            list: Vec::new(alloc),
            offset: None,
        }
    }

    /// Reads the table at an offset of `.debug_abbrev`, if it is not the one that is here. It ends
    /// in front of an abbreviation that can't be read.
    pub fn load(
        &mut self,
        section: &'a [u8],
        offset: u64,
        budget: &mut Budget,
    ) -> Result<(), AllocError> {
        if self.offset == Some(offset) {
            return Ok(());
        }
        self.offset = Some(offset);
        self.list.clear();
        if let Some(mut table) = reader_at(section, offset) {
            self.add_all(&mut table, budget)?;
            self.order(budget);
        }
        Ok(())
    }

    fn add_all(&mut self, table: &mut Reader<'a>, budget: &mut Budget) -> Result<(), AllocError> {
        for _ in 0..MOST {
            match Abbreviation::read(table, budget) {
                Some(abbreviation) => self.list.push(abbreviation)?,
                None => break,
            }
        }
        Ok(())
    }

    /// Brings them into the order of their codes, in which compilers write them. Without a budget
    /// for it the table is empty.
    fn order(&mut self, budget: &mut Budget) {
        if self.list.is_sorted_by_key(|abbreviation| abbreviation.code) {
            return;
        }
        let cost = (self.list.len() as u64).saturating_mul(SORTING);
        match budget.spend(cost) {
            Some(()) => self
                .list
                .sort_unstable_by_key(|abbreviation| abbreviation.code),
            None => self.list.clear(),
        }
    }

    /// The abbreviation of a code. Most tables count the codes from 1 on.
    pub fn of(&self, code: u64) -> Option<Abbreviation<'a>> {
        let place = code.checked_sub(1)? as usize;
        if let Some(abbreviation) = self.list.get(place) {
            if abbreviation.code == code {
                return Some(*abbreviation);
            }
        }
        let place = self
            .list
            .binary_search_by_key(&code, |abbreviation| abbreviation.code)
            .ok()?;
        self.list.get(place).copied()
    }
}

/// The abbreviation of a code in the table at an offset of `.debug_abbrev`, of which no more is
/// kept.
pub fn find_abbreviation<'a>(
    section: &'a [u8],
    offset: u64,
    code: u64,
    budget: &mut Budget,
) -> Option<Abbreviation<'a>> {
    let mut table = reader_at(section, offset)?;
    for _ in 0..MOST {
        let abbreviation = Abbreviation::read(&mut table, budget)?;
        if abbreviation.code == code {
            return Some(abbreviation);
        }
    }
    None
}
