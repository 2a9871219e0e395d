//! Addresses whose rows are looked for in one pass over the line tables.

use crate::registers::LineRegisters;
use crate::row::LineRow;
use crate::unit::LineProgram;
use std::alloc::{AllocError, Global};

/// An address, and what the row that covers it says.
#[derive(Clone, Copy)]
pub struct CoveredAddress {
    pub address: u64,
    /// The number of its source file in the unit's table of files.
    pub file: u64,
    /// Its source line, or 0.
    pub line: u32,
}

/// The addresses that no row covers so far.
#[derive(Drop)]
pub struct OpenAddresses {
    /// The highest first, each once: rows mostly come by rising addresses, so that what they cover
    /// is at the end.
    addresses: Vec<u64>,
}

impl OpenAddresses {
    /// Addresses in any order.
    pub fn of(alloc: Global, addresses: &[u64]) -> Result<OpenAddresses, AllocError> {
        let mut addresses = Vec::from_slice(alloc, addresses)?;
        addresses
            .as_mut_slice()
            .sort_unstable_by_key(|address| !*address);
        addresses.dedup();
        Ok(OpenAddresses { addresses })
    }

    /// Whether each address is covered.
    pub fn is_empty(&self) -> bool {
        self.addresses.is_empty()
    }

    /// Takes those away that the rows of a unit cover: the first row that covers an address counts.
    pub fn take_covered(
        &mut self,
        alloc: Global,
        unit: &LineProgram<'_>,
    ) -> Result<Vec<CoveredAddress>, AllocError> {
        let mut covered = Vec::new(alloc);
        let mut registers = LineRegisters::START;
        let mut last: Option<LineRow> = None;
        for operation in unit.operations() {
            if let Some(row) = registers.run(operation) {
                if let Some(last) = &last {
                    self.take_between(last, &row, &mut covered)?;
                }
                last = if row.ends_sequence { None } else { Some(row) };
            }
        }
        Ok(covered)
    }

    /// Takes those away that a row covers. Most rows cover none: they cost two binary searches.
    fn take_between(
        &mut self,
        row: &LineRow,
        next: &LineRow,
        covered: &mut Vec<CoveredAddress>,
    ) -> Result<(), AllocError> {
        let (first, behind) = self.places_between(row, next);
        for address in self.addresses.get(first..behind).unwrap_or(&[]) {
            covered.push(CoveredAddress {
                address: *address,
                file: row.file,
                line: row.line,
            })?;
        }
        if first < behind && behind <= self.addresses.len() {
            self.addresses.drain(first..behind);
        }
        Ok(())
    }

    /// The first place of those that a row covers, and the one behind the last.
    fn places_between(&self, row: &LineRow, next: &LineRow) -> (usize, usize) {
        if !row.is_placed || next.address <= row.address {
            return (0, 0);
        }
        let addresses = self.addresses.as_slice();
        let first = addresses.partition_point(|address| *address >= next.address);
        let behind = addresses.partition_point(|address| *address >= row.address);
        (first, behind)
    }
}
