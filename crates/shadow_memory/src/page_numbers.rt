//! Which pages of a tenant's addresses something is kept of.

use common::{ADDRESS_END, PAGE_SIZE};
use std::alloc::{AllocError, Global};

/// How many pages the addresses have.
const PAGES: usize = (ADDRESS_END / PAGE_SIZE) as usize;

/// The most pages of which something is kept: twice as many as a tenant reserves.
pub const MOST_PAGES: usize = 8_192;

/// Which pages of a tenant's addresses something is kept of: each of these has a number, from 0 on
/// in the order in which they were entered.
#[derive(Drop)]
pub struct PageNumbers {
    /// For each page of the addresses its number and 1, or 0 for none.
    table: Vec<u16>,
    count: usize,
}

impl PageNumbers {
    /// Of no page.
    pub fn new(alloc: Global) -> Result<PageNumbers, AllocError> {
        Ok(PageNumbers {
            table: vec![in alloc; 0u16; PAGES]?,
            count: 0,
        })
    }

    /// The number of the page that an address is in, if it has one.
    #[inline]
    pub fn of(&self, addr: u64) -> Option<usize> {
        let entry = usize::from(*self.table.get((addr / PAGE_SIZE) as usize)?);
        entry.checked_sub(1)
    }

    /// Enters the page that an address is in, which has no number: its number is the next one.
    /// Nothing where there are 8,192 pages, or the address is none of the tenant's; whether it was
    /// entered.
    pub fn enter(&mut self, addr: u64) -> bool {
        if self.count >= MOST_PAGES {
            return false;
        }
        match self.table.get_mut((addr / PAGE_SIZE) as usize) {
            Some(entry) => {
                self.count = self.count.saturating_add(1);
                *entry = u16::try_from(self.count).unwrap_or(0);
                true
            }
            None => false,
        }
    }

    /// Whether no other page can be entered.
    pub fn is_full(&self) -> bool {
        self.count >= MOST_PAGES
    }
}
