//! Which symbol names which addresses.

use std::alloc::{AllocError, Global};

/// A symbol's place among all: of those that reach an address the highest names it.
#[derive(Clone, Copy, PartialEq, Eq, PartialOrd, Ord)]
pub struct Rank {
    /// Its address.
    value: u64,
    has_size: bool,
    /// Whether it is of a function or an object.
    is_typed: bool,
    is_global: bool,
    /// Of equal ones the first has the highest.
    order: u32,
}

/// The keys that order symbols.
#[derive(Clone, Copy)]
pub struct SymbolRank {
    /// Its address.
    pub value: u64,
    /// Whether it has a size.
    pub has_size: bool,
    /// Whether it is of a function or an object.
    pub is_typed: bool,
    /// Whether other files see it.
    pub is_global: bool,
}

impl Rank {
    /// The place of the symbol with a number.
    pub fn of(standing: SymbolRank, number: u32) -> Rank {
        let SymbolRank {
            value,
            has_size,
            is_typed,
            is_global,
        } = standing;
        Rank {
            value,
            has_size,
            is_typed,
            is_global,
            order: u32::MAX - number,
        }
    }

    /// Its symbol's number.
    pub fn number(&self) -> u32 {
        u32::MAX - self.order
    }
}

/// The addresses from one on, up to the next piece: the number of the symbol that names them, if
/// one does.
#[derive(Clone, Copy)]
pub struct Piece {
    /// Its first address.
    pub start: u64,
    /// The number of its symbol.
    pub number: Option<u32>,
}

/// A symbol that reaches the address that a sweep is at.
#[derive(Clone, Copy)]
struct Open {
    /// The last address that it reaches.
    last: u64,
    number: u32,
}

/// A sweep over the symbols by their rank.
#[derive(Drop)]
pub struct Sweep {
    /// Those that still reach. Each reaches farther than the ones after it, of which the last
    /// names the addresses.
    open: Vec<Open>,
    /// The pieces so far: at most two a symbol.
    pieces: Vec<Piece>,
}

impl Sweep {
    /// A sweep with capacity for the pieces of some symbols.
    pub fn new(alloc: Global, symbols: usize) -> Result<Sweep, AllocError> {
        Ok(Sweep {
            open: Vec::new(alloc),
            pieces: Vec::with_capacity(alloc, symbols.saturating_mul(2))?,
        })
    }

    /// Enters the next symbol: its number, and the first and the last address that it reaches.
    pub fn enter(&mut self, number: u32, start: u64, last: u64) -> Result<(), AllocError> {
        self.close_before(start)?;
        self.hide(last);
        self.open.push(Open { last, number })?;
        self.pieces.push(Piece {
            start,
            number: Some(number),
        })?;
        Ok(())
    }

    /// Takes those away that do not reach an address: where one ends, the one below it goes on.
    fn close_before(&mut self, start: u64) -> Result<(), AllocError> {
        for _ in 0..self.open.len() {
            let Some(last) = self.last_below(start) else {
                return Ok(());
            };
            self.open.pop();
            let number = self.open.last().map(|open| open.number);
            self.pieces.push(Piece {
                start: last.saturating_add(1),
                number,
            })?;
        }
        Ok(())
    }

    /// The last address of the one that names the addresses, if it is in front of an address.
    fn last_below(&self, start: u64) -> Option<u64> {
        let open = self.open.last()?;
        if open.last < start {
            Some(open.last)
        } else {
            None
        }
    }

    /// Takes those away that do not reach farther than a new one, which hides them.
    fn hide(&mut self, last: u64) {
        for _ in 0..self.open.len() {
            if self.open.last().is_none_or(|open| last < open.last) {
                return;
            }
            self.open.pop();
        }
    }

    /// The pieces, the lowest first, after the end of the last symbol too.
    pub fn finish(mut self) -> Result<Vec<Piece>, AllocError> {
        self.close_before(u64::MAX)?;
        Ok(self.pieces)
    }
}
