//! The names of an image's addresses, by its symbol table (System V ABI, Object Files:
//! `Elf64_Sym`). A file without one, or with one that is not in it, has no
//! names.

use crate::pieces::{Piece, Rank, Sweep, SymbolRank};
use crate::symbol_name::SymbolName;
use elf_sections::{Sections, double_word, half, word};
use std::alloc::{AllocError, Global};
use std::{fmt, str};

/// SHT_SYMTAB.
const SYMBOL_TABLE: u32 = 2;

/// The bytes of a symbol.
const SYMBOL: usize = 24;

/// How far from a symbol without a size an address is still named by it.
const REACH: u64 = 65_536;

/// The most bytes of a name, with the 0 after it.
const LONGEST: usize = 1_024;

/// STT_OBJECT and STT_FUNC, the lower half of `st_info`.
const OBJECT: u8 = 1;

const FUNCTION: u8 = 2;

/// STB_LOCAL, the upper half of `st_info`.
const LOCAL: u8 = 0;

/// A symbol table, and the names that it refers to.
#[derive(Clone, Copy)]
struct SymbolTable<'a> {
    entries: &'a [[u8; SYMBOL]],
    names: &'a [u8],
}

impl<'a> SymbolTable<'a> {
    /// One without entries.
    const NOTHING: SymbolTable<'static> = SymbolTable {
        entries: &[],
        names: &[],
    };

    /// The first symbol table that the section headers name, and its names.
    fn of(file: &'a [u8]) -> Option<SymbolTable<'a>> {
        let sections = Sections::of(file);
        let table = sections.of_type(SYMBOL_TABLE)?;
        let names = sections.at(table.link()?)?;
        let (entries, _) = table.contents()?.as_chunks::<SYMBOL>();
        Some(SymbolTable {
            entries,
            names: names.contents()?,
        })
    }

    /// The symbol of a number.
    fn symbol(&self, number: u32) -> Option<Symbol<'a>> {
        let entry = self.entries.get(number as usize)?;
        Symbol::of(entry.as_slice(), self.names)
    }

    /// The ranks of its symbols, the lowest first.
    fn ranks(&self, alloc: Global) -> Result<Vec<Rank>, AllocError> {
        let mut ranks = Vec::with_capacity(alloc, self.entries.len())?;
        for (entry, number) in self.entries.iter().zip(0..u32::MAX) {
            if let Some(standing) = standing_of(entry.as_slice(), self.names) {
                ranks.push(Rank::of(standing, number))?;
            }
        }
        ranks.as_mut_slice().sort_unstable();
        Ok(ranks)
    }

    /// Which of its symbols names which addresses.
    fn pieces(&self, alloc: Global) -> Result<Vec<Piece>, AllocError> {
        let ranks = self.ranks(alloc)?;
        let mut sweep = Sweep::new(alloc, ranks.len())?;
        for rank in &ranks {
            let number = rank.number();
            if let Some(symbol) = self.symbol(number) {
                sweep.enter(number, symbol.value, symbol.last())?;
            }
        }
        sweep.finish()
    }
}

/// The keys that order an entry's symbol, where the entry has one.
fn standing_of(entry: &[u8], names: &[u8]) -> Option<SymbolRank> {
    let symbol = Symbol::of(entry, names)?;
    let info = *entry.get(4)?;
    Some(SymbolRank {
        value: symbol.value,
        has_size: symbol.size != 0,
        is_typed: matches!(info % 16, OBJECT | FUNCTION),
        is_global: info / 16 != LOCAL,
    })
}

/// The symbols of an image, sorted once: an address is found in the time of a binary search.
#[derive(Drop)]
pub struct Symbols<'a> {
    table: SymbolTable<'a>,
    pieces: Vec<Piece>,
}

impl<'a> Symbols<'a> {
    /// The symbols of a file: at most 56 bytes of memory for each while they are sorted, and 32
    /// from then on. `Err` where there is no memory for them.
    pub fn of(alloc: Global, file: &'a [u8]) -> Result<Symbols<'a>, AllocError> {
        let table = SymbolTable::of(file).unwrap_or(SymbolTable::NOTHING);
        Ok(Symbols {
            table,
            pieces: table.pieces(alloc)?,
        })
    }

    /// The symbol that an address is named by: of those whose bytes it is among, or that have no
    /// size and lie up to 65,536 bytes in front of it, the one with the highest address. Of one
    /// address those with a size come first, then functions and objects, then those that are not
    /// local, then the first of the table.
    fn nearest(&self, addr: u64) -> Option<Symbol<'a>> {
        let behind = self
            .pieces
            .as_slice()
            .partition_point(|piece| piece.start <= addr);
        let piece = self.pieces.get(behind.checked_sub(1)?)?;
        self.table.symbol(piece.number?)
    }

    /// An address, to be named by a symbol.
    pub fn place(&self, addr: u64) -> SymbolOffset<'a> {
        SymbolOffset {
            symbol: self.nearest(addr),
            addr,
        }
    }

    /// An address, to be named by the symbol of the address that lies some bytes in front of it, as
    /// a return address by the symbol of its call.
    pub fn place_after(&self, addr: u64, bytes: u64) -> SymbolOffset<'a> {
        SymbolOffset {
            symbol: self.nearest(addr.wrapping_sub(bytes)),
            addr,
        }
    }
}

/// A name of an image's addresses.
#[derive(Clone, Copy)]
struct Symbol<'a> {
    name: &'a str,
    value: u64,
    size: u64,
}

impl<'a> Symbol<'a> {
    /// The symbol of an entry of the symbol table, where it has a name and is of a section.
    fn of(entry: &[u8], names: &'a [u8]) -> Option<Symbol<'a>> {
        if half(entry, 6)? == 0 {
            return None;
        }
        let name = name_at(names, word(entry, 0)? as usize)?;
        Some(Symbol {
            name,
            value: double_word(entry, 8)?,
            size: double_word(entry, 16)?,
        })
    }

    /// Whether it is of the same function as another.
    fn shares_function(&self, other: &Symbol<'_>) -> bool {
        let is_part = self.name != other.name && stem(self.name) == stem(other.name);
        self.value == other.value || is_part
    }

    /// The last address that it may name.
    fn last(&self) -> u64 {
        let bytes = if self.size == 0 { REACH } else { self.size };
        self.value.saturating_add(bytes.saturating_sub(1))
    }
}

/// A name up to its first dot.
fn stem(name: &str) -> &str {
    match name.split_once('.') {
        Some((stem, _)) => stem,
        None => name,
    }
}

/// The name that begins at a place of a string table: printable characters of ASCII, and not one of
/// the marks `$x` and `$d` between code and data.
fn name_at(names: &[u8], at: usize) -> Option<&str> {
    let rest = names.get(at..)?;
    let end = rest.iter().take(LONGEST).position(|byte| *byte == 0)?;
    let name = rest.get(..end)?;
    if name.first()? == &b'$' || !name.iter().all(|byte| byte.is_ascii_graphic()) {
        return None;
    }
    str::from_utf8(name).ok()
}

/// Where an address is in an image: ` (NAME+OFFSET)`, or nothing where no symbol names it.
#[derive(Clone, Copy)]
pub struct SymbolOffset<'a> {
    symbol: Option<Symbol<'a>>,
    addr: u64,
}

impl<'a> SymbolOffset<'a> {
    /// An address that no symbol names.
    pub fn unnamed(addr: u64) -> SymbolOffset<'a> {
        SymbolOffset { symbol: None, addr }
    }

    /// The name of the symbol that names it, if one does.
    pub fn name(&self) -> Option<SymbolName<'a>> {
        let symbol = self.symbol.as_ref()?;
        Some(SymbolName::of(symbol.name))
    }

    /// How far it is from the symbol that names it; 0 where none does.
    pub fn offset(&self) -> u64 {
        match &self.symbol {
            Some(symbol) => self.addr.saturating_sub(symbol.value),
            None => 0,
        }
    }

    /// Whether it is in the first instructions of a symbol whose size is known, and another
    /// address of the same symbol is after it.
    pub fn begins_function_of(&self, other: &SymbolOffset<'_>, instructions: u64) -> bool {
        match (&self.symbol, &other.symbol) {
            (Some(symbol), Some(same)) if symbol.value == same.value => {
                let is_first = self.offset() < instructions.saturating_mul(4);
                symbol.size != 0 && is_first && self.addr < other.addr
            }
            _ => false,
        }
    }

    /// The label without brackets, and with the address where no symbol names it.
    pub fn label(&self) -> Label<'a> {
        Label(*self)
    }

    /// Whether another address is in the same function: it has the same symbol, or one whose name
    /// is the same up to the first dot, as the parts of a function that gcc splits have. `None`
    /// where the symbol has no size, or there is none.
    pub fn shares_function(&self, other: &SymbolOffset<'_>) -> Option<bool> {
        let symbol = self.symbol.as_ref()?;
        if symbol.size == 0 {
            return None;
        }
        match &other.symbol {
            Some(other) => Some(symbol.shares_function(other)),
            None => Some(false),
        }
    }
}

impl<'a> fmt::Display for SymbolOffset<'a> {
    fn fmt<W: fmt::Write>(&self, f: &mut fmt::Formatter<W>) -> fmt::Result {
        match self.name() {
            Some(name) => {
                let offset = self.offset();
                write!(f, " ({name}+{offset:#x})")
            }
            None => Ok(()),
        }
    }
}

/// Where an address is in an image: `NAME+OFFSET`, or the address where no symbol names it.
#[derive(Clone, Copy)]
pub struct Label<'a>(SymbolOffset<'a>);

impl<'a> fmt::Display for Label<'a> {
    fn fmt<W: fmt::Write>(&self, f: &mut fmt::Formatter<W>) -> fmt::Result {
        let place = &self.0;
        match place.name() {
            Some(name) => {
                let offset = place.offset();
                write!(f, "{name}+{offset:#x}")
            }
            None => write!(f, "{:#x}", place.addr),
        }
    }
}
