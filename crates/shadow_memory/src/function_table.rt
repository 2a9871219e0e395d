//! Where an image has the functions that make and free chunks, and those whose arguments are
//! judged.

use crate::called_function::CalledFunction;
use crate::heap_function::HeapFunction;
use elf_sections::Sections;
use std::alloc::{AllocError, Global};
use std::str;

/// SHT_SYMTAB.
const SYMBOL_TABLE: u32 = 2;

/// The bytes of a symbol (System V ABI, Object Files: `Elf64_Sym`).
const SYMBOL: usize = 24;

/// STT_FUNC, the lower half of `st_info`.
const FUNCTION: u8 = 2;

/// The most bytes of a name that is looked at, with the 0 after it.
const LONGEST: usize = 64;

/// How many entries are kept.
const MOST_ENTRIES: usize = 256;

/// A function of an image.
#[derive(Clone, Copy)]
pub struct FunctionEntry {
    /// Its first address.
    pub addr: u64,
    /// Which it is; `None` where it has the names of several.
    pub function: Option<HeapFunction>,
    /// Whether it is told the size of the chunk that it frees, as each of its names says.
    pub takes_freed_size: bool,
}

/// A function of an image whose arguments are judged.
#[derive(Clone, Copy)]
struct CalledEntry {
    addr: u64,
    /// Which it is; `None` where it has the names of several.
    function: Option<CalledFunction>,
}

/// The functions of an image that make and free chunks, and those whose arguments are judged, by
/// the names of its symbol table.
#[derive(Drop)]
pub struct FunctionTable {
    called: Vec<CalledEntry>,
    called_groups: u64,
    entries: Vec<FunctionEntry>,
    /// A bit for the group of each of their addresses, so that few others are looked for.
    groups: u64,
}

impl FunctionTable {
    /// Those of a file. A file without a symbol table has none.
    pub fn of(alloc: Global, file: &[u8]) -> Result<FunctionTable, AllocError> {
        let mut table = FunctionTable {
            called: Vec::new(alloc),
            called_groups: 0,
            entries: Vec::new(alloc),
            groups: 0,
        };
        table.enter_symbols(file)?;
        Ok(table)
    }

    /// The function that begins at a plain address.
    #[inline(always)]
    pub fn at(&self, addr: u64) -> Option<&FunctionEntry> {
        if self.groups & group_of(addr) == 0 {
            return None;
        }
        self.entries.iter().find(|entry| entry.addr == addr)
    }

    /// The function that begins at a plain address, where its arguments are judged.
    pub fn called_at(&self, addr: u64) -> Option<CalledFunction> {
        if self.called_groups & group_of(addr) == 0 {
            return None;
        }
        self.called
            .iter()
            .find(|entry| entry.addr == addr)?
            .function
    }

    /// Enters the symbols of a file.
    fn enter_symbols(&mut self, file: &[u8]) -> Result<(), AllocError> {
        let Some((symbols, names)) = symbols_of(file) else {
            return Ok(());
        };
        let (symbols, _) = symbols.as_chunks::<SYMBOL>();
        for symbol in symbols {
            if let Some((addr, name)) = function_of(symbol.as_slice(), names) {
                self.enter_name(addr, name)?;
            }
        }
        Ok(())
    }

    /// Enters a name of a function.
    fn enter_name(&mut self, addr: u64, name: &str) -> Result<(), AllocError> {
        if let Some(function) = CalledFunction::of_name(name) {
            self.enter_called(addr, function)?;
        }
        match HeapFunction::of_name(name) {
            Some(function) => self.enter(FunctionEntry {
                addr,
                function: Some(function),
                takes_freed_size: HeapFunction::takes_freed_size(name),
            }),
            None => Ok(()),
        }
    }

    /// Enters a function whose arguments are judged, as each of its names allows.
    fn enter_called(&mut self, addr: u64, function: CalledFunction) -> Result<(), AllocError> {
        if let Some(other) = self.called.iter_mut().find(|other| other.addr == addr) {
            other.function = match other.function {
                Some(known) => known.with(function),
                None => None,
            };
            return Ok(());
        }
        if self.called.len() < MOST_ENTRIES {
            self.called_groups |= group_of(addr);
            self.called.push(CalledEntry {
                addr,
                function: Some(function),
            })?;
        }
        Ok(())
    }

    /// Enters a function. One with the names of several of them is none of them: linkers fold
    /// functions that are the same.
    fn enter(&mut self, entry: FunctionEntry) -> Result<(), AllocError> {
        let same = self
            .entries
            .iter_mut()
            .find(|other| other.addr == entry.addr);
        if let Some(other) = same {
            if other.function != entry.function {
                other.function = None;
            }
            other.takes_freed_size &= entry.takes_freed_size;
            return Ok(());
        }
        if self.entries.len() < MOST_ENTRIES {
            self.groups |= group_of(entry.addr);
            self.entries.push(entry)?;
        }
        Ok(())
    }
}

/// The bit of the group of an address, of 64 groups.
#[inline(always)]
fn group_of(addr: u64) -> u64 {
    1u64.wrapping_shl((addr / 4 % 64) as u32)
}

/// The first symbol table of a file, and its names.
fn symbols_of(file: &[u8]) -> Option<(&[u8], &[u8])> {
    let sections = Sections::of(file);
    let table = sections.of_type(SYMBOL_TABLE)?;
    let names = sections.at(table.link()?)?;
    Some((table.contents()?, names.contents()?))
}

/// The address and the name of the function that a symbol is of.
fn function_of<'a>(symbol: &[u8], names: &'a [u8]) -> Option<(u64, &'a str)> {
    let is_defined = symbol.get(6..8)? != [0, 0].as_slice();
    if symbol.get(4)? % 16 != FUNCTION || !is_defined {
        return None;
    }
    let at = u32::from_le_bytes(*symbol.first_chunk::<4>()?);
    let addr = u64::from_le_bytes(*symbol.get(8..16)?.first_chunk::<8>()?);
    Some((addr, name_at(names, at as usize)?))
}

/// The name that begins at a place of a string table.
fn name_at(names: &[u8], at: usize) -> Option<&str> {
    let rest = names.get(at..)?;
    let end = rest.iter().take(LONGEST).position(|byte| *byte == 0)?;
    str::from_utf8(rest.get(..end)?).ok()
}
