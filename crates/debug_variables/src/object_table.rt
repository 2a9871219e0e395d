//! The variables of an image, by its symbol table.

use crate::declaration::VariableName;
use elf_sections::Sections;
use std::alloc::{AllocError, Global};

/// SHT_SYMTAB.
const SYMBOL_TABLE: u32 = 2;

/// The bytes of a symbol (System V ABI, Object Files: `Elf64_Sym`).
const SYMBOL: usize = 24;

/// STT_NOTYPE, STT_OBJECT and STT_FUNC, the lower half of `st_info`.
const NO_TYPE: u8 = 0;

const OBJECT: u8 = 1;

const FUNCTION: u8 = 2;

/// The most bytes of a name that is looked at, with the 0 after it.
const LONGEST: usize = 80;

/// The most objects that are kept, and the most marks.
const MOST: usize = 65_536;

/// A variable of an image.
#[derive(Clone, Copy, PartialEq, Eq)]
pub struct ImageObject {
    /// Its address.
    pub start: u64,
    /// The address after its last byte.
    pub end: u64,
    /// Its name.
    pub name: VariableName,
    /// Whether its address is that of a symbol without a size too, as linkers set at the start of
    /// what is after one another: a pointer to it may be meant for more than the object.
    pub is_marked: bool,
}

/// The variables of an image: objects that have a size.
#[derive(Drop)]
pub struct ImageObjects {
    /// The lowest first; none has a byte of another.
    objects: Vec<ImageObject>,
}

/// A symbol, as far as it matters.
#[derive(Clone, Copy)]
struct ObjectSymbol<'a> {
    addr: u64,
    size: u64,
    kind: u8,
    name: &'a [u8],
}

impl ImageObjects {
    /// Those of a file. A file without a symbol table has none. `Err` where there is no memory for
    /// them: 7 MiB at most.
    pub fn of(alloc: Global, file: &[u8]) -> Result<ImageObjects, AllocError> {
        let nothing: &[u8] = &[];
        let (symbols, names) = symbols_of(file).unwrap_or((nothing, nothing));
        let (symbols, _) = symbols.as_chunks::<SYMBOL>();
        let mut objects = Vec::new(alloc);
        let mut marks = Vec::new(alloc);
        for symbol in symbols {
            if let Some(symbol) = ObjectSymbol::of(symbol.as_slice(), names) {
                enter(&mut objects, &mut marks, &symbol)?;
            }
        }
        objects
            .as_mut_slice()
            .sort_unstable_by_key(|object| object.start);
        marks.as_mut_slice().sort_unstable();
        let mut objects = joined(alloc, objects.as_slice())?;
        for object in objects.as_mut_slice() {
            object.is_marked = marks.as_slice().binary_search(&object.start).is_ok();
        }
        Ok(ImageObjects { objects })
    }

    /// All of them, the lowest first.
    pub fn all(&self) -> &[ImageObject] {
        self.objects.as_slice()
    }

    /// The number of the one that has the byte at an address.
    pub fn number_at(&self, addr: u64) -> Option<usize> {
        let behind = self
            .objects
            .as_slice()
            .partition_point(|object| object.start <= addr);
        let number = behind.checked_sub(1)?;
        if addr < self.objects.get(number)?.end {
            Some(number)
        } else {
            None
        }
    }

    /// The one that ends at an address.
    pub fn ending_at(&self, addr: u64) -> Option<&ImageObject> {
        let number = self.number_at(addr.checked_sub(1)?)?;
        self.objects.get(number).filter(|object| object.end == addr)
    }
}

impl<'a> ObjectSymbol<'a> {
    /// The object of an entry of the symbol table, where it is of a section.
    fn of(entry: &[u8], names: &'a [u8]) -> Option<ObjectSymbol<'a>> {
        if entry.get(6..8)? == [0, 0].as_slice() {
            return None;
        }
        let at = u32::from_le_bytes(*entry.first_chunk::<4>()?);
        Some(ObjectSymbol {
            addr: u64::from_le_bytes(*entry.get(8..16)?.first_chunk::<8>()?),
            size: u64::from_le_bytes(*entry.get(16..24)?.first_chunk::<8>()?),
            kind: entry.get(4)? % 16,
            name: name_at(names, at as usize).unwrap_or(&[]),
        })
    }

    /// Whether it is one of the marks `$x` and `$d` between code and data.
    fn is_of_mapping(&self) -> bool {
        self.name.first() == Some(&b'$')
    }
}

/// Enters what a symbol says: an object, or a mark at an address.
fn enter(
    objects: &mut Vec<ImageObject>,
    marks: &mut Vec<u64>,
    symbol: &ObjectSymbol<'_>,
) -> Result<(), AllocError> {
    let ObjectSymbol {
        addr,
        size,
        kind,
        ..
    } = *symbol;
    if kind == OBJECT && size > 0 {
        if objects.len() < MOST {
            objects.push(ImageObject {
                start: addr,
                end: addr.saturating_add(size),
                name: VariableName::of(symbol.name),
                is_marked: false,
            })?;
        }
        return Ok(());
    }
    let is_mark = matches!(kind, NO_TYPE | OBJECT | FUNCTION) && size == 0;
    if is_mark && !symbol.is_of_mapping() && marks.len() < MOST {
        marks.push(addr)?;
    }
    Ok(())
}

/// Objects in order, where those that share bytes are one.
fn joined(alloc: Global, sorted: &[ImageObject]) -> Result<Vec<ImageObject>, AllocError> {
    let mut all: Vec<ImageObject> = Vec::with_capacity(alloc, sorted.len())?;
    for object in sorted {
        match all.last_mut() {
            Some(last) if object.start < last.end => {
                if object.end > last.end {
                    last.end = object.end;
                }
            }
            _ => all.push(*object)?,
        }
    }
    Ok(all)
}

/// The first symbol table of a file, and its names.
fn symbols_of(file: &[u8]) -> Option<(&[u8], &[u8])> {
    let sections = Sections::of(file);
    let table = sections.of_type(SYMBOL_TABLE)?;
    let names = sections.at(table.link()?)?;
    Some((table.contents()?, names.contents()?))
}

/// The name that begins at a place of a string table.
fn name_at(names: &[u8], at: usize) -> Option<&[u8]> {
    let rest = names.get(at..)?;
    let end = rest.iter().take(LONGEST).position(|byte| *byte == 0)?;
    rest.get(..end)
}
