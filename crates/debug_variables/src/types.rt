//! How many bytes a type has, by its entries (DWARF 5, 5.1 to 5.15).

use debug_info::{Abbreviations, Budget, CompilationUnit, Entry, number};
use debug_lines::Reader;

/// How many types are followed, as a typedef's and an array's.
const FOLLOWED: u32 = 16;

/// How many dimensions an array has at most.
const DIMENSIONS: u32 = 16;

/// The bytes of a pointer.
const POINTER: u64 = 8;

/// DW_TAG_array_type.
const ARRAY: u64 = 0x01;

/// DW_TAG_base_type and DW_TAG_enumeration_type.
const NUMBERS: [u64; 2] = [0x24, 0x04];

/// DW_TAG_pointer_type, DW_TAG_reference_type, DW_TAG_rvalue_reference_type.
const POINTERS: [u64; 3] = [0x0F, 0x10, 0x42];

/// Those that have the bytes of another: DW_TAG_typedef, DW_TAG_const_type, DW_TAG_volatile_type,
/// DW_TAG_restrict_type, DW_TAG_atomic_type.
const OTHERS: [u64; 5] = [0x16, 0x26, 0x35, 0x37, 0x47];

/// DW_TAG_subrange_type.
const RANGE: u64 = 0x21;

/// The facts about variables of a type.
#[derive(Clone, Copy)]
pub struct TypeSize {
    pub bytes: u64,
    /// Whether it is one number or one pointer.
    pub is_single: bool,
}

/// The types of a unit.
#[derive(Clone, Copy)]
pub struct UnitTypes<'t, 'a> {
    pub unit: CompilationUnit<'a>,
    pub table: &'t Abbreviations<'a>,
}

impl<'t, 'a> UnitTypes<'t, 'a> {
    /// The bytes of the type at an offset of the unit, where they are known: not of an array whose
    /// bounds are no numbers, nor of a pointer to a member, and not more than 2^32.
    pub fn size(&self, offset: u64, budget: &mut Budget) -> Option<TypeSize> {
        let (mut at, mut elements, mut is_array) = (offset, 1u64, false);
        for _ in 0..FOLLOWED {
            let mut entries = self.unit.entries_at(at)?;
            let abbreviation = self.table.of(number(&mut entries)?)?;
            let entry = Entry::read(&abbreviation, &mut entries, budget)?;
            if let Some(size) = own_size(abbreviation.tag, &entry) {
                return Some(TypeSize {
                    bytes: product(elements, size)?,
                    is_single: !is_array && is_number(abbreviation.tag),
                });
            }
            if abbreviation.tag == ARRAY {
                let count = self.elements(entries, budget)?;
                elements = product(elements, count)?;
                is_array = true;
            } else if !OTHERS.contains(&abbreviation.tag) {
                return None;
            }
            at = entry.type_.entry()?;
        }
        None
    }

    /// How many elements an array has, by the entries after its own.
    fn elements(&self, mut entries: Reader<'a>, budget: &mut Budget) -> Option<u64> {
        let mut elements = 1u64;
        for _ in 0..DIMENSIONS {
            let code = number(&mut entries)?;
            if code == 0 {
                return Some(elements);
            }
            let abbreviation = self.table.of(code)?;
            let entry = Entry::read(&abbreviation, &mut entries, budget)?;
            if abbreviation.tag != RANGE || abbreviation.has_children {
                return None;
            }
            elements = product(elements, count_of(&entry)?)?;
        }
        None
    }
}

/// The bytes of a type that says how many it has.
fn own_size(tag: u64, entry: &Entry<'_>) -> Option<u64> {
    if POINTERS.contains(&tag) {
        return Some(POINTER);
    }
    entry.size.number()
}

/// Whether a type is one of numbers or of pointers.
fn is_number(tag: u64) -> bool {
    NUMBERS.contains(&tag) || POINTERS.contains(&tag)
}

/// How many elements a dimension has.
fn count_of(entry: &Entry<'_>) -> Option<u64> {
    match entry.count.number() {
        Some(count) => Some(count),
        None => entry.last.number()?.checked_add(1),
    }
}

/// A product, of at most 2^32.
fn product(one: u64, other: u64) -> Option<u64> {
    one.checked_mul(other).filter(|bytes| *bytes <= 1 << 32)
}
