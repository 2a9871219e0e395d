//! Whether an access by a pointer to a variable is one of the variable's bytes.

use crate::access_form::form_by_base;
use crate::marks::{FRESH, MOVED, OWN, PASSED};
use crate::notes::NotedInstruction;
use crate::place::{NamedPlace, PlaceKind, PlaceText};
use crate::places::NamedPlaces;
use crate::table::PlaceTable;
use a64_access::{AccessForm, AddressingMode};
use a64_bits::plain;
use common::{IMAGE_END, IMAGE_START, STACK_END, STACK_START};
use debug_variables::{Neighbor, VariableName};
use shadow_memory::{AccessedBytes, OriginKind, PointerOrigin, Step};

/// A use of a pointer to a variable that the variable does not allow.
#[derive(Clone, Copy, Debug, PartialEq, Eq)]
pub enum PlaceMisuseKind {
    /// An access past the end of a variable.
    Overflow,
    /// An access in front of a variable.
    Underflow,
    /// An access to the frame of a function that has returned.
    AfterReturn,
    /// An access to a variable whose block has ended.
    AfterScope,
    /// A free of what no heap call returned.
    Free,
}

/// A use of a pointer to a variable that the variable does not allow.
#[derive(Clone, Copy, PartialEq, Eq)]
pub struct PlaceMisuse {
    /// The misuse.
    pub kind: PlaceMisuseKind,
    /// The plain address of the first byte that is wrong.
    pub addr: u64,
    /// The bytes that are accessed, of one register of a pair.
    pub access: AccessedBytes,
    /// The variable.
    pub place: PlaceText,
}

/// How an access is judged.
#[derive(Clone, Copy)]
struct Strictness {
    /// Whether the variable's end counts.
    is_above: bool,
    /// Whether its start does.
    is_below: bool,
    /// Whether what falls into another variable is not told.
    is_lenient: bool,
    /// Whether the variable's block has ended.
    is_past: bool,
}

impl NamedPlaces {
    /// The misuse by an instruction that loads or stores through a pointer, of which nothing is
    /// noted yet.
    pub fn judge(&self, step: &Step<'_>, origin: PointerOrigin) -> Option<PlaceMisuse> {
        let index = origin.place()?;
        let place = self.table.get(index)?;
        let access = step.access?;
        let form = form_by_base(step)?;
        let strictness = self.strictness(&NotedInstruction::of(step), &form, index);
        let found = self.judge_bytes(place, access.bytes, strictness);
        if found.is_some() || access.second.is_none() {
            return found;
        }
        self.judge_bytes(place, access.bytes.next(), strictness)
    }

    /// How an access is judged: each one of a function that was not optimized, but for those from a
    /// pointer to a variable of its frame by a constant, which is one for several; of another those
    /// by an index, by a pointer that was moved, and by one that was passed to it.
    fn strictness(&self, at: &NotedInstruction<'_>, form: &AccessForm, index: usize) -> Strictness {
        let (base, mode) = (form.base, form.mode);
        let is_exact = self.is_exact_at(at.pc);
        let (is_moved, is_fresh) = (self.marks.has(base, MOVED), self.marks.has(base, FRESH));
        let place = self.table.get(index);
        // Of a pointer that a function made itself compilers may make one to another place.
        let is_own = match place {
            Some(place) if place.text.kind == PlaceKind::Object => self.marks.has(base, OWN),
            _ => self.may_be_of_top(at, index),
        };
        let is_above = match mode {
            AddressingMode::RegisterOffset(_) | AddressingMode::PostIndexed => true,
            AddressingMode::Offset(0) => is_moved,
            AddressingMode::PreIndexed(_) => is_moved || !is_own,
            _ => !is_own && self.marks.has(base, PASSED),
        };
        let is_at_constant = match mode {
            AddressingMode::Offset(bytes) => bytes != 0,
            _ => false,
        };
        let is_indexed = matches!(mode, AddressingMode::RegisterOffset(_));
        let is_block = place.is_some_and(|place| place.text.kind == PlaceKind::Block);
        let is_shared = is_at_constant && !is_block && self.may_be_of_top(at, index);
        Strictness {
            is_above: (is_exact && !is_shared) || is_above,
            is_below: is_exact && !is_shared && self.is_below(index, is_indexed && is_fresh),
            is_lenient: !is_exact && is_own,
            is_past: self.is_past_block(index, at.pc, base),
        }
    }

    /// Whether what is in front of a place is judged: a pointer to its start may be one to the end
    /// of what is there.
    fn is_below(&self, index: usize, is_indexed: bool) -> bool {
        let Some(place) = self.table.get(index) else {
            return false;
        };
        if is_indexed {
            place.before != Neighbor::Other
        } else {
            place.is_exact && place.before == Neighbor::Nothing
        }
    }

    /// The misuse by an access to bytes through a pointer to a place.
    fn judge_bytes(
        &self,
        place: &NamedPlace,
        access: AccessedBytes,
        strictness: Strictness,
    ) -> Option<PlaceMisuse> {
        let (addr, text) = (plain(access.addr), place.text);
        if !place.is_live {
            let is_there = place.has(addr);
            return misuse_if(is_there, PlaceMisuseKind::AfterReturn, addr, access, &text);
        }
        if strictness.is_past && place.has(addr) {
            return misuse_if(true, PlaceMisuseKind::AfterScope, addr, access, &text);
        }
        if !place.has_bounds() {
            return None;
        }
        let end = addr.saturating_add(access.count);
        if addr < text.start {
            let is_told = strictness.is_below;
            return misuse_if(is_told, PlaceMisuseKind::Underflow, addr, access, &text);
        }
        if end <= place.limit || is_part_of_word(place.limit, access) {
            return None;
        }
        let wrong = addr.max(place.limit);
        let is_other = strictness.is_lenient || place.is_unsure;
        let is_meant = is_other && self.is_in_other(place, addr, end);
        let is_told = strictness.is_above && !place.is_marked && !is_meant;
        misuse_if(is_told, PlaceMisuseKind::Overflow, wrong, access, &text)
    }
}

impl NamedPlaces {
    /// The misuse by a service that accesses bytes by the pointer in x0, requested at an address.
    pub fn judge_service(
        &self,
        bytes: AccessedBytes,
        origin: PointerOrigin,
        pc: u64,
    ) -> Option<PlaceMisuse> {
        let index = origin.place()?;
        let place = self.table.get(index)?;
        if bytes.count == 0 {
            return None;
        }
        let strictness = Strictness {
            is_above: true,
            is_below: place.is_exact && place.before == Neighbor::Nothing,
            is_lenient: false,
            is_past: self.is_past_block(index, pc, 0),
        };
        self.judge_bytes(place, bytes, strictness)
    }

    /// The misuse of a pointer that a heap call is to free or to give another size: it is one
    /// to a variable or to the stack, by where it came from, else by its address.
    pub fn judge_free(&self, pointer: u64, origin: PointerOrigin) -> Option<PlaceMisuse> {
        let text = self.freed_text(plain(pointer), origin)?;
        let access = AccessedBytes {
            addr: pointer,
            count: 0,
            is_write: true,
            is_register: false,
        };
        let kind = PlaceMisuseKind::Free;
        misuse_if(true, kind, plain(pointer), access, &text)
    }

    /// The variable that a pointer is to which is to be freed.
    fn freed_text(&self, addr: u64, origin: PointerOrigin) -> Option<PlaceText> {
        match origin.kind() {
            OriginKind::Place(index) => {
                let place = self.table.get(index)?;
                if place.text.kind == PlaceKind::Page {
                    return None;
                }
                Some(place.text)
            }
            OriginKind::Chunk(_) | OriginKind::Sum(_) => None,
            OriginKind::Stack | OriginKind::Unknown => self.text_at(addr),
        }
    }

    /// The place at an address: a variable of the image, or the stack.
    fn text_at(&self, addr: u64) -> Option<PlaceText> {
        if IMAGE_START <= addr && addr < IMAGE_END {
            let number = self.objects.number_at(addr)?;
            let place = self.table.get(PlaceTable::of_object(number))?;
            return Some(place.text);
        }
        if addr < STACK_START || addr >= STACK_END {
            return None;
        }
        Some(PlaceText {
            kind: PlaceKind::Frame,
            start: addr,
            end: addr,
            name: VariableName::NONE,
            declaration: None,
            function: None,
        })
    }

    /// Whether bytes are those of one other variable of the image, or of the same function.
    fn is_in_other(&self, place: &NamedPlace, addr: u64, end: u64) -> bool {
        let last = end.saturating_sub(1);
        if place.text.kind == PlaceKind::Object {
            let other = self.objects.number_at(addr);
            return other.is_some() && other == self.objects.number_at(last);
        }
        let function = place.text.function.and_then(|low| self.function_at(low));
        let Some(function) = function else {
            return false;
        };
        match self.variables.slot_at(&function, &place.bases, addr) {
            Some(placed) => last < placed.end,
            None => false,
        }
    }
}

/// A misuse, if it is one.
fn misuse_if(
    is_wrong: bool,
    kind: PlaceMisuseKind,
    addr: u64,
    access: AccessedBytes,
    place: &PlaceText,
) -> Option<PlaceMisuse> {
    if !is_wrong {
        return None;
    }
    Some(PlaceMisuse {
        kind,
        addr,
        access,
        place: *place,
    })
}

/// Whether an access is a read of an aligned word that begins in front of a variable's limit. What
/// is after the variable is read for nothing, as by functions that look for the end of a text.
fn is_part_of_word(limit: u64, access: AccessedBytes) -> bool {
    let addr = plain(access.addr);
    let is_aligned = match access.count {
        2 => addr % 2 == 0,
        4 => addr % 4 == 0,
        8 => addr % 8 == 0,
        _ => false,
    };
    access.is_register && !access.is_write && is_aligned && addr < limit
}
