//! The variables in the frames of functions.

use crate::blocks::{BlockTable, LexicalBlock};
use crate::declaration::{Declaration, VariableName};
use crate::search::VariableSearch;
use debug_info::DebugSections;
use std::alloc::{AllocError, Global};

/// The base from which the place of a variable is counted.
#[derive(Clone, Copy, PartialEq, Eq, PartialOrd, Ord)]
pub enum FrameBase {
    /// SP when the function was called.
    Caller,
    /// The frame pointer, x29.
    FramePointer,
    /// SP.
    StackPointer,
}

/// All bases, in order.
const BASES: [FrameBase; 3] = [
    FrameBase::Caller,
    FrameBase::FramePointer,
    FrameBase::StackPointer,
];

/// The values of the bases of a function that runs.
#[derive(Clone, Copy, PartialEq, Eq)]
pub struct FrameBases {
    /// SP when it was called.
    pub caller: u64,
    /// The frame pointer, x29.
    pub frame_pointer: u64,
    /// SP.
    pub stack_pointer: u64,
}

impl FrameBases {
    /// The value of a base.
    fn of(&self, base: FrameBase) -> u64 {
        match base {
            FrameBase::Caller => self.caller,
            FrameBase::FramePointer => self.frame_pointer,
            FrameBase::StackPointer => self.stack_pointer,
        }
    }
}

/// A variable, and its address while its function runs.
#[derive(Clone, Copy, PartialEq, Eq)]
pub struct PlacedVariable {
    /// The variable.
    pub variable: FrameVariable,
    /// Its address.
    pub start: u64,
    /// The address after its last byte.
    pub end: u64,
    /// The address up to which an access is not known to be one to another: the next variable's
    /// where what has no name may share the place, as where a function was optimized.
    pub limit: u64,
}

/// A compiler, by what is known of its blocks.
#[derive(Clone, Copy, PartialEq, Eq)]
pub(crate) enum Compiler {
    /// gcc, which puts what has no name into the places of variables whose blocks do not run, also
    /// where it does not optimize.
    Gcc,
    /// clang, of C and C++.
    Clang,
    /// Another, which may use variables outside of their blocks.
    Other,
}

/// A function of an image.
#[derive(Clone, Copy, PartialEq, Eq)]
pub struct FrameFunction {
    /// Its first address.
    pub low: u64,
    /// The address after its last.
    pub high: u64,
    /// The base of its variables' places where these name no other.
    pub(crate) base: FrameBase,
    /// Whether it was optimized, as far as that shows, or has inlined calls.
    pub is_optimized: bool,
    /// The compiler that wrote it.
    pub(crate) compiler: Compiler,
    /// The number of its first slot, and how many there are.
    pub(crate) first: usize,
    pub(crate) count: usize,
}

/// A variable in the frame of a function, or several that share its bytes.
#[derive(Clone, Copy, PartialEq, Eq)]
pub struct FrameVariable {
    /// The function, by its place among those that were found.
    pub(crate) function: usize,
    /// The block that it is declared in.
    pub(crate) block: LexicalBlock,
    /// The base of its place.
    pub(crate) base: FrameBase,
    /// How far its first byte is from that, modulo 2^64.
    pub(crate) offset: u64,
    /// Its bytes.
    pub size: u64,
    /// Whether it is one number or one pointer: no array, and not several variables.
    pub is_single: bool,
    /// Its name; that of the largest of several.
    pub name: VariableName,
    /// Where it is declared, if that is known.
    pub declaration: Option<Declaration>,
}

/// The least bytes of a variable whose place gcc shares where it does not optimize.
const LEAST_SHARED: u64 = 32;

/// The number added to an offset modulo 2^64 so that negative ones come first.
const SIGN: u64 = 1 << 63;

impl FrameVariable {
    /// Its place in the order of the variables of a function.
    fn place(&self) -> u64 {
        self.offset.wrapping_add(SIGN)
    }

    /// The place after it.
    fn end(&self) -> u64 {
        self.place().saturating_add(self.size)
    }

    /// Whether it is counted from a base and has the byte at a place.
    fn has(&self, base: FrameBase, place: u64) -> bool {
        self.base == base && self.place() <= place && place < self.end()
    }

    /// It where its base has a value.
    fn placed(&self, value: u64) -> Option<PlacedVariable> {
        let start = value.wrapping_add(self.offset);
        let end = start.checked_add(self.size)?;
        Some(PlacedVariable {
            variable: *self,
            start,
            end,
            limit: end,
        })
    }
}

/// Bytes of a frame that variables of one base have: one, or several that share some.
#[derive(Clone, Copy)]
struct FrameSlot {
    /// All of them as one.
    whole: FrameVariable,
    /// The number of the first of them, and how many there are.
    first: usize,
    count: usize,
}

impl FrameSlot {
    /// Whether a variable shares bytes with it that does not begin in front of it.
    fn shares_with(&self, other: &FrameVariable) -> bool {
        let whole = &self.whole;
        let is_beside = other.function == whole.function && other.base == whole.base;
        is_beside && other.place() < whole.end()
    }
}

/// The variables in the frames of an image's functions, and where those of the image itself are
/// declared.
pub struct FrameVariables {
    /// The lowest first.
    functions: Vec<FrameFunction>,
    /// Those of one function and one base together, the lowest first; none has a byte of another of
    /// these.
    slots: Vec<FrameSlot>,
    /// Those of one slot together, the lowest first.
    variables: Vec<FrameVariable>,
    blocks: BlockTable,
    /// The lowest first.
    pub(crate) declared: Vec<DeclaredObject>,
}

impl Drop for FrameVariables {
    fn drop(self) {
        let FrameVariables {
            functions: _,
            slots: _,
            variables: _,
            blocks: _,
            declared: _,
        } = self;
    }
}

/// Where a variable of the image is declared.
#[derive(Clone, Copy)]
pub struct DeclaredObject {
    /// The variable's address.
    pub(crate) addr: u64,
    /// Its line.
    pub(crate) declaration: Declaration,
    /// Whether it is one number or one pointer.
    pub(crate) is_single: bool,
}

/// The variables that end where a variable begins. A pointer to its start may be one to their end.
#[derive(Clone, Copy, PartialEq, Eq)]
pub enum Neighbor {
    /// Nothing that is known.
    Nothing,
    /// One number or one pointer.
    Single,
    /// An array, a structure, or what is not known.
    Other,
}

impl Neighbor {
    /// A variable that is there.
    pub fn of(is_single: bool) -> Neighbor {
        if is_single {
            Neighbor::Single
        } else {
            Neighbor::Other
        }
    }
}

impl FrameVariables {
    /// Those of a file, by its units of versions 4 and 5 of the 32-bit format: at most 65,536
    /// functions and as many variables. A unit is read up to an entry that can't be read, and
    /// nothing more is found once so much was read as ten large programs have. `Err` where there is
    /// no memory for them: some 30 MiB at most.
    pub fn of(alloc: Global, file: &[u8]) -> Result<FrameVariables, AllocError> {
        let mut search = VariableSearch::new(alloc);
        search.search_all(alloc, &DebugSections::of(file))?;
        let VariableSearch {
            mut functions,
            mut variables,
            mut declared,
            blocks,
            ..
        } = search;
        variables.as_mut_slice().sort_unstable_by_key(|variable| (
            variable.function,
            variable.base,
            variable.place(),
        ));
        let slots = joined(alloc, variables.as_slice())?;
        count_slots(functions.as_mut_slice(), slots.as_slice());
        functions
            .as_mut_slice()
            .sort_unstable_by_key(|function| function.low);
        declared
            .as_mut_slice()
            .sort_unstable_by_key(|object| object.addr);
        Ok(FrameVariables {
            functions,
            slots,
            variables,
            blocks,
            declared,
        })
    }

    /// The function at an address.
    pub fn function_at(&self, pc: u64) -> Option<&FrameFunction> {
        let behind = self
            .functions
            .as_slice()
            .partition_point(|function| function.low <= pc);
        let function = self.functions.get(behind.checked_sub(1)?)?;
        if pc < function.high {
            Some(function)
        } else {
            None
        }
    }

    /// The variable of a function that has the byte at an address, by the values of its bases. Of
    /// those that share bytes, and where the function was optimized or gcc wrote it, it is the one
    /// of the innermost block that has the counter; several of one block are one. `None` where the
    /// address is in two slots, which are counted from different bases.
    pub fn variable_at(
        &self,
        function: &FrameFunction,
        bases: &FrameBases,
        addr: u64,
        pc: u64,
    ) -> Option<PlacedVariable> {
        let slot = self.one_slot(function, bases, addr)?;
        let value = bases.of(slot.whole.base);
        let has_own_place = !function.is_optimized && function.compiler != Compiler::Gcc;
        let variable = if slot.count == 1 && has_own_place {
            slot.whole
        } else {
            self.variable_in(&slot, place_of(addr, value), pc)?
        };
        let mut placed = variable.placed(value)?;
        if function.is_optimized || self.may_be_shared(function, &variable) {
            placed.limit = self.next_start(function, bases, addr).max(placed.end);
        }
        Some(placed)
    }

    /// Whether what has no name may be in a variable's place while the variable's block runs, in a
    /// function that was not optimized: by gcc, in front of the first use of a variable of an inner
    /// block, if that is not small.
    fn may_be_shared(&self, function: &FrameFunction, variable: &FrameVariable) -> bool {
        let is_large = function.compiler == Compiler::Gcc && variable.size >= LEAST_SHARED;
        is_large && !self.blocks.has(&variable.block, function.low)
    }

    /// All variables of a function, of any block, that share the bytes with the one at an address,
    /// as one. `None` as for `variable_at`.
    pub fn slot_at(
        &self,
        function: &FrameFunction,
        bases: &FrameBases,
        addr: u64,
    ) -> Option<PlacedVariable> {
        let slot = self.one_slot(function, bases, addr)?;
        slot.whole.placed(bases.of(slot.whole.base))
    }

    /// The block that a variable is declared in, where it is not the function as a whole, and all
    /// that is done with the variable while it is there is in the block, but for what ends objects.
    pub fn inner_block(
        &self,
        function: &FrameFunction,
        variable: &FrameVariable,
    ) -> Option<LexicalBlock> {
        let is_known = !function.is_optimized && function.compiler != Compiler::Other;
        Some(variable.block).filter(|block| is_known && !self.blocks.has(block, function.low))
    }

    /// Whether an address is one of a block.
    pub fn is_in_block(&self, block: &LexicalBlock, address: u64) -> bool {
        self.blocks.has(block, address)
    }

    /// The variables of a function that end at an address.
    pub fn neighbor(&self, function: &FrameFunction, bases: &FrameBases, addr: u64) -> Neighbor {
        match self.slot_at(function, bases, addr.wrapping_sub(1)) {
            Some(placed) if placed.end == addr => Neighbor::of(placed.variable.is_single),
            _ => Neighbor::Nothing,
        }
    }

    /// The slot of a function with the byte at an address, unless two have it.
    fn one_slot(
        &self,
        function: &FrameFunction,
        bases: &FrameBases,
        addr: u64,
    ) -> Option<FrameSlot> {
        let mut found = None;
        for base in BASES {
            let place = place_of(addr, bases.of(base));
            let (slots, behind) = self.slots_to(function, base, place)?;
            let last = behind.checked_sub(1).and_then(|at| slots.get(at));
            if let Some(slot) = last.filter(|slot| slot.whole.has(base, place)) {
                if found.is_some() {
                    return None;
                }
                found = Some(*slot);
            }
        }
        found
    }

    /// The lowest address after one at which a slot of a function begins, or what is saved at the
    /// frame pointer, if its variables are counted from there.
    fn next_start(&self, function: &FrameFunction, bases: &FrameBases, addr: u64) -> u64 {
        let saved = bases.frame_pointer;
        let has_saved = function.base == FrameBase::FramePointer && addr < saved;
        let mut next = if has_saved { saved } else { u64::MAX };
        for base in BASES {
            let value = bases.of(base);
            if let Some((slots, behind)) = self.slots_to(function, base, place_of(addr, value)) {
                if let Some(slot) = slots.get(behind).filter(|slot| slot.whole.base == base) {
                    next = next.min(value.wrapping_add(slot.whole.offset));
                }
            }
        }
        next
    }

    /// The slots of a function, and how many of them are of lower bases, or begin at a place of a
    /// base or in front of it.
    fn slots_to(
        &self,
        function: &FrameFunction,
        base: FrameBase,
        place: u64,
    ) -> Option<(&[FrameSlot], usize)> {
        let end = function.first.saturating_add(function.count);
        let slots = self.slots.get(function.first..end)?;
        let behind = slots.partition_point(|slot| (slot.whole.base, slot.whole.place())
            <= (base, place));
        Some((slots, behind))
    }

    /// The variables of a slot with the byte at a place in the innermost block that has the
    /// counter, as one.
    fn variable_in(&self, slot: &FrameSlot, place: u64, pc: u64) -> Option<FrameVariable> {
        let end = slot.first.saturating_add(slot.count);
        let mut found: Option<FrameVariable> = None;
        for variable in self.variables.get(slot.first..end)? {
            if variable.has(slot.whole.base, place) && self.blocks.has(&variable.block, pc) {
                found = match found {
                    Some(other) if other.block == variable.block => {
                        Some(union_of(&other, variable))
                    }
                    Some(other) if variable.block < other.block => found,
                    _ => Some(*variable),
                };
            }
        }
        found
    }

    /// Where the variable of the image at an address is declared, if that is known.
    pub fn declaration_at(&self, addr: u64) -> Option<Declaration> {
        Some(self.declared_at(addr)?.declaration)
    }

    /// Whether the variable of the image at an address is known to be one number or one pointer.
    pub fn is_single_at(&self, addr: u64) -> bool {
        self.declared_at(addr)
            .is_some_and(|object| object.is_single)
    }

    /// The facts about the variable of the image at an address.
    fn declared_at(&self, addr: u64) -> Option<&DeclaredObject> {
        let at = self
            .declared
            .as_slice()
            .binary_search_by_key(&addr, |object| object.addr)
            .ok()?;
        self.declared.get(at)
    }
}

/// The place of an address, counted from a base that has a value.
fn place_of(addr: u64, value: u64) -> u64 {
    addr.wrapping_sub(value).wrapping_add(SIGN)
}

/// The slots of variables in order, which have those that are counted from the same base and share
/// bytes.
fn joined(alloc: Global, sorted: &[FrameVariable]) -> Result<Vec<FrameSlot>, AllocError> {
    let mut all: Vec<FrameSlot> = Vec::with_capacity(alloc, sorted.len())?;
    for (index, variable) in sorted.iter().enumerate() {
        match all.last_mut() {
            Some(last) if last.shares_with(variable) => {
                last.whole = union_of(&last.whole, variable);
                last.count = last.count.saturating_add(1);
            }
            _ => all.push(FrameSlot {
                whole: *variable,
                first: index,
                count: 1,
            })?,
        }
    }
    Ok(all)
}

/// Two variables as one, the first of which begins in front of the other or where it does.
fn union_of(first: &FrameVariable, other: &FrameVariable) -> FrameVariable {
    let end = first.end().max(other.end());
    let named = if other.size > first.size {
        other
    } else {
        first
    };
    FrameVariable {
        function: first.function,
        block: named.block,
        base: first.base,
        offset: first.offset,
        size: end.saturating_sub(first.place()),
        is_single: false,
        name: named.name,
        declaration: named.declaration,
    }
}

/// Enters in functions which slots are theirs.
fn count_slots(functions: &mut [FrameFunction], slots: &[FrameSlot]) {
    for (index, slot) in slots.iter().enumerate() {
        if let Some(function) = functions.get_mut(slot.whole.function) {
            if function.count == 0 {
                function.first = index;
            }
            function.count = function.count.saturating_add(1);
        }
    }
}
