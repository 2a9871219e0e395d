//! The search for variables through `.debug_info`.

use crate::blocks::{BlockTable, LexicalBlock};
use crate::declaration::{Declaration, VariableName};
use crate::frame_table::{Compiler, DeclaredObject, FrameBase, FrameFunction, FrameVariable};
use crate::types::{TypeSize, UnitTypes};
use debug_info::{
    Abbreviation, Abbreviations, AddressRange, AttributeValue, Budget, CompilationUnit,
    DebugSections, Entry, Ranges, Scope, UnitBytes, number,
};
use debug_lines::Reader;
use std::alloc::{AllocError, Global};

/// The most functions, the most variables of frames, and the most of the image, that are found.
const MOST: usize = 65_536;

/// How many functions and blocks may be in one another.
const DEEPEST: usize = 64;

/// The most bytes of a text that is looked at, with the 0 after it.
const LONGEST: usize = 1_024;

/// DW_TAG_formal_parameter and DW_TAG_variable.
const PARAMETER: u64 = 0x05;

const VARIABLE: u64 = 0x34;

/// DW_TAG_subprogram.
const FUNCTION: u64 = 0x2E;

/// DW_TAG_lexical_block and DW_TAG_inlined_subroutine.
const BLOCK: u64 = 0x0B;

const INLINED: u64 = 0x1D;

/// DW_TAG_call_site and DW_TAG_GNU_call_site, which compilers write where they optimize.
const CALL: u64 = 0x48;

const GNU_CALL: u64 = 0x4109;

/// DW_OP_addr, DW_OP_addrx, DW_OP_fbreg, DW_OP_breg29 and DW_OP_breg31, DW_OP_call_frame_cfa, and
/// DW_OP_reg29 and DW_OP_reg31.
const AT_ADDRESS: u8 = 0x03;

const AT_NUMBERED_ADDRESS: u8 = 0xA1;

const AT_FRAME: u8 = 0x91;

const BASE_29: u8 = 0x8D;

const BASE_31: u8 = 0x8F;

const CALLER_FRAME: u8 = 0x9C;

const REGISTER_29: u8 = 0x6D;

const REGISTER_31: u8 = 0x6F;

/// A function, a block or an inlined call whose entries are being read.
#[derive(Clone, Copy)]
struct OpenScope {
    /// How many entries it is in.
    depth: u64,
    /// Where its variables are, if its function has a frame and its addresses are known.
    of: Option<BlockOfFunction>,
}

/// A block of a function, by the function's place among those that were found.
#[derive(Clone, Copy)]
struct BlockOfFunction {
    function: usize,
    block: LexicalBlock,
}

/// A unit, what its values mean, and its types.
#[derive(Clone, Copy)]
struct UnitScope<'t, 'a> {
    scope: Scope<'a>,
    types: UnitTypes<'t, 'a>,
    /// Where its lines are in `.debug_line`.
    lines: Option<u64>,
    /// What wrote it: gcc says of a function without calls that all have entries.
    compiler: Compiler,
}

/// A search through `.debug_info`.
#[derive(Drop)]
pub struct VariableSearch {
    budget: Budget,
    pub functions: Vec<FrameFunction>,
    pub variables: Vec<FrameVariable>,
    pub declared: Vec<DeclaredObject>,
    pub blocks: BlockTable,
    /// The functions and blocks around the entry that is read, the outermost first.
    open: Vec<OpenScope>,
    /// Whether something says that the unit was optimized.
    is_optimized: bool,
}

impl VariableSearch {
    /// One that has found nothing.
    pub fn new(alloc: Global) -> VariableSearch {
        VariableSearch {
            budget: Budget::FULL,
            functions: Vec::new(alloc),
            variables: Vec::new(alloc),
            declared: Vec::new(alloc),
            blocks: BlockTable::new(alloc),
            open: Vec::new(alloc),
            is_optimized: false,
        }
    }

    /// Goes through all units.
    pub fn search_all(
        &mut self,
        alloc: Global,
        sections: &DebugSections<'_>,
    ) -> Result<(), AllocError> {
        let mut table = Abbreviations::new(alloc);
        let mut at = 0;
        for _ in 0..self.budget.left() {
            let Some(bytes) = self.next_unit(sections, at) else {
                break;
            };
            at = bytes.end;
            if let Some(unit) = bytes.unit() {
                table.load(sections.abbreviations, unit.abbreviations, &mut self.budget)?;
                self.search_unit(sections, &unit, &table)?;
            }
        }
        Ok(())
    }

    /// The unit at an offset, while there is something left to be spent.
    fn next_unit<'a>(&mut self, sections: &DebugSections<'a>, at: u64) -> Option<UnitBytes<'a>> {
        self.budget.spend(1)?;
        UnitBytes::at(sections.info, at)
    }

    /// Goes through a unit, and enters in its functions whether it was optimized.
    fn search_unit<'a>(
        &mut self,
        sections: &DebugSections<'a>,
        unit: &CompilationUnit<'a>,
        table: &Abbreviations<'a>,
    ) -> Result<(), AllocError> {
        let functions = self.functions.len();
        self.is_optimized = false;
        self.open.clear();
        let mut entries = unit.entries;
        if let Some(first) = self.first_entry(table, &mut entries) {
            let scope = Scope::of(sections, &first);
            let producer = scope.text(&first.producer, LONGEST).unwrap_or(&[]);
            self.is_optimized = has_level(producer);
            let scope = UnitScope {
                scope,
                types: UnitTypes { unit: *unit, table },
                lines: first.lines.offset(),
                compiler: compiler_of(producer),
            };
            self.search_entries(&scope, entries)?;
        }
        let is_optimized = self.is_optimized;
        for function in self
            .functions
            .as_mut_slice()
            .get_mut(functions..)
            .unwrap_or(&mut [])
        {
            function.is_optimized = function.is_optimized || is_optimized;
        }
        Ok(())
    }

    /// The first entry of a unit, if others are in it.
    fn first_entry<'a>(
        &mut self,
        table: &Abbreviations<'a>,
        entries: &mut Reader<'a>,
    ) -> Option<Entry<'a>> {
        let abbreviation = table.of(number(entries)?)?;
        let entry = Entry::read(&abbreviation, entries, &mut self.budget)?;
        if abbreviation.has_children {
            Some(entry)
        } else {
            None
        }
    }

    /// Goes through the entries in the first one. It ends where one can't be read.
    fn search_entries<'a>(
        &mut self,
        scope: &UnitScope<'_, 'a>,
        mut entries: Reader<'a>,
    ) -> Result<(), AllocError> {
        let mut depth: u64 = 1;
        for _ in 0..self.budget.left() {
            let Some(abbreviation) = self.next_entry(scope, &mut entries) else {
                return Ok(());
            };
            let Some(abbreviation) = abbreviation else {
                depth = depth.saturating_sub(1);
                if depth == 0 {
                    return Ok(());
                }
                self.close(depth);
                continue;
            };
            let Some(entry) = Entry::read(&abbreviation, &mut entries, &mut self.budget) else {
                return Ok(());
            };
            self.enter(scope, &abbreviation, &entry, depth)?;
            if abbreviation.has_children {
                depth = depth.saturating_add(1);
            }
        }
        Ok(())
    }

    /// The next entry; nothing inside where it is the end of those of one entry.
    fn next_entry<'a>(
        &mut self,
        scope: &UnitScope<'_, 'a>,
        entries: &mut Reader<'a>,
    ) -> Option<Option<Abbreviation<'a>>> {
        self.budget.spend(1)?;
        let code = number(entries)?;
        if code == 0 {
            return Some(None);
        }
        Some(Some(scope.types.table.of(code)?))
    }

    /// Closes the entry at a depth, if it is open: all of its entries were read.
    fn close(&mut self, depth: u64) {
        if let Some(last) = self.open.last() {
            if last.depth >= depth {
                self.open.pop();
            }
        }
    }

    /// Enters what an entry says.
    fn enter<'a>(
        &mut self,
        scope: &UnitScope<'_, 'a>,
        abbreviation: &Abbreviation<'a>,
        entry: &Entry<'a>,
        depth: u64,
    ) -> Result<(), AllocError> {
        match abbreviation.tag {
            FUNCTION => {
                self.is_optimized = self.is_optimized
                    || (entry.has_all_calls && scope.compiler != Compiler::Gcc);
                let of = self.enter_function(scope, entry)?;
                self.open(abbreviation, depth, of)
            }
            BLOCK | INLINED => {
                if abbreviation.tag == INLINED {
                    self.note_optimized(depth);
                }
                let of = self.enter_block(scope, entry, depth)?;
                self.open(abbreviation, depth, of)
            }
            CALL | GNU_CALL => {
                self.is_optimized = true;
                Ok(())
            }
            VARIABLE | PARAMETER => self.enter_variable(scope, entry, depth),
            _ => Ok(()),
        }
    }

    /// Opens a function or a block, if others are in it.
    fn open(
        &mut self,
        abbreviation: &Abbreviation<'_>,
        depth: u64,
        of: Option<BlockOfFunction>,
    ) -> Result<(), AllocError> {
        if abbreviation.has_children && self.open.len() < DEEPEST {
            self.open.push(OpenScope { depth, of })?;
        }
        Ok(())
    }

    /// The block that an entry at a depth is in, if that is known.
    fn block_around(&self, depth: u64) -> Option<BlockOfFunction> {
        let last = self.open.last()?;
        if last.depth.saturating_add(1) == depth {
            last.of
        } else {
            None
        }
    }

    /// Enters a function that has a frame and one range of addresses: a block of itself.
    fn enter_function<'a>(
        &mut self,
        scope: &UnitScope<'_, 'a>,
        entry: &Entry<'a>,
    ) -> Result<Option<BlockOfFunction>, AllocError> {
        let Some(function) = scope.function(entry) else {
            return Ok(None);
        };
        let place = self.functions.len();
        if place >= MOST {
            return Ok(None);
        }
        self.functions.push(function)?;
        self.block_of(scope, entry, place)
    }

    /// Enters a block of a function or an inlined call, at a depth.
    fn enter_block<'a>(
        &mut self,
        scope: &UnitScope<'_, 'a>,
        entry: &Entry<'a>,
        depth: u64,
    ) -> Result<Option<BlockOfFunction>, AllocError> {
        match self.block_around(depth) {
            Some(around) => self.block_of(scope, entry, around.function),
            None => Ok(None),
        }
    }

    /// Notes that the function that an entry at a depth is in was optimized.
    fn note_optimized(&mut self, depth: u64) {
        if let Some(around) = self.block_around(depth) {
            if let Some(function) = self.functions.get_mut(around.function) {
                function.is_optimized = true;
            }
        }
    }

    /// The block with the addresses of an entry.
    fn block_of<'a>(
        &mut self,
        scope: &UnitScope<'_, 'a>,
        entry: &Entry<'a>,
        function: usize,
    ) -> Result<Option<BlockOfFunction>, AllocError> {
        let ranges = Ranges::of(&scope.scope, scope.types.unit.version, entry);
        let block = self.blocks.enter(ranges, &mut self.budget)?;
        Ok(block.map(|block| BlockOfFunction { function, block }))
    }

    /// Enters a variable at a depth, where it has one place. Of several places compilers write a
    /// list: where they optimize, and of an array of variable length, whose size is not known.
    fn enter_variable<'a>(
        &mut self,
        scope: &UnitScope<'_, 'a>,
        entry: &Entry<'a>,
        depth: u64,
    ) -> Result<(), AllocError> {
        let expression = match entry.location {
            AttributeValue::Block(expression) => expression,
            AttributeValue::Offset(_) | AttributeValue::ListAt(_) => {
                let entry = scope.whole(entry, &mut self.budget);
                if scope.size(&entry, &mut self.budget).is_some() {
                    self.note_optimized(depth);
                }
                return Ok(());
            }
            _ => return Ok(()),
        };
        match scope.place_of(expression) {
            Some(VariablePlace::Frame(base, offset)) => match self.block_around(depth) {
                Some(of) => self.enter_local(scope, entry, &of, (base, offset)),
                None => Ok(()),
            },
            Some(VariablePlace::Image(addr)) => self.enter_object(scope, entry, addr),
            None => Ok(()),
        }
    }

    /// Enters a variable of a block, at an offset from a base, or from the function's.
    fn enter_local<'a>(
        &mut self,
        scope: &UnitScope<'_, 'a>,
        entry: &Entry<'a>,
        of: &BlockOfFunction,
        (base, offset): (Option<FrameBase>, u64),
    ) -> Result<(), AllocError> {
        let BlockOfFunction { function, block } = *of;
        let own = self.functions.get(function).map(|function| function.base);
        let Some(base) = base.or(own) else {
            return Ok(());
        };
        let entry = scope.whole(entry, &mut self.budget);
        match scope.size(&entry, &mut self.budget) {
            Some(size) if size.bytes > 0 && self.variables.len() < MOST => {
                self.variables.push(FrameVariable {
                    function,
                    block,
                    base,
                    offset,
                    size: size.bytes,
                    is_single: size.is_single,
                    name: scope.name(&entry),
                    declaration: scope.declaration(&entry),
                })?;
                Ok(())
            }
            _ => Ok(()),
        }
    }

    /// Enters where a variable of the image is declared.
    fn enter_object<'a>(
        &mut self,
        scope: &UnitScope<'_, 'a>,
        entry: &Entry<'a>,
        addr: u64,
    ) -> Result<(), AllocError> {
        let entry = scope.whole(entry, &mut self.budget);
        let size = scope.size(&entry, &mut self.budget);
        match scope.declaration(&entry) {
            Some(declaration) if self.declared.len() < MOST => {
                self.declared.push(DeclaredObject {
                    addr,
                    declaration,
                    is_single: size.is_some_and(|size| size.is_single),
                })?;
                Ok(())
            }
            _ => Ok(()),
        }
    }
}

impl<'t, 'a> UnitScope<'t, 'a> {
    /// A function that has a frame and one range of addresses.
    fn function(&self, entry: &Entry<'a>) -> Option<FrameFunction> {
        let AttributeValue::Block(expression) = entry.frame else {
            return None;
        };
        let range = AddressRange::whole(&self.scope, entry)?;
        Some(FrameFunction {
            low: range.start,
            high: range.end,
            base: base_of(expression)?,
            is_optimized: false,
            compiler: self.compiler,
            first: 0,
            count: 0,
        })
    }

    /// Where the variable of an expression is, if it is in one place as a whole.
    fn place_of(&self, expression: &'a [u8]) -> Option<VariablePlace> {
        let mut operations = Reader { rest: expression };
        let place = match operations.byte()? {
            AT_FRAME => VariablePlace::Frame(None, operations.signed()?),
            BASE_29 => VariablePlace::Frame(Some(FrameBase::FramePointer), operations.signed()?),
            BASE_31 => VariablePlace::Frame(Some(FrameBase::StackPointer), operations.signed()?),
            AT_ADDRESS => VariablePlace::Image(operations.double_word()?),
            AT_NUMBERED_ADDRESS => {
                let number = AttributeValue::AddressAt(number(&mut operations)?);
                VariablePlace::Image(self.scope.address(&number)?)
            }
            _ => return None,
        };
        if operations.rest.is_empty() {
            Some(place)
        } else {
            None
        }
    }

    /// An entry with what another entry says that it refers to.
    fn whole(&self, entry: &Entry<'a>, budget: &mut Budget) -> Entry<'a> {
        match self.origin(entry, budget) {
            Some(origin) => Entry {
                name: origin.name,
                file: origin.file,
                line: origin.line,
                type_: origin.type_,
                ..*entry
            },
            None => *entry,
        }
    }

    /// The type of a variable, if that is known.
    fn size(&self, entry: &Entry<'a>, budget: &mut Budget) -> Option<TypeSize> {
        self.types.size(entry.type_.entry()?, budget)
    }

    /// The entry that an entry refers to, which says more.
    fn origin(&self, entry: &Entry<'a>, budget: &mut Budget) -> Option<Entry<'a>> {
        let mut entries = self.types.unit.entries_at(entry.origin.entry()?)?;
        let abbreviation = self.types.table.of(number(&mut entries)?)?;
        Entry::read(&abbreviation, &mut entries, budget)
    }

    /// The name of an entry.
    fn name(&self, entry: &Entry<'a>) -> VariableName {
        match self.scope.text(&entry.name, LONGEST) {
            Some(name) => VariableName::of(name),
            None => VariableName::NONE,
        }
    }

    /// Where the variable of an entry is declared.
    fn declaration(&self, entry: &Entry<'a>) -> Option<Declaration> {
        Some(Declaration {
            unit: self.lines?,
            file: entry.file.number()?,
            line: u32::try_from(entry.line.number()?).ok()?,
        })
    }
}

/// Where a variable is.
#[derive(Clone, Copy)]
enum VariablePlace {
    /// At an offset from a base, or from that of its function, modulo 2^64.
    Frame(Option<FrameBase>, u64),
    /// At an address of the image.
    Image(u64),
}

/// The base in the expression of a function.
fn base_of(expression: &[u8]) -> Option<FrameBase> {
    match expression {
        [CALLER_FRAME] => Some(FrameBase::Caller),
        [REGISTER_29] => Some(FrameBase::FramePointer),
        [REGISTER_31] => Some(FrameBase::StackPointer),
        _ => None,
    }
}

/// The compiler of a producer's words.
fn compiler_of(producer: &[u8]) -> Compiler {
    if producer.starts_with(b"GNU ") {
        Compiler::Gcc
    } else if producer
        .windows(14)
        .any(|word| word.starts_with(b"clang version "))
    {
        Compiler::Clang
    } else {
        Compiler::Other
    }
}

/// Whether the words of a producer have a level of optimization other than 0, as gcc writes it.
fn has_level(producer: &[u8]) -> bool {
    producer.windows(4).any(|word| word.starts_with(b" -O") && word.last() != Some(&b'0'))
}
