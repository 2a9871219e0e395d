//! Which function that makes or frees chunks runs.

use crate::called_function::CalledFunction;
use crate::function_table::FunctionTable;
use crate::heap_function::HeapFunction;
use crate::register_use::BranchKind;
use crate::step::Step;
use a64_bits::plain;
use a64_instr::Instr;
use a64_registers::Regs;
use std::alloc::{AllocError, Global};

/// A function that was called and has not returned.
#[derive(Clone, Copy)]
struct ActiveFunction {
    function: Option<HeapFunction>,
    return_address: u64,
    /// SP when it began.
    sp: u64,
    /// Its first argument.
    argument: u64,
    /// The size of the chunk that it frees, where it is told that.
    freed_size: Option<u64>,
}

/// A function that was called with a pointer to free.
#[derive(Clone, Copy, Debug, PartialEq, Eq)]
pub struct FreeingFunction {
    /// The function.
    pub function: HeapFunction,
    /// The size of the chunk, where it was told that.
    pub size: Option<u64>,
}

/// A chunk that a function returned.
#[derive(Clone, Copy, PartialEq, Eq)]
pub struct ReturnedChunk {
    /// The function.
    pub function: HeapFunction,
    /// The value that it returned.
    pub pointer: u64,
    /// How many bytes it was asked for, where its first argument says that.
    pub size: Option<u64>,
}

/// Which function runs that makes or frees chunks: of several that called one another the
/// outermost. A function is seen when it is branched to, so that one which ends by a jump to
/// another is seen too.
#[derive(Drop)]
pub struct HeapFunctionWatch {
    table: FunctionTable,
    active: Option<ActiveFunction>,
}

impl HeapFunctionWatch {
    /// Of a tenant at its first instruction, by the symbols of its image.
    pub fn new(alloc: Global, image: &[u8]) -> Result<HeapFunctionWatch, AllocError> {
        Ok(HeapFunctionWatch {
            table: FunctionTable::of(alloc, image)?,
            active: None,
        })
    }

    /// The function that was called with a pointer, and has not returned; `None` where none was, or
    /// it is not known which.
    pub fn freeing(&self, pointer: u64) -> Option<FreeingFunction> {
        let active = self.active.as_ref()?;
        if active.argument != pointer {
            return None;
        }
        Some(FreeingFunction {
            function: active.function?,
            size: active.freed_size,
        })
    }

    /// The function that an instruction at an address calls or jumps to, where its arguments are
    /// judged, by the registers before it.
    pub fn called_by(&self, instr: &Instr, pc: u64, regs: &Regs) -> Option<CalledFunction> {
        let target = match *instr {
            Instr::Branch { imm26, .. } => {
                pc.wrapping_add(i64::from(imm26).cast_unsigned().wrapping_mul(4))
            }
            Instr::BranchReg { opc, rn } if opc != 2 => *regs.x.get(usize::from(rn))?,
            _ => return None,
        };
        self.table.called_at(plain(target))
    }

    /// Whether the arguments are judged of the function at the address in a numbered register.
    #[inline]
    pub fn may_call(&self, register: u8, regs: &Regs) -> bool {
        match regs.x.get(usize::from(register)) {
            Some(target) => self.table.called_at(plain(*target)).is_some(),
            None => false,
        }
    }

    /// Notes an instruction that completed. Returns what a function returned by it.
    pub fn note(&mut self, step: &Step<'_>) -> Option<ReturnedChunk> {
        match *step.instr {
            Instr::Branch { op, .. } => self.note_branch(step.after, op == 1),
            Instr::BranchReg { opc: 2, .. } => return self.note_return(step.after),
            Instr::BranchReg { opc, .. } => self.note_branch(step.after, opc == 1),
            _ => {}
        }
        None
    }

    /// Notes a branch of a kind, by the registers after it.
    #[inline(always)]
    pub fn note_branch_of(&mut self, kind: BranchKind, after: &Regs) -> Option<ReturnedChunk> {
        match kind {
            BranchKind::Return if self.active.is_none() => None,
            BranchKind::Return => self.note_return(after),
            BranchKind::Call => {
                self.note_branch(after, true);
                None
            }
            BranchKind::Jump => {
                self.note_branch(after, false);
                None
            }
        }
    }

    /// Notes a branch, which may be a call or the last thing that a function does. A function that
    /// calls others has a frame, so a call without one, or a branch above it, is no longer its own:
    /// it was left by an exception.
    fn note_branch(&mut self, after: &Regs, is_call: bool) {
        if let Some(active) = &self.active {
            let is_left = if is_call {
                after.sp >= active.sp
            } else {
                after.sp > active.sp
            };
            if !is_left {
                return;
            }
            self.active = None;
        }
        if let Some(entry) = self.table.at(plain(after.pc)) {
            self.active = Some(ActiveFunction {
                function: entry.function,
                return_address: plain(after.x[30]),
                sp: after.sp,
                argument: after.x[0],
                freed_size: if entry.takes_freed_size {
                    Some(after.x[1])
                } else {
                    None
                },
            });
        }
    }

    /// Notes a return.
    fn note_return(&mut self, after: &Regs) -> Option<ReturnedChunk> {
        let active = self.active?;
        let is_own = plain(after.pc) == active.return_address && after.sp == active.sp;
        if is_own || after.sp > active.sp {
            self.active = None;
        }
        if !is_own {
            return None;
        }
        let function = active.function?;
        Some(ReturnedChunk {
            function,
            pointer: after.x[0],
            size: if function.takes_size() {
                Some(active.argument)
            } else {
                None
            },
        })
    }
}
