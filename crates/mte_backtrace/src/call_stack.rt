//! The calls that led to an instruction.

use crate::callers::{Callers, fill, link_of};
use crate::frames::FramesAt;
use crate::names::{FrameAddresses, FrameNames};
use crate::prologue::has_own_link;
use a64_registers::Regs;
use elf_symbols::{SymbolOffset, Symbols};
use mte_tags::Tagged;
use std::alloc::{AllocError, Global};
use std::io;
use std::io::Write;

/// How many frame records are read at most.
const DEPTH: usize = 16;

/// The calls that led to an instruction.
#[derive(Drop)]
pub struct CallStack {
    /// The instruction's address.
    pub pc: u64,
    /// The return addresses, the innermost first.
    pub callers: Vec<u64>,
    /// Whether the first of them is x30 in a function whose bounds are not known: it may be that of
    /// a call that has returned.
    pub may_be_old: bool,
}

impl CallStack {
    /// The calls that led to the next instruction.
    pub fn of_next<M: Tagged>(
        alloc: Global,
        memory: &mut M,
        regs: &Regs,
        symbols: &Symbols<'_>,
    ) -> Result<CallStack, AllocError> {
        let mut records = [0; DEPTH];
        fill(memory, regs, &mut records);
        let has_link = has_own_link(memory, symbols, regs.pc) == Some(true);
        // Then the first record is that of its caller, which may have the same return address.
        let own = if has_link { 0 } else { records[0] };
        let link = link_of(memory, regs, own);
        let is_old = if has_link {
            Some(false)
        } else {
            is_in_function(symbols, regs.pc, link)
        };
        CallStack::new(alloc, regs.pc, link, is_old, &records)
    }

    /// The calls that led to a heap call, whose SVC is at an address.
    pub fn of_heap_call(
        alloc: Global,
        pc: u64,
        callers: &Callers,
        symbols: &Symbols<'_>,
    ) -> Result<CallStack, AllocError> {
        let is_old = is_in_function(symbols, pc, callers.link);
        CallStack::new(alloc, pc, callers.link, is_old, &callers.records)
    }

    /// The calls by x30, or 0, which may be that of a call that has returned, and the return
    /// addresses of records, and 0 after the last.
    fn new(
        alloc: Global,
        pc: u64,
        link: u64,
        is_old: Option<bool>,
        records: &[u64],
    ) -> Result<CallStack, AllocError> {
        let mut callers = Vec::new(alloc);
        if link != 0 && is_old != Some(true) {
            callers.push(link)?;
        }
        let may_be_old = !callers.is_empty() && is_old.is_none();
        push_records(&mut callers, records)?;
        Ok(CallStack {
            pc,
            callers,
            may_be_old,
        })
    }

    /// Adds the addresses whose names and lines are written.
    pub fn push_frames(&self, frames: &mut FrameAddresses) -> Result<(), AllocError> {
        frames.push_instruction(self.pc)?;
        for caller in &self.callers {
            frames.push_call(*caller)?;
        }
        Ok(())
    }

    /// Writes a line a call, inlined or not, the innermost first, without the source lines and the
    /// inlined calls that were not looked for.
    pub fn write<W: Write>(
        &self,
        out: &mut W,
        names: &FrameNames<'_>,
        indent: &str,
    ) -> io::Result<()> {
        let frames = names.instruction_frames(self.pc);
        let mut number = write_frames(out, frames, indent, 0, "")?;
        let mut mark = if self.may_be_old { OLD } else { "" };
        for caller in &self.callers {
            let frames = names.call_frames(*caller);
            number = write_frames(out, frames, indent, number, mark)?;
            mark = "";
        }
        Ok(())
    }

    /// Writes the addresses of its instruction and its calls, each after a blank.
    pub fn write_addresses<W: Write>(&self, out: &mut W) -> io::Result<()> {
        write!(out, " {:#x}", self.pc)?;
        for caller in &self.callers {
            let call = caller.wrapping_sub(4);
            write!(out, " {call:#x}")?;
        }
        Ok(())
    }
}

/// Writes a line a frame, and gives the number of the next one.
fn write_frames<W: Write>(
    out: &mut W,
    frames: FramesAt<'_, '_>,
    indent: &str,
    first: u32,
    mark: &str,
) -> io::Result<u32> {
    let mut number = first;
    for frame in frames {
        writeln!(out, "{indent}#{number} {frame}{mark}")?;
        number = number.saturating_add(1);
    }
    Ok(number)
}

/// The text of a caller that may be none.
const OLD: &str = " (x30, may be old)";

/// In how many instructions at its start a function writes its frame record.
const PROLOGUE: u64 = 4;

/// Whether x30 points into the function that an instruction is in, as it does where a call has
/// returned; `None` where the function's bounds are not known. In a function that has just been
/// called by itself x30 is the caller's, as in one that another has called.
fn is_in_function(symbols: &Symbols<'_>, pc: u64, link: u64) -> Option<bool> {
    if has_begun(symbols, pc, link, PROLOGUE) {
        return Some(false);
    }
    symbols.place(pc).shares_function(&symbols.place(link))
}

/// Whether an instruction is among the first of a function, of which x30 has a later address.
fn has_begun(symbols: &Symbols<'_>, pc: u64, link: u64, instructions: u64) -> bool {
    symbols
        .place(pc)
        .begins_function_of(&symbols.place(link), instructions)
}

/// Adds the return addresses in front of the first 0.
fn push_records(callers: &mut Vec<u64>, records: &[u64]) -> Result<(), AllocError> {
    for record in records {
        if *record == 0 {
            return Ok(());
        }
        callers.push(*record)?;
    }
    Ok(())
}
