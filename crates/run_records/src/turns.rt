//! Calls and returns.

use crate::moment::Moment;
use a64_decode::decode;
use a64_instr::Instr;
use a64_registers::Regs;
use circular_buffer::HeapCircularBuffer;
use mte_backtrace::{FrameAddresses, FrameNames};
use std::alloc::AllocError;
use std::io;
use std::io::Write;

/// A call or a return that an instruction made.
#[derive(Clone, Copy)]
pub struct Turn {
    /// The number of the instruction, from 1.
    step: u64,
    /// Its address.
    pc: u64,
    /// Where it went.
    to: u64,
    is_call: bool,
}

impl Turn {
    /// The call (BL, BLR) or return (RET) that an instruction made, by the registers after it.
    pub fn of(moment: &Moment, after: &Regs) -> Option<Turn> {
        let is_call = match decode(moment.word?)? {
            Instr::Branch { op: 1, .. } | Instr::BranchReg { opc: 1, .. } => true,
            Instr::BranchReg { opc: 2, .. } => false,
            _ => return None,
        };
        Some(Turn {
            step: moment.step,
            pc: moment.regs.pc,
            to: after.pc,
            is_call,
        })
    }
}

/// Adds the addresses whose names and lines are written of calls and returns.
pub fn push_turns(
    frames: &mut FrameAddresses,
    turns: &HeapCircularBuffer<Turn>,
) -> Result<(), AllocError> {
    for turn in turns.iter() {
        frames.push_instruction(turn.pc)?;
        frames.push_instruction(turn.to)?;
    }
    Ok(())
}

/// Writes the last calls and returns, the oldest first, each in a line.
pub fn tell_turns<W: Write>(
    out: &mut W,
    turns: &HeapCircularBuffer<Turn>,
    names: &FrameNames<'_>,
) -> io::Result<()> {
    writeln!(out, "the last calls and returns:")?;
    for turn in turns.iter() {
        let step = turn.step;
        let (from, to) = (names.instruction(turn.pc), names.instruction(turn.to));
        let went = if turn.is_call { "calls" } else { "returns to" };
        writeln!(out, "{step:>9}  {from} {went} {to}")?;
    }
    Ok(())
}
