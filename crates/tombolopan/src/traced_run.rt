//! A run whose instructions and accesses are entered in arrays of the caller.

ghost use Rattle.std.specs.Prelude.{◌≡◌, ◌≤◌, ◌<◌, ◌+◌, ◌++◌, List, length, false};
ghost use Rattle.std.specs.Prelude.{IsFalse, IsTrue, is_none, ◌&&◌, true, None};
ghost use Rattle.std.specs.Result.{result_ok};
ghost use Rattle.a64_registers.specs.declared.registers.Regs.{Regs};
ghost use Rattle.mte_tags.specs.Memory.{Memory};
ghost use Rattle.mte_tags.specs.Accesses.{fetch_result};
ghost use Rattle.a64_step.specs.Results.{Leaves};
ghost use Rattle.a64_step.specs.Steps.{step_of};
ghost use Rattle.tombolopan.specs.InstructionAccesses;
ghost use Rattle.tombolopan.specs.InstructionAccesses.{entered_access, next_access};
ghost use Rattle.tombolopan.specs.Traces.{stopping, is_stop, fetched, MayGoOn, Holds, IsTraced};
ghost use Rattle.tombolopan.specs.Traces.{Arrays, arrays, listed, HasNoRoom, IsFull};
ghost use Rattle.tombolopan.specs.declared.trace_arrays.TracedAccess.{TracedAccess};
ghost use Rattle.tombolopan.specs.declared.trace_arrays.TracedInstruction.{TracedInstruction};

use crate::instruction_access::{InstructionAccess, access_of};
use crate::trace_arrays::{TracedAccess, TracedInstruction};
use crate::trace_request::TraceRequest;
use a64_decode::Decoder;
use a64_step::execute::execute;
use a64_step::{Outcome, Regs};
use mte_tags::Tagged;

/// How a traced run ended.
#[derive(Clone, Copy)]
pub struct TraceEnd {
    /// The instructions that were attempted.
    pub steps: u64,
    /// The instructions that are entered.
    pub instructions: usize,
    /// The accesses that are entered.
    pub accesses: usize,
    /// The last step's outcome, where that was not `Next`.
    pub outcome: Option<Outcome>,
    /// Whether PC came to one of the stops.
    pub reached: bool,
    /// Whether an array is full.
    pub full: bool,
}

/// Attempts one instruction, and returns its word where it could be fetched. `outcome` is written
/// only where it is not `Next`, `access` only where the instruction makes one if it completes.
#[inline(always)]
#[tactic(auto, unfolding(a64_step::specs::Steps::step_of))]
fn attempt<M: Tagged>(
    decoder: &mut Decoder,
    regs: &mut Regs,
    memory: &mut M,
    outcome: &mut Outcome,
    access: &mut Option<InstructionAccess>,
) -> Option<u32>
    requires outcome { outcome.old ≡ Outcome.Next }
    requires access { access.old ≡ None }
    ensures word { result ≡ result_ok (fetch_result (M.memory memory.old) regs.old.pc) }
    ensures leaves { Leaves (step_of regs.old (M.memory memory.old))
        outcome.new regs.new (M.memory memory.new) }
    ensures access { access.new ≡ next_access regs.old (M.memory memory.old) }
    ensures kept { M.kept memory.old memory.new }
{
    let pc = regs.pc;
    let word = match memory.fetch(pc) {
        Ok(word) => word,
        Err(fault) => {
            *outcome = Outcome::Fault(fault);
            return None;
        }
    };
    match decoder.decode(pc, word) {
        Some(instr) => {
            *access = access_of(instr, regs);
            execute(instr, regs, memory, outcome)
        }
        None => *outcome = Outcome::Illegal(word),
    }
    Some(word)
}

/// Whether an array in which something is entered has no space left.
#[inline(always)]
fn is_full(count: usize, room: usize) -> bool
    ensures free { IsFalse result → 0 < room → count < room }
    ensures full { IsTrue result → HasNoRoom count room }
{
    room != 0 && count >= room
}

/// Enters an instruction where its range is asked for, and returns how many are entered.
#[inline(always)]
fn enter_instruction(
    request: &TraceRequest<'_>,
    instructions: &mut [TracedInstruction],
    count: usize,
    step: u64,
    pc: u64,
    word: Option<u32>,
) -> usize
    requires room { 0 < length instructions.old → count < length instructions.old }
    ensures { (xs old : List TracedInstruction) → Holds xs old instructions.old count
        → Holds (xs ++ fetched request.now step pc word) old instructions.new result }
{
    let Some(word) = word else {
        return count;
    };
    if count >= instructions.len() || !request.has_code(pc) {
        return count;
    }
    instructions[count] = TracedInstruction {
        step,
        pc,
        word,
        unused: 0,
    };
    count + 1
}

/// The access of a step where it was completed.
#[inline(always)]
fn completed(outcome: Outcome, access: Option<InstructionAccess>) -> Option<InstructionAccess>
    ensures { result ≡ InstructionAccesses.completed outcome access }
{
    match outcome {
        Outcome::Next => access,
        _ => None,
    }
}

/// A completed access as it is entered, where it is asked for.
#[inline(always)]
fn entry_of<M: Tagged>(
    request: &TraceRequest<'_>,
    regs: &Regs,
    memory: &mut M,
    step: u64,
    pc: u64,
    access: Option<InstructionAccess>,
) -> Option<TracedAccess>
    ensures entry { listed result
        ≡ entered_access request.now step pc regs.now (M.memory memory.old) access }
    ensures memory { M.memory memory.new ≡ M.memory memory.old }
    ensures kept { M.kept memory.old memory.new }
{
    let access = access?;
    if !request.has_access(&access) {
        return None;
    }
    Some(TracedAccess {
        step,
        pc,
        addr: access.addr,
        value: access.value(regs, memory),
        size: access.size,
        kind: access.kind,
    })
}

/// Enters an access, if there is one, and returns how many are entered.
#[inline(always)]
fn enter_access(accesses: &mut [TracedAccess], count: usize, entry: Option<TracedAccess>) -> usize
    requires room { 0 < length accesses.old → count < length accesses.old }
    ensures { (xs old : List TracedAccess) → Holds xs old accesses.old count
        → Holds (xs ++ listed entry) old accesses.new result }
{
    let Some(access) = entry else {
        return count;
    };
    if count >= accesses.len() {
        return count;
    }
    accesses[count] = access;
    count + 1
}

/// Enters how a step ended.
#[inline(always)]
fn note_outcome(end: &mut TraceEnd, outcome: Outcome, stops: &[u64], pc: u64)
    requires running { end.old.outcome ≡ None }
    requires passing { end.old.reached ≡ false }
    ensures { end.new ≡ record end.old {
      outcome = stopping outcome;
      reached = is_none (stopping outcome) && is_stop stops.now pc;
    } }
{
    match outcome {
        Outcome::Next => end.reached = stops.contains(&pc),
        other => end.outcome = Some(other),
    }
}

/// A run on its way.
#[derive(Drop)]
struct Progress<'a> {
    request: &'a TraceRequest<'a>,
    end: TraceEnd,
}

/// Attempts one instruction, and enters it and its access.
#[inline(always)]
fn advance<M: Tagged>(
    decoder: &mut Decoder,
    progress: &mut Progress<'_>,
    regs: &mut Regs,
    memory: &mut M,
    instructions: &mut [TracedInstruction],
    accesses: &mut [TracedAccess],
)
    requires more { MayGoOn progress.old.end }
    requires running { progress.old.end.outcome ≡ None }
    requires passing { progress.old.end.reached ≡ false }
    requires room { 0 < length instructions.old
        → progress.old.end.instructions < length instructions.old }
    requires free { 0 < length accesses.old → progress.old.end.accesses < length accesses.old }
    ensures request { progress.new.request ≡ progress.old.request }
    ensures steps { progress.new.end.steps ≡ progress.old.end.steps + 1 }
    ensures full { progress.new.end.full ≡ progress.old.end.full }
    ensures traced { (r0 : Regs) (m0 : Memory) (old : Arrays)
        → IsTraced progress.old.request.now r0 m0 old progress.old.end regs.old
        (M.memory memory.old) (arrays instructions.old accesses.old)
        → IsTraced progress.old.request.now r0 m0 old progress.new.end regs.new
        (M.memory memory.new) (arrays instructions.new accesses.new) }
    ensures kept { M.kept memory.old memory.new }
    ensures tag { regs.old.rgsr.tag < 16 → regs.new.rgsr.tag < 16 }
{
    let request = progress.request;
    let (step, pc) = (progress.end.steps, regs.pc);
    let mut outcome = Outcome::Next;
    let mut access = None;
    let word = attempt(decoder, regs, memory, &mut outcome, &mut access);
    let made = completed(outcome, access);
    let entry = entry_of(request, regs, memory, step, pc, made);
    let end = &mut progress.end;
    end.instructions = enter_instruction(request, instructions, end.instructions, step, pc, word);
    end.accesses = enter_access(accesses, end.accesses, entry);
    end.steps = step + 1;
    note_outcome(end, outcome, request.stops, regs.pc);
}

/// Attempts at most `request.steps` instructions, and enters each instruction that is fetched and
/// each access that is completed, those that are asked for, from the start of the arrays on. It
/// stops after the first outcome that is not `Next`, where PC is one of the stops after one, and
/// before an instruction where an array has no space left. An array without elements is not
/// requested, and never full. Where `full` is set, nothing else has ended it and one of the arrays
/// has no space left.
pub fn run_traced<M: Tagged>(
    regs: &mut Regs,
    memory: &mut M,
    request: &TraceRequest<'_>,
    instructions: &mut [TracedInstruction],
    accesses: &mut [TracedAccess],
) -> TraceEnd
    ensures traced { IsTraced request.now regs.old (M.memory memory.old)
        (arrays instructions.old accesses.old)
        result regs.new (M.memory memory.new) (arrays instructions.new accesses.new) }
    ensures within { result.steps ≤ request.now.steps }
    ensures whole { result.outcome ≡ None → result.reached ≡ false → result.full ≡ false
        → result.steps ≡ request.now.steps }
    ensures full { result.full ≡ true
        → IsFull result (length instructions.old) (length accesses.old) }
    ensures kept { M.kept memory.old memory.new }
    ensures tag { regs.old.rgsr.tag < 16 → regs.new.rgsr.tag < 16 }
{
    let mut decoder = Decoder::new();
    let mut progress = Progress {
        request,
        end: TraceEnd {
            steps: 0,
            instructions: 0,
            accesses: 0,
            outcome: None,
            reached: false,
            full: false,
        },
    };
    for _ in 0..request.steps {
        let end = &mut progress.end;
        if is_full(end.instructions, instructions.len()) || is_full(end.accesses, accesses.len()) {
            end.full = true;
            return progress.end;
        }
        advance(
            &mut decoder,
            &mut progress,
            regs,
            memory,
            instructions,
            accesses,
        );
        if progress.end.outcome.is_some() || progress.end.reached {
            return progress.end;
        }
    }
    progress.end
}
