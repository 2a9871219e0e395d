//! The instructions of a page: each word once, and what each step did.

use crate::heap_page::step::StepText;
use a64_registers::Regs;
use elf_symbols::SymbolName;
use mte_backtrace::{FrameAddresses, FrameName, Quoted, StackFrame};
use mte_report::{Context, Report};
use run_records::Instruction;
use std::alloc::{AllocError, Global};
use std::collections::BTreeMap;
use std::fmt::Display;
use std::io::Write;
use std::{fmt, io};

/// A word at an address.
#[derive(Clone, Copy)]
struct CodeWord {
    pc: u64,
    /// None where it could not be fetched.
    word: Option<u32>,
}

/// The words that were run, each once, and which of them each remembered step ran.
#[derive(Drop)]
pub(crate) struct Code {
    words: Vec<CodeWord>,
    /// The index of the last word that was met at each address.
    newest: BTreeMap<u64, usize>,
    /// The index of each step's word, the oldest first.
    steps: Vec<usize>,
}

impl Code {
    /// The words of the instructions that are remembered.
    pub(crate) fn of(alloc: Global, report: &Report<'_>) -> Result<Code, AllocError> {
        let mut code = Code {
            words: Vec::new(alloc),
            newest: BTreeMap::new(alloc),
            steps: Vec::new(alloc),
        };
        if let Some(moments) = report.last {
            for moment in moments.iter() {
                let index = code.index(moment.regs.pc, moment.word)?;
                code.steps.push(index)?;
            }
        }
        Ok(code)
    }

    /// The index of a word at an address, which is entered where it was not the last one there.
    fn index(&mut self, pc: u64, word: Option<u32>) -> Result<usize, AllocError> {
        if let Some(index) = self.newest.get(&pc).copied() {
            if self
                .words
                .get(index)
                .is_some_and(|known| known.word == word)
            {
                return Ok(index);
            }
        }
        let index = self.words.len();
        self.words.push(CodeWord { pc, word })?;
        self.newest.insert(pc, index)?;
        Ok(index)
    }

    /// Adds the addresses whose names and lines are written.
    pub(crate) fn push_frames(&self, frames: &mut FrameAddresses) -> Result<(), AllocError> {
        for word in &self.words {
            frames.push_instruction(word.pc)?;
        }
        Ok(())
    }

    /// Writes the words, the number of the first step, and the steps.
    pub(crate) fn write<W: Write>(&self, out: &mut W, context: &Context<'_>) -> io::Result<()> {
        write!(out, "\"code\":[")?;
        self.write_words(out, context)?;
        let first = first_step(context.report);
        write!(out, "],\n\"first\":{first},\"steps\":[")?;
        self.write_steps(out, context.report)?;
        writeln!(out, "],")
    }

    /// Writes the words, each with no place where it has that of the word before.
    fn write_words<W: Write>(&self, out: &mut W, context: &Context<'_>) -> io::Result<()> {
        let mut before = String::new(context.alloc);
        let mut front = "";
        for word in &self.words {
            let place = place_of(context, word.pc)?;
            write_word(
                out,
                front,
                *word,
                differing(place.as_str(), before.as_str()),
            )?;
            before = place;
            front = ",";
        }
        Ok(())
    }

    /// Writes what each step did.
    fn write_steps<W: Write>(&self, out: &mut W, report: &Report<'_>) -> io::Result<()> {
        let Some(moments) = report.last else {
            return Ok(());
        };
        let mut before: Option<StepText<'_>> = None;
        let mut count: usize = 0;
        for (index, moment) in self.steps.iter().zip(moments.iter()) {
            write_step(out, before, &moment.regs, count <= 1)?;
            before = Some(StepText {
                index: *index,
                moment,
                after: &moment.regs,
            });
            count = count.saturating_add(1);
        }
        write_step(out, before, regs_at_end(report), count <= 1)
    }
}

/// Writes a step with the registers after it, if there is one, and a comma in front of all but the
/// first.
fn write_step<W: Write>(
    out: &mut W,
    step: Option<StepText<'_>>,
    after: &Regs,
    is_first: bool,
) -> io::Result<()> {
    let Some(step) = step else {
        return Ok(());
    };
    let (front, text) = (if is_first { "" } else { "," }, StepText { after, ..step });
    write!(out, "{front}\n\"{text}\"")
}

/// Writes a word: its address, its text, and the place.
fn write_word<W: Write>(out: &mut W, front: &str, word: CodeWord, place: &str) -> io::Result<()> {
    let (pc, text, place) = (word.pc, WordText(word), Quoted(place));
    write!(out, "{front}\n[\"{pc:#x}\",\"{text}\",{place}]")
}

/// A text, or none where it is the one before.
fn differing<'a>(text: &'a str, before: &str) -> &'a str {
    if text == before { "" } else { text }
}

/// The text of a word.
#[derive(Clone, Copy)]
struct WordText(CodeWord);

impl fmt::Display for WordText {
    fn fmt<W: fmt::Write>(&self, f: &mut fmt::Formatter<W>) -> fmt::Result {
        let CodeWord { pc, word } = self.0;
        match word {
            Some(word) => Instruction { word, pc }.fmt(f),
            None => f.write_str("no instruction can be fetched"),
        }
    }
}

/// The function and the source line of an instruction.
fn place_of(context: &Context<'_>, pc: u64) -> Result<String, AllocError> {
    match context.names.instruction_frames(pc).next() {
        Some(frame) => {
            let place = WordPlace(frame);
            format!(in context.alloc; "{place}")
        }
        None => Ok(String::new(context.alloc)),
    }
}

/// The function and the source line of a frame, where they are known: `NAME at FILE:LINE`.
#[derive(Clone, Copy)]
struct WordPlace<'a>(StackFrame<'a>);

impl<'a> fmt::Display for WordPlace<'a> {
    fn fmt<W: fmt::Write>(&self, f: &mut fmt::Formatter<W>) -> fmt::Result {
        if let Some(name) = name_of(&self.0) {
            write!(f, "{name}")?;
        }
        match &self.0.line {
            Some(line) => write!(f, " at {line}"),
            None => Ok(()),
        }
    }
}

/// The name of a frame's function, if it is known.
fn name_of<'a>(frame: &StackFrame<'a>) -> Option<SymbolName<'a>> {
    match frame.name {
        FrameName::Inlined(name) => name,
        FrameName::Own(place) => place.name(),
    }
}

/// The number of the first instruction that is remembered; 0 where none is.
fn first_step(report: &Report<'_>) -> u64 {
    match report.last.and_then(|moments| moments.front()) {
        Some(moment) => moment.step,
        None => 0,
    }
}

/// The registers after the last instruction that is remembered.
fn regs_at_end<'a>(report: &Report<'a>) -> &'a Regs {
    match report.finding {
        Some(finding) => &finding.after,
        None => &report.parts.regs,
    }
}
