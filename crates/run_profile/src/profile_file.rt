//! The file of a profile: lines of words with tabs between them, which a script turns into the
//! forms of other tools.

use crate::bounded_lines::BoundedLines;
use crate::code_names::{CodeNames, code_addresses};
use crate::run_events::EventKind;
use crate::run_profile::RunProfile;
use common::Printable;
use std::alloc::Global;
use std::io;
use std::io::Write;

/// A profile with all that is written of it.
#[derive(Clone, Copy)]
pub struct ProfileFile<'p, 'a> {
    /// The profile of a run that has ended.
    pub profile: &'p RunProfile<'a>,
    /// The name of the image's file.
    pub name: &'p str,
    /// The steps of the run.
    pub steps: u64,
}

impl<'p, 'a> ProfileFile<'p, 'a> {
    /// Writes the file.
    pub fn write<W: Write>(&self, alloc: Global, out: &mut W) -> io::Result<()> {
        self.write_run(out)?;
        self.write_branches(out)?;
        self.write_calls(out)?;
        self.write_long_calls(out)?;
        self.write_heap(out)?;
        self.write_sizes(out)?;
        self.write_events(out)?;
        let addresses = code_addresses(alloc, self.profile.image)?;
        let code = CodeNames {
            names: &self.profile.names,
            addresses: addresses.as_slice(),
        };
        let mut lines = BoundedLines::new(out);
        code.write_functions(&mut lines)?;
        code.write_lines(alloc, &mut lines)?;
        if lines.is_full() {
            writeln!(out, "incomplete")?;
        }
        Ok(())
    }

    /// Writes what the run was: its first instruction, and the run of instructions after the last
    /// branch.
    fn write_run<W: Write>(&self, out: &mut W) -> io::Result<()> {
        let (profile, steps) = (self.profile, self.steps);
        let (name, start) = (Printable(self.name), profile.start);
        let first = profile.first.unwrap_or(0);
        let rest = steps.saturating_sub(profile.steps());
        writeln!(out, "tombolopan profile\t1")?;
        writeln!(out, "image\t{name}")?;
        writeln!(out, "steps\t{steps}")?;
        writeln!(out, "first\t{first:x}")?;
        writeln!(out, "rest\t{start:x}\t{rest}")?;
        if profile.is_short() {
            writeln!(out, "incomplete")?;
        }
        Ok(())
    }

    /// Writes how often each branch was taken.
    fn write_branches<W: Write>(&self, out: &mut W) -> io::Result<()> {
        let (branches, pairs) = self.profile.branches();
        for (branch, pair) in branches.iter().zip(pairs.iter()) {
            let (from, to, count) = (pair.first, pair.second, branch.count);
            writeln!(out, "branch\t{from:x}\t{to:x}\t{count}")?;
        }
        Ok(())
    }

    /// Writes the calls: the number of the calls that they are in, that of the branch, how many
    /// there are, and their own steps. The first line is of what is in no call.
    fn write_calls<W: Write>(&self, out: &mut W) -> io::Result<()> {
        let (nodes, pairs) = self.profile.tree.nodes();
        for (node, pair) in nodes.iter().zip(pairs.iter()) {
            let (calls, steps) = (node.calls, node.steps);
            if pair.first == u64::MAX {
                writeln!(out, "calls\t-\t-\t{calls}\t{steps}")?;
            } else {
                let (outer, branch) = (pair.first, pair.second);
                writeln!(out, "calls\t{outer}\t{branch}\t{calls}\t{steps}")?;
            }
        }
        Ok(())
    }

    /// Writes of the calls with chunks: their number; how many chunks there were, and their bytes;
    /// how many were freed, and for how many steps those were live; how many are live, and their
    /// bytes; the bytes that were live at the peak.
    fn write_heap<W: Write>(&self, out: &mut W) -> io::Result<()> {
        let heap = &self.profile.heap;
        for (node, sums) in heap.nodes().iter().enumerate() {
            let (made, made_bytes) = (sums.made, sums.made_bytes);
            let (freed, lived) = (sums.freed, sums.lived);
            let (live, live_bytes, peak) = (sums.live, sums.live_bytes, heap.at_peak(sums));
            if made > 0 {
                write!(out, "heap\t{node}\t{made}\t{made_bytes}\t{freed}\t{lived}")?;
                writeln!(out, "\t{live}\t{live_bytes}\t{peak}")?;
            }
        }
        Ok(())
    }

    /// Writes the size of the heap at its peak, and after some of its calls.
    fn write_sizes<W: Write>(&self, out: &mut W) -> io::Result<()> {
        let sizes = &self.profile.heap.sizes;
        let (step, bytes) = (sizes.peak.step, sizes.peak.bytes);
        writeln!(out, "peak\t{step}\t{bytes}")?;
        for size in sizes.sizes() {
            let (step, bytes) = (size.step, size.bytes);
            writeln!(out, "size\t{step}\t{bytes}")?;
        }
        Ok(())
    }

    /// Writes the slices, the services and the end, in their order, and how many more there were.
    fn write_events<W: Write>(&self, out: &mut W) -> io::Result<()> {
        let events = &self.profile.events;
        for event in events.events() {
            let step = event.step;
            match event.kind {
                EventKind::Slice => writeln!(out, "slice\t{step}")?,
                EventKind::Service(number) => writeln!(out, "service\t{step}\t{number}")?,
                EventKind::End(word) => writeln!(out, "end\t{step}\t{word}")?,
            }
        }
        if events.missed > 0 {
            let missed = events.missed;
            writeln!(out, "missed\t{missed}")?;
        }
        Ok(())
    }

    /// Writes the longest calls, in the order of their ends.
    fn write_long_calls<W: Write>(&self, out: &mut W) -> io::Result<()> {
        let long = &self.profile.tree.long;
        let least = long.least();
        writeln!(out, "least\t{least}")?;
        for call in long.calls() {
            let (node, first, last) = (call.node, call.first, call.last);
            writeln!(out, "call\t{node}\t{first}\t{last}")?;
        }
        Ok(())
    }
}
