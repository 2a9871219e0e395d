//! The front.

use crate::files::File;
use crate::registers::TargetRegisters;
use crate::reply::Reply;
use crate::text::TextBuffer;
use debuggee::Debuggee;
use gdb_packets::{Command, parse_command};
use gdb_travel::{DebugSubject, Points, StopReason, Traveller};
use run_cause::Finding;
use std::alloc::Global;

/// A tenant, and what GDB knows of it.
pub struct Front<'a> {
    /// The tenant.
    pub(crate) tenant: Traveller<'a>,
    /// Where it has stopped.
    pub(crate) points: Points,
    /// Why it has stopped.
    pub(crate) stop: StopReason,
    /// How many bytes of its output GDB has.
    pub(crate) shown: usize,
    /// Whether GDB wants to know that a breakpoint was reached.
    pub(crate) tells_breakpoints: bool,
    /// Whether GDB may begin the tenant again, also after it was killed.
    pub(crate) is_extended: bool,
    /// The file that GDB has open.
    pub(crate) file: File,
    /// The image, its name and the seed.
    pub(crate) subject: DebugSubject<'a>,
}

impl<'a> Drop for Front<'a> {
    fn drop(self) {
        let Front {
            tenant: _,
            points: _,
            stop: _,
            shown: _,
            tells_breakpoints: _,
            is_extended: _,
            file: _,
            subject: _,
        } = self;
    }
}

impl<'a> Front<'a> {
    /// A front of a tenant at its first instruction, and of what a check of its run finds first.
    pub fn new(
        alloc: Global,
        tenant: Debuggee<'a>,
        subject: DebugSubject<'a>,
        finding: Option<Finding>,
    ) -> Front<'a> {
        Front {
            tenant: Traveller::new(tenant, finding),
            points: Points::new(alloc),
            stop: StopReason::Step,
            shown: 0,
            tells_breakpoints: false,
            is_extended: false,
            file: File::new(alloc),
            subject,
        }
    }

    /// Answers the data of a packet, without their escapes.
    pub fn answer(&mut self, alloc: Global, data: &[u8], reply: &mut Reply) {
        match parse_command(data) {
            Command::StopReason => self.put_stop(reply),
            Command::Resume { action, .. } => self.resume(alloc, action, reply),
            Command::ResumeThread { action, .. } => self.resume(alloc, action, reply),
            Command::StepBack => self.step_back(alloc, reply),
            Command::ContinueBack => self.run_back(alloc, reply),
            Command::InsertPoint {
                kind,
                address,
                size,
            } => self.insert_point(kind, address, size, reply),
            Command::RemovePoint {
                kind,
                address,
                size,
            } => self.remove_point(kind, address, size, reply),
            Command::ReadMemory { address, len } => self.put_memory(address, len, reply),
            Command::ReadTags { address, len, kind } => self.put_tags(address, len, kind, reply),
            Command::Monitor { digits } => self.tell_user(alloc, digits, reply),
            Command::File(call) => self.answer_file(alloc, &call, reply),
            command => self.answer_other(alloc, &command, reply),
        }
    }

    /// Answers what reads registers and texts, and what only GDB keeps.
    fn answer_other(&mut self, alloc: Global, command: &Command<'_>, reply: &mut Reply) {
        match *command {
            Command::ReadRegisters => self.registers().put_all(&mut reply.answer),
            Command::ReadRegister { number } => self.put_register(number, reply),
            Command::WriteRegister { number, digits } => {
                self.compare_register(number, digits, reply);
            }
            Command::Run => self.run_anew(alloc, reply),
            Command::StartExtendedMode => {
                self.is_extended = true;
                reply.put_ok();
            }
            Command::Supported { features } => self.put_features(features, reply),
            Command::ReadObject {
                object,
                offset,
                len,
                ..
            } => self.put_object(alloc, object, offset, len, reply),
            _ => self.answer_fixed(command, reply),
        }
    }

    /// Its registers.
    pub(crate) fn registers(&self) -> TargetRegisters<'_> {
        TargetRegisters {
            regs: &self.tenant.parts().regs,
            mode: self.tenant.mode(),
            step: self.tenant.position(),
        }
    }

    /// Takes the output that GDB does not have yet.
    pub(crate) fn tell_output(&mut self, console: &mut TextBuffer) {
        let shown = self.shown;
        let output = self.tenant.parts().history.output.as_slice();
        self.shown = put_from(output, shown, console);
    }
}

/// Appends the bytes from a place on, and returns how many there are.
fn put_from(output: &[u8], shown: usize, console: &mut TextBuffer) -> usize {
    if let Some(more) = output.get(shown..) {
        console.put(more);
    }
    shown.max(output.len())
}
