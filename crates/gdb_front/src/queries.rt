//! Requests for registers, features and objects, and requests that have one answer.

use crate::description::put_description;
use crate::front::Front;
use crate::parts::put_part;
use crate::reply::Reply;
use crate::text::TextBuffer;
use gdb_packets::{Command, read_register};
use std::alloc::Global;

/// The features of the front, which depend on nothing.
const FEATURES: &[u8] = b"PacketSize=4000;QStartNoAckMode+;multiprocess+;vContSupported+;\
ReverseStep+;ReverseContinue+;memory-tagging+;qXfer:features:read+;qXfer:siginfo:read+;\
qXfer:exec-file:read+";

impl Front<'_> {
    /// Answers a packet that is answered the same whatever the tenant does. Those that would change
    /// it are refused, and unknown ones have an empty answer.
    pub(crate) fn answer_fixed(&self, command: &Command<'_>, reply: &mut Reply) {
        match command {
            Command::Malformed
            | Command::WriteRegisters { .. }
            | Command::WriteMemory { .. }
            | Command::WriteBytes { .. }
            | Command::WriteTags { .. } => reply.put_refusal(),
            Command::SelectThread { .. }
            | Command::IsThreadAlive { .. }
            | Command::StartNoAckMode => reply.put_ok(),
            Command::Detach { .. } | Command::KillProcess { .. } if self.is_extended => {
                reply.put_ok();
            }
            Command::Detach { .. } | Command::Kill | Command::KillProcess { .. } => reply.end(),
            Command::ResumeActions => reply.answer.put(b"vCont;c;C;s;S;r"),
            Command::IsAttached { .. } => reply.answer.put(b"0"),
            Command::CurrentThread => reply.answer.put(b"QCp1.1"),
            Command::FirstThreads => reply.answer.put(b"mp1.1"),
            Command::NextThreads => reply.answer.put(b"l"),
            _ => {}
        }
    }

    /// Answers one register.
    pub(crate) fn put_register(&self, number: u64, reply: &mut Reply) {
        let registers = self.registers();
        registers.put_one(number, &mut reply.answer);
        if registers.value(number).is_none() {
            reply.put_refusal();
        }
    }

    /// Answers that a register is written where it has the value already; else it is refused.
    pub(crate) fn compare_register(&self, number: u64, digits: &[u8], reply: &mut Reply) {
        let value = read_register(digits);
        if value.is_some() && value == self.registers().value(number) {
            reply.put_ok();
        } else {
            reply.put_read_only();
        }
    }

    /// Answers what the front can do.
    pub(crate) fn put_features(&mut self, offered: &[u8], reply: &mut Reply) {
        reply.answer.put(FEATURES);
        if is_offered(offered, b"swbreak+") {
            self.tells_breakpoints = true;
            reply.answer.put(b";swbreak+");
        }
        if is_offered(offered, b"hwbreak+") {
            reply.answer.put(b";hwbreak+");
        }
    }

    /// Answers a part of an object.
    pub(crate) fn put_object(
        &self,
        alloc: Global,
        object: &[u8],
        offset: u64,
        len: u64,
        reply: &mut Reply,
    ) {
        match object {
            b"features" => put_description_part(alloc, offset, len, reply),
            b"exec-file" => {
                put_part(&mut reply.answer, self.subject.name.as_bytes(), offset, len);
            }
            b"siginfo" => {
                put_part(&mut reply.answer, &self.signal().info(), offset, len);
            }
            _ => {}
        }
    }
}

/// Answers a part of the target's description.
fn put_description_part(alloc: Global, offset: u64, len: u64, reply: &mut Reply) {
    let mut text = TextBuffer::new(alloc);
    put_description(&mut text);
    if text.is_short() {
        reply.answer.fail();
    }
    put_part(&mut reply.answer, text.as_slice(), offset, len);
}

/// Whether a feature is among those that are offered, which have `;` between them.
fn is_offered(offered: &[u8], feature: &[u8]) -> bool {
    offered.split(|b| *b == b';').any(|piece| piece == feature)
}
