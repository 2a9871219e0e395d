//! The texts that GDB's user reads.

use crate::front::Front;
use crate::reply::Reply;
use gdb_packets::{read_hex, read_number};
use gdb_travel::{StopReason, tell_calls, tell_chunks, tell_why};
use std::alloc::Global;
use std::io;
use std::io::Write;

/// The most bytes of a user's command.
const COMMAND_LIMIT: usize = 256;

/// Where the part of a report ends that is written with a stop: the line of the instruction.
const MACHINE: &[u8] = b"\ninstruction at ";

/// The requests of a user.
#[derive(Clone, Copy)]
enum UserRequest {
    Why,
    Calls,
    Chunk(u64),
    Step,
    GoTo(u64),
    Help,
}

impl UserRequest {
    /// The request of a command's words.
    fn of(text: &[u8]) -> UserRequest {
        match text {
            b"why" => UserRequest::Why,
            b"calls" => UserRequest::Calls,
            b"step" => UserRequest::Step,
            _ => UserRequest::of_number(text),
        }
    }

    /// The request of the words `goto STEP`, or of others.
    fn of_number(text: &[u8]) -> UserRequest {
        let Some(digits) = text.strip_prefix(b"goto ") else {
            return UserRequest::of_chunk(text);
        };
        match read_count(digits) {
            Some(steps) => UserRequest::GoTo(steps),
            None => UserRequest::Help,
        }
    }

    /// The request of the words `chunk 0xADDRESS`.
    fn of_chunk(text: &[u8]) -> UserRequest {
        let Some(digits) = text.strip_prefix(b"chunk 0x") else {
            return UserRequest::Help;
        };
        match read_number(digits) {
            Some(address) => UserRequest::Chunk(address),
            None => UserRequest::Help,
        }
    }
}

impl Front<'_> {
    /// Answers a user's command, which is in digits.
    pub(crate) fn tell_user(&mut self, alloc: Global, digits: &[u8], reply: &mut Reply) {
        let request = request_of(digits);
        if let UserRequest::GoTo(steps) = request {
            self.go_to(alloc, steps, reply);
            return;
        }
        let mut out = Vec::new(alloc);
        match self.tell_request(alloc, request, &mut out) {
            Ok(()) => {
                reply.console.put(out.as_slice());
                reply.put_ok();
            }
            Err(_) => reply.answer.fail(),
        }
    }

    /// Writes what a user asks.
    fn tell_request(
        &mut self,
        alloc: Global,
        request: UserRequest,
        out: &mut Vec<u8>,
    ) -> io::Result<()> {
        match request {
            UserRequest::Why => tell_why(alloc, out, &self.tenant, &self.subject),
            UserRequest::Calls => tell_calls(alloc, out, &self.tenant),
            UserRequest::Chunk(address) => tell_chunks(alloc, out, &mut self.tenant, address),
            UserRequest::Step => writeln!(out, "{}", self.tenant.position()),
            UserRequest::GoTo(_) | UserRequest::Help => {
                writeln!(out, "why | calls | chunk 0xADDRESS | step | goto STEP")?;
                writeln!(out, "(of a pointer P: eval \"monitor chunk %p\", P)")
            }
        }
    }

    /// Writes an end for the user: why, or that it exits with the next step.
    pub(crate) fn tell_end(&mut self, alloc: Global, reply: &mut Reply) {
        let mut out = Vec::new(alloc);
        let told = match self.stop {
            StopReason::End | StopReason::Finding | StopReason::Limit => tell_why(
                alloc,
                &mut out,
                &self.tenant,
                &self.subject,
            ),
            StopReason::BeforeExit(code) => self.tell_exit(code, &mut out),
            StopReason::Ended => self.tell_stay(&mut out),
            _ => return,
        };
        if told.is_err() {
            reply.answer.fail();
        }
        reply.console.put(first_part(out.as_slice()));
    }

    /// Writes that it exits with the next step.
    fn tell_exit(&self, code: u8, out: &mut Vec<u8>) -> io::Result<()> {
        let steps = self.tenant.position().saturating_add(1);
        writeln!(
            out,
            "the tenant exits with {code} after {steps} steps (continue again to let it)"
        )
    }

    /// Writes that it had ended here, and stays.
    fn tell_stay(&self, out: &mut Vec<u8>) -> io::Result<()> {
        let steps = self.tenant.position();
        writeln!(
            out,
            "the tenant has ended here, after {steps} steps: it can only go back (monitor why)"
        )
    }
}

/// A decimal number, or a hexadecimal one after `0x`.
fn read_count(text: &[u8]) -> Option<u64> {
    match text.strip_prefix(b"0x") {
        Some(digits) => read_number(digits),
        None => str::from_utf8(text).ok()?.parse::<u64>().ok(),
    }
}

/// The request of a command in digits.
fn request_of(digits: &[u8]) -> UserRequest {
    if digits.len() > 2 * COMMAND_LIMIT {
        return UserRequest::Help;
    }
    let mut room = [0; COMMAND_LIMIT];
    let len = read_hex(digits, &mut room).unwrap_or(0);
    UserRequest::of(room.get(..len).unwrap_or(&[]))
}

/// A report's lines up to those of the machine.
fn first_part(text: &[u8]) -> &[u8] {
    for end in 0..text.len() {
        let rest = text.get(end..).unwrap_or(&[]);
        if rest.starts_with(MACHINE) {
            return text.get(..end.saturating_add(1)).unwrap_or(&[]);
        }
    }
    text
}
