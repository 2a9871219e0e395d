//! Answers that say why the tenant has stopped (GDB's documentation, "Stop Reply Packets").

use crate::front::Front;
use crate::reply::Reply;
use crate::text::TextBuffer;
use debuggee::{Hit, Signal, WatchedAccess};
use gdb_travel::StopReason;

/// GDB's numbers of SIGTRAP and SIGXCPU, which are Linux's.
const TRAP: u8 = 5;

const LIMIT: u8 = 24;

impl Front<'_> {
    /// Answers why the tenant has stopped.
    pub(crate) fn put_stop(&self, reply: &mut Reply) {
        let signal = self.signal();
        match self.stop {
            StopReason::Exit(code) => put_exit(&mut reply.answer, code),
            StopReason::End | StopReason::Finding | StopReason::Ended => {
                self.put_halt(gdb_number(&signal), reply);
            }
            StopReason::Limit => self.put_halt(LIMIT, reply),
            _ => self.put_halt(TRAP, reply),
        }
    }

    /// Answers that it has stopped and can be moved: the signal, the reason and the thread.
    fn put_halt(&self, signal: u8, reply: &mut Reply) {
        let text = &mut reply.answer;
        text.put(b"T");
        text.put_hex(&[signal]);
        self.put_reason(text);
        text.put(b"thread:p1.1;");
    }

    /// Appends the reason, where it is more than a signal.
    fn put_reason(&self, text: &mut TextBuffer) {
        match self.stop {
            StopReason::Breakpoint if self.tells_breakpoints => text.put(b"swbreak:;"),
            StopReason::Watch(hit) => put_hit(text, &hit),
            StopReason::Start => text.put(b"replaylog:begin;"),
            StopReason::BeforeExit(_) => text.put(b"replaylog:end;"),
            _ => {}
        }
    }

    /// The signal of its end.
    pub(crate) fn signal(&self) -> Signal {
        match self.tenant.finding() {
            Some(finding) => Signal::of_finding(finding),
            None => Signal::of(&self.tenant.parts().history.status),
        }
    }
}

/// GDB's number of a signal: of SIGBUS it is another one than Linux's.
fn gdb_number(signal: &Signal) -> u8 {
    match signal.number {
        7 => 10,
        number => (number % 256) as u8,
    }
}

/// An exit with a code.
fn put_exit(text: &mut TextBuffer, code: u8) {
    text.put(b"W");
    text.put_hex(&[code]);
    text.put(b";process:1");
}

/// The access that is watched.
fn put_hit(text: &mut TextBuffer, hit: &Hit) {
    text.put(match hit.access {
        WatchedAccess::Write => b"watch:",
        WatchedAccess::Read => b"rwatch:",
        WatchedAccess::Any => b"awatch:",
    });
    text.put_number(hit.address);
    text.put(b";");
}
