//! A service: what was requested, and its result.

use a64_registers::Regs;
use heap_bounds::CallText;
use mte_svc::{
    CALLOC, EXIT, MALLOC, MEMALIGN, PAGES_LEFT, READ, REALLOC, STEPS_LEFT, WRITE, YIELD, heap_call,
};
use std::fmt;

/// A service: `malloc(24) = 0x0100000012000010`.
#[derive(Clone, Copy)]
pub struct Service<'a> {
    /// The registers before it.
    pub before: &'a Regs,
    /// The registers after it.
    pub after: &'a Regs,
}

impl<'a> fmt::Display for Service<'a> {
    fn fmt<W: fmt::Write>(&self, f: &mut fmt::Formatter<W>) -> fmt::Result {
        let (number, first, second) = (self.before.x[8], self.before.x[0], self.before.x[1]);
        let answer = ServiceAnswer(*self);
        if let Some(call) = heap_call(number, first, second) {
            let call = CallText(call);
            return write!(f, "{call}{answer}");
        }
        match number {
            EXIT => write!(f, "exit({first}){answer}"),
            WRITE => write!(f, "write({first:#018x}, {second}){answer}"),
            READ => write!(f, "read({first:#018x}, {second}){answer}"),
            YIELD => write!(f, "yield(){answer}"),
            STEPS_LEFT => write!(f, "steps_left(){answer}"),
            PAGES_LEFT => write!(f, "pages_left(){answer}"),
            _ => write!(f, "service {number}({first:#x}, {second:#x}){answer}"),
        }
    }
}

/// The result of a service.
#[derive(Clone, Copy)]
struct ServiceAnswer<'a>(Service<'a>);

impl<'a> fmt::Display for ServiceAnswer<'a> {
    fn fmt<W: fmt::Write>(&self, f: &mut fmt::Formatter<W>) -> fmt::Result {
        let Service { before, after } = self.0;
        if before.pc == after.pc {
            return f.write_str(", which ends it");
        }
        let answer = after.x[0];
        match before.x[8] {
            MALLOC | CALLOC | REALLOC | MEMALIGN => write!(f, " = {answer:#018x}"),
            EXIT..=PAGES_LEFT => write!(f, " = {answer}"),
            _ => f.write_str(" = -1, as there is no such service"),
        }
    }
}
