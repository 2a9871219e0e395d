//! The text of a heap call.

use scudo_heap::HeapCall;
use std::fmt;
use std::fmt::Display;

/// A heap call as C has it, with all 16 digits of each pointer: `free(0x0100000012000010)`.
#[derive(Clone, Copy)]
pub struct CallText(pub HeapCall);

impl fmt::Display for CallText {
    fn fmt<W: fmt::Write>(&self, f: &mut fmt::Formatter<W>) -> fmt::Result {
        let CallText(call) = self;
        let name = call.name();
        match call {
            HeapCall::Free { pointer } | HeapCall::UsableSize { pointer } => {
                write!(f, "{name}({pointer:#018x})")
            }
            HeapCall::Realloc { pointer, size } => write!(f, "{name}({pointer:#018x}, {size})"),
            _ => call.fmt(f),
        }
    }
}
