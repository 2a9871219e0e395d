//! The text of arguments that a function does not allow.

use pointer_provenance::{ArgumentFault, ArgumentFaultKind};
use run_records::Bytes;
use std::fmt;

/// The call, with what is wrong of its arguments.
#[derive(Clone, Copy)]
pub(crate) struct ArgumentText(pub ArgumentFault);

impl fmt::Display for ArgumentText {
    fn fmt<W: fmt::Write>(&self, f: &mut fmt::Formatter<W>) -> fmt::Result {
        let ArgumentFault {
            function,
            size,
            read,
            written,
            ..
        } = self.0;
        let name = function.name();
        if self.0.kind == ArgumentFaultKind::NegativeSize {
            return write!(f, "{name} is called with {size}");
        }
        let (from, to) = (read.start, written.start);
        let (read, written) = (Bytes(read.bytes), Bytes(written.bytes));
        write!(f, "{name} reads {read} from {from:#018x}")?;
        write!(f, " and writes {written} from {to:#018x}")
    }
}
