//! A heap call as a value.

ghost use Rattle.std.specs.Prelude.{◌≡◌};
ghost use Rattle.scudo_heap.specs.Calls.{call_name, arguments_of};

use std::fmt;

/// A call of a heap. Sizes are in bytes; a pointer has its tag in bits 59:56.
#[derive(Clone, Copy)]
pub enum HeapCall {
    /// A chunk of `size` bytes.
    Malloc { size: u64 },
    /// Frees a chunk.
    Free { pointer: u64 },
    /// A chunk for `count` elements of `size` bytes, all zero.
    Calloc { count: u64, size: u64 },
    /// Gives a chunk another size.
    Realloc { pointer: u64, size: u64 },
    /// A chunk of `size` bytes at a multiple of `alignment`.
    Memalign { alignment: u64, size: u64 },
    /// How many bytes of a chunk its user may use.
    UsableSize { pointer: u64 },
}

impl HeapCall {
    /// Its name in a report.
    pub fn name(self) -> &'static str
        ensures { result.now ≡ call_name self }
    {
        match self {
            HeapCall::Malloc { .. } => "malloc",
            HeapCall::Free { .. } => "free",
            HeapCall::Calloc { .. } => "calloc",
            HeapCall::Realloc { .. } => "realloc",
            HeapCall::Memalign { .. } => "memalign",
            HeapCall::UsableSize { .. } => "usable_size",
        }
    }

    /// Its arguments in their order; the second is 0 where it has one.
    pub fn arguments(self) -> (u64, u64)
        ensures { result ≡ arguments_of self }
    {
        match self {
            HeapCall::Malloc { size } => (size, 0),
            HeapCall::Free { pointer } | HeapCall::UsableSize { pointer } => (pointer, 0),
            HeapCall::Calloc { count, size } => (count, size),
            HeapCall::Realloc { pointer, size } => (pointer, size),
            HeapCall::Memalign { alignment, size } => (alignment, size),
        }
    }
}

/// As C has it: `realloc(0x100000012000010, 32)`.
impl fmt::Display for HeapCall {
    fn fmt<W: fmt::Write>(&self, f: &mut fmt::Formatter<W>) -> fmt::Result {
        let name = self.name();
        match *self {
            HeapCall::Malloc { size } => write!(f, "{name}({size})"),
            HeapCall::Free { pointer } | HeapCall::UsableSize { pointer } => {
                write!(f, "{name}({pointer:#x})")
            }
            HeapCall::Calloc { count, size } => write!(f, "{name}({count}, {size})"),
            HeapCall::Realloc { pointer, size } => write!(f, "{name}({pointer:#x}, {size})"),
            HeapCall::Memalign { alignment, size } => write!(f, "{name}({alignment}, {size})"),
        }
    }
}
