//! The functions of C and C++ of which a call's arguments are judged.

use a64_registers::Regs;

/// A function of C or C++ that makes a chunk, or copies, fills or compares bytes.
#[derive(Clone, Copy, Debug, PartialEq, Eq)]
pub enum CalledFunction {
    /// `malloc`, and `valloc` and `pvalloc`.
    Malloc,
    /// `calloc`.
    Calloc,
    /// `realloc`.
    Realloc,
    /// `reallocarray`.
    ReallocArray,
    /// `aligned_alloc`, and `memalign`.
    AlignedAlloc,
    /// `posix_memalign`.
    PosixMemalign,
    /// `operator new`.
    New,
    /// `operator new[]`.
    NewArray,
    /// `memcpy`.
    Memcpy,
    /// `mempcpy`.
    Mempcpy,
    /// `memmove`, and `memcpy` where that is the same function.
    Memmove,
    /// `memset`.
    Memset,
    /// `memcmp`.
    Memcmp,
    /// `bcopy`.
    Bcopy,
    /// `bzero`.
    Bzero,
    /// `strcpy`.
    Strcpy,
    /// `stpcpy`.
    Stpcpy,
    /// `strncpy`.
    Strncpy,
    /// `strcat`.
    Strcat,
    /// `strncat`.
    Strncat,
}

/// No register.
const NONE: u8 = 31;

impl CalledFunction {
    /// The function with a symbol's name (C++'s as the Itanium C++ ABI has them), if it is one of
    /// these. Placement forms make nothing.
    pub fn of_name(name: &str) -> Option<CalledFunction> {
        match name {
            "malloc" | "valloc" | "pvalloc" => Some(CalledFunction::Malloc),
            "calloc" => Some(CalledFunction::Calloc),
            "realloc" => Some(CalledFunction::Realloc),
            "reallocarray" => Some(CalledFunction::ReallocArray),
            "aligned_alloc" | "memalign" => Some(CalledFunction::AlignedAlloc),
            "posix_memalign" => Some(CalledFunction::PosixMemalign),
            "_ZnwmPv" | "_ZnamPv" => None,
            _ if name.starts_with("_Znwm") => Some(CalledFunction::New),
            _ if name.starts_with("_Znam") => Some(CalledFunction::NewArray),
            _ => CalledFunction::of_bytes(name),
        }
    }

    /// The same of those that copy, fill or compare bytes.
    fn of_bytes(name: &str) -> Option<CalledFunction> {
        match name {
            "memcpy" => Some(CalledFunction::Memcpy),
            "mempcpy" => Some(CalledFunction::Mempcpy),
            "memmove" => Some(CalledFunction::Memmove),
            "memset" => Some(CalledFunction::Memset),
            "memcmp" => Some(CalledFunction::Memcmp),
            "bcopy" => Some(CalledFunction::Bcopy),
            "bzero" => Some(CalledFunction::Bzero),
            "strcpy" => Some(CalledFunction::Strcpy),
            "stpcpy" => Some(CalledFunction::Stpcpy),
            "strncpy" => Some(CalledFunction::Strncpy),
            "strcat" => Some(CalledFunction::Strcat),
            "strncat" => Some(CalledFunction::Strncat),
            _ => None,
        }
    }

    /// What two names of one function say of it: it may be used as each of them.
    pub(crate) fn with(self, other: CalledFunction) -> Option<CalledFunction> {
        if self == other {
            return Some(self);
        }
        match (self, other) {
            (CalledFunction::Memcpy, CalledFunction::Memmove)
            | (CalledFunction::Memmove, CalledFunction::Memcpy) => Some(CalledFunction::Memmove),
            _ => None,
        }
    }

    /// The registers that have its sizes, which are no more than half of all addresses; 31 for
    /// none. `strncat` may be called with any bound.
    fn size_registers(self) -> [u8; 2] {
        match self {
            CalledFunction::Malloc | CalledFunction::New | CalledFunction::NewArray => [0, NONE],
            CalledFunction::Calloc => [0, 1],
            CalledFunction::Realloc | CalledFunction::AlignedAlloc | CalledFunction::Bzero => {
                [1, NONE]
            }
            CalledFunction::ReallocArray => [1, 2],
            CalledFunction::PosixMemalign
            | CalledFunction::Memcpy
            | CalledFunction::Mempcpy
            | CalledFunction::Memmove
            | CalledFunction::Memset
            | CalledFunction::Memcmp
            | CalledFunction::Bcopy
            | CalledFunction::Strncpy => [2, NONE],
            CalledFunction::Strcpy
            | CalledFunction::Stpcpy
            | CalledFunction::Strcat
            | CalledFunction::Strncat => [NONE, NONE],
        }
    }

    /// The first of its sizes that is negative as a signed number, by the registers at a call.
    pub fn negative_size(self, regs: &Regs) -> Option<i64> {
        for register in self.size_registers().iter() {
            let number = regs.x.get(usize::from(*register)).copied().unwrap_or(0);
            if number.cast_signed() < 0 && *register != NONE {
                return Some(number.cast_signed());
            }
        }
        None
    }

    /// Whether it copies between ranges that may not overlap.
    pub fn forbids_overlap(self) -> bool {
        matches!(self, CalledFunction::Memcpy | CalledFunction::Mempcpy) || self.copies_string()
    }

    /// Whether the length of a string says how many bytes it copies.
    pub fn copies_string(self) -> bool {
        matches!(
            self,
            CalledFunction::Strcpy
                | CalledFunction::Stpcpy
                | CalledFunction::Strncpy
                | CalledFunction::Strcat
                | CalledFunction::Strncat
        )
    }

    /// Its name.
    pub fn name(self) -> &'static str {
        match self {
            CalledFunction::Malloc => "malloc",
            CalledFunction::Calloc => "calloc",
            CalledFunction::Realloc => "realloc",
            CalledFunction::ReallocArray => "reallocarray",
            CalledFunction::AlignedAlloc => "aligned_alloc",
            CalledFunction::PosixMemalign => "posix_memalign",
            CalledFunction::New => "operator new",
            CalledFunction::NewArray => "operator new[]",
            CalledFunction::Memcpy => "memcpy",
            CalledFunction::Mempcpy => "mempcpy",
            CalledFunction::Memmove => "memmove",
            CalledFunction::Memset => "memset",
            CalledFunction::Memcmp => "memcmp",
            CalledFunction::Bcopy => "bcopy",
            CalledFunction::Bzero => "bzero",
            CalledFunction::Strcpy => "strcpy",
            CalledFunction::Stpcpy => "stpcpy",
            CalledFunction::Strncpy => "strncpy",
            CalledFunction::Strcat => "strcat",
            CalledFunction::Strncat => "strncat",
        }
    }
}
