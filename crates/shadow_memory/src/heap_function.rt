//! The functions of C and C++ that make and free chunks.

/// A function of C or C++ that makes or frees chunks.
#[derive(Clone, Copy, Debug, PartialEq, Eq)]
pub enum HeapFunction {
    /// `malloc`, and those of C that make chunks as it does.
    Malloc,
    /// `realloc`, which frees a chunk and makes one.
    Realloc,
    /// `free`.
    Free,
    /// `operator new`.
    New,
    /// `operator new[]`.
    NewArray,
    /// `operator delete`.
    Delete,
    /// `operator delete[]`.
    DeleteArray,
}

/// Which functions belong together.
#[derive(Clone, Copy, PartialEq, Eq)]
enum FunctionFamily {
    /// Those of C.
    C,
    /// C++'s for one object.
    Object,
    /// C++'s for an array.
    Array,
}

impl HeapFunction {
    /// The function with a symbol's name (C++'s as the Itanium C++ ABI has them), if it is one of
    /// these. Placement forms make and free nothing.
    pub fn of_name(name: &str) -> Option<HeapFunction> {
        match name {
            "malloc"
            | "calloc"
            | "aligned_alloc"
            | "memalign"
            | "posix_memalign"
            | "valloc"
            | "pvalloc" => Some(HeapFunction::Malloc),
            "realloc" | "reallocarray" => Some(HeapFunction::Realloc),
            "free" | "cfree" => Some(HeapFunction::Free),
            "_ZnwmPv" | "_ZnamPv" | "_ZdlPvS_" | "_ZdaPvS_" => None,
            _ => HeapFunction::of_operator(name),
        }
    }

    /// The operator of C++ with a symbol's name, in any of its forms.
    fn of_operator(name: &str) -> Option<HeapFunction> {
        if name.starts_with("_Znwm") {
            Some(HeapFunction::New)
        } else if name.starts_with("_Znam") {
            Some(HeapFunction::NewArray)
        } else if name.starts_with("_ZdlPv") {
            Some(HeapFunction::Delete)
        } else if name.starts_with("_ZdaPv") {
            Some(HeapFunction::DeleteArray)
        } else {
            None
        }
    }

    /// Whether the operator of C++ with a symbol's name is told the size of the chunk that it
    /// frees.
    pub(crate) fn takes_freed_size(name: &str) -> bool {
        matches!(
            name,
            "_ZdlPvm" | "_ZdaPvm" | "_ZdlPvmSt11align_val_t" | "_ZdaPvmSt11align_val_t"
        )
    }

    /// The functions that a chunk belongs to which it makes.
    fn family_of_made(self) -> Option<FunctionFamily> {
        match self {
            HeapFunction::Malloc | HeapFunction::Realloc => Some(FunctionFamily::C),
            HeapFunction::New => Some(FunctionFamily::Object),
            HeapFunction::NewArray => Some(FunctionFamily::Array),
            HeapFunction::Free | HeapFunction::Delete | HeapFunction::DeleteArray => None,
        }
    }

    /// The functions that a chunk must belong to which it frees.
    fn family_of_freed(self) -> Option<FunctionFamily> {
        match self {
            HeapFunction::Free | HeapFunction::Realloc => Some(FunctionFamily::C),
            HeapFunction::Delete => Some(FunctionFamily::Object),
            HeapFunction::DeleteArray => Some(FunctionFamily::Array),
            HeapFunction::Malloc | HeapFunction::New | HeapFunction::NewArray => None,
        }
    }

    /// Whether a chunk that it made is not one for another function to free. `false` where it makes
    /// none, or the other frees none.
    pub fn is_mismatched(self, freed_by: HeapFunction) -> bool {
        match (self.family_of_made(), freed_by.family_of_freed()) {
            (Some(made), Some(freed)) => made != freed,
            _ => false,
        }
    }

    /// Whether its first argument is the size of the chunk that it makes.
    pub(crate) fn takes_size(self) -> bool {
        matches!(self, HeapFunction::New | HeapFunction::NewArray)
    }

    /// Its name.
    pub fn name(self) -> &'static str {
        match self {
            HeapFunction::Malloc => "malloc",
            HeapFunction::Realloc => "realloc",
            HeapFunction::Free => "free",
            HeapFunction::New => "operator new",
            HeapFunction::NewArray => "operator new[]",
            HeapFunction::Delete => "operator delete",
            HeapFunction::DeleteArray => "operator delete[]",
        }
    }
}
