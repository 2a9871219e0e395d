// Written by tools/causes.py from tools/causes.toml. Do not edit.
//! The kinds of what is checked.

/// The names of all kinds.
pub(crate) const NAMES: &str = "provenance, frees, arguments, leaks, undefined, places, arithmetic";

/// The help of `--check`.
pub const CHECK_HELP: &str =
    "Ends it at the first wrong use of a pointer, a chunk or an undefined value [possible \
     values: provenance, frees, arguments, leaks, undefined, places, arithmetic, all]";

/// The fault of a word that is no kind.
pub const CHECK_FAULT: &str =
    "--check takes these, with commas between them: provenance, frees, arguments, leaks, \
     undefined, places, arithmetic, all";

/// A kind of what is checked.
#[derive(Clone, Copy, PartialEq, Eq)]
pub enum CheckKind {
    /// Accesses, by where their pointer came from.
    Provenance,
    /// Frees: of a freed chunk, of a pointer into a chunk, by a function that is not for it.
    Frees,
    /// Arguments of functions of C: negative sizes, ranges that overlap.
    Arguments,
    /// The chunks that are lost at the exit.
    Leaks,
    /// What depends on bits that were never given a value.
    Undefined,
    /// Accesses by pointers to variables, and to frames of functions that have returned.
    Places,
    /// Divisions by 0 and shifts past the width.
    Arithmetic,
}

impl CheckKind {
    /// The kind with a name.
    pub fn of(name: &str) -> Option<CheckKind> {
        match name {
            "provenance" => Some(CheckKind::Provenance),
            "frees" => Some(CheckKind::Frees),
            "arguments" => Some(CheckKind::Arguments),
            "leaks" => Some(CheckKind::Leaks),
            "undefined" => Some(CheckKind::Undefined),
            "places" => Some(CheckKind::Places),
            "arithmetic" => Some(CheckKind::Arithmetic),
            _ => None,
        }
    }
}

/// Which kinds are checked.
#[derive(Clone, Copy, PartialEq, Eq)]
pub struct CheckKinds {
    /// Accesses, by where their pointer came from.
    pub provenance: bool,
    /// Frees: of a freed chunk, of a pointer into a chunk, by a function that is not for it.
    pub frees: bool,
    /// Arguments of functions of C: negative sizes, ranges that overlap.
    pub arguments: bool,
    /// The chunks that are lost at the exit.
    pub leaks: bool,
    /// What depends on bits that were never given a value.
    pub undefined: bool,
    /// Accesses by pointers to variables, and to frames of functions that have returned.
    pub places: bool,
    /// Divisions by 0 and shifts past the width.
    pub arithmetic: bool,
}

impl CheckKinds {
    /// None.
    pub const NONE: CheckKinds = CheckKinds {
        provenance: false,
        frees: false,
        arguments: false,
        leaks: false,
        undefined: false,
        places: false,
        arithmetic: false,
    };

    /// The same, and all that are not checked only where they are asked for.
    pub(crate) fn with_all(self) -> CheckKinds {
        CheckKinds {
            provenance: true,
            frees: true,
            arguments: true,
            leaks: true,
            undefined: true,
            ..self
        }
    }

    /// The same and another one.
    pub(crate) fn with(self, kind: CheckKind) -> CheckKinds {
        CheckKinds {
            provenance: self.provenance || kind == CheckKind::Provenance,
            frees: self.frees || kind == CheckKind::Frees,
            arguments: self.arguments || kind == CheckKind::Arguments,
            leaks: self.leaks || kind == CheckKind::Leaks,
            undefined: self.undefined || kind == CheckKind::Undefined,
            places: self.places || kind == CheckKind::Places,
            arithmetic: self.arithmetic || kind == CheckKind::Arithmetic,
        }
    }
}
