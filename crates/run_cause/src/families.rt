//! Facts about words that are no instruction of the table, and about breakpoints.

/// Whether a word is UDF, as zeros and other data often are.
pub fn is_undefined(word: u32) -> bool {
    word < 0x1_0000
}

/// The family of a word that is no instruction of the table, where it is one that compilers and
/// libraries write (Arm ARM DDI 0487, C4.1).
pub fn family_of(word: u32) -> Option<&'static str> {
    if is_prefetch(word) {
        Some("a prefetch")
    } else if let Some(family) = system_family(word) {
        Some(family)
    } else if let Some(family) = access_family(word) {
        Some(family)
    } else if is_vector(word) {
        Some("floating point or SIMD")
    } else if word >> 25 & 15 == 2 || word >> 25 & 0x4F == 0x40 {
        Some("SVE or SME")
    } else {
        register_family(word)
    }
}

/// The family of a word among branches, exceptions and system instructions.
fn system_family(word: u32) -> Option<&'static str> {
    if word >> 12 == 0xD_5033 {
        Some("a barrier")
    } else if word >> 19 == 0x1AA1 {
        Some("a system instruction, as of caches")
    } else if word >> 22 == 0x354 {
        Some("an access to a system register")
    } else if word & 0xFFE0_001F == 0xD400_0001 {
        Some("an SVC of another number than 0")
    } else if word >> 24 == 0xD4 {
        Some("a call of a hypervisor, a monitor or a debugger")
    } else if word & 0xFE1F_F800 == 0xD61F_0800 {
        Some(AUTHENTICATION)
    } else if word >> 24 == 0xD6 && word & 0x009F_0000 == 0x009F_0000 {
        Some("a return from an exception")
    } else {
        None
    }
}

/// The family of a word among loads and stores.
fn access_family(word: u32) -> Option<&'static str> {
    if word & 0xFF20_0400 == 0xF820_0400 {
        Some(AUTHENTICATION)
    } else if word >> 24 & 0x3F == 0x08
        || word & 0x3F20_0C00 == 0x3820_0000
        || word & 0x3F20_0C00 == 0x1900_0000
    {
        Some("an exclusive or atomic access")
    } else if word & 0x3B20_0C00 == 0x1900_0400 {
        Some("a copy or set of memory (FEAT_MOPS)")
    } else if word & 0xFF3F_FC00 == 0xD920_0000 {
        Some("an access to the tags of many granules, which no program at EL0 has")
    } else {
        None
    }
}

/// The family of a word of data processing.
fn register_family(word: u32) -> Option<&'static str> {
    if word >> 16 == 0xDAC1 || word & 0xFFE0_FC00 == 0x9AC0_3000 {
        Some(AUTHENTICATION)
    } else if word & 0x7FE0_E000 == 0x1AC0_4000 {
        Some("a checksum (CRC32)")
    } else {
        None
    }
}

/// The name of PACIA, AUTIA, RETAA, LDRAA and similar words.
const AUTHENTICATION: &str = "pointer authentication that is no hint";

/// Whether a word is a PRFM.
fn is_prefetch(word: u32) -> bool {
    let form = word >> 22;
    form == 0x3E6 || form == 0x3E2 || word >> 24 == 0xD8
}

/// Whether a word is of floating point or SIMD: its data processing, or its loads and stores.
fn is_vector(word: u32) -> bool {
    let group = word >> 25 & 15;
    group == 7 || group == 15 || group == 6 || group == 14
}

/// The source of a breakpoint with a number: a check of undefined behavior as clang numbers them
/// (`-fsanitize-trap`), or `__builtin_trap`.
pub fn breakpoint_words(number: u16) -> Option<&'static str> {
    match number {
        0 | 0xF000 => Some("a breakpoint that a debugger or __builtin_debugtrap set"),
        6 => Some("abort, or an assert that failed, of examples/libc"),
        1 | 1000 => Some("__builtin_trap, as clang and gcc write it"),
        0x5500..=0x55FF => Some(sanitizer_words(number)),
        _ => None,
    }
}

/// The finding of UBSan's check with a number (clang, SanitizerHandler.h).
fn sanitizer_words(number: u16) -> &'static str {
    match number {
        0x5500 => "an addition overflows (UBSan)",
        0x5501 => "__builtin_unreachable is reached (UBSan)",
        0x5502 => "a call of a function of another type (CFI)",
        0x5503 => "a division by 0 or that overflows (UBSan)",
        0x5504 => "an object of another dynamic type (UBSan)",
        0x5505 => "a floating-point number does not fit (UBSan)",
        0x5506 => "a call of a function of another type (UBSan)",
        0x5507 => "a conversion changes the value (UBSan)",
        0x5508 => "a builtin with 0 (UBSan)",
        0x550A => "a value that its type does not have (UBSan)",
        0x550B => "the end of a function that returns a value (UBSan)",
        0x550C => "a multiplication overflows (UBSan)",
        0x550D => "a negation overflows (UBSan)",
        0x550E | 0x5510 => "a null argument where none may be (UBSan)",
        0x550F | 0x5511 => "a null result where none may be (UBSan)",
        0x5512 => "an index out of bounds (UBSan)",
        0x5513 => "a pointer overflows (UBSan)",
        0x5514 => "a shift out of bounds (UBSan)",
        0x5515 => "a subtraction overflows (UBSan)",
        0x5516 => "a pointer that is null, misaligned or of too few bytes (UBSan)",
        0x5517 => "a pointer is not aligned as it was said to be (UBSan)",
        0x5518 => "an array of no or a negative size (UBSan)",
        _ => "a check of UBSan",
    }
}
