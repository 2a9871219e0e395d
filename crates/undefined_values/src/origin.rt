//! The origin of undefined bits.

/// The origin of undefined bits. It has four bytes, since each word of memory has one.
#[derive(Clone, Copy, PartialEq, Eq)]
pub struct UndefinedOrigin {
    /// Twice the number of a heap call, or the address of an instruction and 1 or 3.
    number: u32,
}

/// The origin of undefined bits.
#[derive(Clone, Copy, PartialEq, Eq)]
pub enum UndefinedPlace {
    /// It is not known.
    Unknown,
    /// The chunk that the heap call with a number made.
    Chunk(u64),
    /// A place on the stack, which the instruction at an address moved SP below, or above.
    Frame(u64),
    /// A chunk of the program's own, which it made by the instruction at an address.
    OwnChunk(u64),
}

impl UndefinedOrigin {
    /// It is not known of what.
    pub const UNKNOWN: UndefinedOrigin = UndefinedOrigin { number: 0 };

    /// The chunk that the heap call with a number made, from 1, of those below 2^31.
    pub fn of_chunk(call: u64) -> UndefinedOrigin {
        match u32::try_from(call) {
            Ok(call) if call < 0x8000_0000 => UndefinedOrigin {
                number: call.wrapping_mul(2),
            },
            _ => UndefinedOrigin::UNKNOWN,
        }
    }

    /// A place on the stack, by the address of an instruction that moved SP.
    pub fn of_frame(pc: u64) -> UndefinedOrigin {
        match u32::try_from(pc) {
            Ok(pc) if pc % 4 == 0 => UndefinedOrigin {
                number: pc.wrapping_add(1),
            },
            _ => UndefinedOrigin::UNKNOWN,
        }
    }

    /// A chunk of the program's own, by the address of the instruction that said so.
    pub fn of_own_chunk(pc: u64) -> UndefinedOrigin {
        match u32::try_from(pc) {
            Ok(pc) if pc % 4 == 0 => UndefinedOrigin {
                number: pc.wrapping_add(3),
            },
            _ => UndefinedOrigin::UNKNOWN,
        }
    }

    /// Its kind.
    pub fn place(self) -> UndefinedPlace {
        if self.number == 0 {
            UndefinedPlace::Unknown
        } else if self.number % 2 == 0 {
            UndefinedPlace::Chunk(u64::from(self.number / 2))
        } else if self.number % 4 == 3 {
            UndefinedPlace::OwnChunk(u64::from(self.number - 3))
        } else {
            UndefinedPlace::Frame(u64::from(self.number - 1))
        }
    }
}

/// Which bits of a value are undefined, and of what they are a part: of one such place, where there
/// are several.
#[derive(Clone, Copy, PartialEq, Eq)]
pub struct UndefinedValue {
    /// A 1 for each undefined bit.
    pub bits: u64,
    /// The origin of the bits.
    pub origin: UndefinedOrigin,
}

impl UndefinedValue {
    /// No bit is undefined.
    pub const DEFINED: UndefinedValue = UndefinedValue {
        bits: 0,
        origin: UndefinedOrigin::UNKNOWN,
    };

    /// Some bits of a place.
    pub fn of(bits: u64, origin: UndefinedOrigin) -> UndefinedValue {
        if bits == 0 {
            UndefinedValue::DEFINED
        } else {
            UndefinedValue { bits, origin }
        }
    }

    /// Whether no bit is undefined.
    pub fn is_defined(self) -> bool {
        self.bits == 0
    }

    /// The place of its bits, or that of another value's where it has none.
    pub fn origin_or(self, other: UndefinedValue) -> UndefinedOrigin {
        if self.bits == 0 {
            other.origin
        } else {
            self.origin
        }
    }
}
