//! Where a value points.

ghost use Rattle.std.specs.Prelude.{◌<◌};

/// Where a value points. It has four bytes, since each word of memory has one.
#[derive(Clone, Copy, PartialEq, Eq, PartialOrd, Ord)]
pub struct PointerOrigin {
    number: u32,
}

/// The kind of an origin.
#[derive(Clone, Copy, PartialEq, Eq)]
pub enum OriginKind {
    /// None is known: the value is no pointer, or which one it is was lost.
    Unknown,
    /// The stack.
    Stack,
    /// The chunk at an index of the table of chunks.
    Chunk(usize),
    /// The place at an index of a table of places that have names, as variables.
    Place(usize),
    /// The sum at an index of the table of sums.
    Sum(usize),
}

/// The number of the first chunk.
const FIRST_CHUNK: u32 = 2;

/// The number of the first place.
const FIRST_PLACE: u32 = 0x4000_0000;

/// The number of the first sum.
const FIRST_SUM: u32 = 0x8000_0000;

impl PointerOrigin {
    /// None is known.
    pub const UNKNOWN: PointerOrigin = PointerOrigin { number: 0 };

    /// The stack.
    pub const STACK: PointerOrigin = PointerOrigin { number: 1 };

    /// A sum of pointers that is not kept, so that no one pointer is left whatever is added.
    pub const MIXED: PointerOrigin = PointerOrigin { number: u32::MAX };

    /// The chunk at an index, of those that have a number.
    pub fn of_chunk(index: usize) -> PointerOrigin {
        match u32::try_from(index) {
            Ok(index) if index < FIRST_PLACE - FIRST_CHUNK => PointerOrigin {
                number: index + FIRST_CHUNK,
            },
            _ => PointerOrigin::UNKNOWN,
        }
    }

    /// The place at an index, of those that have a number.
    pub fn of_place(index: usize) -> PointerOrigin {
        match u32::try_from(index) {
            Ok(index) if index < FIRST_SUM - FIRST_PLACE => PointerOrigin {
                number: index + FIRST_PLACE,
            },
            _ => PointerOrigin::UNKNOWN,
        }
    }

    /// The sum at an index, of those that have a number.
    pub fn of_sum(index: usize) -> PointerOrigin {
        match u32::try_from(index) {
            Ok(index) if index < FIRST_SUM => PointerOrigin {
                number: index + FIRST_SUM,
            },
            _ => PointerOrigin::MIXED,
        }
    }

    /// Its kind.
    #[inline(always)]
    pub fn kind(self) -> OriginKind {
        match self.number {
            0 => OriginKind::Unknown,
            1 => OriginKind::Stack,
            number if number < FIRST_PLACE => { OriginKind::Chunk((number - FIRST_CHUNK) as usize) }
            number if number < FIRST_SUM => OriginKind::Place((number - FIRST_PLACE) as usize),
            number => OriginKind::Sum((number - FIRST_SUM) as usize),
        }
    }

    /// Whether it is known.
    #[inline(always)]
    pub fn is_known(self) -> bool {
        self.number != 0
    }

    /// Its place in a table of `count` places.
    #[inline(always)]
    pub fn place_among(self, count: usize) -> usize
        requires { 0 < count }
        ensures { result < count }
    {
        self.number as usize % count
    }

    /// The index of the chunk that it is, if it is one.
    pub fn chunk(self) -> Option<usize> {
        match self.kind() {
            OriginKind::Chunk(index) => Some(index),
            _ => None,
        }
    }

    /// The index of the place that it is, if it is one.
    #[inline(always)]
    pub fn place(self) -> Option<usize> {
        match self.kind() {
            OriginKind::Place(index) => Some(index),
            _ => None,
        }
    }

    /// The same, or that of another where it is not known.
    pub fn or(self, other: PointerOrigin) -> PointerOrigin {
        if self.is_known() { self } else { other }
    }
}

/// How many bytes a pointer has.
const POINTER_SIZE: u8 = 8;

/// Of which pointer's bytes a value is made: `count` bytes of it from `first` on, the lowest byte
/// of the value being the first of them.
#[derive(Clone, Copy, PartialEq, Eq)]
pub struct Provenance {
    /// Where the pointer points.
    pub origin: PointerOrigin,
    /// The first of its bytes, 0 to 7.
    pub first: u8,
    /// How many bytes, at most 8.
    pub count: u8,
}

impl Provenance {
    /// Of none that is known.
    pub const NONE: Provenance = Provenance {
        origin: PointerOrigin::UNKNOWN,
        first: 0,
        count: 0,
    };

    /// All bytes of a pointer.
    pub fn whole(origin: PointerOrigin) -> Provenance {
        if origin.is_known() {
            Provenance {
                origin,
                first: 0,
                count: POINTER_SIZE,
            }
        } else {
            Provenance::NONE
        }
    }

    /// Where it points, if it is a whole pointer.
    #[inline(always)]
    pub fn pointer(self) -> PointerOrigin {
        if self.count == POINTER_SIZE {
            self.origin
        } else {
            PointerOrigin::UNKNOWN
        }
    }

    /// The value's bytes from one on, at most `count`.
    pub fn part(self, first: u8, count: u8) -> Provenance {
        if first >= self.count || count == 0 {
            return Provenance::NONE;
        }
        Provenance {
            origin: self.origin,
            first: self.first.saturating_add(first),
            count: count.min(self.count - first),
        }
    }
}
