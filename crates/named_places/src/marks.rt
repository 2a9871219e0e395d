//! How the pointers in registers were made.

use crate::notes::{FRAME_POINTER, STACK_POINTER};

/// How many registers have marks: those with numbers, and 31.
const REGISTERS: usize = 32;

/// The registers that a function may leave as it likes, where compilers know it: those of its
/// results, and those that calls use. What is in another that it did not leave as it was is not
/// used.
const CHANGED: [u8; 5] = [0, 1, 29, 30, 31];

/// It was moved by more than constants.
pub(crate) const MOVED: u8 = 1;

/// The function that runs has made it, of registers alone.
pub(crate) const FRESH: u8 = 2;

/// It was loaded from the frame of the function that runs, which may have put it there once made.
pub(crate) const RELOADED: u8 = 4;

/// It is as it was when the function was called that runs.
pub(crate) const PASSED: u8 = 8;

/// It was loaded from a variable, or from what is not of the frame of the function that runs, and
/// its variable is one of a block. What is done by it is written in the source: compilers keep a
/// pointer that they made themselves in places without a name.
pub(crate) const VARIABLE: u8 = 16;

/// It may have been made by the function that runs.
pub(crate) const OWN: u8 = FRESH | RELOADED;

/// Of each register, how the pointer in it was made, which is of a place that has a name. None is
/// both fresh and reloaded.
#[derive(Clone, Copy)]
pub(crate) struct RegisterMarks {
    marks: [u8; REGISTERS],
}

impl RegisterMarks {
    /// No marks.
    pub(crate) const NONE: RegisterMarks = RegisterMarks {
        marks: [0; REGISTERS],
    };

    /// The marks of a register.
    #[inline(always)]
    fn of(&self, n: u8) -> u8 {
        self.marks.get(usize::from(n)).copied().unwrap_or(0)
    }

    /// Gives a register other marks.
    #[inline(always)]
    fn set(&mut self, n: u8, marks: u8) {
        if let Some(place) = self.marks.get_mut(usize::from(n)) {
            *place = marks;
        }
    }

    /// Whether a register has one of some marks.
    #[inline(always)]
    pub(crate) fn has(&self, n: u8, marks: u8) -> bool {
        self.of(n) & marks != 0
    }

    /// Enters that a register was loaded from a variable.
    pub(crate) fn load_variable(&mut self, n: u8) {
        let marks = self.of(n);
        self.set(n, marks | VARIABLE);
    }

    /// Enters that a register was made of SP or the counter by constants.
    pub(crate) fn make(&mut self, n: u8) {
        self.set(n, FRESH);
    }

    /// Enters that a register was loaded by a base: from the running function's frame or not.
    #[inline(always)]
    pub(crate) fn load(&mut self, n: u8, base: u8) {
        let is_of_frame = base == STACK_POINTER || base == FRAME_POINTER;
        self.set(n, if is_of_frame { RELOADED } else { 0 });
    }

    /// Enters that a register was moved by more than constants.
    #[inline(always)]
    pub(crate) fn moves(&mut self, n: u8) {
        let marks = self.of(n);
        self.set(n, (marks | MOVED) & !PASSED);
    }

    /// Enters that a register is made of another.
    #[inline(always)]
    pub(crate) fn copy(&mut self, n: u8, from: u8) {
        let marks = self.of(from);
        self.set(n, marks);
    }

    /// Enters that a register was made of two others, of which one is a pointer that is moved so.
    #[inline(always)]
    pub(crate) fn combine(&mut self, n: u8, one: u8, other: u8) {
        let both = self.of(one) | self.of(other);
        let made = if both & FRESH != 0 {
            FRESH
        } else {
            both & RELOADED
        };
        self.set(n, made | MOVED | both & VARIABLE);
    }

    /// Enters a call: what is in registers is passed.
    pub(crate) fn call(&mut self) {
        for marks in self.marks.iter_mut() {
            *marks = *marks & MOVED | PASSED;
        }
    }

    /// Enters a return, by the marks at the call. What it returns is as what a variable has.
    pub(crate) fn return_back(&mut self, caller: &RegisterMarks) {
        let mut marks = *caller;
        for n in CHANGED {
            marks.set(n, self.of(n) & MOVED);
        }
        marks.load_variable(0);
        *self = marks;
    }
}
