//! What calls answer, by the numbers of `tombolopan.h`.

/// It is done, and an answer is whole.
pub(crate) const OK: u32 = 0;
/// The answer has more bytes than the buffer.
pub(crate) const NO_ROOM: u32 = 7;
/// The words are no command line, or the form is none; the answer says what is wrong.
pub(crate) const BAD_ARGUMENT: u32 = 8;
/// An allocation failed.
pub(crate) const OUT_OF_MEMORY: u32 = 10;
/// The tenant is not admitted.
pub(crate) const REFUSED: u32 = 12;
