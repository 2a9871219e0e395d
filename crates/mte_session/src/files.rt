//! The files of a session, by their numbers.

ghost use Rattle.std.specs.Prelude.{◌≡◌};
ghost use Rattle.mte_tenant.specs.Admissions.{start_in};
ghost use Rattle.mte_session.specs.Files.{contents};
ghost use Rattle.mte_session.specs.Sessions.{file_at, start_at};

use mte_tenant::{Admission, Terms};

/// The bytes of a file by its number from 1; none for 0.
pub fn file_of(files: &[Vec<u8>], number: u32) -> &[u8]
    ensures { result.now ≡ file_at (contents files.now) number }
{
    if number == 0 || number as usize > files.len() {
        return &[];
    }
    files[number as usize - 1].as_slice()
}

/// The admission of an event, by the numbers of its image and its input.
pub fn admission_of<'x>(
    files: &'x [Vec<u8>],
    id: u16,
    image: u32,
    input: u32,
    terms: Terms,
) -> Admission<'x>
    ensures id { result.id ≡ id }
    ensures start { start_in result ≡ start_at (contents files.now) image input terms }
{
    Admission {
        id,
        image: file_of(files, image),
        input: file_of(files, input),
        terms,
    }
}
