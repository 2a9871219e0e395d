//! The export that says how the library was built.

ghost use Rattle.std.specs.Prelude.{◌≡◌, length, drop};

use common::build_info::copy_text;

/// Copies as much as a buffer holds of lines with the version, the commit, whether files differ
/// from it, the toolchain's sum, and whether all is proved; answers how many bytes they have.
#[unsafe(no_mangle)]
pub extern "C" fn tb_build_info(text: &mut [u8]) -> u32
    ensures length { result ≡ 143 }
    ensures room { length text.new ≡ length text.old }
    ensures behind { drop result text.new ≡ drop result text.old }
{
    copy_text(text)
}
