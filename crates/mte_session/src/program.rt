//! The inputs and outputs of the program.

ghost use Rattle.std.specs.Prelude.{◌≤◌, length};

/// The inputs and outputs of the program.
#[derive(Drop)]
pub struct Program {
    /// The frames that all tenants share, 1 to 65536.
    pub frames: u32,
    /// The script's file name, and then those of the files that it refers to by position.
    pub names: Vec<String>,
    ghost some: { 1 ≤ frames },
    ghost few: { frames ≤ 65536 },
    ghost script: { 1 ≤ length names.items },
}
