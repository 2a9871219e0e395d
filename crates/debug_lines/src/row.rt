//! The rows of a line table (DWARF 5, 6.2.2), as far as an address's line needs them.

ghost use Rattle.std.specs.Prelude.{◌<◌, ◌≤◌, ◌↔◌, IsTrue};

/// A row of a line table.
#[derive(Clone, Copy)]
pub struct LineRow {
    /// The address of an instruction.
    pub address: u64,
    /// The number of its source file in the unit's table of files.
    pub file: u64,
    /// Its source line, from 1 on, or 0 where it comes from none.
    pub line: u32,
    /// Whether the address is the first after its sequence of instructions.
    pub ends_sequence: bool,
    /// Whether the linker gave its sequence a place: code that it left out has address 0 or the
    /// highest.
    pub is_placed: bool,
}

impl LineRow {
    /// Whether an address is among those from this row's up to the next row's.
    pub fn covers(&self, next: &LineRow, address: u64) -> bool
        ensures { IsTrue result ↔ (IsTrue self.now.is_placed
            × (self.now.address ≤ address) × (address < next.now.address)) }
    {
        self.is_placed && self.address <= address && address < next.address
    }
}
