//! The input of a tenant.

ghost use Rattle.std.specs.Prelude.{◌≡◌, ◌≤◌, length, take, drop, IfOk, OnOk, OnErr, is_ok};
ghost use Rattle.std.specs.Prelude.{if◌then◌else◌, true};
ghost use Rattle.mte_tags.specs.Accesses.{write_fault, after_write, result_of};

use mte_tags::{MemFault, Tagged};
use std::alloc::{AllocError, Global};
use std::marker::Model;

/// The bytes that a tenant has not yet read, in their order.
#[derive(Drop)]
pub struct Input {
    bytes: Vec<u8>,
    read: usize,
}

impl Model for Input {
    ghost use Rattle.std.specs.Prelude.{ℕ, List};
    ghost use Rattle.mte_svc.specs.Inputs.{bytes_left, IsWithin};

    ghost Value = { List ℕ };

    ghost view = { bytes_left };

    ghost invariant = { IsWithin };
}

impl Input {
    /// An input of a copy of `bytes`.
    pub fn new(alloc: Global, bytes: &[u8]) -> Result<Input, AllocError>
        ensures { IfOk result (λ input. input ≡ bytes.now) }
    {
        let mut copy = vec![in alloc; 0; bytes.len()]?;
        copy.as_mut_slice().copy_from_slice(bytes);
        Ok(Input {
            bytes: copy,
            read: 0,
        })
    }

    /// A copy of the bytes that are left.
    pub fn copy(&self, alloc: Global) -> Result<Input, AllocError>
        ensures { IfOk result (λ input. input ≡ self.now) }
    {
        Input::new(alloc, &self.bytes[self.read..])
    }

    /// How many bytes are left.
    pub fn left(&self) -> u64
        ensures { result ≡ length self.now }
    {
        (self.bytes.len() - self.read) as u64
    }

    /// Writes the next `count` bytes to an address by one checked write, or none where it fails;
    /// then they are read.
    pub(crate) fn copy_to<M: Tagged>(
        &mut self,
        memory: &mut M,
        addr: u64,
        count: u64,
    ) -> Result<(), MemFault>
        requires { count ≤ length self.old }
        ensures answer { result ≡ result_of (write_fault (M.memory memory.old) addr count true) }
        ensures ok { OnOk result (self.new ≡ drop count self.old) }
        ensures err { OnErr result (self.new ≡ self.old) }
        ensures memory { M.memory memory.new
            ≡ (if is_ok result
            then after_write (M.memory memory.old) addr (take count self.old) true
            else M.memory memory.old) }
        ensures kept { M.kept memory.old memory.new }
    {
        let end = self.read + count as usize;
        memory.write(addr, &self.bytes[self.read..end], true)?;
        self.read = end;
        Ok(())
    }
}
