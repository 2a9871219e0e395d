//! The output of a tenant.

ghost use Rattle.std.specs.Prelude.{◌≡◌, ◌≤◌, ◌+◌, ◌-◌, ◌++◌, [], IfOk, OnOk, OnErr, true};
ghost use Rattle.std.specs.Prelude.{is_ok, if◌then◌else◌, vec_len, vec_capacity, replicate};
ghost use Rattle.mte_tags.specs.Accesses.{read_fault, read_bytes, after_read, result_of};

use common::copy_list;
use mte_tags::{MemFault, Tagged};
use std::alloc::{AllocError, Global};
use std::marker::Model;

/// The bytes that a tenant has written, and the room that is left for more.
#[derive(Drop)]
pub struct Output {
    /// The written bytes, in memory for just `room` bytes. No other byte is made, so a tenant that
    /// stops has nothing more to give back.
    bytes: Vec<u8>,
    room: usize,
}

impl Model for Output {
    ghost use Rattle.mte_svc.specs.Outputs.{Written, coded_written, written_of, IsWithin};

    ghost Value = { Written };

    ghost coded = { coded_written };

    ghost view = { written_of };

    ghost invariant = { IsWithin };
}

impl Output {
    /// An empty output with capacity for `room` bytes.
    pub fn new(alloc: Global, room: u32) -> Result<Output, AllocError>
        ensures { IfOk result (λ output. output ≡ record { bytes = []; left = room }) }
    {
        let room = room as usize;
        let bytes = Vec::with_capacity(alloc, room)?;
        Ok(Output { bytes, room })
    }

    /// A copy of the output, with as much room.
    pub fn copy(&self, alloc: Global) -> Result<Output, AllocError>
        ensures { IfOk result (λ output. output ≡ self.now) }
    {
        Ok(Output {
            bytes: copy_list(alloc, &self.bytes)?,
            room: self.room,
        })
    }

    /// How many more bytes may be written.
    pub fn left(&self) -> u64
        ensures { result ≡ self.now.left }
    {
        (self.room - self.bytes.len()) as u64
    }

    /// The bytes that were written.
    pub fn as_slice(&self) -> &[u8]
        ensures { result.now ≡ self.now.bytes }
    {
        self.bytes.as_slice()
    }

    /// Appends the bytes at an address by one checked read, or none where it fails.
    pub(crate) fn append_from<M: Tagged>(
        &mut self,
        memory: &mut M,
        addr: u64,
        count: u64,
    ) -> Result<(), MemFault>
        requires { count ≤ self.old.left }
        ensures answer { result ≡ result_of (read_fault (M.memory memory.old) addr count true) }
        ensures ok { OnOk result (self.new ≡ record {
          bytes = self.old.bytes ++ read_bytes (M.memory memory.old) addr count;
          left = self.old.left - count;
        }) }
        ensures err { OnErr result (self.new ≡ self.old) }
        ensures memory { M.memory memory.new
            ≡ (if is_ok result
            then after_read (M.memory memory.old) addr count true
            else M.memory memory.old) }
        ensures kept { M.kept memory.old memory.new }
    {
        let start = self.bytes.len();
        append_zeros(&mut self.bytes, count as usize);
        let read = memory.read(addr, &mut self.bytes[start..], true);
        if read.is_err() {
            self.bytes.truncate(start);
        }
        read
    }
}

/// Appends `count` zeros to a list that has memory for them.
fn append_zeros(bytes: &mut Vec<u8>, count: usize)
    requires { vec_len bytes.old + count ≤ vec_capacity bytes.old }
    ensures items { bytes.new.items ≡ bytes.old.items ++ replicate count 0 }
    ensures len { vec_len bytes.new ≡ vec_len bytes.old + count }
    ensures capacity { vec_capacity bytes.new ≡ vec_capacity bytes.old }
{
    let end = bytes.len() + count;
    while bytes.len() < end {
        bytes.push_reserved(0);
    }
}
