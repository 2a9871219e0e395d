//! The notes of a core file (Linux, `elfcore.h`; ELF64, "Note Section").

ghost use Rattle.std.specs.Prelude.{◌≡◌};
ghost use Rattle.debuggee.specs.Flags.{word_of_flags};

use crate::signal::{Signal, tag_control};
use a64_registers::Regs;
use mte_tags::TagMode;
use std::alloc::Global;
use std::io;
use std::io::Write;

/// NT_PRSTATUS.
const STATUS: u32 = 1;

/// NT_PRPSINFO.
const PROCESS: u32 = 3;

/// NT_AUXV.
const AUXILIARY: u32 = 6;

/// NT_ARM_TAGGED_ADDR_CTRL.
const TAG_CONTROL: u32 = 0x409;

/// NT_SIGINFO.
const SIGNAL_INFO: u32 = 0x5349_4749;

/// The process and the thread.
const PROCESS_ID: u32 = 1;

/// The types of the auxiliary vector: AT_HWCAP2 with HWCAP2_MTE, AT_ENTRY.
const HWCAP2: u64 = 26;

const HWCAP2_MTE: u64 = 1 << 18;

const ENTRY: u64 = 9;

/// Whose a note is: a name with a zero, and how long both are.
#[derive(Clone, Copy)]
struct NoteOwner {
    name: [u8; 8],
    len: u32,
}

const CORE: NoteOwner = NoteOwner {
    name: *b"CORE\0\0\0\0",
    len: 5,
};

const LINUX: NoteOwner = NoteOwner {
    name: *b"LINUX\0\0\0",
    len: 6,
};

/// The subject of the notes.
#[derive(Clone, Copy)]
pub struct Noted<'a> {
    /// The registers.
    pub regs: &'a Regs,
    /// The signal that ended it.
    pub signal: Signal,
    /// The mode of tag checks.
    pub mode: TagMode,
    /// The program's name.
    pub name: &'a str,
}

impl<'a> Noted<'a> {
    /// All notes.
    pub fn notes(&self, alloc: Global) -> io::Result<Vec<u8>> {
        let mut out = Vec::new(alloc);
        self.write_status(alloc, &mut out)?;
        self.write_process(alloc, &mut out)?;
        write_note(&mut out, &CORE, SIGNAL_INFO, &self.signal.info())?;
        self.write_auxiliary(alloc, &mut out)?;
        let control = tag_control(self.mode).to_le_bytes();
        write_note(&mut out, &LINUX, TAG_CONTROL, &control)?;
        Ok(out)
    }

    /// `struct elf_prstatus`: the signal, the process, and from byte 112 on the registers.
    fn write_status(&self, alloc: Global, out: &mut Vec<u8>) -> io::Result<()> {
        let mut text = Vec::new(alloc);
        write_words(&mut text, &[self.signal.number, 0, 0])?;
        let number = self.signal.number.to_le_bytes();
        text.write_all(&number[..2])?;
        text.resize(32, 0)?;
        write_words(&mut text, &[PROCESS_ID, 0, PROCESS_ID, PROCESS_ID])?;
        text.resize(112, 0)?;
        write_registers(&mut text, self.regs)?;
        text.resize(112 + 34 * 8 + 8, 0)?;
        write_note(out, &CORE, STATUS, text.as_slice())
    }

    /// `struct elf_prpsinfo`: the process, and from byte 40 on 16 bytes of its name and 80 of its
    /// arguments.
    fn write_process(&self, alloc: Global, out: &mut Vec<u8>) -> io::Result<()> {
        let mut text = Vec::new(alloc);
        text.resize(24, 0)?;
        write_words(&mut text, &[PROCESS_ID])?;
        text.resize(40, 0)?;
        let name = self.name.as_bytes();
        text.write_all(&name[..name.len().min(15)])?;
        text.resize(56, 0)?;
        text.write_all(b"tenant")?;
        text.resize(136, 0)?;
        write_note(out, &CORE, PROCESS, text.as_slice())
    }

    /// The auxiliary vector: that there is memory tagging, and where it is.
    fn write_auxiliary(&self, alloc: Global, out: &mut Vec<u8>) -> io::Result<()> {
        let mut text = Vec::new(alloc);
        let values = [HWCAP2, HWCAP2_MTE, ENTRY, self.regs.pc, 0, 0];
        write_double_words(&mut text, &values)?;
        write_note(out, &CORE, AUXILIARY, text.as_slice())
    }
}

/// A note: its name's length without the padding, its length, its type, name and contents. Each
/// part begins at a multiple of 4.
fn write_note(out: &mut Vec<u8>, owner: &NoteOwner, kind: u32, text: &[u8]) -> io::Result<()> {
    let len = u32::try_from(text.len()).unwrap_or(u32::MAX);
    write_words(out, &[owner.len, len, kind])?;
    out.write_all(&owner.name)?;
    out.write_all(text)
}

/// x0 to x30, SP, PC and PSTATE.
fn write_registers(out: &mut Vec<u8>, regs: &Regs) -> io::Result<()> {
    write_double_words(out, &regs.x)?;
    write_double_words(out, &[regs.sp, regs.pc, flags_word(regs)])
}

/// PSTATE.N, Z, C and V in bits 31 to 28.
pub fn flags_word(regs: &Regs) -> u64
    ensures { result ≡ word_of_flags regs.now.flags }
{
    let (n, z) = (u64::from(regs.flags.n), u64::from(regs.flags.z));
    let (c, v) = (u64::from(regs.flags.c), u64::from(regs.flags.v));
    n << 31 | z << 30 | c << 29 | v << 28
}

/// Numbers of four bytes.
pub fn write_words(out: &mut Vec<u8>, values: &[u32]) -> io::Result<()> {
    for value in values {
        out.write_all(&value.to_le_bytes())?;
    }
    Ok(())
}

/// Numbers of eight bytes.
pub fn write_double_words(out: &mut Vec<u8>, values: &[u64]) -> io::Result<()> {
    for value in values {
        out.write_all(&value.to_le_bytes())?;
    }
    Ok(())
}
