//! Parts of GDB's commands that no answer depends on, as GDB 13.1 sent them: the tenant is only
//! read.

use gdb_packets::{Command, FileCall, parse_command};

/// The parts of a command: its kind, its numbers and its two texts.
type Fields<'a> = (u8, [u64; 3], &'a [u8], &'a [u8]);

fn fields_of(command: Command<'_>) -> Fields<'_> {
    match command {
        Command::WriteRegister { number, digits } => (1, [number, 0, 0], digits, b""),
        Command::WriteRegisters { digits } => (2, [0, 0, 0], digits, b""),
        Command::WriteMemory {
            address,
            len,
            digits,
        } => (3, [address, len, 0], digits, b""),
        Command::WriteBytes {
            address,
            len,
            bytes,
        } => (4, [address, len, 0], bytes, b""),
        Command::WriteTags {
            address,
            len,
            kind,
            digits,
        } => (5, [address, len, kind], digits, b""),
        Command::ReadObject {
            object,
            annex,
            offset,
            len,
        } => (6, [offset, len, 0], object, annex),
        Command::File(FileCall::Open { path, flags, mode }) => (7, [flags, mode, 0], path, b""),
        Command::File(FileCall::ReadLink { path }) => (8, [0, 0, 0], path, b""),
        _ => (0, [0, 0, 0], b"", b""),
    }
}

#[rattlefmt::skip]
static COMMANDS: [(&[u8], Fields<'static>); 8] = [
    (b"P0=0500000000000000", (1, [0, 0, 0], b"0500000000000000", b"")),
    (b"G0500000000000000", (2, [0, 0, 0], b"0500000000000000", b"")),
    (b"M400200,2:01ff", (3, [0x400200, 2, 0], b"01ff", b"")),
    (b"X400200,4:$}*#", (4, [0x400200, 4, 0], b"$}*#", b"")),
    (b"QMemTags:400200,1:1:03", (5, [0x400200, 1, 1], b"03", b"")),
    (b"qXfer:features:read:target.xml:0,1000", (6, [0, 4096, 0], b"features", b"target.xml")),
    (b"vFile:open:2f70726f63,0,1c0", (7, [0, 0o700, 0], b"2f70726f63", b"")),
    (b"vFile:readlink:2f70726f63", (8, [0, 0, 0], b"2f70726f63", b"")),
];

#[test]
fn reads_what_is_written_and_named(rt: HostRuntime) {
    for (packet, expected) in COMMANDS {
        let found = fields_of(parse_command(packet));
        assert!(rt; found.0 == expected.0 && found.1 == expected.1);
        assert!(rt; found.2 == expected.2 && found.3 == expected.3);
    }
}
