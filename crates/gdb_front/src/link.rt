//! The link to GDB: bytes in, bytes out.

use crate::front::Front;
use crate::reply::Reply;
use crate::text::TextBuffer;
use gdb_packets::{
    Command, FRAME_LIMIT, PacketInput, parse_command, read_input, unescape, write_packet,
};
use std::alloc::Global;
use std::io;
use std::io::{Read, Write};

/// How many bytes are read at once.
const READ_LIMIT: usize = 4096;

/// How many bytes of a text for the user are in one packet.
const CONSOLE_PART: usize = 2048;

/// The link's state.
#[derive(Drop)]
struct Connection {
    /// The last packet that was sent, with its frame.
    sent: Vec<u8>,
    /// Whether packets are acknowledged.
    acknowledges: bool,
    /// Whether the dialog is over.
    is_over: bool,
}

/// Reads what GDB sends, and answers it, up to the end of the input or of the dialog.
pub fn serve<R: Read, W: Write>(
    alloc: Global,
    front: &mut Front<'_>,
    input: &mut R,
    out: &mut W,
) -> io::Result<()> {
    let mut link = Connection {
        sent: Vec::new(alloc),
        acknowledges: true,
        is_over: false,
    };
    let mut pending: Vec<u8> = Vec::new(alloc);
    for _ in 0..u64::MAX {
        let mut buffer = [0; READ_LIMIT];
        let count = input.read(&mut buffer)?;
        if count == 0 {
            return Ok(());
        }
        pending.extend_from_slice(buffer.get(..count).unwrap_or(&[]))?;
        let taken = link.take_all(alloc, front, pending.as_slice(), out)?;
        if link.is_over {
            return Ok(());
        }
        pending = Vec::from_slice(alloc, pending.as_slice().get(taken..).unwrap_or(&[]))?;
    }
    Ok(())
}

impl Connection {
    /// Answers all that has come as a whole, and returns how many bytes that was.
    fn take_all<W: Write>(
        &mut self,
        alloc: Global,
        front: &mut Front<'_>,
        bytes: &[u8],
        out: &mut W,
    ) -> io::Result<usize> {
        let mut taken: usize = 0;
        for _ in 0..bytes.len() {
            let input = read_input(bytes.get(taken..).unwrap_or(&[]));
            let count = input.byte_count();
            if count == 0 || self.is_over {
                break;
            }
            self.take(alloc, front, &input, out)?;
            taken = taken.saturating_add(count);
        }
        Ok(taken)
    }

    /// Answers what came.
    fn take<W: Write>(
        &mut self,
        alloc: Global,
        front: &mut Front<'_>,
        input: &PacketInput<'_>,
        out: &mut W,
    ) -> io::Result<()> {
        match *input {
            PacketInput::Packet { bytes, .. } => self.take_packet(alloc, front, bytes, out),
            PacketInput::Bad { .. } => out.write_all(b"-"),
            // GDB sends it while it waits for an answer too: where packets are not acknowledged, a
            // second copy would be taken for the next answer.
            PacketInput::Nack if self.acknowledges => out.write_all(self.sent.as_slice()),
            _ => return Ok(()),
        }?;
        out.flush()
    }

    /// Answers a packet, whose data have their escapes.
    fn take_packet<W: Write>(
        &mut self,
        alloc: Global,
        front: &mut Front<'_>,
        bytes: &[u8],
        out: &mut W,
    ) -> io::Result<()> {
        if self.acknowledges {
            out.write_all(b"+")?;
        }
        let mut data = Vec::from_slice(alloc, bytes)?;
        let mut reply = Reply::new(alloc);
        match unescape(bytes, data.as_mut_slice()) {
            Some(len) => {
                data.truncate(len);
                front.answer(alloc, data.as_slice(), &mut reply);
            }
            None => reply.put_refusal(),
        }
        if reply.is_short() {
            return Err(io::Error::from(io::ErrorKind::OutOfMemory));
        }
        self.send_reply(alloc, &reply, out)?;
        self.is_over = reply.ends;
        if matches!(parse_command(data.as_slice()), Command::StartNoAckMode) {
            self.acknowledges = false;
        }
        Ok(())
    }

    /// Sends a reply: the text for the user, in parts, and the answer.
    fn send_reply<W: Write>(
        &mut self,
        alloc: Global,
        reply: &Reply,
        out: &mut W,
    ) -> io::Result<()> {
        for part in reply.console.as_slice().chunks(CONSOLE_PART) {
            let mut text = TextBuffer::new(alloc);
            text.put(b"O");
            text.put_hex(part);
            self.send(text.as_slice(), out)?;
        }
        self.send(reply.answer.as_slice(), out)
    }

    /// Sends a packet. One that does not fit its frame is sent as an error.
    fn send<W: Write>(&mut self, payload: &[u8], out: &mut W) -> io::Result<()> {
        self.sent.clear();
        self.sent.resize(FRAME_LIMIT, 0)?;
        let len = match write_packet(payload, self.sent.as_mut_slice()) {
            Some(len) => len,
            None => write_packet(b"E01", self.sent.as_mut_slice()).unwrap_or(0),
        };
        self.sent.truncate(len);
        out.write_all(self.sent.as_slice())
    }
}
