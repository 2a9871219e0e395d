//! Packets of GDB's remote serial protocol (GDB's documentation, appendix "Remote Protocol"): what
//! came, what a packet asks, and how an answer is framed. It keeps nothing and allocates nothing.
#![tactic(auto)]

mod arguments;
mod command;
mod digits;
mod framing;
mod input;
mod parsing;
mod queries;
mod text;

pub use command::{Action, Command, FileCall, Id, Point, Thread};
pub use digits::{
    is_hex, read_hex, read_number, read_register, write_hex, write_number, write_register,
};
pub use framing::{checksum, unescape, write_packet};
pub use input::{FRAME_LIMIT, PACKET_SIZE, PacketInput, read_input};
pub use parsing::parse_command;
