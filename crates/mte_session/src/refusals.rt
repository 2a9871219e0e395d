//! The lines of refused events.

ghost use Rattle.std.specs.Prelude.{◌≡◌};
ghost use Rattle.mte_streams.specs.Writing.{Writes};
ghost use Rattle.mte_session.specs.Sessions.{refused_text, prefix_of};

use crate::text::write_parts;
use itoa::Buffer;
use mte_sched::{AdmitError, Refusal, Refused};
use mte_streams::{Sink, WriteFault};

/// Writes the line of a refused event.
#[tactic(auto, unfolding(crate::specs::Sessions::refused_text))]
pub fn write_refusal<W: Sink>(refused: &Refused, out: &mut W) -> Result<(), WriteFault>
    ensures { Writes (W.log out.old) (W.log out.new) result (refused_text refused.now) }
{
    let mut digits = Buffer::new();
    let event = digits.format(refused.event).as_bytes();
    let prefix = refusal_prefix(&refused.refusal);
    let name = refused.refusal.name().as_bytes();
    write_parts(out, &[b"refused ", event, b" ", prefix, name, b"\n"])
}

/// `Image ` before the name of an image's refusal.
fn refusal_prefix(refusal: &Refusal) -> &'static [u8]
    ensures { result.now ≡ prefix_of refusal.now }
{
    match refusal {
        Refusal::Admit(AdmitError::Image(_)) => b"Image ",
        _ => b"",
    }
}
