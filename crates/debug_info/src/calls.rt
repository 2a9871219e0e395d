//! The inlined calls that were found.

ghost use Rattle.std.specs.Prelude.{◌≡◌, ◌<◌, false, IfSome};
ghost use Rattle.std.specs.Iterator.{at_most};
ghost use Rattle.debug_lines.specs.Texts.{has_control};

use debug_lines::{FileLine, SourceLine};
use std::alloc::{AllocError, Global};
use std::str;

/// The most inlined calls of an address.
pub const DEEPEST: u32 = 64;

/// The most bytes of a name.
const LONGEST: usize = 1_023;

/// An inlined call: the function that was called, and where.
#[derive(Clone, Copy)]
pub struct InlinedCall<'a> {
    pub(crate) name: Option<&'a [u8]>,
    pub(crate) line: Option<FileLine<'a>>,
}

impl<'a> InlinedCall<'a> {
    /// The name of the function whose code was inlined, as the linker has it where that is known:
    /// 1 to 1,023 printable characters of ASCII.
    pub fn name(&self) -> Option<&'a str>
        ensures { IfSome result (λ name. has_control name.now ≡ false) }
    {
        let name = self.name?;
        if name.is_empty() || name.len() > LONGEST || !name.is_ascii() {
            return None;
        }
        let text = str::from_utf8(name).ok()?;
        if has_control(text) {
            return None;
        }
        Some(text)
    }

    /// The source line of the call, in the function that it was inlined into.
    pub fn line(&self) -> Option<SourceLine<'a>>
        ensures line { IfSome result (λ line. 0 < line.line) }
        ensures file { IfSome result (λ line. has_control line.file.now ≡ false) }
        ensures path { IfSome result (λ line. has_control line.path.now ≡ false) }
        ensures directory { IfSome result
            (λ line. IfSome line.directory (λ text. has_control text.now ≡ false)) }
    {
        match &self.line {
            Some(line) => line.source_line(),
            None => None,
        }
    }
}

/// Whether a text has a control character.
fn has_control(text: &str) -> bool
    ensures { result ≡ has_control text.now }
{
    text.chars().any(|c| c.is_control())
}

/// A call, and the place of the call that it was inlined into, which is lower.
#[derive(Clone, Copy)]
pub(crate) struct NestedCall<'a> {
    pub(crate) call: InlinedCall<'a>,
    pub(crate) outer: Option<usize>,
}

/// The inlined calls at some addresses.
pub struct InlinedCalls<'a> {
    /// The addresses, the lowest first.
    pub(crate) addresses: Vec<u64>,
    /// The place of the innermost call of each.
    pub(crate) innermost: Vec<Option<usize>>,
    pub(crate) links: Vec<NestedCall<'a>>,
}

impl<'a> Drop for InlinedCalls<'a> {
    fn drop(self) {
        let InlinedCalls {
            addresses: _,
            innermost: _,
            links: _,
        } = self;
    }
}

impl<'a> InlinedCalls<'a> {
    /// No calls at some addresses, with capacity for some.
    pub(crate) fn none(
        alloc: Global,
        addresses: &[u64],
        room: usize,
    ) -> Result<InlinedCalls<'a>, AllocError> {
        let mut sorted = Vec::from_slice(alloc, addresses)?;
        sorted.sort_unstable();
        let mut innermost = Vec::new(alloc);
        innermost.resize(addresses.len(), None)?;
        Ok(InlinedCalls {
            addresses: sorted,
            innermost,
            links: Vec::with_capacity(alloc, room)?,
        })
    }

    /// The inlined calls that an address is in, the innermost first. There are none at an address
    /// that was not asked for.
    pub fn at(&self, address: u64) -> CallsAt<'_, 'a> {
        CallsAt {
            links: self.links.as_slice(),
            next: self.innermost_at(address),
            left: DEEPEST,
        }
    }

    fn innermost_at(&self, address: u64) -> Option<usize> {
        let at = self.addresses.binary_search(&address).ok()?;
        *self.innermost.get(at)?
    }
}

/// The inlined calls at an address, the innermost first.
#[derive(Clone, Copy)]
pub struct CallsAt<'c, 'a> {
    links: &'c [NestedCall<'a>],
    next: Option<usize>,
    /// How many more there may be.
    left: u32,
}

impl<'c, 'a> CallsAt<'c, 'a> {
    /// The number of the innermost call, which addresses in the same calls share.
    pub fn innermost(&self) -> Option<usize> {
        self.next
    }
}

impl<'c, 'a> Iterator for CallsAt<'c, 'a> {
    type Item = InlinedCall<'a>;

    ghost remaining = { λ s. at_most s.left };

    fn next(&mut self) -> Option<InlinedCall<'a>> {
        self.left = self.left.checked_sub(1)?;
        let link = self.links.get(self.next?)?;
        self.next = link.outer;
        Some(link.call)
    }
}
