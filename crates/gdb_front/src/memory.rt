//! Requests for memory and its tags.

use crate::front::Front;
use crate::reply::Reply;
use a64_bits::plain;

/// The most bytes or tags of one answer.
const LIMIT: u64 = 4096;

/// The kind of the allocation tags in `qMemTags`.
const ALLOCATION: u64 = 1;

impl Front<'_> {
    /// Answers the bytes from an address on, as far as they can be read.
    pub(crate) fn put_memory(&mut self, address: u64, len: u64, reply: &mut Reply) {
        let start = plain(address);
        for addr in start..start.saturating_add(len.min(LIMIT)) {
            let Some(byte) = self.tenant.byte_at(addr) else {
                break;
            };
            reply.answer.put_hex(&[byte]);
        }
        if reply.answer.is_empty() && len > 0 {
            reply.put_fault();
        }
    }

    /// Answers the tag of each granule that has one of the addresses, of one at least.
    pub(crate) fn put_tags(&mut self, address: u64, len: u64, kind: u64, reply: &mut Reply) {
        if kind != ALLOCATION {
            reply.put_refusal();
            return;
        }
        let start = plain(address);
        let end = start.saturating_add(len.min(LIMIT * 16).max(1));
        if self.tenant.tag_at(start).is_none() {
            reply.put_fault();
            return;
        }
        reply.answer.put(b"m");
        for granule in start / 16..end.saturating_add(15) / 16 {
            let Some(tag) = self.tenant.tag_at(granule.saturating_mul(16)) else {
                break;
            };
            reply.answer.put_hex(&[tag]);
        }
    }
}
