//! The traits of a tagged memory.

ghost use Rattle.std.specs.Prelude.{◌≡◌, ◌<◌, ◌≤◌, ◌+◌, ◌-◌, ◌/◌, ◌%◌, ◌↔◌, ◌^◌, true, false};
ghost use Rattle.std.specs.Prelude.{IsOk, OnErr, OnOk, IfOk, IfSome, is_ok};
ghost use Rattle.std.specs.Prelude.{length, if◌then◌else◌, Bool};
ghost use Rattle.std.specs.Prelude.{◌==◌, ◌&&◌, ◌*◌, ℕ, Ok, IsTrue, IsFalse, nat_le, slice_index};
ghost use Rattle.std.specs.Int.{from_le_bytes, w64};
ghost use Rattle.a64_bits.specs.Addresses.{plain};
ghost use Rattle.mte_tags.specs.Memory.{Memory, pages_left, with_new_pages, without_pages, IsFree};
ghost use Rattle.mte_tags.specs.Memory.{ArePages, tag_at, page_has, with_granules};
ghost use Rattle.mte_tags.specs.Accesses.{fetch_result, result_of, read_fault, read_bytes};
ghost use Rattle.mte_tags.specs.Accesses.{after_read};
ghost use Rattle.mte_tags.specs.Accesses.{write_fault, after_write, with_bytes_at, tags_fault};
ghost use Rattle.mte_tags.specs.Accesses.{IsMapped, IsPageAttrs};
ghost use Rattle.mte_tags.specs.Accesses.{tag_load_fault, tag_result};

use crate::attrs::Attrs;
use crate::fault::MemFault;

/// A memory of tagged granules: pages of 4096 bytes, each of 256 granules of 16 bytes with an
/// allocation tag below 16. An access uses the low 56 bits of its address and goes on at 0 after
/// the last of them. A fault changes nothing. In the synchronous mode a tag that differs is a
/// fault; in the asynchronous mode the access completes and sets a flag (Arm ARM DDI 0487, "The
/// Memory Tagging Extension", SCTLR_EL1.TCF0).
pub trait Tagged {
    /// The contents of the memory, however they are kept.
    ghost memory: { Self → Memory };

    /// The state besides the memory that every call keeps.
    ghost kept: { Self → Self → Type 0 };

    /// The instruction word at an address, of four bytes, the lowest first. It needs EXEC and is
    /// never tag checked; an address that is not a multiple of 4 is a PcAlignment fault before all
    /// else.
    fn fetch(&mut self, pc: u64) -> Result<u32, MemFault>
        ensures answer { result ≡ fetch_result (memory self.old) pc }
        ensures memory { memory self.new ≡ memory self.old }
        ensures kept { kept self.old self.new };

    /// The 16 instruction words from an address on, where one page with EXEC holds them and the
    /// address is a multiple of 4; it says whether that is so. Each is what `fetch` gives there.
    /// Elsewhere the words stay as they were.
    fn fetch_words(&mut self, pc: u64, words: &mut [u32; 16]) -> bool
        ensures answer { result
            ≡ (pc % 4 == 0 && nat_le (pc % 4096) 4032
            && page_has (memory self.old) (plain pc / 4096) 4) }
        ensures words { IsTrue result → (i : ℕ) → i < 16
            → fetch_result (memory self.old) (pc + 4 * i) ≡ Ok (slice_index words.new i) }
        ensures left { IsFalse result → words.new ≡ words.old }
        ensures memory { memory self.new ≡ memory self.old }
        ensures kept { kept self.old self.new };

    /// Copies bytes out of pages with READ, and compares tags where `check` is set. After a fault
    /// the buffer and the flag are as they were.
    fn read(&mut self, addr: u64, buffer: &mut [u8], check: bool) -> Result<(), MemFault>
        ensures answer { result
            ≡ result_of (read_fault (memory self.old) addr (length buffer.old) check) }
        ensures bytes { buffer.new
            ≡ (if is_ok result
            then read_bytes (memory self.old) addr (length buffer.old)
            else buffer.old) }
        ensures memory { memory self.new
            ≡ (if is_ok result
            then after_read (memory self.old) addr (length buffer.old) check
            else memory self.old) }
        ensures kept { kept self.old self.new };

    /// Copies bytes into pages with WRITE, all of them or none, and compares tags where `check` is
    /// set.
    fn write(&mut self, addr: u64, bytes: &[u8], check: bool) -> Result<(), MemFault>
        ensures answer { result
            ≡ result_of (write_fault (memory self.old) addr (length bytes.now) check) }
        ensures memory { memory self.new
            ≡ (if is_ok result
            then after_write (memory self.old) addr bytes.now check
            else memory self.old) }
        ensures kept { kept self.old self.new };

    /// The tag, below 16, of the granule that holds an address. It needs READ and compares no tag;
    /// a page without TAGGED gives 0. A fault reports the granule's first address.
    fn load_tag(&mut self, addr: u64) -> Result<u8, MemFault>
        ensures small { IfOk result (λ t. t < 16) }
        ensures answer { result
            ≡ tag_result (tag_load_fault (memory self.old) addr)
            (tag_at (memory self.old) (plain addr)) }
        ensures memory { memory self.new ≡ memory self.old }
        ensures kept { kept self.old self.new };

    /// Replaces the tags of consecutive granules of pages with WRITE, all of them or none, and
    /// makes their bytes zero where `zero` is set. It compares no tag; an address that is not a
    /// multiple of 16 is an Alignment fault before all else.
    fn store_tags(&mut self, addr: u64, granules: u64, tag: u8, zero: bool) -> Result<(), MemFault>
        requires { tag < 16 }
        ensures answer { result ≡ result_of (tags_fault (memory self.old) addr granules) }
        ensures memory { memory self.new
            ≡ (if is_ok result
            then with_granules (memory self.old) (plain addr) granules tag zero
            else memory self.old) }
        ensures kept { kept self.old self.new };

    /// Whether the page of an address is mapped and has these attributes.
    fn has_attrs(&mut self, addr: u64, attrs: Attrs) -> bool
        ensures answer { result ≡ page_has (memory self.old) (plain addr / 4096) attrs.0 }
        ensures memory { memory self.new ≡ memory self.old }
        ensures kept { kept self.old self.new };

    /// Whether an access has set the flag.
    fn pending(&mut self) -> bool
        ensures answer { result ≡ (memory self.old).state.pending }
        ensures memory { memory self.new ≡ memory self.old }
        ensures kept { kept self.old self.new };

    ghost kept_same: { (a : Self) → kept a a };

    ghost kept_on: { (a b c : Self) → kept a b → kept b c → kept a c };
}

/// A tagged memory by which a heap reads and makes a chunk with one look-up.
pub trait ChunkAccess: Tagged {
    /// The read of a chunk by a heap in one look-up: the first eight bytes of the granule before an
    /// address, the lowest first, and the tag of the granule at it. `None` where no page with READ
    /// and WRITE holds both, or where it would take a second look-up.
    fn read_chunk(&mut self, user: u64) -> Option<(u64, u8)>
        requires aligned { user % 16 ≡ 0 }
        requires above { 16 ≤ user }
        requires plain { user < 2 ^ 56 }
        ensures has { IfSome result
            (λ r. page_has (Self.memory self.old) ((user - 16) / 4096) 3 ≡ true) }
        ensures word { IfSome result
            (λ r. r.0 ≡ from_le_bytes w64 (read_bytes (Self.memory self.old) (user - 16) 8)) }
        ensures tag { IfSome result (λ r. r.1 ≡ tag_at (Self.memory self.old) user) }
        ensures small { IfSome result (λ r. r.1 < 16) }
        ensures memory { Self.memory self.new ≡ Self.memory self.old }
        ensures kept { Self.kept self.old self.new };

    /// The write of a chunk by a heap in one look-up, whatever the attributes of its page: tag 0 on
    /// `around` granules from the one before an address on, then a tag and zero bytes on `count`
    /// granules from the address on, and eight bytes in the granule before it. `false` changes
    /// nothing: two pages hold the granules, or it would take a second look-up.
    fn write_chunk(&mut self, user: u64, around: u64, count: u64, tag: u8, bytes: &[u8; 8]) -> bool
        requires aligned { user % 16 ≡ 0 }
        requires above { 16 ≤ user }
        requires plain { user < 2 ^ 56 }
        requires tag { tag < 16 }
        ensures memory { Self.memory self.new
            ≡ (if result
            then with_bytes_at
            (with_granules
            (with_granules (Self.memory self.old) (user - 16) around 0 false)
            user count tag true)
            (user - 16) bytes.now
            else Self.memory self.old) }
        ensures kept { Self.kept self.old self.new };
}

/// More pages were requested than are left.
#[derive(Clone, Copy, PartialEq, Eq, Debug)]
pub struct NoPagesLeft;

/// A tagged memory whose pages can be mapped. A page is named by its number, the plain address of
/// its first byte divided by 4096.
pub trait Paged: ChunkAccess {
    /// How many more pages may be mapped.
    fn pages_left(&mut self) -> usize
        ensures answer { result ≡ pages_left (Self.memory self.old) }
        ensures memory { Self.memory self.new ≡ Self.memory self.old }
        ensures kept { Self.kept self.old self.new };

    /// Maps `count` pages from `page` on, of zero bytes and tag 0, all of them or none. They lie
    /// below the address 2^30, none of them is mapped, and they have TAGGED exactly with WRITE, and
    /// READ with WRITE. It is refused if and only if `count` exceeds the pages left.
    fn map_pages(&mut self, page: u64, count: usize, attrs: Attrs) -> Result<(), NoPagesLeft>
        requires in_range { page + count ≤ 2 ^ 18 }
        requires free { IsFree (Self.memory self.old) page count }
        requires attrs { IsPageAttrs attrs }
        ensures answer { IsOk result ↔ (count ≤ pages_left (Self.memory self.old)) }
        ensures ok { OnOk result
            (Self.memory self.new ≡ with_new_pages (Self.memory self.old) page count attrs) }
        ensures err { OnErr result (Self.memory self.new ≡ Self.memory self.old) }
        ensures kept { Self.kept self.old self.new };

    /// Unmaps `count` pages from `page` on, all of which are mapped.
    fn unmap_pages(&mut self, page: u64, count: usize)
        requires { ArePages (Self.memory self.old) page count }
        ensures memory { Self.memory self.new ≡ without_pages (Self.memory self.old) page count }
        ensures kept { Self.kept self.old self.new };

    /// Replaces bytes of mapped pages, whatever their attributes and tags; tags stay.
    fn load_bytes(&mut self, addr: u64, bytes: &[u8])
        requires { IsMapped (Self.memory self.old) addr (length bytes.now) }
        ensures memory { Self.memory self.new
            ≡ with_bytes_at (Self.memory self.old) addr bytes.now }
        ensures kept { Self.kept self.old self.new };
}
