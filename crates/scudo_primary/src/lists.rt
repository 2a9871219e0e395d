//! The stacks of free blocks, linked through one table of entries.

ghost use Rattle.std.specs.Prelude.{◌≡◌, ◌≤◌, ◌≢◌, ◌<◌, ◌+◌, ◌-◌, ◌*◌, ◌/◌, ◌++◌, ℕ, Some, false};
ghost use Rattle.std.specs.Prelude.{length, drop, slice_get, slice_set, nat_lt, not, ◌&&◌};
ghost use Rattle.std.specs.Prelude.{◌^◌, vec_capacity};
ghost use Rattle.std.specs.List.{All};
ghost use Rattle.scudo_header.specs.Regions.{region_of};
ghost use Rattle.scudo_primary.specs.Blocks.{IsBlock, carved_count, number_of};
ghost use Rattle.scudo_primary.specs.Batches.{IsBatch, max_count_of, first_size};
ghost use Rattle.scudo_primary.specs.Pools.{is_member, IsLoose, class_after_pop, batch_in};
ghost use Rattle.scudo_primary.specs.Pools.{class_after_pop_batch};
ghost use Rattle.scudo_primary.specs.Pools.{class_after_push_batch};

use crate::batches::max_count;
use common::PAGE_SIZE;
use scudo_header::{CLASSES, MAX_COUNT, region_start, size_of_class};

/// How many lists there are: one for each size class.
pub(crate) const LISTS: usize = CLASSES as usize;

/// The entry of a block: the address of the block below it in its stack, whether it is marked
/// free, and whether it is the last of its batch.
#[derive(Clone, Copy)]
pub(crate) struct BlockEntry {
    pub(crate) next: u32,
    pub(crate) free: bool,
    pub(crate) last: bool,
}

/// The stack of a class: its top, how many blocks it has, and how many pages of the region are
/// carved.
#[derive(Clone, Copy)]
pub(crate) struct ClassList {
    pub(crate) head: u32,
    pub(crate) count: u64,
    pub(crate) pages: u64,
}

ghost use Rattle.scudo_primary.specs.Inner.{block_table, IsTable, Became, Each, sizes_after_push};
ghost use Rattle.scudo_primary.specs.Blocks.{IsClass};
ghost use Rattle.scudo_primary.specs.Inner.{is_last_at};
ghost use Rattle.scudo_primary.specs.Inner.{list_at, entry_at, state_in, class_after_link};
ghost use Rattle.scudo_primary.specs.Inner.{class_after_link_new};
ghost use Rattle.scudo_primary.specs.Inner.{IsFilledUp, IsNumberedOn, HasNumber, place_of, slot_of};

/// Where the number of a page of a class's region is.
#[inline(always)]
fn slot(class: u8, page: u64) -> usize
    requires class { IsClass class }
    requires fits { page * CLASSES + CLASSES < 2 ^ 64 }
    ensures { result ≡ slot_of class page }
{
    (page * u64::from(CLASSES) + u64::from(class - 1)) as usize
}

/// Where the entry of a block is.
#[inline(always)]
pub(crate) fn place(numbers: &[u16], class: u8, block: u64) -> usize
    requires { HasNumber numbers.now class block }
    ensures { result ≡ place_of numbers.now class block }
{
    let offset = block - region_start(class);
    let number = numbers[slot(class, offset / PAGE_SIZE)];
    (u64::from(number) * 128 + offset % PAGE_SIZE / 32) as usize
}

/// Marks a block free or used.
#[inline(always)]
pub(crate) fn set_mark(
    entries: &mut [BlockEntry],
    numbers: &[u16],
    class: u8,
    block: u64,
    free: bool,
)
    requires number { HasNumber numbers.now class block }
    requires place { place_of numbers.now class block < length entries.old }
    ensures { entries.new
        ≡ slice_set entries.old (place_of numbers.now class block)
        (record (entry_at entries.old numbers.now class block) { free = free }) }
{
    let at = place(numbers, class, block);
    let entry = entries[at];
    entries[at] = BlockEntry {
        next: entry.next,
        free,
        last: entry.last,
    };
}

/// Puts a block on top of the stack of its class, and marks it free. It is the last of a new batch,
/// or it joins the top batch.
#[inline]
pub(crate) fn link(
    entries: &mut [BlockEntry],
    numbers: &[u16],
    lists: &mut [ClassList; LISTS],
    class: u8,
    block: u64,
    last: bool,
)
    requires table { IsTable (block_table entries.old numbers.now lists.old) }
    requires class { IsClass class }
    requires block { IsBlock class (list_at lists.old class).pages block }
    requires unlisted { let t = block_table entries.old numbers.now lists.old in
        is_member (state_in t class).stack block ≡ false }
    requires room { let t = block_table entries.old numbers.now lists.old in
        Each (λ n. n ≤ max_count_of class) (sizes_after_push last (state_in t class).sizes) }
    ensures { let t = block_table entries.old numbers.now lists.old in
        Became t (block_table entries.new numbers.now lists.new) class
        (class_after_link class (state_in t class) block last) }
{
    let list = lists[class as usize - 1];
    let at = place(numbers, class, block);
    entries[at] = BlockEntry {
        next: list.head,
        free: true,
        last,
    };
    lists[class as usize - 1] = ClassList {
        head: block as u32,
        count: list.count + 1,
        pages: list.pages,
    };
}

/// Takes the top of the stack of a class, and marks it used.
#[inline]
pub(crate) fn unlink(
    entries: &mut [BlockEntry],
    numbers: &[u16],
    lists: &mut [ClassList; LISTS],
    class: u8,
) -> u64
    requires table { IsTable (block_table entries.old numbers.now lists.old) }
    requires class { IsClass class }
    requires some { 0 < (list_at lists.old class).count }
    ensures top { let t = block_table entries.old numbers.now lists.old in
        slice_get (state_in t class).stack 0 ≡ Some result }
    ensures block { IsBlock class (list_at lists.old class).pages result }
    ensures unlisted { let t = block_table entries.new numbers.now lists.new in
        is_member (state_in t class).stack result ≡ false }
    ensures rest { let t = block_table entries.old numbers.now lists.old in
        Became t (block_table entries.new numbers.now lists.new) class
        (class_after_pop class (state_in t class) (state_in t class).stack) }
{
    let list = lists[class as usize - 1];
    let block = list.head as u64;
    let next = entries[place(numbers, class, block)].next;
    set_mark(entries, numbers, class, block, false);
    lists[class as usize - 1] = ClassList {
        head: next,
        count: list.count - 1,
        pages: list.pages,
    };
    block
}

/// Whether a batch goes on below a block: it isn't the last of its batch, nor of the stack.
#[inline(always)]
fn goes_on(last: bool, count: u64, all: u64) -> bool
    ensures { result ≡ (not last && nat_lt count all) }
{
    !last && count < all
}

/// Takes the top batch of the stack of a class into the buffer, in its own order, and returns its
/// length. The marks stay.
#[inline]
pub(crate) fn unlink_batch(
    entries: &[BlockEntry],
    numbers: &[u16],
    lists: &mut [ClassList; LISTS],
    class: u8,
    buffer: &mut [u64; MAX_COUNT],
) -> usize
    requires table { IsTable (block_table entries.now numbers.now lists.old) }
    requires class { IsClass class }
    ensures count { let t = block_table entries.now numbers.now lists.old in
        result ≡ first_size (state_in t class).sizes }
    ensures buffer { let t = block_table entries.now numbers.now lists.old in
        buffer.new ≡ batch_in (state_in t class) ++ drop result buffer.old }
    ensures rest { let t = block_table entries.now numbers.now lists.old in
        Became t (block_table entries.now numbers.now lists.new) class
        (class_after_pop_batch (state_in t class)) }
{
    let list = lists[class as usize - 1];
    let mut next = list.head;
    let mut count = 0;
    let mut more = list.count != 0;
    while more {
        let block = next as u64;
        let entry = entries[place(numbers, class, block)];
        buffer[count] = block;
        count += 1;
        next = entry.next;
        more = goes_on(entry.last, count as u64, list.count);
    }
    lists[class as usize - 1] = ClassList {
        head: next,
        count: list.count - count as u64,
        pages: list.pages,
    };
    buffer[..count].reverse();
    count
}

/// Puts blocks on top of the stack of their class as one batch, the first of them first.
#[inline]
pub(crate) fn link_batch(
    entries: &mut [BlockEntry],
    numbers: &[u16],
    lists: &mut [ClassList; LISTS],
    class: u8,
    blocks: &[u64],
)
    requires table { IsTable (block_table entries.old numbers.now lists.old) }
    requires class { IsClass class }
    requires batch { IsBatch class blocks.now }
    requires blocks { let t = block_table entries.old numbers.now lists.old in
        All (IsLoose (state_in t class) class) blocks.now }
    ensures { let t = block_table entries.old numbers.now lists.old in
        Became t (block_table entries.new numbers.now lists.new) class
        (class_after_push_batch (state_in t class) blocks.now) }
{
    let mut last = true;
    for block in blocks {
        link(entries, numbers, lists, class, *block, last);
        last = false;
    }
}

/// Makes a list at least `count` long by values at its end. It has memory for `count`.
pub(crate) fn fill_up<T: Copy>(list: &mut Vec<T>, count: usize, value: T)
    requires { count ≤ vec_capacity list.old }
    ensures { IsFilledUp list.old list.new count value }
{
    while list.len() < count {
        list.push_reserved(value);
    }
}

/// Gives the pages of a class's region from one on the numbers from `first` on.
pub(crate) fn number_pages(numbers: &mut [u16], class: u8, from: u64, pages: u64, first: u64)
    requires class { IsClass class }
    requires slots { CLASSES * (from + pages) ≤ length numbers.old }
    requires numbers { first + pages < 2 ^ 16 }
    ensures { IsNumberedOn numbers.old numbers.new class from pages first }
{
    for i in 0..pages {
        numbers[slot(class, from + i)] = (first + i) as u16;
    }
}

/// Whether the block at a place among `count` new ones, counted from the lowest, is the last of its
/// batch.
#[inline(always)]
fn is_last(half: u64, count: u64, place: u64) -> bool
    requires half { 0 < half }
    requires place { place < count }
    ensures { result ≡ is_last_at half count place }
{
    place + 1 == count || (place + 1) % half == 0
}

/// Puts the blocks of a class from the one with the number `from` to below `to` on top of its stack
/// and marks them free, the lowest on top, cut into batches from the lowest on.
pub(crate) fn link_new(
    entries: &mut [BlockEntry],
    numbers: &[u16],
    lists: &mut [ClassList; LISTS],
    class: u8,
    from: u64,
    to: u64,
)
    requires table { IsTable (block_table entries.old numbers.now lists.old) }
    requires class { IsClass class }
    requires order { from ≤ to }
    requires all { to ≡ carved_count class (list_at lists.old class).pages }
    requires new { let t = block_table entries.old numbers.now lists.old in
        Each (λ block. number_of class block < from) (state_in t class).stack }
    ensures { let t = block_table entries.old numbers.now lists.old in
        Became t (block_table entries.new numbers.now lists.new) class
        (class_after_link_new class (state_in t class) from (to - from)) }
{
    let half = max_count(class) as u64 / 2;
    let size = size_of_class(class);
    let start = region_start(class);
    let mut n = to;
    while n > from {
        n -= 1;
        let last = is_last(half, to - from, n - from);
        link(entries, numbers, lists, class, start + n * size, last);
    }
}
