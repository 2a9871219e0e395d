//! The use of an address.

ghost use Rattle.std.specs.Prelude.{◌≡◌, ℕ, ◌↔◌, ◌≤◌, ◌<◌, IfSome, None};
ghost use Rattle.common.specs.declared.ranges.TheConstants.{IMAGE_START, IMAGE_END};
ghost use Rattle.common.specs.declared.ranges.TheConstants.{STACK_START, STACK_END};
ghost use Rattle.common.specs.declared.ranges.TheConstants.{SECONDARY_START, SECONDARY_END};
ghost use Rattle.heap_bounds.specs.Blocks.{IsBetween, IsInRegion, IsBlockAt};

use common::{
    IMAGE_END, IMAGE_START, REGION_SIZE, REGIONS_START, SECONDARY_END, SECONDARY_START, STACK_END,
    STACK_START,
};
use scudo_header::{CLASSES, size_of_class};
use std::fmt;

/// The use of a range of addresses.
#[derive(Clone, Copy, PartialEq, Eq)]
pub enum RangeUse {
    /// An image's segments.
    Image,
    /// The blocks of a size class.
    Class(u8),
    /// Chunks with pages of their own.
    Large,
    /// The stack.
    Stack,
    /// Nothing.
    Nothing,
}

impl RangeUse {
    ghost use Rattle.heap_bounds.specs.declared.blocks.RangeUse.TheVariants.{Image, Class, Large};
    ghost use Rattle.heap_bounds.specs.declared.blocks.RangeUse.TheVariants.{Stack};

    /// The range of a plain address.
    pub fn of(addr: u64) -> RangeUse
        ensures image { (result ≡ Image) ↔ IsBetween IMAGE_START IMAGE_END addr }
        ensures class { (c : ℕ) → (result ≡ Class c) ↔ IsInRegion c addr }
        ensures large { (result ≡ Large) ↔ IsBetween SECONDARY_START SECONDARY_END addr }
        ensures stack { (result ≡ Stack) ↔ IsBetween STACK_START STACK_END addr }
    {
        match addr {
            IMAGE_START..IMAGE_END => RangeUse::Image,
            REGIONS_START..SECONDARY_START => {
                let class = (addr - REGIONS_START) / REGION_SIZE;
                if class == 0 || class > u64::from(CLASSES) {
                    return RangeUse::Nothing;
                }
                RangeUse::Class(class as u8)
            }
            SECONDARY_START..SECONDARY_END => RangeUse::Large,
            STACK_START..STACK_END => RangeUse::Stack,
            _ => RangeUse::Nothing,
        }
    }
}

impl fmt::Display for RangeUse {
    fn fmt<W: fmt::Write>(&self, f: &mut fmt::Formatter<W>) -> fmt::Result {
        match self {
            RangeUse::Image => f.write_str("image"),
            RangeUse::Class(class) => write!(f, "heap, class {class}"),
            RangeUse::Large => f.write_str("heap, a large chunk"),
            RangeUse::Stack => f.write_str("stack"),
            RangeUse::Nothing => f.write_str("nothing"),
        }
    }
}

/// A block of a size class.
#[derive(Clone, Copy)]
pub struct Block {
    /// The class.
    pub class: u8,
    /// The first address.
    pub start: u64,
    /// Its bytes.
    pub size: u64,
}

impl Block {
    /// The block of a plain address; none where it is in no region of a size class.
    pub fn of(addr: u64) -> Option<Block>
        ensures block { IfSome result (IsBlockAt addr) }
        ensures none { result ≡ None → (c : ℕ) → IsInRegion c addr → ⊥ }
    {
        let RangeUse::Class(class) = RangeUse::of(addr) else {
            return None;
        };
        let size = size_of_class(class);
        let region = REGIONS_START + u64::from(class) * REGION_SIZE;
        let start = region + addr.saturating_sub(region) / size * size;
        Some(Block { class, start, size })
    }
}
