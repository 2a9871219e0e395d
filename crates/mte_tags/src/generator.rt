//! The generator of random tags.

ghost use Rattle.std.specs.Prelude.{◌≡◌, ◌<◌, ◌+◌, ◌^◌, ℕ};
ghost use Rattle.mte_tags.specs.TagChoice.{chosen_tag};
ghost use Rattle.mte_tags.specs.RandomTags.{after_draw, offset_of};
ghost use Rattle.mte_tags.specs.RandomTags.{seed_after};

use crate::tags::choose_non_excluded;

/// RGSR_EL1: the tag that was drawn last, below 16, and the seed of the next draws.
#[derive(Clone, Copy, PartialEq, Eq, Debug)]
pub struct Rgsr {
    pub tag: u8,
    pub seed: u16,
}

impl Rgsr {
    /// Draws a tag that bit t of `exclude` does not exclude, or 0 where all 16 bits are set, as IRG
    /// does with GCR_EL1.RRND 0 (Arm ARM DDI 0487, AArch64.RandomTag and ChooseNonExcludedTag).
    pub fn draw(&mut self, exclude: u16) -> u8
        requires { self.old.tag < 16 }
        ensures tag { result ≡ (after_draw self.old exclude).tag }
        ensures rgsr { self.new ≡ (after_draw self.old exclude).rgsr }
        ensures below { result < 16 }
        ensures last { self.new.tag ≡ result }
        ensures in_sequence { (first draws : ℕ)
            → self.old.seed
            ≡ seed_after first draws → self.new.seed ≡ seed_after first (draws + 1) }
        ensures by_sequence { (first draws : ℕ)
            → self.old.seed
            ≡ seed_after first draws
            → result ≡ chosen_tag self.old.tag (offset_of first draws) exclude }
    {
        let offset = random_tag(&mut self.seed);
        self.tag = choose_non_excluded(self.tag, offset, exclude);
        self.tag
    }
}

/// The next four bits of the sequence as a number below 16, the first one lowest. Each is the
/// exclusive or of four bits of the seed, which takes it in at its upper end (Arm ARM DDI 0487,
/// AArch64.NextRandomTagBit): of its bits 0, 2, 3 and 5 the first, and so on.
#[inline]
fn random_tag(seed: &mut u16) -> u8
    ensures offset { result ≡ offset_of seed.old 0 }
    ensures below { result < 16 }
    ensures seed { seed.new ≡ seed_after seed.old 1 }
{
    let now = *seed;
    let offset = (now ^ (now >> 2) ^ (now >> 3) ^ (now >> 5)) % 16;
    *seed = now / 16 + 4096 * offset;
    offset as u8
}
