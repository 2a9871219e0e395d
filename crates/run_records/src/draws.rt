//! Draws of random tags.

use mte_tags::Rgsr;

/// The most draws of one attempt: a reallocation that moves its chunk draws for both.
pub const MOST_DRAWS: u64 = 4;

/// How many tags were drawn between two states of the generator, at most `most`, which is below its
/// period of 65,535. A seed of 0 stays 0 (Arm ARM DDI 0487, AArch64.NextRandomTagBit), so its draws
/// aren't counted.
pub fn draws_between(before: &Rgsr, after: &Rgsr, most: u64) -> u64 {
    let mut seed = before.seed;
    for count in 0..most {
        if seed == after.seed {
            return count;
        }
        seed = next_seed(seed);
    }
    most
}

/// The seed after a draw.
fn next_seed(seed: u16) -> u16 {
    let mut rgsr = Rgsr { tag: 0, seed };
    let _ = rgsr.draw(0);
    rgsr.seed
}
