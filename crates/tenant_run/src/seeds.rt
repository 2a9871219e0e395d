//! The seeds of several runs. By the seed's low 20 bits the heap draws the tags of chunks.

/// Seeds that hide little: of the pairs of chunks of one size class that may have one tag (two of
/// the first twelve an even number apart, or two of the first six lives of one block) none has one
/// under more than one of them. They are outputs of SplitMix64.
const CHOSEN: [u64; 16] = [
    0x17c4_5f42_f3ec_9932,
    0x57c5_3a70_950a_c3fb,
    0xbef7_31cd_1975_4a08,
    0x0155_e421_10dd_6130,
    0x0e3c_b622_5c18_6a21,
    0x2453_2f19_f3b4_b699,
    0x3af6_bf43_bdec_ecd0,
    0x407f_a8ec_4f79_331a,
    0x5910_f5c4_29e7_2b4f,
    0x620e_95d9_497c_d547,
    0x67c3_39d8_212a_d635,
    0x84a9_5bec_4908_96b7,
    0x8a0c_7574_a2f4_c7f8,
    0x9787_184e_c39d_cc58,
    0xa52c_0dc3_f433_fba6,
    0xb467_9692_b072_ff83,
];

/// The seed of a run by its number from 0: the given one, then those that were chosen, then
/// SplitMix64 of the number.
pub fn seed_of_run(given: u64, number: u32) -> u64 {
    if number == 0 {
        return given;
    }
    match CHOSEN.get(number as usize - 1) {
        Some(seed) => *seed,
        None => split_mix(u64::from(number)),
    }
}

/// SplitMix64 (G. Steele, D. Lea, C. Flood: Fast Splittable Pseudorandom Number Generators).
fn split_mix(number: u64) -> u64 {
    let z = number.wrapping_mul(0x9E37_79B9_7F4A_7C15);
    let z = (z ^ (z >> 30)).wrapping_mul(0xBF58_476D_1CE4_E5B9);
    let z = (z ^ (z >> 27)).wrapping_mul(0x94D0_49BB_1331_11EB);
    z ^ (z >> 31)
}
