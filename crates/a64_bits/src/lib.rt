//! Numbers of an A64 processor: fields of words, parts of addresses, and the results of the data
//! processing instructions.
#![tactic(auto)]

mod addresses;
mod arithmetic;
mod bit_orders;
mod counts;
mod division;
mod field_moves;
mod fields;
mod masks;
mod powers;
mod products;
mod shifts;

pub use addresses::plain;
pub use arithmetic::{Flags, Sum, add_with_carry};
pub use bit_orders::{reverse_bits, reverse_bytes};
pub use counts::{count_leading_sign, count_leading_zeros};
pub use division::divide;
pub use field_moves::{extract, move_field};
pub use fields::{field, fits_signed, sign_extend, signed_bits, signed_field};
pub use masks::{bit_masks, is_mask};
pub use products::multiply_high;
pub use shifts::{rotate_right, shift_left, shift_right, shift_right_signed};
