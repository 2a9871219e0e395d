//! The word of a row from its base, fields and refusals.

/// The word of a row: its base and its fields, each with its lowest bit and its width.
/// `None` where a field exceeds its width, or where the row refuses the values.
macro_rules! row {
    (
        $base:literal
        $(, $field:ident $bit:literal : $width:literal)*
        $(; signed $number:ident $start:literal : $length:literal)?
        $(; refused $($refused:expr),*)?
    ) => {{
        let fits = true
            $(&& ($field as u32) < 1 << $width)*
            $(&& fits_signed($number as i32, $length))?;
        if !fits {
            return None;
        }
        $($(if $refused {
            return None;
        })*)?
        let word = $base
            $(+ (($field as u32) << $bit))*
            $(+ (signed_bits($number as i32, $length) << $start))?;
        Some(word)
    }};
}

pub(crate) use row;
