//! The instruction of a row from its fields and refusals.

/// The instruction of a row with the fields of `word`, each with its lowest bit and its width.
/// `None` where the row refuses the values.
macro_rules! row {
    (
        $row:ident $word:ident:
        $($field:ident $bit:literal : $width:literal),*
        $(; signed $number:ident $start:literal : $length:literal)?
        $(; refused $($refused:expr),*)?
    ) => {{
        $(let $field = field($word, $bit, $width) as _;)*
        $(let $number = signed_field($word, $start, $length) as _;)?
        $($(if $refused {
            return None;
        })*)?
        Some(Instr::$row { $($field,)* $($number,)? })
    }};
}

pub(crate) use row;
