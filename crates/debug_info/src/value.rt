//! The values of attributes, by their forms (DWARF 5, 7.5.5 and 7.5.6).

use debug_lines::Reader;

/// DW_FORM_indirect.
const INDIRECT: u64 = 0x16;

/// A value of an attribute.
#[derive(Clone, Copy)]
pub enum AttributeValue<'a> {
    /// A constant or a flag.
    Number(u64),
    /// An offset of another section.
    Offset(u64),
    /// The number of a list of ranges or locations.
    ListAt(u64),
    Address(u64),
    /// The number of an address in `.debug_addr`.
    AddressAt(u64),
    Text(&'a [u8]),
    /// The offset of a text in `.debug_str`.
    InfoText(u64),
    /// The offset of a text in `.debug_line_str`.
    LineText(u64),
    /// The number of a text in `.debug_str_offsets`.
    TextAt(u64),
    /// The offset of an entry in its unit.
    EntryInUnit(u64),
    /// The offset of an entry in `.debug_info`.
    EntryInSection(u64),
    /// An expression, or another block of bytes.
    Block(&'a [u8]),
    /// A value that is not needed, or none at all.
    Other,
}

impl<'a> AttributeValue<'a> {
    /// Reads a value of a form. There is none where it does not end in the unit, or where the form
    /// isn't known, as those that refer to other files than these.
    pub fn read(values: &mut Reader<'a>, form: u64) -> Option<AttributeValue<'a>> {
        if form == INDIRECT {
            let form = number(values)?;
            return direct(values, form);
        }
        direct(values, form)
    }

    /// The number that it is.
    pub fn number(&self) -> Option<u64> {
        match self {
            AttributeValue::Number(number) => Some(*number),
            _ => None,
        }
    }

    /// The offset of another section that it is.
    pub fn offset(&self) -> Option<u64> {
        match self {
            AttributeValue::Offset(offset) => Some(*offset),
            _ => None,
        }
    }

    /// The entry of its unit that it refers to.
    pub fn entry(&self) -> Option<u64> {
        match self {
            AttributeValue::EntryInUnit(offset) => Some(*offset),
            _ => None,
        }
    }
}

/// Reads a value of a form that is given where the value isn't.
fn direct<'a>(values: &mut Reader<'a>, form: u64) -> Option<AttributeValue<'a>> {
    match form {
        // DW_FORM_addr
        0x01 => Some(AttributeValue::Address(values.double_word()?)),
        // DW_FORM_data1, data2, data4, data8, sdata and udata
        0x0B | 0x05 | 0x06 | 0x07 | 0x0D | 0x0F => constant(values, form),
        // DW_FORM_flag and flag_present
        0x0C => Some(AttributeValue::Number(u64::from(values.byte()?))),
        0x19 => Some(AttributeValue::Number(1)),
        // DW_FORM_sec_offset, loclistx and rnglistx
        0x17 => Some(AttributeValue::Offset(u64::from(values.word()?))),
        0x22 | 0x23 => Some(AttributeValue::ListAt(number(values)?)),
        // DW_FORM_addrx, and addrx1 to addrx4
        0x1B => Some(AttributeValue::AddressAt(number(values)?)),
        0x29..=0x2C => Some(AttributeValue::AddressAt(short(values, form - 0x28)?)),
        0x10..=0x15 => reference(values, form),
        0x08 | 0x0E | 0x1A | 0x1F | 0x25..=0x28 => text(values, form),
        _ => block(values, form),
    }
}

/// Reads a constant.
fn constant<'a>(values: &mut Reader<'a>, form: u64) -> Option<AttributeValue<'a>> {
    let value = match form {
        0x0B => u64::from(values.byte()?),
        0x05 => u64::from(values.half()?),
        0x06 => u64::from(values.word()?),
        0x07 => values.double_word()?,
        0x0D => values.signed()?,
        _ => number(values)?,
    };
    Some(AttributeValue::Number(value))
}

/// Reads a reference to an entry.
fn reference<'a>(values: &mut Reader<'a>, form: u64) -> Option<AttributeValue<'a>> {
    let offset = match form {
        // DW_FORM_ref_addr
        0x10 => return Some(AttributeValue::EntryInSection(u64::from(values.word()?))),
        // DW_FORM_ref1, ref2, ref4, ref8 and ref_udata
        0x11 => u64::from(values.byte()?),
        0x12 => u64::from(values.half()?),
        0x13 => u64::from(values.word()?),
        0x14 => values.double_word()?,
        _ => number(values)?,
    };
    Some(AttributeValue::EntryInUnit(offset))
}

/// Reads a text, or where it is.
fn text<'a>(values: &mut Reader<'a>, form: u64) -> Option<AttributeValue<'a>> {
    match form {
        // DW_FORM_string
        0x08 => Some(AttributeValue::Text(values.text()?)),
        // DW_FORM_strp and line_strp
        0x0E => Some(AttributeValue::InfoText(u64::from(values.word()?))),
        0x1F => Some(AttributeValue::LineText(u64::from(values.word()?))),
        // DW_FORM_strx, and strx1 to strx4
        0x1A => Some(AttributeValue::TextAt(number(values)?)),
        _ => Some(AttributeValue::TextAt(short(values, form.wrapping_sub(0x24))?)),
    }
}

/// Reads an expression or a block, or passes over a value of another form.
fn block<'a>(values: &mut Reader<'a>, form: u64) -> Option<AttributeValue<'a>> {
    let size = match form {
        // DW_FORM_exprloc and block, block1, block2 and block4
        0x18 | 0x09 => number(values)?,
        0x0A => u64::from(values.byte()?),
        0x03 => u64::from(values.half()?),
        0x04 => u64::from(values.word()?),
        // DW_FORM_data16, ref_sig8, ref_sup4, ref_sup8 and strp_sup
        _ => {
            values.bytes(other_size(form)?)?;
            return Some(AttributeValue::Other);
        }
    };
    Some(AttributeValue::Block(values.bytes(size)?))
}

/// The bytes of a value of a form that is passed over.
fn other_size(form: u64) -> Option<u64> {
    match form {
        0x1C | 0x1D => Some(4),
        0x20 | 0x24 => Some(8),
        0x1E => Some(16),
        _ => None,
    }
}

/// The bytes of each value of a form, where all have as many.
pub(crate) fn fixed_size(form: u64) -> Option<u64> {
    match form {
        // implicit_const and flag_present
        0x21 | 0x19 => Some(0),
        // data1, flag, ref1, strx1 and addrx1
        0x0B | 0x0C | 0x11 | 0x25 | 0x29 => Some(1),
        // data2, ref2, strx2 and addrx2
        0x05 | 0x12 | 0x26 | 0x2A => Some(2),
        // strx3 and addrx3
        0x27 | 0x2B => Some(3),
        // data4, strp, ref_addr, ref4, sec_offset, line_strp, strx4 and addrx4
        0x06 | 0x0E | 0x10 | 0x13 | 0x17 | 0x1F | 0x28 | 0x2C => Some(4),
        // addr, data8 and ref8
        0x01 | 0x07 | 0x14 => Some(8),
        _ => other_size(form),
    }
}

/// Reads a number of one to four bytes.
fn short(values: &mut Reader<'_>, bytes: u64) -> Option<u64> {
    match bytes {
        1 => Some(u64::from(values.byte()?)),
        2 => Some(u64::from(values.half()?)),
        3 => {
            let low = u64::from(values.half()?);
            let high = u64::from(values.byte()?);
            Some(low.wrapping_add(high.wrapping_mul(1 << 16)))
        }
        _ => Some(u64::from(values.word()?)),
    }
}

/// Reads an unsigned LEB128 number, of which most have one byte.
pub fn number(values: &mut Reader<'_>) -> Option<u64> {
    let first = *values.rest.first()?;
    if first < 128 {
        values.byte()?;
        return Some(u64::from(first));
    }
    values.unsigned()
}
