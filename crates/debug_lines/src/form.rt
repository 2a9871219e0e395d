//! The values of version 5's tables, by their forms (DWARF 5, 7.5.5 and 7.5.6).

ghost use Rattle.std.specs.Prelude.{◌≡◌, ◌+◌, ◌<◌, length, IfSome};

use crate::reader::Reader;
use crate::source_line::LONGEST;

/// The sections with the texts that a table may refer to.
#[derive(Clone, Copy)]
pub struct Strings<'a> {
    /// `.debug_line_str`.
    pub lines: &'a [u8],
    /// `.debug_str`.
    pub info: &'a [u8],
}

/// A text of a table. One in another section is read once it is requested, as many entries may
/// refer to a long one.
#[derive(Clone, Copy)]
pub enum LineText<'a> {
    /// The text itself.
    Here(&'a [u8]),
    /// The bytes of another section from the text's first byte on.
    Elsewhere(&'a [u8]),
}

impl<'a> LineText<'a> {
    /// Its bytes. There are none where another section has no 0 in its first 4097 bytes.
    pub fn bytes(&self) -> Option<&'a [u8]> {
        match *self {
            LineText::Here(bytes) => Some(bytes),
            LineText::Elsewhere(rest) => {
                let mut reader = Reader {
                    rest: rest.get(..LONGEST + 1).unwrap_or(rest),
                };
                reader.text()
            }
        }
    }
}

/// A value of a table.
#[derive(Clone, Copy)]
pub enum LineValue<'a> {
    Text(LineText<'a>),
    Number(u64),
    /// A value that no path and no number of a directory has.
    Other,
}

impl<'a> Strings<'a> {
    /// Reads a value of a form. There is none where it does not end in the table, or the form is
    /// none that a table has.
    pub fn value(&self, table: &mut Reader<'a>, form: u64) -> Option<LineValue<'a>>
        ensures { IfSome result (λ _. length table.new.rest.now < length table.old.rest.now) }
    {
        match form {
            // DW_FORM_string
            0x08 => Some(LineValue::Text(LineText::Here(table.text()?))),
            // DW_FORM_line_strp
            0x1F => Some(text_at(self.lines, table.word()?)),
            // DW_FORM_strp
            0x0E => Some(text_at(self.info, table.word()?)),
            // DW_FORM_udata
            0x0F => Some(LineValue::Number(table.unsigned()?)),
            // DW_FORM_data1, data2, data4 and data8
            0x0B => Some(LineValue::Number(u64::from(table.byte()?))),
            0x05 => Some(LineValue::Number(u64::from(table.half()?))),
            0x06 => Some(LineValue::Number(u64::from(table.word()?))),
            0x07 => Some(LineValue::Number(table.double_word()?)),
            _ => other(table, form),
        }
    }
}

/// Passes over a value of another form.
fn other<'a>(table: &mut Reader<'a>, form: u64) -> Option<LineValue<'a>>
    ensures { IfSome result (λ _. length table.new.rest.now < length table.old.rest.now) }
{
    match form {
        // DW_FORM_data16
        0x1E => skip(table, 16),
        // DW_FORM_block, block1, block2 and block4
        0x09 => {
            let size = table.unsigned()?;
            skip(table, size)
        }
        0x0A => {
            let size = table.byte()?;
            skip(table, u64::from(size))
        }
        0x03 => {
            let size = table.half()?;
            skip(table, u64::from(size))
        }
        0x04 => {
            let size = table.word()?;
            skip(table, u64::from(size))
        }
        _ => None,
    }
}

/// Passes over the bytes of a value.
fn skip<'a>(table: &mut Reader<'a>, count: u64) -> Option<LineValue<'a>>
    ensures { IfSome result
        (λ _. length table.new.rest.now + count ≡ length table.old.rest.now) }
{
    table.bytes(count)?;
    Some(LineValue::Other)
}

/// The text at a place of a section.
fn text_at(section: &[u8], at: u32) -> LineValue<'_> {
    match section.get(at as usize..) {
        Some(rest) => LineValue::Text(LineText::Elsewhere(rest)),
        None => LineValue::Other,
    }
}
