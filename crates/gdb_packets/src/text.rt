//! Texts cut at separators.

ghost use Rattle.std.specs.Prelude.{◌≡◌, ◌==◌, ◌≤◌, ◌↔◌, length, drop, IsTrue};
ghost use Rattle.std.specs.List.{position_or_len, before_first};
ghost use Rattle.gdb_packets.specs.Texts.{cut_at, parts, rest_of, after, is_separator};

/// The text before the first separator and the text after it, if there is one.
pub fn split_once(text: &[u8], separator: u8) -> Option<(&[u8], &[u8])>
    ensures { parts result ≡ cut_at (λ b. b == separator) text.now }
{
    let end = front_len(text, separator);
    if end < text.len() {
        Some((&text[..end], &text[end + 1..]))
    } else {
        None
    }
}

/// The text before the first separator, or all of it.
pub fn front(text: &[u8], separator: u8) -> &[u8]
    ensures { result.now ≡ before_first (λ b. b == separator) text.now }
{
    &text[..front_len(text, separator)]
}

/// How many bytes are before the first separator, or in all.
fn front_len(text: &[u8], separator: u8) -> usize
    ensures len { result ≡ position_or_len (λ b. b == separator) text.now }
    ensures within { result ≤ length text.now }
{
    text.iter().take_while(|b| **b != separator).count()
}

/// The text after a first byte, if a text begins with it.
pub fn strip(text: &[u8], first: u8) -> Option<&[u8]>
    ensures { rest_of result ≡ after first text.now }
{
    match text {
        [byte, rest @ ..] if *byte == first => Some(rest),
        _ => None,
    }
}

/// The name of a packet, and what follows it: nothing, or a `:`, `;` or `,` and more.
pub fn split_name(text: &[u8]) -> (&[u8], &[u8])
    ensures name { result.0.now ≡ before_first is_separator text.now }
    ensures rest { result.1.now ≡ drop (position_or_len is_separator text.now) text.now }
{
    text.split_at(name_len(text))
}

fn name_len(text: &[u8]) -> usize
    ensures len { result ≡ position_or_len is_separator text.now }
    ensures within { result ≤ length text.now }
{
    let is_name = |b: &&u8| **b != b':' && **b != b';' && **b != b',';
    text.iter().take_while(is_name).count()
}

/// Whether a text is a word.
pub fn is(text: &[u8], word: &[u8]) -> bool
    ensures { IsTrue result ↔ (text.now ≡ word.now) }
{
    text == word
}
