//! The words of a line, compared with texts and read as numbers.

ghost use Rattle.std.specs.Prelude.{◌≡◌, ◌+◌, ◌≤◌, [], ◌∷◌, ◌++◌, length, map, take, drop};
ghost use Rattle.std.specs.Prelude.{filter};
ghost use Rattle.mte_script.specs.Scripts.{words_of, is_some_text, piece_len_of, decimal_of};
ghost use Rattle.mte_script.specs.Scripts.{seed_of, is_word};
ghost use Rattle.mte_script.specs.Lines.{line_of};

/// How many words of a line are read: one more than an event may have, by which a line with too
/// many is known.
pub const WORD_LIMIT: usize = 14;

/// Reads the words of the line that begins at `start` into a list, as many as fit. The results
/// are their number and where the line ends.
pub fn read_words<'a>(
    script: &'a [u8],
    start: usize,
    words: &mut [&'a [u8]; WORD_LIMIT],
) -> (usize, usize)
    requires { start ≤ length script.now }
    ensures words { map (λ w. w.now) (take result.0 words.new)
        ≡ take WORD_LIMIT (words_of (line_of (drop start script.now))) }
    ensures count { result.0 ≤ WORD_LIMIT }
    ensures kept { length words.new ≡ WORD_LIMIT }
    ensures end { result.1 ≡ start + length (line_of (drop start script.now)) }
    ensures within { result.1 ≤ length script.now }
{
    let mut count = 0;
    let mut at = start;
    loop {
        let end = word_end(script, at);
        count = add_word(words, count, &script[at..end]);
        if end >= script.len() || script[end] == b'\n' {
            return (count, end);
        }
        at = end + 1;
    }
}

/// Where the word ends that begins at `start`: at a space, at an LF, or with the text.
fn word_end(text: &[u8], start: usize) -> usize
    requires { start ≤ length text.now }
    ensures end { result ≡ start + piece_len_of 32 (line_of (drop start text.now)) }
    ensures within { result ≤ length text.now }
{
    for i in start..text.len() {
        let byte = text[i];
        if byte > b' ' {
            continue;
        }
        if byte == b' ' || byte == b'\n' {
            return i;
        }
    }
    text.len()
}

/// Writes a word after the first `count` of a list, unless it is empty or the list is full. The
/// result is the number of words.
fn add_word<'a>(words: &mut [&'a [u8]; WORD_LIMIT], count: usize, word: &'a [u8]) -> usize
    requires { count ≤ WORD_LIMIT }
    ensures words { map (λ w. w.now) (take result words.new) ≡ take WORD_LIMIT
        (map (λ w. w.now) (take count words.old) ++ filter is_some_text (word.now ∷ [])) }
    ensures count { result ≤ WORD_LIMIT }
    ensures kept { length words.new ≡ WORD_LIMIT }
{
    if word.is_empty() || count >= WORD_LIMIT {
        return count;
    }
    words[count] = word;
    count + 1
}

/// Whether a word is a text.
pub fn is(word: &[u8], text: &[u8]) -> bool
    ensures { result ≡ is_word word.now text.now }
{
    word.len() == text.len() && word.starts_with(text)
}

/// The number of 1 to 10 decimal digits.
#[tactic(auto, unfolding(crate::specs::Scripts::decimal_of))]
pub fn decimal(word: &[u8]) -> Option<u64>
    ensures { result ≡ decimal_of word.now }
{
    if word.is_empty() || word.len() > 10 {
        return None;
    }
    let mut value = 0;
    for byte in word {
        let code = u64::from(*byte);
        if code < 48 || code > 57 {
            return None;
        }
        value = value * 10 + (code - 48);
    }
    Some(value)
}

/// The number of 16 hexadecimal digits of either case.
#[tactic(auto, unfolding(crate::specs::Scripts::seed_of))]
pub fn sixteen_digits(word: &[u8]) -> Option<u64>
    ensures { result ≡ seed_of word.now }
{
    let mut bytes = [0; 8];
    match hex::decode_to_slice(word, &mut bytes) {
        Ok(()) => Some(u64::from_be_bytes(bytes)),
        Err(_) => None,
    }
}
