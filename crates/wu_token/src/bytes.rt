//! The bytes that words are made of, and those that end a word or a line.
ghost use Rattle.std.specs.Prelude.{◌≡◌, ◌≤◌, length, position};
ghost use Rattle.wu_token.specs.Words.{is_word_byte, is_separator};
ghost use Rattle.wu_token.specs.Pieces.{without_line_feed};

/// Whether the byte belongs to a word: an ASCII letter, an ASCII digit, or 0x80 and above.
pub fn is_word_byte(byte: u8) -> bool
    ensures { result ≡ is_word_byte byte }
{
    byte.is_ascii_alphanumeric() || byte >= 0x80
}

/// Where the first byte of a word stands.
pub(crate) fn word_byte_at(bytes: &[u8]) -> Option<usize>
    ensures { result ≡ position is_word_byte bytes.now }
{
    bytes.iter().position(|byte| is_word_byte(*byte))
}

/// Where the first byte stands that belongs to no word.
pub(crate) fn separator_at(bytes: &[u8]) -> Option<usize>
    ensures { result ≡ position is_separator bytes.now }
{
    bytes.iter().position(|byte| !is_word_byte(*byte))
}

/// The line without the line feed at its end, if it has one.
pub(crate) fn without_line_feed(line: &[u8]) -> &[u8]
    ensures bytes { result.now ≡ without_line_feed line.now }
    ensures len { length result.now ≤ length line.now }
{
    match line {
        [front @ .., b'\n'] => front,
        _ => line,
    }
}
