//! The word of a run.
ghost use Rattle.std.specs.Prelude.{◌≡◌, ◌≤◌, ◌++◌, List, ℕ, take};
ghost use Rattle.std.specs.Str.{str_to_ascii_lowercase};
ghost use Rattle.std.specs.Str.Lossy.{utf8_valid_len};
ghost use Rattle.wu_base.specs.declared.limits.TheConstants.{WORD_MAX as WordMax};
ghost use Rattle.wu_token.specs.Words.{folded_text, word_of};

use caseless::Caseless;
use std::marker::Model;
use wu_base::WORD_MAX;

/// The word of a run: the run without differences of case, cut to [`WORD_MAX`] bytes. The longest front
/// of the run that is UTF-8 has Unicode's full default case folding, the rest its ASCII letters in
/// lower case. It takes no memory. Contracts see the list of its bytes.
#[derive(Drop)]
pub struct Word {
    room: [u8; WORD_MAX],
    len: usize,
}

impl Model for Word {
    ghost Value = { List ℕ };

    ghost view = { λ w. take w.len w.room };

    ghost invariant = { λ w. w.len ≤ WordMax };
}

impl Word {
    /// The word of the run.
    pub fn of_run(run: &[u8]) -> Word
        ensures { result ≡ word_of run.now }
    {
        let len = run.len().min(WORD_MAX);
        let mut room = [0; WORD_MAX];
        for i in 0..len {
            if !run[i].is_ascii() {
                return Word::by_folding(run);
            }
            room[i] = run[i].to_ascii_lowercase();
        }
        Word { room, len }
    }

    /// The same, letter by letter.
    fn by_folding(run: &[u8]) -> Word
        ensures { result ≡ word_of run.now }
    {
        let text = text_at_front(run);
        let mut word = Word {
            room: [0; WORD_MAX],
            len: 0,
        };
        word.push_folded(text);
        word.push_lowered(&run[text.len()..]);
        word
    }

    /// Appends as many of the bytes as there is room for.
    fn push(&mut self, bytes: &[u8])
        ensures { self.new ≡ take WordMax (self.old ++ bytes.now) }
    {
        let count = bytes.len().min(WORD_MAX - self.len);
        let end = self.len + count;
        self.room[self.len..end].copy_from_slice(&bytes[..count]);
        self.len = end;
    }

    /// Appends as much of the folding of the text as there is room for.
    fn push_folded(&mut self, text: &str)
        ensures { self.new ≡ take WordMax (self.old ++ folded_text text.now) }
    {
        let mut letters = text.chars().default_case_fold();
        while self.len < WORD_MAX {
            let Some(letter) = letters.next() else {
                return;
            };
            let mut room = [0; 4];
            self.push(letter.encode_utf8(&mut room).as_bytes());
        }
    }

    /// Appends as many of the bytes as there is room for, ASCII letters in lower case.
    fn push_lowered(&mut self, bytes: &[u8])
        ensures { self.new ≡ take WordMax (self.old ++ str_to_ascii_lowercase bytes.now) }
    {
        let count = bytes.len().min(WORD_MAX - self.len);
        let end = self.len + count;
        let place = &mut self.room[self.len..end];
        place.copy_from_slice(&bytes[..count]);
        place.make_ascii_lowercase();
        self.len = end;
    }

    /// The bytes of the word.
    pub fn as_slice(&self) -> &[u8]
        ensures { result.now ≡ self.now }
    {
        &self.room[..self.len]
    }
}

/// The longest text at the front of the bytes.
fn text_at_front(bytes: &[u8]) -> &str
    ensures { result.now ≡ take (utf8_valid_len bytes.now) bytes.now }
{
    match bytes.utf8_chunks().next() {
        Some(chunk) => chunk.valid(),
        None => "",
    }
}
