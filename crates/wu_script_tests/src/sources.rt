//! Sources that give a script in their own ways, and the words for the items that were read.
ghost use Rattle.std.specs.Prelude.{◌≡◌, OnOk, Some, false};
ghost use Rattle.wu_script.specs.Holding.{Follows};

use std::alloc::Global;
use wu_outside::{Failed, PlainSource, Source};
use wu_rows::NoAnswer;
use wu_script::{Command, Item, ReadEnd, Reader, Why};

/// A source that gives at most so many bytes at once.
#[derive(Drop)]
pub struct Trickle {
    pub plain: PlainSource,
    pub most: usize,
    pub most_asked: usize,
}

impl Source for Trickle {
    ghost left = { λ s. Some s.plain.left };

    ghost ended = { λ s. s.plain.ended };

    ghost last_read = { λ s. s.plain.last_read };

    ghost most_asked = { λ s. s.most_asked };

    ghost faults = { λ _. 0 };

    fn read(&mut self, buf: &mut [u8]) -> Result<usize, Failed> {
        self.most_asked = self.most_asked.max(buf.len());
        let room = self.most.max(1).min(buf.len());
        self.plain.read(&mut buf[..room])
    }
}

/// A source that notes how many bytes each of its first reads asked for.
#[derive(Drop)]
pub struct Noting {
    pub plain: PlainSource,
    pub asked: [u64; 4],
    pub reads: usize,
}

impl Source for Noting {
    ghost left = { λ s. Some s.plain.left };

    ghost ended = { λ s. s.plain.ended };

    ghost last_read = { λ s. s.plain.last_read };

    ghost most_asked = { λ s. s.plain.most_asked };

    ghost faults = { λ _. 0 };

    fn read(&mut self, buf: &mut [u8]) -> Result<usize, Failed> {
        if self.reads < 4 {
            self.asked[self.reads] = buf.len() as u64;
            self.reads += 1;
        }
        self.plain.read(buf)
    }
}

/// A word for an item.
fn word_of(item: &Item) -> &'static str {
    match item {
        Item::Command(Command::Update(_)) => "update ",
        Item::Command(Command::Ask(_)) => "ask ",
        Item::Command(Command::Flush) => "flush ",
        Item::Command(Command::Work(_)) => "work ",
        Item::Command(Command::Stat) => "stat ",
        Item::Command(Command::Save) => "save ",
        Item::Text { .. } => "text ",
        Item::Blank => "blank ",
        Item::End => "end",
        Item::Refused(why) => match why {
            Why::LongLine => "longline ",
            Why::Syntax => "syntax ",
            Why::Truncated => "truncated ",
            Why::TooLong => "toolong ",
            Why::BadBody => "badbody ",
            _ => "other ",
        },
    }
}

/// The words for the items that are read, up to the end or an error.
pub fn words_of_items<I: Source>(
    alloc: Global,
    source: &mut I,
    max_input: u64,
) -> Result<String, NoAnswer>
    requires { I.ended source.old ≡ false }
{
    let mut reader = Reader::new(alloc, max_input)?;
    words_read(alloc, &mut reader, source)
}

fn words_read<I: Source>(
    alloc: Global,
    reader: &mut Reader,
    source: &mut I,
) -> Result<String, NoAnswer>
    requires { Follows (I.ended source.old) (I.last_read source.old) reader.old }
{
    let mut words = String::new(alloc);
    for _ in 0..20 {
        match next_word(reader, source) {
            Ok(word) => {
                words.push_str(word)?;
                if word == "end" {
                    return Ok(words);
                }
            }
            Err(end) => {
                words.push_str(word_of_end(end))?;
                return Ok(words);
            }
        }
    }
    Ok(words)
}

/// A word for the next item.
fn next_word<I: Source>(reader: &mut Reader, source: &mut I) -> Result<&'static str, ReadEnd>
    requires { Follows (I.ended source.old) (I.last_read source.old) reader.old }
    ensures { OnOk result (Follows (I.ended source.new) (I.last_read source.new) reader.new) }
{
    let item = reader.next(source)?;
    Ok(word_of(&item))
}

fn word_of_end(end: ReadEnd) -> &'static str {
    match end {
        ReadEnd::ReadFault => "fault",
        ReadEnd::InputTooLong => "too long",
        ReadEnd::NoMemory => "no memory",
    }
}
