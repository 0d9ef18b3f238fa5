//! Texts: lines of words whose numbers are drawn.
ghost use Rattle.std.specs.Prelude.{◌≡◌, ◌++◌, ◌∷◌, ◌≤◌, [], decimal, OnOk};
ghost use Rattle.std.specs.List.{concat};
ghost use Rattle.wu_demo.specs.Draws.{in_turn};
ghost use Rattle.wu_demo.specs.Script.{word, word_number, text_line, text_command};

use crate::generator::Generator;
use wu_base::NoMemory;
use wu_fields::put_decimal;

/// How many words a line has.
const WORDS_PER_LINE: u64 = 8;

/// The number of a word.
#[tactic(auto, unfolding(crate::specs::Script::word_number))]
pub fn draw_word(generator: &mut Generator) -> u64
    ensures value { result ≡ (word_number generator.old).0 }
    ensures state { generator.new ≡ (word_number generator.old).1 }
{
    let left = generator.draw(40);
    let right = generator.draw(25);
    left * right
}

/// Appends the word of this number.
pub fn put_word(out: &mut Vec<u8>, number: u64) -> Result<(), NoMemory>
    ensures { OnOk result (out.new.items ≡ out.old.items ++ word number) }
{
    out.push(b'w')?;
    put_decimal(out, number)
}

/// Appends a space and a drawn word.
fn put_further_word(out: &mut Vec<u8>, generator: &mut Generator) -> Result<(), NoMemory>
    ensures bytes { OnOk result (out.new.items ≡ out.old.items ++ (32 ∷ word (word_number generator.old).0)) }
    ensures state { OnOk result (generator.new ≡ (word_number generator.old).1) }
{
    out.push(b' ')?;
    let number = draw_word(generator);
    put_word(out, number)
}

/// Appends a line of drawn words, with a space between each two.
#[tactic(auto, unfolding(crate::specs::Script::text_line))]
fn put_text_line(out: &mut Vec<u8>, generator: &mut Generator) -> Result<(), NoMemory>
    ensures bytes { OnOk result (out.new.items ≡ out.old.items ++ (text_line generator.old).0) }
    ensures state { OnOk result (generator.new ≡ (text_line generator.old).1) }
{
    let first = draw_word(generator);
    put_word(out, first)?;
    'words: for _ in 1..WORDS_PER_LINE {
        put_further_word(out, generator)?;
    }
    out.push(b'\n')?;
    Ok(())
}

/// Appends so many lines of drawn words.
fn put_text_lines(out: &mut Vec<u8>, generator: &mut Generator, lines: u64) -> Result<(), NoMemory>
    ensures bytes { OnOk result (out.new.items ≡ out.old.items ++ concat (in_turn (λ _. text_line) 0 lines generator.old).0) }
    ensures state { OnOk result (generator.new ≡ (in_turn (λ _. text_line) 0 lines generator.old).1) }
{
    'text_lines: for _ in 0..lines {
        put_text_line(out, generator)?;
    }
    Ok(())
}

/// Appends the command that gives the file a text of so many lines.
#[tactic(auto, unfolding(crate::specs::Script::text_command))]
pub fn put_text(
    out: &mut Vec<u8>,
    generator: &mut Generator,
    file: u64,
    lines: u64,
) -> Result<(), NoMemory>
    ensures bytes { OnOk result (out.new.items ≡ out.old.items ++ (text_command file lines generator.old).0) }
    ensures state { OnOk result (generator.new ≡ (text_command file lines generator.old).1) }
{
    let mut body = Vec::new(*out.allocator());
    put_text_lines(&mut body, generator, lines)?;
    out.extend_from_slice(b"text")?;
    put_number(out, file)?;
    put_number(out, body.len() as u64)?;
    out.push(b'\n')?;
    out.extend_from_slice(&body)?;
    out.push(b'\n')?;
    Ok(())
}

/// Appends a TAB and the number.
pub fn put_number(out: &mut Vec<u8>, number: u64) -> Result<(), NoMemory>
    ensures { OnOk result (out.new.items ≡ out.old.items ++ (9 ∷ decimal number)) }
{
    out.push(b'\t')?;
    put_decimal(out, number)
}
