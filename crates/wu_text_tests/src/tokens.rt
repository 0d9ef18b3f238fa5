//! Words and tokens of texts.
ghost use Rattle.std.specs.Prelude.{◌≤◌, length, IfOk};

use std::alloc::Global;
use wu_base::TEXT_MAX;
use wu_rows::{NoAnswer, bytes, bytes_text, list_text, number_text, put_extent};
use wu_token::{
    FILE_END, FILE_START, LINE_END, LINE_START, Lines, Word, token_count, tokens, words,
};

/// The answer of the call to the arguments.
pub fn answer(alloc: Global, call: &str, arguments: &[&str]) -> Result<String, NoAnswer> {
    match call {
        "tokens" => placed_terms(alloc, arguments),
        "token_count" => number_of_tokens(alloc, arguments),
        "words" => words_of(alloc, arguments),
        "Runs" => words_of_runs(alloc, arguments),
        "FILE_START" => bytes_text(alloc, FILE_START),
        "FILE_END" => bytes_text(alloc, FILE_END),
        "LINE_START" => bytes_text(alloc, LINE_START),
        "LINE_END" => bytes_text(alloc, LINE_END),
        _ => Err(NoAnswer::BadRow),
    }
}

/// The bytes of a text that isn't too long.
fn text_of(alloc: Global, field: &str) -> Result<Vec<u8>, NoAnswer>
    ensures { IfOk result (λ text. length text.items ≤ TEXT_MAX) }
{
    let text = bytes(alloc, field)?;
    if text.len() > TEXT_MAX {
        return Err(NoAnswer::BadRow);
    }
    Ok(text)
}

fn placed_terms(alloc: Global, arguments: &[&str]) -> Result<String, NoAnswer> {
    let [text] = arguments else {
        return Err(NoAnswer::BadRow);
    };
    let text = text_of(alloc, text)?;
    let mut shown = String::new(alloc);
    for token in &tokens(alloc, &text)? {
        put_word(alloc, &mut shown, token.term.as_slice())?;
        put_extent(&mut shown, u64::from(token.start), u64::from(token.end))?;
    }
    Ok(shown)
}

fn put_word(alloc: Global, shown: &mut String, word: &[u8]) -> Result<(), NoAnswer> {
    Ok(shown.push_str(bytes_text(alloc, word)?.as_str())?)
}

fn number_of_tokens(alloc: Global, arguments: &[&str]) -> Result<String, NoAnswer> {
    let [text] = arguments else {
        return Err(NoAnswer::BadRow);
    };
    let text = text_of(alloc, text)?;
    number_text(alloc, token_count(&text))
}

fn words_of(alloc: Global, arguments: &[&str]) -> Result<String, NoAnswer> {
    let [text] = arguments else {
        return Err(NoAnswer::BadRow);
    };
    let text = bytes(alloc, text)?;
    list_text(alloc, &words(alloc, &text)?)
}

fn words_of_runs(alloc: Global, arguments: &[&str]) -> Result<String, NoAnswer> {
    let [text] = arguments else {
        return Err(NoAnswer::BadRow);
    };
    let text = bytes(alloc, text)?;
    let mut shown = String::new(alloc);
    for line in Lines::of_text(&text) {
        for run in line.runs() {
            put_word(alloc, &mut shown, Word::of_run(run.bytes).as_slice())?;
            put_extent(&mut shown, run.start as u64, run.end() as u64)?;
        }
    }
    Ok(shown)
}
