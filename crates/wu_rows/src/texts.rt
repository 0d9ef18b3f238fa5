//! Scripts, outputs and command lines as they are written in a row.
use crate::answers::{bytes_text, put_byte};
use crate::arguments::{bytes, number};
use crate::comparing::NoAnswer;
use std::alloc::Global;

/// The bytes that the field is written for, where `~` stands for TAB and `{64*a }` for 64 times `a `.
pub fn script(alloc: Global, field: &str) -> Result<Vec<u8>, NoAnswer> {
    let mut script = Vec::new(alloc);
    for piece in field.split('{') {
        match piece.split_once('}') {
            Some((repeated, after)) => {
                put_repeated(alloc, &mut script, repeated)?;
                put_tabbed(alloc, &mut script, after)?;
            }
            None => put_tabbed(alloc, &mut script, piece)?,
        }
    }
    Ok(script)
}

/// Appends a text as often as the number before it says.
fn put_repeated(alloc: Global, script: &mut Vec<u8>, repeated: &str) -> Result<(), NoAnswer> {
    let Some((times, text)) = repeated.split_once('*') else {
        return Err(NoAnswer::BadRow);
    };
    let mut once = Vec::new(alloc);
    put_tabbed(alloc, &mut once, text)?;
    for _ in 0..number(times)? {
        script.extend_from_slice(once.as_slice())?;
    }
    Ok(())
}

/// Appends the bytes that the text is written for.
fn put_tabbed(alloc: Global, script: &mut Vec<u8>, text: &str) -> Result<(), NoAnswer> {
    for byte in &bytes(alloc, text)? {
        script.push(if *byte == b'~' { b'\t' } else { *byte })?;
    }
    Ok(())
}

/// An output as a script is written, without the line feed at its end. One that has none there is written in brackets.
pub fn shown(alloc: Global, output: &[u8]) -> Result<String, NoAnswer> {
    match output {
        [] => Ok(String::new(alloc)),
        [lines @ .., b'\n'] if !lines.is_empty() => {
            let mut text = String::new(alloc);
            for byte in lines {
                put_byte(&mut text, if *byte == b'\t' { b'~' } else { *byte })?;
            }
            Ok(text)
        }
        _ => bytes_text(alloc, output),
    }
}

/// The words of the field, with a space between each two; `''` is the empty word.
pub fn words(alloc: Global, field: &str) -> Result<Vec<&str>, NoAnswer> {
    let mut words = Vec::new(alloc);
    for word in field.split_whitespace() {
        words.push(if word == "''" { "" } else { word })?;
    }
    Ok(words)
}
