//! What is read and printed of expressions.
use std::alloc::Global;
use wu_gcl::{
    Expr, ExprFault, Tag, each_text_is_read, one_reading, parse, print, tag_bytes, terms_of,
};
use wu_rows::{NoAnswer, bytes, bytes_text, list_text, number, plain_text};

/// The answer of the call to the arguments.
pub fn answer(alloc: Global, call: &str, arguments: &[&str]) -> Result<String, NoAnswer> {
    match call {
        "print" => printed(alloc, arguments),
        "parse" => outcome_asked(alloc, arguments),
        "terms_of" => terms(alloc, arguments),
        "ExprFault" => text_of_fault(alloc, arguments),
        "tag_bytes" => tag_asked(alloc, arguments),
        "each_text_is_read" => {
            each_text_is_read();
            plain_text(alloc, "a law")
        }
        "one_reading" => {
            one_reading();
            plain_text(alloc, "a law")
        }
        _ => Err(NoAnswer::BadRow),
    }
}

/// The expression that the field spells.
fn expression(alloc: Global, field: &str) -> Result<Expr, NoAnswer> {
    match parse(alloc, &bytes(alloc, field)?)? {
        Ok(expr) => Ok(expr),
        Err(_) => Err(NoAnswer::BadRow),
    }
}

fn printed(alloc: Global, arguments: &[&str]) -> Result<String, NoAnswer> {
    let [text] = arguments else {
        return Err(NoAnswer::BadRow);
    };
    let expr = expression(alloc, text)?;
    bytes_text(alloc, &print(alloc, &expr)?)
}

fn terms(alloc: Global, arguments: &[&str]) -> Result<String, NoAnswer> {
    let [text] = arguments else {
        return Err(NoAnswer::BadRow);
    };
    let expr = expression(alloc, text)?;
    list_text(alloc, &terms_of(alloc, &expr)?)
}

/// The bytes of the tag of this name.
fn tag_asked(alloc: Global, arguments: &[&str]) -> Result<String, NoAnswer> {
    let [name] = arguments else {
        return Err(NoAnswer::BadRow);
    };
    bytes_text(alloc, tag_bytes(tag_named(name)?))
}

/// The outcome of a text, or of a piece so many times and then an end.
fn outcome_asked(alloc: Global, arguments: &[&str]) -> Result<String, NoAnswer> {
    match arguments {
        [text] => outcome(alloc, &bytes(alloc, text)?),
        [piece, count, end] => outcome_of_repeated(alloc, piece, number(count)?, end),
        _ => Err(NoAnswer::BadRow),
    }
}

/// The fault of the text, if it spells no expression.
fn outcome(alloc: Global, text: &[u8]) -> Result<String, NoAnswer> {
    match parse(alloc, text)? {
        Ok(_) => plain_text(alloc, "read"),
        Err(fault) => plain_text(alloc, name_of(fault)),
    }
}

/// The same of the piece so many times, and then the end.
fn outcome_of_repeated(
    alloc: Global,
    piece: &str,
    count: u64,
    end: &str,
) -> Result<String, NoAnswer> {
    let mut text = Vec::new(alloc);
    for _ in 0..count {
        text.extend_from_slice(piece.as_bytes())?;
    }
    text.extend_from_slice(end.as_bytes())?;
    outcome(alloc, &text)
}

fn name_of(fault: ExprFault) -> &'static str {
    match fault {
        ExprFault::NotAnExpression => "NotAnExpression",
        ExprFault::TooLarge => "TooLarge",
        ExprFault::NoWord => "NoWord",
        ExprFault::BadWindow => "BadWindow",
    }
}

fn text_of_fault(alloc: Global, arguments: &[&str]) -> Result<String, NoAnswer> {
    let [name] = arguments else {
        return Err(NoAnswer::BadRow);
    };
    let fault = match *name {
        "NotAnExpression" => ExprFault::NotAnExpression,
        "TooLarge" => ExprFault::TooLarge,
        "NoWord" => ExprFault::NoWord,
        "BadWindow" => ExprFault::BadWindow,
        _ => return Err(NoAnswer::BadRow),
    };
    Ok(format!(in alloc; "{fault}")?)
}

fn tag_named(name: &str) -> Result<Tag, NoAnswer> {
    match name {
        "FileStart" => Ok(Tag::FileStart),
        "FileEnd" => Ok(Tag::FileEnd),
        "LineStart" => Ok(Tag::LineStart),
        "LineEnd" => Ok(Tag::LineEnd),
        _ => Err(NoAnswer::BadRow),
    }
}
