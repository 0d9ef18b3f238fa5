//! What command lines ask for.
use std::alloc::Global;
use wu_options::{CommandLine, read_command_line};
use wu_rows::{NoAnswer, plain_text, words};

/// What the words ask for: `none`, `check`, `demo` and its number, or `run` with the greatest input
/// and the postings at which to flush.
pub fn asked_for(alloc: Global, fields: &[&str]) -> Result<String, NoAnswer> {
    let [field] = fields else {
        return Err(NoAnswer::BadRow);
    };
    let words = words(alloc, field)?;
    let line = read_command_line(alloc, words.as_slice())?;
    text_of(alloc, line)
}

fn text_of(alloc: Global, line: Option<CommandLine>) -> Result<String, NoAnswer> {
    match line {
        Some(CommandLine::Run(settings)) => {
            Ok(format!(in alloc; "run {} {}", settings.max_input, settings.flush_at)?)
        }
        Some(CommandLine::Demo(number)) => Ok(format!(in alloc; "demo {number}")?),
        Some(CommandLine::Check) => plain_text(alloc, "check"),
        None => plain_text(alloc, "none"),
    }
}
