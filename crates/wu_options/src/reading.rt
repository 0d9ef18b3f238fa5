//! The command-line arguments are read as one command without a subcommand.
ghost use Rattle.std.specs.Prelude.{◌≡◌, ◌≤◌, IfOk, IfSome, map, option_map, codes};
ghost use Rattle.std.specs.Option.{option_to_list};
ghost use Rattle.clap.specs.Words.{app_of, found_of};
ghost use Rattle.wu_options.specs.CommandLines.{check_by, command_line_by, command_line_of, demo_by, number_in, settings_by};
ghost use Rattle.wu_options.specs.Parser.{command_app, said_in};

use crate::command_lines::{CommandLine, FLUSH_MAX, Settings};
use clap::error::ErrorKind;
use clap::{Arg, ArgAction, ArgMatches, Command};
use std::alloc::{AllocError, Global};
use wu_base::{FLUSH_DEFAULT, INPUT_MAX, NoMemory};
use wu_fields::read_decimal;

/// Reads the command-line arguments, those after the program's name. They ask for a session where
/// the one positional argument is `run`, and `--max-input` and `--flush` are each given at most
/// once, with a number in their range, as `--flush=5` or as `--flush` and the next argument; they
/// ask for a demo where the positional arguments are `demo` and a decimal number up to 2^64 - 1, and
/// for a check of the store where `check` is the one positional argument, in both cases without an
/// option. All other arguments are invalid, and the answer is `None`.
pub fn read_command_line(alloc: Global, arguments: &[&str]) -> Result<Option<CommandLine>, NoMemory>
    ensures { IfOk result (λ line. line ≡ command_line_of (map (λ argument. argument.now) arguments.now)) }
{
    let command = command(alloc)?;
    match command.try_get_matches_from(arguments) {
        Ok(matches) => Ok(command_line_in(&matches)),
        Err(error) => match error.kind() {
            ErrorKind::OutOfMemory => Err(NoMemory),
            _ => Ok(None),
        },
    }
}

/// The command, without a subcommand. Values stay text, and `command_line_in` decides on them: that
/// an option here takes no value which begins with `-` and is longer costs nothing, since no number
/// does.
fn command<'a>(alloc: Global) -> Result<Command<'a>, AllocError>
    ensures { IfOk result (λ command. app_of command ≡ command_app) }
{
    let max_input = Arg::new(alloc, "max-input")
        .long("max-input")
        .action(ArgAction::Set);
    let flush = Arg::new(alloc, "flush")
        .long("flush")
        .action(ArgAction::Set);
    let words = Arg::new(alloc, "words").action(ArgAction::Append);
    Command::new(alloc, "wumpus")
        .no_binary_name(true)
        .disable_help_flag(true)
        .disable_version_flag(true)
        .arg(max_input)?
        .arg(flush)?
        .arg(words)
}

/// What the matches ask for, if they are valid.
fn command_line_in(matches: &ArgMatches<'_>) -> Option<CommandLine>
    ensures { result ≡ command_line_by (said_in (found_of matches.now)) }
{
    match matches.get_strs("words")? {
        [command] if *command == "run" => Some(CommandLine::Run(settings_in(matches)?)),
        [command] if *command == "check" => check_in(matches),
        [command, number] if *command == "demo" => Some(CommandLine::Demo(demo_in(
            matches, number,
        )?)),
        _ => None,
    }
}

/// The settings that the options give.
fn settings_in(matches: &ArgMatches<'_>) -> Option<Settings>
    ensures { result ≡ settings_by (said_in (found_of matches.now)) }
{
    let max_input = number_in(matches.get_str("max-input"), 0, INPUT_MAX, INPUT_MAX)?;
    let flush_at = number_in(
        matches.get_str("flush"),
        1,
        FLUSH_MAX as u64,
        FLUSH_DEFAULT as u64,
    )?;
    Some(Settings {
        max_input,
        flush_at: flush_at as u32,
    })
}

/// The number of a demo, which has no options.
fn demo_in(matches: &ArgMatches<'_>, number: &str) -> Option<u64>
    ensures { result ≡ demo_by (said_in (found_of matches.now)) number.now }
{
    match (matches.get_str("max-input"), matches.get_str("flush")) {
        (None, None) => read_decimal(number.as_bytes(), u64::MAX),
        _ => None,
    }
}

/// A check, which has no options.
fn check_in(matches: &ArgMatches<'_>) -> Option<CommandLine>
    ensures { result ≡ check_by (said_in (found_of matches.now)) }
{
    match (matches.get_str("max-input"), matches.get_str("flush")) {
        (None, None) => Some(CommandLine::Check),
        _ => None,
    }
}

/// The number that the value of an option spells, from `least` to `most`, or the default where it
/// has no value.
fn number_in(value: Option<&str>, least: u64, most: u64, default: u64) -> Option<u64>
    requires { default ≤ most }
    ensures value { result ≡ number_in least most default (option_to_list (option_map (λ text. text.now) value.entry)) }
    ensures within { IfSome result (λ number. number ≤ most) }
{
    let Some(text) = value else {
        return Some(default);
    };
    let number = read_decimal(text.as_bytes(), most)?;
    if number < least {
        return None;
    }
    Some(number)
}
