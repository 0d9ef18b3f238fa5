//! The whole script.
ghost use Rattle.std.specs.Prelude.{◌≡◌, ◌++◌, ◌<◌, ◌^◌, length, OnOk, IfOk};
ghost use Rattle.std.specs.List.{concat, flat_map, range_with_len};
ghost use Rattle.wu_demo.specs.Draws.{in_turn};
ghost use Rattle.wu_demo.specs.Script.{user_command, directory_command, file_commands, round_commands, last_commands, demo_script};

use crate::commands::{put_directory, put_file, put_round, put_user, put_work};
use crate::generator::Generator;
use std::alloc::Global;
use wu_base::NoMemory;

/// The script of the number, the same at each call. 8 users get a group each; 32 directories and 800
/// files are made, owned by these users, and each file gets a text; then a file is changed in each of 100
/// rounds, and a user asks twice. Background work and flushes stand between. The script is shorter than
/// 4 MiB. The one error is `NoMemory`: out of memory.
pub fn make_script(alloc: Global, number: u64) -> Result<Vec<u8>, NoMemory>
    ensures bytes { IfOk result (λ script. script.items ≡ demo_script number) }
    ensures short { IfOk result (λ script. length script.items < 2 ^ 22) }
{
    write_script(alloc, number)
}

/// The script of the number.
#[tactic(auto, unfolding(crate::specs::Script::script))]
fn write_script(alloc: Global, number: u64) -> Result<Vec<u8>, NoMemory>
    ensures { IfOk result (λ script. script.items ≡ demo_script number) }
{
    let mut out = Vec::new(alloc);
    let mut generator = Generator::new(number);
    put_users(&mut out)?;
    put_directories(&mut out, &mut generator)?;
    put_files(&mut out, &mut generator)?;
    put_rounds(&mut out, &mut generator)?;
    put_last(&mut out)?;
    Ok(out)
}

/// Appends the commands that name the users.
fn put_users(out: &mut Vec<u8>) -> Result<(), NoMemory>
    ensures { OnOk result (out.new.items ≡ out.old.items ++ flat_map user_command (range_with_len 1 8)) }
{
    for user in 1..9u64 {
        put_user(out, user)?;
    }
    Ok(())
}

/// Appends the commands that make the directories.
fn put_directories(out: &mut Vec<u8>, generator: &mut Generator) -> Result<(), NoMemory>
    ensures bytes { OnOk result (out.new.items ≡ out.old.items ++ concat (in_turn directory_command 2 32 generator.old).0) }
    ensures state { OnOk result (generator.new ≡ (in_turn directory_command 2 32 generator.old).1) }
{
    for number in 2..34u64 {
        put_directory(out, generator, number)?;
    }
    Ok(())
}

/// Appends the commands that make the files.
fn put_files(out: &mut Vec<u8>, generator: &mut Generator) -> Result<(), NoMemory>
    ensures bytes { OnOk result (out.new.items ≡ out.old.items ++ concat (in_turn file_commands 100 800 generator.old).0) }
    ensures state { OnOk result (generator.new ≡ (in_turn file_commands 100 800 generator.old).1) }
{
    for number in 100..900u64 {
        put_file(out, generator, number)?;
    }
    Ok(())
}

/// Appends the commands of the rounds.
fn put_rounds(out: &mut Vec<u8>, generator: &mut Generator) -> Result<(), NoMemory>
    ensures bytes { OnOk result (out.new.items ≡ out.old.items ++ concat (in_turn round_commands 0 100 generator.old).0) }
    ensures state { OnOk result (generator.new ≡ (in_turn round_commands 0 100 generator.old).1) }
{
    for number in 0..100u64 {
        put_round(out, generator, number)?;
    }
    Ok(())
}

/// Appends the last commands: background work to its end, and the size of the index.
fn put_last(out: &mut Vec<u8>) -> Result<(), NoMemory>
    ensures { OnOk result (out.new.items ≡ out.old.items ++ last_commands) }
{
    put_work(out, 1_000_000)?;
    out.extend_from_slice(b"stat\n")?;
    Ok(())
}
