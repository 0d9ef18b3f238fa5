//! The commands of the script.
ghost use Rattle.std.specs.Prelude.{◌≡◌, ◌++◌, ◌∷◌, ◌≤◌, ◌<◌, [], decimal, codes, OnOk};
ghost use Rattle.wu_demo.specs.Script.{line, word, user_command, directory_mode, directory_command, file_mode, create_command};
ghost use Rattle.wu_demo.specs.Script.{work_command, work_after, flush_after, file_commands, chmod_command, change_command};
ghost use Rattle.wu_demo.specs.Script.{count_command, rank_command, question_commands, round_commands};

use crate::generator::Generator;
use crate::texts::{draw_word, put_number, put_text, put_word};
use wu_base::NoMemory;
use wu_fields::put_decimal;

/// Appends the command that names a user and her group.
#[tactic(auto, unfolding(crate::specs::Script::user_command))]
pub fn put_user(out: &mut Vec<u8>, user: u64) -> Result<(), NoMemory>
    ensures { OnOk result (out.new.items ≡ out.old.items ++ user_command user) }
{
    out.extend_from_slice(b"user")?;
    put_number(out, user)?;
    put_number(out, 100 + user % 3)?;
    out.push(b'\n')?;
    Ok(())
}

/// A node that is made: its number, its directory, its owner, its group and its mode.
#[derive(Clone, Copy)]
struct NewNode {
    number: u64,
    parent: u64,
    owner: u64,
    group: u64,
    mode: &'static [u8],
}

/// Appends the command that makes the node. Its name is the letter and its number.
fn put_new_node(out: &mut Vec<u8>, word: &[u8], letter: u8, node: &NewNode) -> Result<(), NoMemory>
    ensures { OnOk result (out.new.items ≡ out.old.items ++ line
        (word.now ∷ decimal node.now.number ∷ decimal node.now.parent ∷ (letter ∷ decimal node.now.number)
        ∷ decimal node.now.owner ∷ decimal node.now.group ∷ node.now.mode.now ∷ [])) }
{
    out.extend_from_slice(word)?;
    put_place(out, node.number, node.parent, letter)?;
    put_access(out, node.owner, node.group, node.mode)?;
    out.push(b'\n')?;
    Ok(())
}

/// Appends the number of a node, its directory and its name, each after a TAB.
fn put_place(out: &mut Vec<u8>, number: u64, parent: u64, letter: u8) -> Result<(), NoMemory>
    ensures { OnOk result (out.new.items ≡ out.old.items ++ (9 ∷ decimal number ++ 9 ∷ decimal parent ++ 9 ∷ letter ∷ decimal number)) }
{
    put_number(out, number)?;
    put_number(out, parent)?;
    out.extend_from_slice(&[b'\t', letter])?;
    put_decimal(out, number)
}

/// Appends the owner, the group and the mode of a node, each after a TAB.
fn put_access(out: &mut Vec<u8>, owner: u64, group: u64, mode: &[u8]) -> Result<(), NoMemory>
    ensures { OnOk result (out.new.items ≡ out.old.items ++ (9 ∷ decimal owner ++ 9 ∷ decimal group ++ 9 ∷ mode.now)) }
{
    put_number(out, owner)?;
    put_number(out, group)?;
    out.push(b'\t')?;
    out.extend_from_slice(mode)?;
    Ok(())
}

/// Appends the command that makes the directory of this number, at least 2, in one of those before it.
#[tactic(auto, unfolding(crate::specs::Script::directory_command))]
pub fn put_directory(
    out: &mut Vec<u8>,
    generator: &mut Generator,
    number: u64,
) -> Result<(), NoMemory>
    requires { 2 ≤ number }
    ensures bytes { OnOk result (out.new.items ≡ out.old.items ++ (directory_command number generator.old).0) }
    ensures state { OnOk result (generator.new ≡ (directory_command number generator.old).1) }
{
    let node = NewNode {
        number,
        parent: 1 + generator.draw(number - 1),
        owner: 1 + generator.draw(8),
        group: 100 + generator.draw(3),
        mode: directory_mode(generator.draw(4)),
    };
    put_new_node(out, b"mkdir", b'd', &node)
}

/// The mode of a directory, of four.
#[tactic(auto, using(std::proofs::lemmas::Bool::Decides::nat_tests), unfolding(crate::specs::Script::directory_mode))]
fn directory_mode(number: u64) -> &'static [u8]
    ensures { result.now ≡ directory_mode number }
{
    match number {
        0 => b"755",
        1 => b"711",
        2 => b"750",
        _ => b"700",
    }
}

/// The mode of a file, of four.
#[tactic(auto, using(std::proofs::lemmas::Bool::Decides::nat_tests), unfolding(crate::specs::Script::file_mode))]
fn file_mode(number: u64) -> &'static [u8]
    ensures { result.now ≡ file_mode number }
{
    match number {
        0 => b"644",
        1 => b"640",
        2 => b"600",
        _ => b"604",
    }
}

/// Appends the commands that make the file of this number, give it a text, and do what is due after it.
#[tactic(auto, unfolding(crate::specs::Script::file_commands))]
pub fn put_file(out: &mut Vec<u8>, generator: &mut Generator, number: u64) -> Result<(), NoMemory>
    ensures bytes { OnOk result (out.new.items ≡ out.old.items ++ (file_commands number generator.old).0) }
    ensures state { OnOk result (generator.new ≡ (file_commands number generator.old).1) }
{
    put_new_file(out, generator, number)?;
    let lines = 1 + generator.draw(20);
    put_text(out, generator, number, lines)?;
    put_work_after(out, number)?;
    put_flush_after(out, number)
}

/// Appends the command that makes the file of this number, in the root or a directory.
#[tactic(auto, unfolding(crate::specs::Script::create_command))]
fn put_new_file(out: &mut Vec<u8>, generator: &mut Generator, number: u64) -> Result<(), NoMemory>
    ensures bytes { OnOk result (out.new.items ≡ out.old.items ++ (create_command number generator.old).0) }
    ensures state { OnOk result (generator.new ≡ (create_command number generator.old).1) }
{
    let node = NewNode {
        number,
        parent: 1 + generator.draw(33),
        owner: 1 + generator.draw(8),
        group: 100 + generator.draw(3),
        mode: file_mode(generator.draw(4)),
    };
    put_new_node(out, b"create", b'f', &node)
}

/// Appends the command for so many units of background work.
pub fn put_work(out: &mut Vec<u8>, units: u64) -> Result<(), NoMemory>
    ensures { OnOk result (out.new.items ≡ out.old.items ++ work_command units) }
{
    out.extend_from_slice(b"work")?;
    put_number(out, units)?;
    out.push(b'\n')?;
    Ok(())
}

/// Appends background work where the file is the last of ten.
#[tactic(auto, using(std::proofs::lemmas::Bool::Decides::nat_tests), unfolding(crate::specs::Script::work_after))]
fn put_work_after(out: &mut Vec<u8>, file: u64) -> Result<(), NoMemory>
    ensures { OnOk result (out.new.items ≡ out.old.items ++ work_after file) }
{
    if file % 10 == 9 {
        put_work(out, 200)
    } else {
        Ok(())
    }
}

/// Appends a flush where the file is the last of a hundred.
#[tactic(auto, using(std::proofs::lemmas::Bool::Decides::nat_tests), unfolding(crate::specs::Script::flush_after))]
fn put_flush_after(out: &mut Vec<u8>, file: u64) -> Result<(), NoMemory>
    ensures { OnOk result (out.new.items ≡ out.old.items ++ flush_after file) }
{
    if file % 100 == 99 {
        out.extend_from_slice(b"flush\n")?;
    }
    Ok(())
}

/// Appends the commands of a round: a file is changed, background work is done, and a user asks.
#[tactic(auto, unfolding(crate::specs::Script::round_commands))]
pub fn put_round(out: &mut Vec<u8>, generator: &mut Generator, number: u64) -> Result<(), NoMemory>
    ensures bytes { OnOk result (out.new.items ≡ out.old.items ++ (round_commands number generator.old).0) }
    ensures state { OnOk result (generator.new ≡ (round_commands number generator.old).1) }
{
    let file = 100 + generator.draw(800);
    put_change(out, generator, number, file)?;
    put_work(out, 100)?;
    put_questions(out, generator)
}

/// Appends the command that changes the mode of the file, in each other round, or its text.
#[tactic(auto, using(std::proofs::lemmas::Bool::Decides::nat_tests), unfolding(crate::specs::Script::change_command))]
fn put_change(
    out: &mut Vec<u8>,
    generator: &mut Generator,
    round: u64,
    file: u64,
) -> Result<(), NoMemory>
    ensures bytes { OnOk result (out.new.items ≡ out.old.items ++ (change_command round file generator.old).0) }
    ensures state { OnOk result (generator.new ≡ (change_command round file generator.old).1) }
{
    if round % 2 == 0 {
        put_new_mode(out, generator, file)
    } else {
        put_text(out, generator, file, 1)
    }
}

/// Appends the command that gives the file a drawn mode.
#[tactic(auto, unfolding(crate::specs::Script::chmod_command))]
fn put_new_mode(out: &mut Vec<u8>, generator: &mut Generator, file: u64) -> Result<(), NoMemory>
    ensures bytes { OnOk result (out.new.items ≡ out.old.items ++ (chmod_command file generator.old).0) }
    ensures state { OnOk result (generator.new ≡ (chmod_command file generator.old).1) }
{
    let mode = file_mode(generator.draw(4));
    out.extend_from_slice(b"chmod")?;
    put_number(out, file)?;
    out.push(b'\t')?;
    out.extend_from_slice(mode)?;
    out.push(b'\n')?;
    Ok(())
}

/// Appends what a drawn user asks about two drawn words.
#[tactic(auto, unfolding(crate::specs::Script::question_commands))]
fn put_questions(out: &mut Vec<u8>, generator: &mut Generator) -> Result<(), NoMemory>
    ensures bytes { OnOk result (out.new.items ≡ out.old.items ++ (question_commands generator.old).0) }
    ensures state { OnOk result (generator.new ≡ (question_commands generator.old).1) }
{
    let user = 1 + generator.draw(8);
    let first = draw_word(generator);
    let second = draw_word(generator);
    put_count(out, user, first, second)?;
    put_rank(out, user, first, second)
}

/// Appends the command by which the user counts the lines that have one of the words.
#[tactic(auto, unfolding(crate::specs::Script::count_command))]
fn put_count(out: &mut Vec<u8>, user: u64, first: u64, second: u64) -> Result<(), NoMemory>
    ensures { OnOk result (out.new.items ≡ out.old.items ++ count_command user first second) }
{
    out.extend_from_slice(b"count")?;
    put_number(out, user)?;
    out.extend_from_slice(b"\tline > (\"")?;
    put_word(out, first)?;
    out.extend_from_slice(b"\" + \"")?;
    put_word(out, second)?;
    out.extend_from_slice(b"\")\n")?;
    Ok(())
}

/// Appends the command by which the user ranks the files by both words.
#[tactic(auto, unfolding(crate::specs::Script::rank_command))]
fn put_rank(out: &mut Vec<u8>, user: u64, first: u64, second: u64) -> Result<(), NoMemory>
    ensures { OnOk result (out.new.items ≡ out.old.items ++ rank_command user first second) }
{
    out.extend_from_slice(b"rank")?;
    put_number(out, user)?;
    put_number(out, 10)?;
    out.extend_from_slice(b"\tfile\t")?;
    put_two_words(out, first, second)?;
    out.push(b'\n')?;
    Ok(())
}

/// Appends two words with a space between them.
fn put_two_words(out: &mut Vec<u8>, first: u64, second: u64) -> Result<(), NoMemory>
    ensures { OnOk result (out.new.items ≡ out.old.items ++ (word first ++ codes " " ++ word second)) }
{
    put_word(out, first)?;
    out.push(b' ')?;
    put_word(out, second)
}
