//! Writing a reply.
ghost use Rattle.std.specs.Prelude.{◌≡◌, ◌++◌, ◌∷◌, [], List, ℕ, codes, decimal, length, OnOk, OnErr};
ghost use Rattle.std.specs.List.{flat_map};
ghost use Rattle.wu_script.specs.Replies.{reply_bytes, answer_bytes, refusal_word, fault_word, why_word, worked_word, stat_line};
ghost use Rattle.wu_script.specs.Replies.{path_line, find_line, rank_line, term_line, terms_front};

use crate::types::{Reply, Why};
use wu_ask::{Answered, Found, RankLine, TermLine};
use wu_base::{Bytes, NoMemory, Stat, Worked};
use wu_fields::{put_decimal, put_field};
use wu_gcl::ExprFault;
use wu_tree::Refusal;

/// Appends the lines of the reply: the fields of a line have a TAB between each two, numbers are
/// decimal, paths, words and bytes of texts are escaped, and each line ends with LF. The script of an
/// export stands as it is behind its line, and then a LF. The one error is `NoMemory`; `out` is then as
/// it was.
pub fn put_reply(out: &mut Vec<u8>, reply: &Reply) -> Result<(), NoMemory>
    ensures ok { OnOk result (out.new.items ≡ out.old.items ++ reply_bytes reply.now) }
    ensures err { OnErr result (out.new.items ≡ out.old.items) }
{
    let before = out.len();
    if append_reply(out, reply).is_ok() {
        Ok(())
    } else {
        out.truncate(before);
        Err(NoMemory)
    }
}

/// Appends the reply. Out of memory `out` may have gained bytes.
#[tactic(auto, unfolding(crate::specs::Replies::reply_bytes))]
fn append_reply(out: &mut Vec<u8>, reply: &Reply) -> Result<(), NoMemory>
    ensures ok { OnOk result (out.new.items ≡ out.old.items ++ reply_bytes reply.now) }
    ensures err { OnErr result ((more : List ℕ) × (out.new.items ≡ out.old.items ++ more)) }
{
    match reply {
        Reply::Ok => {
            out.extend_from_slice(b"ok\n")?;
            Ok(())
        }
        Reply::Refused(why) => append_refusal(out, why_word(*why)),
        Reply::Worked(worked) => append_word(out, worked_word(*worked)),
        Reply::Stat(stat) => append_stat(out, stat),
        Reply::Answered(answered) => append_answer(out, answered),
    }
}

/// Appends the line of a refusal.
fn append_refusal(out: &mut Vec<u8>, word: &[u8]) -> Result<(), NoMemory>
    ensures ok { OnOk result (out.new.items ≡ out.old.items ++ (codes "refused\t" ++ word.now ++ 10 ∷ [])) }
    ensures err { OnErr result ((more : List ℕ) × (out.new.items ≡ out.old.items ++ more)) }
{
    out.extend_from_slice(b"refused\t")?;
    out.extend_from_slice(word)?;
    out.push(b'\n')?;
    Ok(())
}

/// Appends a word on a line of its own.
fn append_word(out: &mut Vec<u8>, word: &[u8]) -> Result<(), NoMemory>
    ensures ok { OnOk result (out.new.items ≡ out.old.items ++ (word.now ++ 10 ∷ [])) }
    ensures err { OnErr result ((more : List ℕ) × (out.new.items ≡ out.old.items ++ more)) }
{
    out.extend_from_slice(word)?;
    out.push(b'\n')?;
    Ok(())
}

/// Appends the line of the size of the index.
fn append_stat(out: &mut Vec<u8>, stat: &Stat) -> Result<(), NoMemory>
    ensures ok { OnOk result (out.new.items ≡ out.old.items ++ stat_line stat.now) }
    ensures err { OnErr result ((more : List ℕ) × (out.new.items ≡ out.old.items ++ more)) }
{
    out.extend_from_slice(b"stat\t")?;
    put_decimal(out, stat.files)?;
    out.push(b'\t')?;
    put_decimal(out, stat.live)?;
    out.push(b'\t')?;
    put_decimal(out, stat.stored)?;
    out.push(b'\t')?;
    put_decimal(out, stat.parts)?;
    out.push(b'\n')?;
    Ok(())
}

/// Appends the lines of an answer.
#[tactic(auto, unfolding(crate::specs::Replies::answer_bytes))]
fn append_answer(out: &mut Vec<u8>, answered: &Answered) -> Result<(), NoMemory>
    ensures ok { OnOk result (out.new.items ≡ out.old.items ++ answer_bytes answered.now) }
    ensures err { OnErr result ((more : List ℕ) × (out.new.items ≡ out.old.items ++ more)) }
{
    match answered {
        Answered::Count { hits, files } => append_counts(out, b"count\t", *hits, *files),
        Answered::Find { hits, files, shown } => append_found(out, *hits, *files, shown.as_slice()),
        Answered::Rank { listed, shown } => append_ranking(out, *listed, shown.as_slice()),
        Answered::Paths { paths } => append_paths(out, paths.as_slice()),
        Answered::Terms { total, top, shown } => append_terms(out, *total, *top, shown.as_slice()),
        Answered::Export { script } => append_export(out, script.as_slice()),
        Answered::Weighed { listed, weighed } => {
            append_counts(out, b"weighed\t", *listed, *weighed)
        }
    }
}

/// Appends the line of a word and two counts.
fn append_counts(out: &mut Vec<u8>, word: &[u8], first: u64, second: u64) -> Result<(), NoMemory>
    ensures ok { OnOk result (out.new.items ≡ out.old.items ++ (word.now ++ decimal first ++ 9 ∷ [] ++ decimal second ++ 10 ∷ [])) }
    ensures err { OnErr result ((more : List ℕ) × (out.new.items ≡ out.old.items ++ more)) }
{
    out.extend_from_slice(word)?;
    put_decimal(out, first)?;
    out.push(b'\t')?;
    put_decimal(out, second)?;
    out.push(b'\n')?;
    Ok(())
}

/// Appends the lines of paths: how many there are, and each.
fn append_paths(out: &mut Vec<u8>, paths: &[Bytes]) -> Result<(), NoMemory>
    ensures ok { OnOk result (out.new.items ≡ out.old.items ++ (codes "paths\t" ++ decimal (length paths.now) ++ 10 ∷ [] ++ flat_map path_line paths.now)) }
    ensures err { OnErr result ((more : List ℕ) × (out.new.items ≡ out.old.items ++ more)) }
{
    out.extend_from_slice(b"paths\t")?;
    put_decimal(out, paths.len() as u64)?;
    out.push(b'\n')?;
    append_lines(out, paths)
}

/// Appends each path on a line of its own.
fn append_lines(out: &mut Vec<u8>, paths: &[Bytes]) -> Result<(), NoMemory>
    ensures ok { OnOk result (out.new.items ≡ out.old.items ++ flat_map path_line paths.now) }
    ensures err { OnErr result ((more : List ℕ) × (out.new.items ≡ out.old.items ++ more)) }
{
    for path in paths {
        append_line(out, path.as_slice())?;
    }
    Ok(())
}

/// Appends a path on a line of its own.
fn append_line(out: &mut Vec<u8>, path: &[u8]) -> Result<(), NoMemory>
    ensures ok { OnOk result (out.new.items ≡ out.old.items ++ path_line path.now) }
    ensures err { OnErr result ((more : List ℕ) × (out.new.items ≡ out.old.items ++ more)) }
{
    put_field(out, path)?;
    out.push(b'\n')?;
    Ok(())
}

/// Appends the lines of what was found: how many regions there are, in how many files, how many are
/// shown, and each of these.
fn append_found(out: &mut Vec<u8>, hits: u64, files: u64, shown: &[Found]) -> Result<(), NoMemory>
    ensures ok { OnOk result (out.new.items ≡ out.old.items ++ (codes "find\t" ++ decimal hits ++ 9 ∷ [] ++ decimal files ++ 9 ∷ [] ++ decimal (length shown.now) ++ 10 ∷ [] ++ flat_map find_line shown.now)) }
    ensures err { OnErr result ((more : List ℕ) × (out.new.items ≡ out.old.items ++ more)) }
{
    append_found_counts(out, hits, files, shown.len() as u64)?;
    append_find_lines(out, shown)
}

/// Appends the line of how many regions were found, in how many files, and how many are shown.
fn append_found_counts(out: &mut Vec<u8>, hits: u64, files: u64, shown: u64) -> Result<(), NoMemory>
    ensures ok { OnOk result (out.new.items ≡ out.old.items ++ (codes "find\t" ++ decimal hits ++ 9 ∷ [] ++ decimal files ++ 9 ∷ [] ++ decimal shown ++ 10 ∷ [])) }
    ensures err { OnErr result ((more : List ℕ) × (out.new.items ≡ out.old.items ++ more)) }
{
    out.extend_from_slice(b"find\t")?;
    put_decimal(out, hits)?;
    out.push(b'\t')?;
    put_decimal(out, files)?;
    out.push(b'\t')?;
    put_decimal(out, shown)?;
    out.push(b'\n')?;
    Ok(())
}

/// Appends each region that was found on a line of its own.
fn append_find_lines(out: &mut Vec<u8>, shown: &[Found]) -> Result<(), NoMemory>
    ensures ok { OnOk result (out.new.items ≡ out.old.items ++ flat_map find_line shown.now) }
    ensures err { OnErr result ((more : List ℕ) × (out.new.items ≡ out.old.items ++ more)) }
{
    for line in shown {
        append_find_line(out, line)?;
    }
    Ok(())
}

/// Appends a region that was found on a line of its own.
fn append_find_line(out: &mut Vec<u8>, line: &Found) -> Result<(), NoMemory>
    ensures ok { OnOk result (out.new.items ≡ out.old.items ++ find_line line.now) }
    ensures err { OnErr result ((more : List ℕ) × (out.new.items ≡ out.old.items ++ more)) }
{
    put_field(out, line.path.as_slice())?;
    out.push(b'\t')?;
    put_decimal(out, line.start)?;
    out.push(b'\t')?;
    put_decimal(out, line.end)?;
    out.push(b'\t')?;
    put_decimal(out, line.line)?;
    out.push(b'\t')?;
    put_field(out, line.snippet.as_slice())?;
    out.push(b'\n')?;
    Ok(())
}

/// Appends the lines of a ranking: how many regions it lists and shows, and each that it shows.
fn append_ranking(out: &mut Vec<u8>, listed: u64, shown: &[RankLine]) -> Result<(), NoMemory>
    ensures ok { OnOk result (out.new.items ≡ out.old.items ++ (codes "rank\t" ++ decimal listed ++ 9 ∷ [] ++ decimal (length shown.now) ++ 10 ∷ [] ++ flat_map rank_line shown.now)) }
    ensures err { OnErr result ((more : List ℕ) × (out.new.items ≡ out.old.items ++ more)) }
{
    append_counts(out, b"rank\t", listed, shown.len() as u64)?;
    append_rank_lines(out, shown)
}

/// Appends each region on a line of its own.
fn append_rank_lines(out: &mut Vec<u8>, shown: &[RankLine]) -> Result<(), NoMemory>
    ensures ok { OnOk result (out.new.items ≡ out.old.items ++ flat_map rank_line shown.now) }
    ensures err { OnErr result ((more : List ℕ) × (out.new.items ≡ out.old.items ++ more)) }
{
    for line in shown {
        append_rank_line(out, line)?;
    }
    Ok(())
}

/// Appends a region on a line of its own.
fn append_rank_line(out: &mut Vec<u8>, line: &RankLine) -> Result<(), NoMemory>
    ensures ok { OnOk result (out.new.items ≡ out.old.items ++ rank_line line.now) }
    ensures err { OnErr result ((more : List ℕ) × (out.new.items ≡ out.old.items ++ more)) }
{
    put_decimal(out, line.score)?;
    out.push(b'\t')?;
    put_field(out, line.path.as_slice())?;
    out.push(b'\t')?;
    put_decimal(out, line.start)?;
    out.push(b'\t')?;
    put_decimal(out, line.end)?;
    out.push(b'\n')?;
    Ok(())
}

/// Appends the lines of a user's words: how many there are and are shown, and each that is shown.
fn append_terms(
    out: &mut Vec<u8>,
    total: u64,
    top: bool,
    shown: &[TermLine],
) -> Result<(), NoMemory>
    ensures ok { OnOk result (out.new.items ≡ out.old.items ++ (terms_front top ++ decimal total ++ 9 ∷ [] ++ decimal (length shown.now) ++ 10 ∷ [] ++ flat_map term_line shown.now)) }
    ensures err { OnErr result ((more : List ℕ) × (out.new.items ≡ out.old.items ++ more)) }
{
    append_counts(out, terms_front(top), total, shown.len() as u64)?;
    append_term_lines(out, shown)
}

/// The first field of the list of words, and the TAB behind it.
fn terms_front(top: bool) -> &'static [u8]
    ensures { result.now ≡ terms_front top }
{
    if top { b"top\t" } else { b"terms\t" }
}

/// Appends each word on a line of its own.
fn append_term_lines(out: &mut Vec<u8>, shown: &[TermLine]) -> Result<(), NoMemory>
    ensures ok { OnOk result (out.new.items ≡ out.old.items ++ flat_map term_line shown.now) }
    ensures err { OnErr result ((more : List ℕ) × (out.new.items ≡ out.old.items ++ more)) }
{
    for line in shown {
        append_term_line(out, line)?;
    }
    Ok(())
}

/// Appends a word on a line of its own.
fn append_term_line(out: &mut Vec<u8>, line: &TermLine) -> Result<(), NoMemory>
    ensures ok { OnOk result (out.new.items ≡ out.old.items ++ term_line line.now) }
    ensures err { OnErr result ((more : List ℕ) × (out.new.items ≡ out.old.items ++ more)) }
{
    put_field(out, line.word.as_slice())?;
    out.push(b'\t')?;
    put_decimal(out, line.files)?;
    out.push(b'\n')?;
    Ok(())
}

/// Appends an export: the number of the script's bytes on a line of its own, these bytes, and a LF.
fn append_export(out: &mut Vec<u8>, script: &[u8]) -> Result<(), NoMemory>
    ensures ok { OnOk result (out.new.items ≡ out.old.items ++ (codes "export\t" ++ decimal (length script.now) ++ 10 ∷ [] ++ script.now ++ 10 ∷ [])) }
    ensures err { OnErr result ((more : List ℕ) × (out.new.items ≡ out.old.items ++ more)) }
{
    append_export_line(out, script.len() as u64)?;
    out.extend_from_slice(script)?;
    out.push(b'\n')?;
    Ok(())
}

/// Appends the line before a script of so many bytes.
pub(crate) fn append_export_line(out: &mut Vec<u8>, size: u64) -> Result<(), NoMemory>
    ensures ok { OnOk result (out.new.items ≡ out.old.items ++ (codes "export\t" ++ decimal size ++ 10 ∷ [])) }
    ensures err { OnErr result ((more : List ℕ) × (out.new.items ≡ out.old.items ++ more)) }
{
    out.extend_from_slice(b"export\t")?;
    put_decimal(out, size)?;
    out.push(b'\n')?;
    Ok(())
}

/// The word for why a command is refused.
#[tactic(auto, unfolding(crate::specs::Replies::why_word))]
fn why_word(why: Why) -> &'static [u8]
    ensures { result.now ≡ why_word why }
{
    match why {
        Why::LongLine => b"longline",
        Why::Syntax => b"syntax",
        Why::Truncated => b"truncated",
        Why::TooLong => b"toolong",
        Why::BadBody => b"badbody",
        Why::Tree(refusal) => refusal_word(refusal),
        Why::Expr(fault) => fault_word(fault),
        Why::NoWord => b"noword",
        Why::ManyWords => b"manywords",
        Why::BadPrefix => b"badprefix",
    }
}

/// The word for whether background work is left.
#[tactic(auto, unfolding(crate::specs::Replies::worked_word))]
fn worked_word(worked: Worked) -> &'static [u8]
    ensures { result.now ≡ worked_word worked }
{
    match worked {
        Worked::Idle => b"idle",
        Worked::Busy => b"busy",
    }
}

/// The word for why an event is refused.
#[tactic(auto, unfolding(crate::specs::Replies::refusal_word))]
fn refusal_word(refusal: Refusal) -> &'static [u8]
    ensures { result.now ≡ refusal_word refusal }
{
    match refusal {
        Refusal::BadName => b"badname",
        Refusal::NoSuch => b"nosuch",
        Refusal::Kind => b"kind",
        Refusal::Exists => b"exists",
        Refusal::NotEmpty => b"notempty",
        Refusal::Loop => b"loop",
        Refusal::Deep => b"deep",
    }
}

/// The word for why bytes are no expression.
#[tactic(auto, unfolding(crate::specs::Replies::fault_word))]
fn fault_word(fault: ExprFault) -> &'static [u8]
    ensures { result.now ≡ fault_word fault }
{
    match fault {
        ExprFault::NotAnExpression => b"notexpr",
        ExprFault::TooLarge => b"toolarge",
        ExprFault::NoWord => b"noword",
        ExprFault::BadWindow => b"badwindow",
    }
}
