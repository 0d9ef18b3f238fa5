//! What users ask.
ghost use Rattle.std.specs.Prelude.{◌≡◌, ◌≤◌, IfOk};
ghost use Rattle.wu_ask.specs.Questions.{question_of};
ghost use Rattle.wu_base.specs.declared.limits.TheConstants.{K_MAX as MostRegions};
ghost use Rattle.wu_gcl.specs.Reading.{seen};
ghost use Rattle.wu_gcl.specs.Regions.{IsProper, region_of};
ghost use Rattle.wu_script.specs.Commands.{query_line, count_of, find_of, rank_of, paths_of, terms_of, export_of};
ghost use Rattle.wu_script.specs.Commands.{Whole, Asking, CountOf, FindOf, TermsOf, ranked};
ghost use Rattle.wu_script.specs.Said.{IsReading, Reading, IsLine, IsSoundLine, ranking_question};
ghost use Rattle.wu_script.specs.declared.types.Line.TheVariants.{Command as ACommand};
ghost use Rattle.wu_script.specs.declared.types.Command.TheVariants.{Ask as AQuestion};

use crate::events::id_of;
use crate::types::{Command, Line, Why};
use std::alloc::Global;
use wu_ask::{Ask, Query};
use wu_base::{Bytes, K_MAX, NoMemory, RANK_WORDS_MAX, Sequence};
use wu_fields::read_decimal;
use wu_gcl::{Expr, ExprFault, parse};
use wu_terms::prefix_of;
use wu_token::words;

/// What is asked of a ranking.
#[derive(Clone, Copy)]
pub enum Wanted {
    /// Its best regions.
    Best,
    /// How many of its regions could be among the best.
    Weighed,
}

/// A question of a user.
fn asking(uid: u32, ask: Ask) -> Line
    ensures { result ≡ ACommand (AQuestion (record { uid = uid; ask = ask })) }
{
    Line::Command(Command::Ask(Query { uid, ask }))
}

/// `count`, a user and an expression.
#[tactic(auto, unfolding(crate::specs::Commands::count_of))]
pub fn count(alloc: Global, fields: &[Bytes]) -> Result<Line, NoMemory>
    ensures says { IfOk result (IsLine (query_line (count_of fields.now))) }
    ensures sound { IfOk result IsSoundLine }
{
    match fields {
        [uid, text] => {
            let Some(uid) = id_of(uid) else {
                return Ok(Line::Refused(Why::Syntax));
            };
            counting(alloc, uid, text.as_slice())
        }
        _ => Ok(Line::Refused(Why::Syntax)),
    }
}

/// A count of the regions of the expression.
fn counting(alloc: Global, uid: u32, text: &[u8]) -> Result<Line, NoMemory>
    ensures says { IfOk result (IsLine (Whole (Asking uid (CountOf text.now)))) }
    ensures sound { IfOk result IsSoundLine }
{
    match read_expression(alloc, text)? {
        Ok(expr) => Ok(asking(uid, Ask::Count { expr })),
        Err(fault) => Ok(Line::Refused(Why::Expr(fault))),
    }
}

/// The expression that the text is, or why it is none.
fn read_expression(alloc: Global, text: &[u8]) -> Result<Result<Expr, ExprFault>, NoMemory>
    ensures reads { IfOk result (λ r. (read : Reading) → IsReading read → read text.now ≡ seen r) }
    ensures proper { IfOk result (λ r. IfOk r (λ expr. IsProper (region_of expr))) }
{
    parse(alloc, text)
}

/// `find`, a user, how many regions to show, and an expression.
#[tactic(auto, unfolding(crate::specs::Commands::find_of))]
pub fn find(alloc: Global, fields: &[Bytes]) -> Result<Line, NoMemory>
    ensures says { IfOk result (IsLine (query_line (find_of fields.now))) }
    ensures sound { IfOk result IsSoundLine }
{
    match fields {
        [uid, k, text] => {
            let Some(uid) = id_of(uid) else {
                return Ok(Line::Refused(Why::Syntax));
            };
            match read_decimal(k.as_slice(), K_MAX as u64) {
                Some(k) => finding(alloc, uid, k as u32, text.as_slice()),
                None => Ok(Line::Refused(Why::Syntax)),
            }
        }
        _ => Ok(Line::Refused(Why::Syntax)),
    }
}

/// The regions of the expression, of which so many are shown at most.
fn finding(alloc: Global, uid: u32, k: u32, text: &[u8]) -> Result<Line, NoMemory>
    requires { k ≤ MostRegions }
    ensures says { IfOk result (IsLine (Whole (Asking uid (FindOf k text.now)))) }
    ensures sound { IfOk result IsSoundLine }
{
    match read_expression(alloc, text)? {
        Ok(expr) => Ok(asking(uid, Ask::Find { k, expr })),
        Err(fault) => Ok(Line::Refused(Why::Expr(fault))),
    }
}

/// `rank` or `weighed`, a user, how many regions to show, a unit and the words to rank by.
#[tactic(auto, unfolding(crate::specs::Commands::rank_of))]
pub fn rank(alloc: Global, wanted: Wanted, fields: &[Bytes]) -> Result<Line, NoMemory>
    ensures says { IfOk result (IsLine (query_line (rank_of wanted fields.now))) }
    ensures sound { IfOk result IsSoundLine }
{
    match fields {
        [uid, k, unit, text] => {
            let Some(uid) = id_of(uid) else {
                return Ok(Line::Refused(Why::Syntax));
            };
            match read_decimal(k.as_slice(), K_MAX as u64) {
                Some(k) => ranking(
                    alloc,
                    wanted,
                    uid,
                    k as u32,
                    unit.as_slice(),
                    text.as_slice(),
                ),
                None => Ok(Line::Refused(Why::Syntax)),
            }
        }
        _ => Ok(Line::Refused(Why::Syntax)),
    }
}

/// A ranking of the regions of the unit by the words of the text. The unit's faults come before those
/// of the words.
fn ranking(
    alloc: Global,
    wanted: Wanted,
    uid: u32,
    k: u32,
    unit: &[u8],
    text: &[u8],
) -> Result<Line, NoMemory>
    requires { k ≤ MostRegions }
    ensures says { IfOk result (IsLine (Whole (Asking uid (ranked wanted k unit.now text.now)))) }
    ensures sound { IfOk result IsSoundLine }
{
    let unit = match read_expression(alloc, unit)? {
        Ok(unit) => unit,
        Err(fault) => return Ok(Line::Refused(Why::Expr(fault))),
    };
    let words = words(alloc, text)?;
    if words.is_empty() {
        return Ok(Line::Refused(Why::NoWord));
    }
    if words.len() > RANK_WORDS_MAX {
        return Ok(Line::Refused(Why::ManyWords));
    }
    let words = Sequence::from(words);
    Ok(asking(uid, asked_of_ranking(wanted, k, unit, words)))
}

/// What is wanted of the ranking of the unit's regions by these words.
fn asked_of_ranking(wanted: Wanted, k: u32, unit: Expr, words: Sequence<Bytes>) -> Ask
    ensures { question_of result ≡ ranking_question wanted k (region_of unit) words }
{
    match wanted {
        Wanted::Best => Ask::Rank { k, unit, words },
        Wanted::Weighed => Ask::Weighed { k, unit, words },
    }
}

/// `paths`, and a user.
#[tactic(auto, unfolding(crate::specs::Commands::paths_of))]
pub fn paths(fields: &[Bytes]) -> Line
    ensures says { IsLine (query_line (paths_of fields.now)) result }
    ensures sound { IsSoundLine result }
{
    match fields {
        [uid] => match id_of(uid) {
            Some(uid) => asking(uid, Ask::Paths),
            None => Line::Refused(Why::Syntax),
        },
        _ => Line::Refused(Why::Syntax),
    }
}

/// `terms` or, where the words of the most files come first, `top`; a user, how many words to show, and a
/// prefix.
#[tactic(auto, unfolding(crate::specs::Commands::terms_of))]
pub fn terms(alloc: Global, top: bool, fields: &[Bytes]) -> Result<Line, NoMemory>
    ensures says { IfOk result (IsLine (query_line (terms_of top fields.now))) }
    ensures sound { IfOk result IsSoundLine }
{
    match fields {
        [uid, k, prefix] => {
            let Some(uid) = id_of(uid) else {
                return Ok(Line::Refused(Why::Syntax));
            };
            match read_decimal(k.as_slice(), K_MAX as u64) {
                Some(k) => listing(alloc, uid, k as u32, top, prefix.as_slice()),
                None => Ok(Line::Refused(Why::Syntax)),
            }
        }
        _ => Ok(Line::Refused(Why::Syntax)),
    }
}

/// The words that begin with the prefix of the field, of which so many are shown at most.
fn listing(alloc: Global, uid: u32, k: u32, top: bool, field: &[u8]) -> Result<Line, NoMemory>
    requires { k ≤ MostRegions }
    ensures says { IfOk result (IsLine (Whole (Asking uid (TermsOf k top field.now)))) }
    ensures sound { IfOk result IsSoundLine }
{
    match prefix_of(alloc, field)? {
        Some(prefix) => Ok(asking(uid, Ask::Terms { k, prefix, top })),
        None => Ok(Line::Refused(Why::BadPrefix)),
    }
}

/// `export`, and a user.
#[tactic(auto, unfolding(crate::specs::Commands::export_of))]
pub fn export(fields: &[Bytes]) -> Line
    ensures says { IsLine (query_line (export_of fields.now)) result }
    ensures sound { IsSoundLine result }
{
    match fields {
        [uid] => match id_of(uid) {
            Some(uid) => asking(uid, Ask::Export),
            None => Line::Refused(Why::Syntax),
        },
        _ => Line::Refused(Why::Syntax),
    }
}
