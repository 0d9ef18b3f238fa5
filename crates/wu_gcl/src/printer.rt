//! Printing a region expression.
ghost use Rattle.std.specs.Prelude.{◌≡◌, List, ℕ, [], ◌∷◌, ◌++◌, IfOk, OnOk};
ghost use Rattle.std.specs.List.{join_with_byte, flat_map};
ghost use Rattle.std.specs.Fmt.{decimal};
ghost use Rattle.wu_gcl.specs.Lexical.{op_text};
ghost use Rattle.wu_gcl.specs.Regions.{region_of};
ghost use Rattle.wu_gcl.specs.Reading.{Spells};
ghost use Rattle.wu_gcl.specs.Printing.{printed, operand_text, quoted, spaced};

use crate::expressions::{Expr, Op};
use crate::naming::tag_bytes;
use std::alloc::Global;
use wu_base::{Bytes, NoMemory};

/// The expression's text: one space round each operator and between the words of a phrase, and
/// parentheses round each operand that has an operator. The one error is out of memory.
pub fn print(alloc: Global, expr: &Expr) -> Result<Vec<u8>, NoMemory>
    ensures text { IfOk result (λ v. v.items ≡ printed (region_of expr.now)) }
    // What a text spells is read again from what is printed of it.
    ensures again { IfOk result (λ v. (text : List ℕ) → Spells text (region_of expr.now) → Spells v.items (region_of expr.now)) }
{
    let mut out = Vec::new(alloc);
    put_expr(alloc, &mut out, expr)?;
    Ok(out)
}

/// Appends the expression.
#[cycle(printer)]
fn put_expr(alloc: Global, out: &mut Vec<u8>, expr: &Expr) -> Result<(), NoMemory>
    ensures { OnOk result (out.new.items ≡ out.old.items ++ printed (region_of expr.now)) }
{
    match expr {
        Expr::Phrase(words) => put_phrase(out, words.as_slice()),
        Expr::Tag(tag) => put_quoted(out, tag_bytes(*tag)),
        Expr::File => put(out, b"file"),
        Expr::Line => put(out, b"line"),
        Expr::Window(length) => put_window(alloc, out, *length),
        Expr::Both(op, left, right) => {
            put_operand(alloc, out, left)?;
            put(out, b" ")?;
            put(out, op_bytes(*op))?;
            put(out, b" ")?;
            put_operand(alloc, out, right)
        }
    }
}

/// Appends an operand, in parentheses where it has an operator.
#[cycle(printer)]
fn put_operand(alloc: Global, out: &mut Vec<u8>, expr: &Expr) -> Result<(), NoMemory>
    ensures { OnOk result (out.new.items ≡ out.old.items ++ operand_text (region_of expr.now) (printed (region_of expr.now))) }
{
    match expr {
        Expr::Both(..) => {
            put(out, b"(")?;
            put_expr(alloc, out, expr)?;
            put(out, b")")
        }
        _ => put_expr(alloc, out, expr),
    }
}

/// Appends the words between quotes.
fn put_phrase(out: &mut Vec<u8>, words: &[Bytes]) -> Result<(), NoMemory>
    ensures { OnOk result (out.new.items ≡ out.old.items ++ quoted (join_with_byte 32 words.now)) }
{
    put(out, b"\"")?;
    put_words(out, words)?;
    put(out, b"\"")
}

/// Appends the words with a space between each and the next.
fn put_words(out: &mut Vec<u8>, words: &[Bytes]) -> Result<(), NoMemory>
    ensures { OnOk result (out.new.items ≡ out.old.items ++ join_with_byte 32 words.now) }
{
    let Some((first, more)) = words.split_first() else {
        return Ok(());
    };
    put(out, first.as_slice())?;
    put_spaced(out, more)?;
    Ok(())
}

/// Appends the words, each after a space.
fn put_spaced(out: &mut Vec<u8>, words: &[Bytes]) -> Result<(), NoMemory>
    ensures { OnOk result (out.new.items ≡ out.old.items ++ flat_map spaced words.now) }
{
    for word in words {
        put(out, b" ")?;
        put(out, word.as_slice())?;
    }
    Ok(())
}

/// Appends the bytes between quotes.
fn put_quoted(out: &mut Vec<u8>, bytes: &[u8]) -> Result<(), NoMemory>
    ensures { OnOk result (out.new.items ≡ out.old.items ++ quoted bytes.now) }
{
    put(out, b"\"")?;
    put(out, bytes)?;
    put(out, b"\"")
}

/// Appends the length between brackets.
fn put_window(alloc: Global, out: &mut Vec<u8>, length: u16) -> Result<(), NoMemory>
    ensures { OnOk result (out.new.items ≡ out.old.items ++ (91 ∷ (decimal length ++ 93 ∷ []))) }
{
    let digits = format!(in alloc; "{length}")?;
    put(out, b"[")?;
    put(out, digits.as_bytes())?;
    put(out, b"]")
}

/// An operator, as it is written.
fn op_bytes(op: Op) -> &'static [u8]
    ensures { result.now ≡ op_text op }
{
    match op {
        Op::Containing => b">",
        Op::ContainedIn => b"<",
        Op::NotContaining => b"/>",
        Op::NotContainedIn => b"/<",
        Op::OneOf => b"+",
        Op::BothOf => b"^",
        Op::FollowedBy => b"..",
    }
}

/// Appends the bytes.
fn put(out: &mut Vec<u8>, bytes: &[u8]) -> Result<(), NoMemory>
    ensures { OnOk result (out.new.items ≡ out.old.items ++ bytes.now) }
{
    out.extend_from_slice(bytes)?;
    Ok(())
}
