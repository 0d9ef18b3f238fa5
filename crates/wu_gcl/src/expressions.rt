//! What a region expression is.
use thiserror::Error;
use wu_base::{Bytes, Sequence};

/// The greatest length of a window, in addresses.
pub const WINDOW_MAX: u64 = 65_535;

/// A mark that every text has, beside its words: its start and end, and those of each line.
#[derive(Clone, Copy, Debug, PartialEq, Eq)]
pub enum Tag {
    /// `<file>`, before the first line.
    FileStart,
    /// `</file>`, after the last line.
    FileEnd,
    /// `<line>`, before a line's words.
    LineStart,
    /// `</line>`, after them.
    LineEnd,
}

/// An operator on two sets of regions.
#[derive(Clone, Copy, Debug, PartialEq, Eq)]
pub enum Op {
    /// `>`: the regions on the left that hold a region of the right.
    Containing,
    /// `<`: the regions on the left that a region of the right holds.
    ContainedIn,
    /// `/>`: the regions on the left that `>` leaves out.
    NotContaining,
    /// `/<`: the regions on the left that `<` leaves out.
    NotContainedIn,
    /// `+`: the regions of either side.
    OneOf,
    /// `^`: the regions that hold one of each side.
    BothOf,
    /// `..`: the regions that hold one of the left and, after its end, one of the right.
    FollowedBy,
}

/// A region expression.
#[derive(Debug, PartialEq, Eq, Drop)]
pub enum Expr {
    /// These words, one after the other. There is at least one.
    Phrase(Sequence<Bytes>),
    /// One mark.
    Tag(Tag),
    /// The whole file.
    File,
    /// One whole line.
    Line,
    /// So many addresses, from 1 to WINDOW_MAX, wherever they begin.
    Window(u16),
    /// What an operator makes of two expressions, its left operand first.
    Both(Op, Box<Expr>, Box<Expr>),
}

/// Why bytes are no region expression.
#[derive(Clone, Copy, Debug, PartialEq, Eq, Error)]
pub enum ExprFault {
    /// They aren't a list of tokens, or the tokens don't fit the grammar.
    #[error("not a region expression")]
    NotAnExpression,
    /// There are more than OPERATORS_MAX operators or more than PARENS_MAX opening parentheses.
    #[error("too many operators or parentheses")]
    TooLarge,
    /// A quoted text is no tag and has no word.
    #[error("a quoted text has no word")]
    NoWord,
    /// A window's length isn't a decimal number from 1 to WINDOW_MAX without a leading zero.
    #[error("a window is not a number from 1 to 65535")]
    BadWindow,
}
