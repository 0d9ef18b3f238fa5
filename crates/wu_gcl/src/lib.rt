//! Region expressions, after the generalized concordance lists of Clarke, Cormack and Burkowski:
//! what they are, how they are written, and the terms that they name.
//!
//! The grammar, in which each operator is left associative:
//!
//! ```text
//! expression = sum { (">" | "<" | "/>" | "/<") sum }
//! sum        = both { "+" both }
//! both       = sequence { "^" sequence }
//! sequence   = operand { ".." operand }
//! operand    = quoted | "[" digits "]" | "file" | "line" | "(" expression ")"
//! ```
//!
//! A quoted text is `"`, bytes other than `"`, and `"`. `file` and `line` stand alone: no other letter
//! comes right before or behind them. Spaces and TABs may stand between tokens. A quoted text that is
//! exactly `<file>`, `</file>`, `<line>` or `</line>` is that tag, and any other the phrase of its words.
#![tactic(auto)]

mod expressions;
mod grammar;
mod lexing;
mod naming;
mod operands;
mod printer;
mod reading;

pub use expressions::{Expr, ExprFault, Op, Tag, WINDOW_MAX};
pub use naming::{tag_bytes, terms_of};
pub use printer::print;
pub use reading::{each_text_is_read, one_reading, parse};
