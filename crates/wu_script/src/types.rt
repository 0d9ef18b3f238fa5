//! What a script is made of, and what is replied.
use wu_ask::{Answered, Query};
use wu_base::{Bytes, Ino, Stat, Worked};
use wu_gcl::ExprFault;
use wu_tree::{Event, Refusal};

/// Why a command is refused.
#[derive(Clone, Copy, Debug, PartialEq, Eq)]
pub enum Why {
    /// Its line has more than LINE_MAX bytes.
    LongLine,
    /// Its line isn't a command with its fields.
    Syntax,
    /// The input ended before its body did.
    Truncated,
    /// Its body has more than TEXT_MAX bytes.
    TooLong,
    /// Other bytes stand between its body and the next LF.
    BadBody,
    /// The tree refuses its event.
    Tree(Refusal),
    /// Its expression is none.
    Expr(ExprFault),
    /// It ranks by no word.
    NoWord,
    /// It ranks by more than RANK_WORDS_MAX words.
    ManyWords,
    /// Its prefix isn't empty and isn't one run of the bytes of words.
    BadPrefix,
}

/// A command without a body.
#[derive(Drop)]
pub enum Command {
    /// Something happened to the file tree.
    Update(Event),
    /// A user asks.
    Ask(Query),
    /// The postings in memory are to become a part of the index.
    Flush,
    /// So many units of background work are to be done, from 1 to WORK_MAX.
    Work(u32),
    /// The size of the index is asked for.
    Stat,
    /// The files and their index are to be saved.
    Save,
}

/// What one line says.
#[derive(Drop)]
pub enum Line {
    /// A whole command.
    Command(Command),
    /// A file gets a text, whose bytes follow the line.
    TextHead {
        /// The file's number, at least 1.
        ino: Ino,
        /// So many bytes, at most INPUT_MAX.
        len: u64,
    },
    /// No command.
    Refused(Why),
    /// Nothing: the line is empty or a comment.
    Blank,
}

/// One item of a script: what a line says, with the body that follows it.
#[derive(Drop)]
pub enum Item {
    /// A whole command.
    Command(Command),
    /// A file gets a text.
    Text {
        /// The file's number, at least 1.
        ino: Ino,
        /// At most TEXT_MAX bytes.
        body: Bytes,
    },
    /// A command that is refused.
    Refused(Why),
    /// A line that gets no reply.
    Blank,
    /// The end of the script.
    End,
}

/// What is replied to an item.
#[derive(Debug, Drop)]
pub enum Reply {
    /// The command was accepted.
    Ok,
    /// The command was refused.
    Refused(Why),
    /// Background work was done.
    Worked(Worked),
    /// The size of the index.
    Stat(Stat),
    /// The question was answered.
    Answered(Answered),
}
