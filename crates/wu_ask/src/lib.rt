//! What users ask of the index, and the answers.
#![tactic(auto)]

use wu_base::{Bytes, Sequence, Uid};
use wu_gcl::Expr;

/// A user's question. The user sees only what she may read.
#[derive(Debug, PartialEq, Eq, Drop)]
pub struct Query {
    /// The user who asks, and whose view is searched.
    pub uid: Uid,
    /// What she asks.
    pub ask: Ask,
}

/// A question.
#[derive(Debug, PartialEq, Eq, Drop)]
pub enum Ask {
    /// How many regions of the expression there are, and in how many files.
    Count {
        expr: Expr,
    },
    /// Where the regions of the expression are, how many there are, and in how many files.
    Find {
        /// How many regions to show at most, from 0 to K_MAX.
        k: u32,
        expr: Expr,
    },
    /// Which regions of the unit hold one of the words, the best by these words first.
    Rank {
        /// How many regions to show at most, from 0 to K_MAX.
        k: u32,
        /// Its regions are what is ranked.
        unit: Expr,
        /// From 1 to RANK_WORDS_MAX words; one that stands here twice counts twice.
        words: Sequence<Bytes>,
    },
    /// The paths of the user's files.
    Paths,
    /// Which words that begin with the prefix stand in the user's files, each with how many of her files
    /// have it.
    Terms {
        /// How many words to show at most, from 0 to K_MAX.
        k: u32,
        /// What the words begin with, in the form in which words are compared, as `wu_terms::prefix_of`
        /// gives it. Every word begins with the empty one.
        prefix: Bytes,
        /// Whether the words of the most files come first.
        top: bool,
    },
    /// A script that makes the user's files from nothing.
    Export,
    /// How many regions of the unit hold one of the words, and how many of these could be among the best.
    Weighed {
        /// How many regions a ranking would show at most, from 0 to K_MAX.
        k: u32,
        /// Its regions are what is ranked.
        unit: Expr,
        /// From 1 to RANK_WORDS_MAX words; one that stands here twice counts twice.
        words: Sequence<Bytes>,
    },
}

/// One region that was found, with the first line of its file that shares a place with it. A line's
/// places are those of its tags and of its words.
#[derive(Debug, PartialEq, Eq, Drop)]
pub struct Found {
    /// The least open path of its file.
    pub path: Bytes,
    /// Its first place, counted from the file's first token, which has place 0.
    pub start: u64,
    /// Its last place, at least `start` and counted like it.
    pub end: u64,
    /// The line's number, counted from 1; 0 where there is no such line.
    pub line: u64,
    /// The line's first bytes, at most SNIPPET_MAX of them and without its LF; empty where there is no
    /// such line.
    pub snippet: Bytes,
}

/// One region of a ranking.
#[derive(Debug, PartialEq, Eq, Drop)]
pub struct RankLine {
    /// The sum of the weights that the question's words give the region, in units of 1/65536. Each
    /// weight is rounded down to a whole number of them.
    pub score: u64,
    /// The least open path of its file.
    pub path: Bytes,
    /// Its first place, counted from the file's first token, which has place 0.
    pub start: u64,
    /// Its last place, at least `start` and counted like it.
    pub end: u64,
}

/// One word of a user's files.
#[derive(Debug, PartialEq, Eq, Drop)]
pub struct TermLine {
    /// The word, without differences of case and at most WORD_MAX bytes long.
    pub word: Bytes,
    /// How many of the user's files have it, at least 1.
    pub files: u64,
}

/// The answer to a question.
#[derive(Debug, PartialEq, Eq, Drop)]
pub enum Answered {
    /// `hits` regions, in `files` files.
    Count {
        /// How many regions there are, over all of the user's files.
        hits: u64,
        /// How many files have one or more of the regions.
        files: u64,
    },
    /// `hits` regions, in `files` files; the first of them are shown.
    Find {
        /// How many regions there are, over all of the user's files.
        hits: u64,
        /// How many files have one or more of the regions.
        files: u64,
        /// At most `k` of the question, file by file in the order of the user's view, those of one file
        /// ascending by their starts.
        shown: Sequence<Found>,
    },
    /// `listed` regions hold one of the words; the best of them are shown.
    Rank {
        listed: u64,
        /// At most `k` of the question, by score, falling, then by path, then by start.
        shown: Sequence<RankLine>,
    },
    /// The open paths, file by file in the order of the user's view, those of one file ascending by
    /// their bytes.
    Paths {
        paths: Sequence<Bytes>,
    },
    /// `total` words begin with the prefix; the first of them are shown.
    Terms {
        total: u64,
        /// Whether the words of the most files come first.
        top: bool,
        /// At most `k` of the question: by bytes, or where `top` is set by files, falling, then by bytes.
        shown: Sequence<TermLine>,
    },
    /// The script: the bytes of its commands.
    Export {
        script: Bytes,
    },
    /// `listed` regions hold one of the words; so many of them could have a score that is shown.
    Weighed {
        listed: u64,
        weighed: u64,
    },
}
