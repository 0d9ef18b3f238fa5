//! What a command line asks for.

/// The greatest value of `--flush`, in postings.
pub const FLUSH_MAX: u32 = 4_294_967_295;

/// What the command line asks for.
#[derive(Clone, Copy, Debug, PartialEq)]
pub enum CommandLine {
    /// `run`: a session over a script.
    Run(Settings),
    /// `demo` and a number: the session of a script that is made from the number.
    Demo(u64),
    /// `check`: the store is read, and what is wrong in it is told.
    Check,
}

/// The settings of a session, which the command-line arguments after `run` give.
#[derive(Clone, Copy, Debug, PartialEq)]
pub struct Settings {
    /// `--max-input`: the most bytes of the input, from 0 to 2^40.
    pub max_input: u64,
    /// `--flush`: the number of postings in memory from which on they are flushed, from 1 to
    /// 2^32 - 1.
    pub flush_at: u32,
}
