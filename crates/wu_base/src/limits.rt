//! The limits of the product. None of them counts anything of another user.

/// The most bytes of one file's text.
pub const TEXT_MAX: usize = 16_777_216;

/// The most bytes of a command line, its LF not counted.
pub const LINE_MAX: usize = 65_536;

/// The most bytes of a name.
pub const NAME_MAX: usize = 255;

/// The greatest depth of a directory, where the root has depth 1.
pub const DEPTH_MAX: usize = 255;

/// How many bytes of a word count.
pub const WORD_MAX: usize = 64;

/// The most lines that a `find` or a `rank` may ask for.
pub const K_MAX: u32 = 10_000;

/// The most words of a `rank`.
pub const RANK_WORDS_MAX: usize = 64;

/// The most operators in an expression.
pub const OPERATORS_MAX: usize = 63;

/// The most opening parentheses in an expression.
pub const PARENS_MAX: usize = 64;

/// The most bytes of a snippet.
pub const SNIPPET_MAX: usize = 80;

/// The most units of one `work`.
pub const WORK_MAX: u32 = 1_000_000;

/// The most bytes that the source is asked for at once.
pub const READ_MAX: usize = 65_536;

/// The greatest value of `--max-input`, and its default: 2^40 bytes.
pub const INPUT_MAX: u64 = 1_099_511_627_776;

/// The default of `--flush`, in postings.
pub const FLUSH_DEFAULT: u32 = 1_048_576;

/// A store whose next address is at least this, 2^46, is spent.
pub const SPENT_AT: u64 = 70_368_744_177_664;

/// A store whose next blob number is at least this, 2^62, is spent.
pub const BLOBS_SPENT_AT: u64 = 4_611_686_018_427_387_904;

/// Every address of the index is below this, 2^47.
pub const ADDRESSES_MAX: u64 = 140_737_488_355_328;

/// The greatest generation of a part.
pub const GENERATION_MAX: u32 = 62;
