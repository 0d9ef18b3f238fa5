//! Which terms are words that begin with a prefix.
ghost use Rattle.std.specs.Prelude.{◌≡◌};
ghost use Rattle.wu_terms.specs.Terms.{is_candidate, is_either, is_tag};

use wu_token::{FILE_END, FILE_START, LINE_END, LINE_START};

/// Whether the term is a word that begins with the prefix.
pub(crate) fn is_candidate(prefix: &[u8], term: &[u8]) -> bool
    ensures { result ≡ is_candidate prefix.now term.now }
{
    term.starts_with(prefix) && !is_tag(term)
}

/// Whether the term is one of the four tags, which stand among the terms of a text and are no words.
#[tactic(auto, unfolding(wu_token::specs::Tokens::file_start, wu_token::specs::Tokens::file_end, wu_token::specs::Tokens::line_start, wu_token::specs::Tokens::line_end))]
pub(crate) fn is_tag(term: &[u8]) -> bool
    ensures { result ≡ is_tag term.now }
{
    is_either(FILE_START, FILE_END, term) || is_either(LINE_START, LINE_END, term)
}

/// Whether the term is one of these two.
fn is_either(one: &[u8], other: &[u8], term: &[u8]) -> bool
    ensures { result ≡ is_either one.now other.now term.now }
{
    one == term || other == term
}
