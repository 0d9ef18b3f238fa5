//! What the engine answers to an event.

use wu_tree::Refusal;

/// What became of an event.
#[derive(Clone, Copy, Debug, PartialEq, Eq)]
pub enum Verdict {
    /// It happened.
    Made,
    /// It was refused, and nothing changed.
    Refused(Refusal),
}
