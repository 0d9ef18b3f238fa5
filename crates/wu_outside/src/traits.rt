//! The three traits of the outside, and how their calls fail.
ghost use Rattle.std.specs.Prelude.{◌≡◌, List, Option, None, ℕ, ◌≤◌, max, Bool, false, length, option_map, IfOk, IfSome, MatchResult};
ghost use Rattle.std.specs.Io.KnownBytes.{ReadConsumes, WriteAppends};
ghost use Rattle.wu_outside.specs.Content.{Content, with_blob, with_root, ReadsFrom, GivesRoot, Does, Writes};
ghost use Rattle.wu_outside.specs.Crash.{Moments, Put, Remove, SetRoot, Tries, try_change, settle, AreAlike};
ghost use Rattle.wu_outside.specs.Ends.{GivesEnd};
ghost use Rattle.wu_outside.specs.Faults.{HasCause, HasFaultCause, HasWriteCause};
ghost use Rattle.wu_outside.specs.Ranges.{AddsRange, asked_size, root_range};
ghost use Rattle.wu_outside.specs.declared.ranges.ReadRange.{ReadRange};
ghost use Rattle.wu_outside.specs.declared.traits.Fault.TheVariants.{NoMemory as WantsMemory};

use std::alloc::{AllocError, AllocFailed};
use thiserror::Error;
use wu_base::{NoMemory, Trouble};

/// A call of the outside failed. The count of faults of its object rose.
#[derive(Clone, Copy, Debug, PartialEq, Eq, Error)]
#[error("a call of the outside failed")]
pub struct Failed;

/// Why a call that may take memory failed.
#[derive(Clone, Copy, Debug, PartialEq, Eq, Error)]
pub enum Fault {
    /// The object failed; its count of faults rose.
    #[error("a call of the outside failed")]
    Failed,
    /// There was no memory for the call.
    #[error("no memory")]
    NoMemory,
}

impl From<AllocError> for Fault {
    ghost from_gives = { λ _ e. e ≡ WantsMemory };

    fn from(_error: AllocError) -> Fault {
        Fault::NoMemory
    }
}

impl<T: Drop> From<AllocFailed<T>> for Fault {
    ghost from_gives = { λ _ e. e ≡ WantsMemory };

    fn from(_error: AllocFailed<T>) -> Fault {
        Fault::NoMemory
    }
}

impl From<NoMemory> for Fault {
    ghost from_gives = { λ _ e. e ≡ WantsMemory };

    fn from(_error: NoMemory) -> Fault {
        Fault::NoMemory
    }
}

impl From<Failed> for Fault {
    ghost use Rattle.std.specs.Prelude.{◌≡◌};
    ghost use Rattle.wu_outside.specs.declared.traits.Fault.TheVariants.{Failed as CallFailed};

    ghost from_gives = { λ _ e. e ≡ CallFailed };

    fn from(_error: Failed) -> Fault {
        Fault::Failed
    }
}

impl From<Fault> for Trouble {
    ghost use Rattle.std.specs.Prelude.{◌≡◌};
    ghost use Rattle.wu_outside.specs.Faults.{trouble_of};

    ghost from_gives = { λ fault trouble. trouble ≡ trouble_of fault };

    fn from(fault: Fault) -> Trouble {
        match fault {
            Fault::Failed => Trouble::StoreFault,
            Fault::NoMemory => Trouble::NoMemory,
        }
    }
}

/// Where bytes come from.
pub trait Source {
    /// The bytes that reads will give from here on, where the source tells them.
    ghost left: { Self → Option (List ℕ) };

    /// Whether a read gave the end.
    ghost ended: { Self → Bool };

    /// How many bytes the last read gave that didn't fail.
    ghost last_read: { Self → ℕ };

    /// How many bytes a read asked for at most that didn't fail: the greatest length of its buffer.
    ghost most_asked: { Self → ℕ };

    /// How many faults there were. The count stands still at 2^64 - 1.
    ghost faults: { Self → ℕ };

    /// Fills the first bytes of `buf` with the next ones, and answers how many. For a buffer that
    /// isn't empty 0 is the end: it comes exactly where no byte is left, and the source isn't asked
    /// again. `Failed` comes only where the count of faults rose, and takes nothing; on every other
    /// answer the count is as it was.
    fn read(&mut self, buf: &mut [u8]) -> Result<usize, Failed>
        requires { ended self.old ≡ false }
        ensures within { IfOk result (λ n. n ≤ length buf.new) }
        ensures bytes { ReadConsumes (left self.old) (left self.new) result buf.new }
        ensures end { MatchResult result
            (λ n. GivesEnd (ended self.old) (ended self.new) n (length buf.new))
            (λ _. ended self.new ≡ ended self.old) }
        ensures gave { MatchResult result
            (λ n. last_read self.new ≡ n)
            (λ _. last_read self.new ≡ last_read self.old) }
        ensures asked { MatchResult result
            (λ _. most_asked self.new ≡ max (most_asked self.old) (length buf.new))
            (λ _. most_asked self.new ≡ most_asked self.old) }
        ensures cause { HasCause (faults self.old) (faults self.new) result };
}

/// Where bytes go.
pub trait Sink {
    /// The bytes that the sink gained so far, where it tells them.
    ghost gained: { Self → Option (List ℕ) };

    /// How many faults there were. The count stands still at 2^64 - 1.
    ghost faults: { Self → ℕ };

    /// Appends a prefix of the piece, and answers its length. `Failed` comes only where the count of
    /// faults rose, and so does 0 for a piece that isn't empty; on every other answer the count is as
    /// it was. A refused write gains nothing.
    fn write(&mut self, piece: &[u8]) -> Result<usize, Fault>
        ensures within { IfOk result (λ n. n ≤ length piece.now) }
        ensures bytes { WriteAppends (gained self.old) (gained self.new) result piece.now }
        ensures cause { HasWriteCause (faults self.old) (faults self.new) piece.now result };
}

/// Where the index is kept: blobs by number, and one root. Each clause speaks of what the store
/// tells; where it tells nothing of its content, only the causes are promised.
pub trait Store {
    /// What it holds, where the store tells it.
    ghost holds: { Self → Option Content };

    /// The ranges read so far, and the blobs of which the size was asked, each as a range without
    /// bytes at place 0, in order, where the store tells them. A read of the root is one of blob 0.
    ghost reads: { Self → Option (List ReadRange) };

    /// What a crash may leave now, and might have left at each moment since the store was made,
    /// where the store tells that.
    ghost moments: { Self → Option Moments };

    /// How many faults there were. The count stands still at 2^64 - 1.
    ghost faults: { Self → ℕ };

    /// The size of a blob in bytes. None is answered exactly where the blob is absent. A size that
    /// was asked is noted as a range without bytes at place 0. `Failed` comes only where the count of
    /// faults rose; on every other answer the count is as it was.
    fn size(&mut self, blob: u64) -> Result<Option<u64>, Fault>
        ensures size { IfOk result (λ size. IfSome (holds self.old) (λ content. size ≡ option_map length (content.blobs blob))) }
        ensures same { holds self.new ≡ holds self.old }
        ensures noted { AddsRange (reads self.old) (reads self.new) (asked_size blob) result }
        ensures still { moments self.new ≡ moments self.old }
        ensures cause { HasFaultCause (faults self.old) (faults self.new) result };

    /// Fills the first bytes of `buf` with those of the blob from place `at` on, as far as it goes,
    /// and answers how many. None is answered exactly where the blob is absent. `Failed` comes only
    /// where the count of faults rose; on every other answer the count is as it was.
    fn read(&mut self, blob: u64, at: u64, buf: &mut [u8]) -> Result<Option<usize>, Fault>
        ensures within { IfOk result (λ count. IfSome count (λ n. n ≤ length buf.new)) }
        ensures bytes { IfOk result (λ count. IfSome (holds self.old) (λ content. ReadsFrom (content.blobs blob) at count buf.new)) }
        ensures same { holds self.new ≡ holds self.old }
        ensures noted { AddsRange (reads self.old) (reads self.new) (record { blob = blob; at = at; len = length buf.new }) result }
        ensures still { moments self.new ≡ moments self.old }
        ensures cause { HasFaultCause (faults self.old) (faults self.new) result };

    /// Gives the blob these bytes, whatever it had. After `Failed`, which comes only where the count
    /// of faults rose, it may have any bytes or be absent; on every other answer the count is as it
    /// was. Out of memory nothing is changed.
    fn put(&mut self, blob: u64, bytes: &[u8]) -> Result<(), Fault>
        ensures done { Writes (with_blob blob) bytes.now (holds self.old) (holds self.new) result }
        ensures unread { reads self.new ≡ reads self.old }
        ensures tried { Writes (λ written. try_change (Put blob) (with_blob blob written)) bytes.now
            (moments self.old) (moments self.new) result }
        ensures cause { HasFaultCause (faults self.old) (faults self.new) result };

    /// Makes the blob absent, also where it was. After `Failed`, which comes only where the count of
    /// faults rose, it is as it was or absent; on every other answer the count is as it was. Out of
    /// memory nothing is changed.
    fn remove(&mut self, blob: u64) -> Result<(), Fault>
        ensures done { Does (with_blob blob None) (holds self.old) (holds self.new) result }
        ensures unread { reads self.new ≡ reads self.old }
        ensures tried { Does (try_change (Remove blob) (with_blob blob None)) (moments self.old) (moments self.new) result }
        ensures cause { HasFaultCause (faults self.old) (faults self.new) result };

    /// The whole length of the root in bytes, its first bytes put into `buf`. None is answered
    /// exactly where there is none. It is noted as a range of blob 0, as long as `buf`. `Failed`
    /// comes only where the count of faults rose; on every other answer the count is as it was.
    fn root(&mut self, buf: &mut [u8]) -> Result<Option<usize>, Fault>
        ensures bytes { IfOk result (λ count. IfSome (holds self.old) (λ content. GivesRoot content.root count buf.new)) }
        ensures same { holds self.new ≡ holds self.old }
        ensures noted { AddsRange (reads self.old) (reads self.new) (root_range (length buf.new)) result }
        ensures still { moments self.new ≡ moments self.old }
        ensures cause { HasFaultCause (faults self.old) (faults self.new) result };

    /// Gives the root these bytes, at once: after `Failed`, which comes only where the count of
    /// faults rose, and after a crash it is the old or the new one, whole; also where the old one is
    /// still held after `Failed`, a crash may bring the new one. On every other answer the count is
    /// as it was. Out of memory nothing is changed.
    fn set_root(&mut self, bytes: &[u8]) -> Result<(), Fault>
        ensures done { Does (with_root bytes.now) (holds self.old) (holds self.new) result }
        ensures unread { reads self.new ≡ reads self.old }
        ensures tried { Tries (SetRoot bytes.now) (with_root bytes.now) (moments self.old) (moments self.new) result }
        ensures cause { HasFaultCause (faults self.old) (faults self.new) result };

    /// Makes what was changed so far survive a crash. `Failed` comes only where the count of faults
    /// rose, and promises nothing; on every other answer the count is as it was.
    fn sync(&mut self) -> Result<(), Fault>
        ensures same { holds self.new ≡ holds self.old }
        ensures unread { reads self.new ≡ reads self.old }
        ensures settled { MatchResult result
            (λ _. moments self.new ≡ option_map settle (moments self.old))
            (λ _. moments self.new ≡ moments self.old) }
        ensures cause { HasFaultCause (faults self.old) (faults self.new) result };

    /// Who tells what a crash leaves tells what is held.
    ghost told_alike: { (store : Self) → AreAlike (holds store) (moments store) };
}
