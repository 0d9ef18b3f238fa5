//! Background work: which job is next, how it starts, and what becomes of its parts.
ghost use Rattle.std.specs.Prelude.{◌≡◌, ◌+◌, ◌<◌, ◌≤◌, ◌++◌, ℕ, List, [], Some, All, IfOk, IsPermutation, OnErr, OnOk, drop, length, map};
ghost use Rattle.std.specs.Prelude.{position, take, vec_len};
ghost use Rattle.wu_layout.specs.Steps.{alike_neighbours as alike_in};
ghost use Rattle.wu_space.specs.Addresses.{live_ranges};
ghost use Rattle.wu_base.specs.Ranges.{AreApart};
ghost use Rattle.wu_parts.specs.StoredParts.{IsStarted, MayBeMerged, records_of};
ghost use Rattle.wu_parts.specs.Units.{as_parts, is_half_dead as half_dead_by, next_job as next_of, replaced};
ghost use Rattle.wu_parts.specs.declared.working.NextJob.TheVariants.{Merge as MergeAt, Collect as CollectAt};

use crate::writing::StoredPart;
use std::alloc::Global;
use wu_base::{ADDRESSES_MAX, NoMemory, PartRec, Range};
use wu_job::Job;
use wu_space::Space;

/// A job that the policy names.
#[derive(Clone, Copy, Debug, PartialEq, Eq)]
pub(crate) enum NextJob {
    /// The part at the place is merged with its right neighbour.
    Merge { place: usize },
    /// The part at the place is written anew.
    Collect { place: usize },
}

/// A job that is under way.
#[derive(Drop)]
pub(crate) struct Running {
    /// How many parts stand left of its first.
    pub(crate) place: usize,
    /// How many parts it is on: one or two.
    pub(crate) count: usize,
    pub(crate) job: Job,
}

/// The job that the policy names: the merge of the leftmost two neighbours of equal generations, or else the
/// rewriting of the leftmost part of which at most half is live, or none.
pub(crate) fn next_job(parts: &[StoredPart], space: &Space) -> Option<NextJob>
    ensures { result ≡ next_of space.now.ranges (records_of parts.now) }
{
    match alike_neighbours(parts) {
        Some(place) => Some(NextJob::Merge { place }),
        None => match half_dead(parts, space) {
            Some(place) => Some(NextJob::Collect { place }),
            None => None,
        },
    }
}

/// The place of the leftmost part that has the generation of its right neighbour.
fn alike_neighbours(parts: &[StoredPart]) -> Option<usize>
    ensures { result ≡ alike_in (as_parts (records_of parts.now)) }
{
    for place in 0..parts.len().saturating_sub(1) {
        if parts[place].recorded.generation == parts[place + 1].recorded.generation {
            return Some(place);
        }
    }
    None
}

/// The place of the leftmost part of which at most half is live.
fn half_dead(parts: &[StoredPart], space: &Space) -> Option<usize>
    ensures { result ≡ position (half_dead_by space.now.ranges) (records_of parts.now) }
{
    parts
        .iter()
        .position(|part| is_half_dead(&part.recorded, space))
}

/// Whether at most half as many addresses as the part has postings are live in its span.
fn is_half_dead(recorded: &PartRec, space: &Space) -> bool
    ensures { result ≡ half_dead_by space.now.ranges recorded.now }
{
    space.live_in(recorded.low, recorded.high) <= recorded.stored / 2
}

/// Starts the job that the policy names. The only error is out of memory.
pub(crate) fn start(
    alloc: Global,
    parts: &[StoredPart],
    next: NextJob,
    space: &Space,
) -> Result<Running, NoMemory>
    requires named { next_of space.now.ranges (records_of parts.now) ≡ Some next }
    requires space { space.now.next ≤ ADDRESSES_MAX }
    requires parts { MayBeMerged parts.now }
    ensures { IfOk result (IsStarted space.now.ranges parts.now next) }
{
    match next {
        NextJob::Merge { place } => start_merge(alloc, parts, place, space),
        NextJob::Collect { place } => start_collect(alloc, parts, place, space),
    }
}

/// Starts the merge of the part at the place with its right neighbour.
fn start_merge(
    alloc: Global,
    parts: &[StoredPart],
    place: usize,
    space: &Space,
) -> Result<Running, NoMemory>
    requires place { place + 1 < length parts.now }
    requires alike { alike_in (as_parts (records_of parts.now)) ≡ Some place }
    requires space { space.now.next ≤ ADDRESSES_MAX }
    requires parts { MayBeMerged parts.now }
    ensures { IfOk result (IsStarted space.now.ranges parts.now (MergeAt place)) }
{
    let (left, right) = (&parts[place], &parts[place + 1]);
    let live = live_between(space, left.recorded.low, right.recorded.high)?;
    let job = Job::start_merge(
        alloc,
        &left.recorded,
        &left.directory,
        &right.recorded,
        &right.directory,
        &live,
    )?;
    Ok(Running {
        place,
        count: 2,
        job,
    })
}

/// Starts the rewriting of the part at the place.
fn start_collect(
    alloc: Global,
    parts: &[StoredPart],
    place: usize,
    space: &Space,
) -> Result<Running, NoMemory>
    requires place { place < length parts.now }
    requires space { space.now.next ≤ ADDRESSES_MAX }
    requires parts { MayBeMerged parts.now }
    ensures { IfOk result (IsStarted space.now.ranges parts.now (CollectAt place)) }
{
    let part = &parts[place];
    let live = live_between(space, part.recorded.low, part.recorded.high)?;
    let job = Job::start_collect(alloc, &part.recorded, &part.directory, &live)?;
    Ok(Running {
        place,
        count: 1,
        job,
    })
}

/// The live ranges that have an address from `low` to `high`, ascending. The only error is out of memory.
fn live_between(space: &Space, low: u64, high: u64) -> Result<Vec<Range>, NoMemory>
    requires { space.now.next ≤ ADDRESSES_MAX }
    ensures ranges { IfOk result (λ live. IsPermutation (live_ranges space.now.ranges low high) live.items) }
    ensures apart { IfOk result (λ live. AreApart live.items) }
    ensures bounded { IfOk result (λ live. All (λ range. range.start + range.len ≤ ADDRESSES_MAX) live.items) }
{
    space.keeps_the_rules();
    Ok(space.live_ranges(low, high)?)
}

/// Takes out so many parts from the place on, and notes their blobs as no longer needed. The only error is out
/// of memory.
pub(crate) fn take_out(
    parts: &mut Vec<StoredPart>,
    stale: &mut Vec<u64>,
    place: usize,
    count: usize,
) -> Result<(), NoMemory>
    requires { place + count ≤ vec_len parts.old }
    ensures parts { OnOk result (parts.new.items ≡ replaced place count [] parts.old.items) }
    ensures stale { OnOk result (stale.new.items
        ≡ stale.old.items ++ map (λ part. part.recorded.blob) (take count (drop place parts.old.items))) }
    ensures some { OnErr result ((out : ℕ) × (parts.new.items ≡ replaced place out [] parts.old.items)) }
    ensures noted { OnErr result ((more : List ℕ) × (stale.new.items ≡ stale.old.items ++ more)) }
{
    for _ in 0..count {
        let part = parts.remove(place);
        stale.push(part.recorded.blob)?;
    }
    Ok(())
}
