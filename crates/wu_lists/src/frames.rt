//! Addresses and blocks beside frames, both walked by galloping: J. L. Bentley and A. C. Yao, An almost optimal
//! algorithm for unbounded searching, 1976.
ghost use Rattle.std.specs.Prelude.{◌≡◌, ◌+◌, ◌-◌, ◌^◌, ◌<◌, ◌≤◌, ◌++◌, ℕ, List, filter, length, take, drop, nat_le, OnOk, OnErr};
ghost use Rattle.std.specs.List.{AllByRecursion};
ghost use Rattle.wu_layout.specs.Postings.{is_live};
ghost use Rattle.wu_lists.specs.Ascending.{AscendBetween, AreInOrder};
ghost use Rattle.wu_lists.specs.Blocks.{meets};
ghost use Rattle.wu_lists.specs.Gaining.{is_inside, is_inside_first, opens, tally_on};
ghost use Rattle.wu_lists.specs.Tallying.{Counts};
ghost use Rattle.wu_lists.specs.declared.blocks.Block.{Block};
ghost use Rattle.wu_lists.specs.declared.tallies.Tally.{Tally};

use crate::blocks::Block;
use crate::tallies::Tally;
use wu_base::{NoMemory, Range};

/// Appends the addresses that lie in one of the frames. Takes a number of steps that is at most that of the
/// addresses, and at most that of the frames, each of time logarithmic in what it passes over, and time for
/// what it appends. Out of memory, nothing is appended.
pub fn put_within(found: &mut Vec<u64>, addresses: &[u64], frames: &[Range]) -> Result<(), NoMemory>
    requires ascend { AscendBetween 0 (2 ^ 64 - 1) addresses.now }
    requires order { AreInOrder 0 (2 ^ 64 - 1) frames.now }
    ensures ok { OnOk result (found.new.items ≡ found.old.items ++ filter (is_live frames.now) addresses.now) }
    ensures err { OnErr result (found.new.items ≡ found.old.items) }
{
    let before = found.len();
    match append_within(found, addresses, frames) {
        Ok(()) => Ok(()),
        Err(error) => {
            found.truncate(before);
            Err(error)
        }
    }
}

/// The same, but for this: out of memory, the first of them may have been appended.
fn append_within(found: &mut Vec<u64>, addresses: &[u64], frames: &[Range]) -> Result<(), NoMemory>
    requires ascend { AscendBetween 0 (2 ^ 64 - 1) addresses.now }
    requires order { AreInOrder 0 (2 ^ 64 - 1) frames.now }
    ensures ok { OnOk result (found.new.items ≡ found.old.items ++ filter (is_live frames.now) addresses.now) }
    ensures front { OnErr result ((more : List ℕ) × (found.new.items ≡ found.old.items ++ more)) }
{
    let mut rest = addresses;
    let mut left = frames;
    while let [frame, later @ ..] = left {
        let (_, from_start) = split_below(rest, frame.start);
        let (inside, after) = split_inside(from_start, frame.start + frame.len);
        found.extend_from_slice(inside)?;
        rest = after;
        left = frames_for(later, after);
    }
    Ok(())
}

/// Counts the addresses that lie in one of the frames, and the frames that have one, as [`put_within`] walks
/// them. Takes no memory. That is exact as long as the addresses that are counted ascend.
pub fn tally_within(tally: &mut Tally, addresses: &[u64], frames: &[Range])
    requires ascend { AscendBetween 0 (2 ^ 64 - 1) addresses.now }
    requires order { AreInOrder 0 (2 ^ 64 - 1) frames.now }
    ensures { Counts frames.now (filter (is_live frames.now) addresses.now) tally.old tally.new }
{
    count_within(tally, addresses, frames)
}

/// The same. The addresses in a frame are passed over, and not looked at.
pub(crate) fn count_within(tally: &mut Tally, addresses: &[u64], frames: &[Range])
    requires ascend { AscendBetween 0 (2 ^ 64 - 1) addresses.now }
    requires order { AreInOrder 0 (2 ^ 64 - 1) frames.now }
    ensures { tally.new ≡ tally_on frames.now tally.old (filter (is_live frames.now) addresses.now) }
{
    let mut rest = addresses;
    let mut left = frames;
    while let [frame, later @ ..] = left {
        let (_, from_start) = split_below(rest, frame.start);
        let (inside, after) = split_below(from_start, frame.start + frame.len);
        tally.count(frame.start, inside);
        rest = after;
        left = frames_for(later, after);
    }
}

/// Whether one of the frames, none of which ends before the block, overlaps with the block's span.
#[inline]
pub(crate) fn is_needed(block: &Block, frames: &[Range]) -> bool
    requires order { AreInOrder 0 (2 ^ 64 - 1) frames.now }
    requires after { AllByRecursion (λ frame. block.now.first < frame.start + frame.len) frames.now }
    ensures { result ≡ meets frames.now block.now }
{
    match frames {
        [first, ..] => first.start <= block.last,
        [] => false,
    }
}

/// Whether the block's whole span lies in the first of the frames.
#[inline]
pub(crate) fn is_inside_first(block: &Block, frames: &[Range]) -> bool
    requires { AreInOrder 0 (2 ^ 64 - 1) frames.now }
    ensures { result ≡ is_inside_first frames.now block.now }
{
    match frames {
        [first, ..] => is_inside(block, first),
        [] => false,
    }
}

/// Whether the block's whole span lies in the frame.
#[inline]
fn is_inside(block: &Block, frame: &Range) -> bool
    requires { frame.now.start + frame.now.len ≤ 2 ^ 64 - 1 }
    ensures { result ≡ is_inside frame.now block.now }
{
    frame.start <= block.first && block.last < frame.start + frame.len
}

/// The frames without those first ones that end before the address or at it. Takes time logarithmic in the
/// number of those that it leaves out.
#[inline]
pub(crate) fn frames_from(frames: &[Range], address: u64) -> &[Range]
    requires { AreInOrder 0 (2 ^ 64 - 1) frames.now }
    ensures within { length result.now ≤ length frames.now }
    ensures order { AreInOrder 0 (2 ^ 64 - 1) result.now }
    ensures after { AllByRecursion (λ frame. address < frame.start + frame.len) result.now }
    ensures live { (other : ℕ) → address ≤ other → is_live result.now other ≡ is_live frames.now other }
    ensures needed { (block : Block) → address ≤ block.first → meets result.now block ≡ meets frames.now block }
    ensures opens { (after other : ℕ) → address ≤ other → opens result.now after other ≡ opens frames.now after other }
{
    frames.split_at(count_ended(frames, address)).1
}

/// The addresses below the limit, and the others. Takes time logarithmic in the number of those below.
#[inline]
fn split_below(addresses: &[u64], limit: u64) -> (&[u64], &[u64])
    requires ascend { AscendBetween 0 (2 ^ 64 - 1) addresses.now }
    requires limit { limit ≤ 2 ^ 64 - 1 }
    ensures whole { result.0.now ++ result.1.now ≡ addresses.now }
    ensures below { AllByRecursion (λ address. address < limit) result.0.now }
    ensures others { AscendBetween limit (2 ^ 64 - 1) result.1.now }
{
    addresses.split_at(count_below(addresses, limit))
}

/// The same, found by looking at each one below, for addresses that are to be copied.
#[inline]
fn split_inside(addresses: &[u64], limit: u64) -> (&[u64], &[u64])
    requires ascend { AscendBetween 0 (2 ^ 64 - 1) addresses.now }
    requires limit { limit ≤ 2 ^ 64 - 1 }
    ensures whole { result.0.now ++ result.1.now ≡ addresses.now }
    ensures below { AllByRecursion (λ address. address < limit) result.0.now }
    ensures others { AscendBetween limit (2 ^ 64 - 1) result.1.now }
{
    addresses.split_at(count_inside(addresses, limit))
}

/// How many of the addresses are below the limit. A frame mostly has few of a block's, and to copy them takes as
/// long as to look at each.
#[inline]
fn count_inside(addresses: &[u64], limit: u64) -> usize
    requires { AscendBetween 0 (2 ^ 64 - 1) addresses.now }
    ensures within { result ≤ length addresses.now }
    ensures below { AllByRecursion (λ address. address < limit) (take result addresses.now) }
    ensures others { AllByRecursion (λ address. limit ≤ address) (drop result addresses.now) }
{
    for place in 0..addresses.len() {
        if addresses[place] >= limit {
            return place;
        }
    }
    addresses.len()
}

/// How many of the addresses are below the limit.
#[inline]
fn count_below(addresses: &[u64], limit: u64) -> usize
    requires { AscendBetween 0 (2 ^ 64 - 1) addresses.now }
    ensures within { result ≤ length addresses.now }
    ensures below { AllByRecursion (λ address. address < limit) (take result addresses.now) }
    ensures others { AllByRecursion (λ address. limit ≤ address) (drop result addresses.now) }
{
    let end = reach_of_limit(addresses, limit);
    addresses[..end].partition_point(|address| *address < limit)
}

/// At most twice as many of the first addresses as are below the limit: none of the others is.
#[inline]
fn reach_of_limit(addresses: &[u64], limit: u64) -> usize
    requires { AscendBetween 0 (2 ^ 64 - 1) addresses.now }
    ensures within { result ≤ length addresses.now }
    ensures others { AllByRecursion (λ address. limit ≤ address) (drop result addresses.now) }
{
    let mut end = 0;
    while end < addresses.len() {
        if addresses[end] >= limit {
            return end;
        }
        end = 2 * end + 1;
    }
    addresses.len()
}

/// The frames without those first ones that end before the first of the addresses; none where no address
/// is left. Takes time logarithmic in the number of those that it leaves out.
#[inline]
fn frames_for<'a>(frames: &'a [Range], addresses: &[u64]) -> &'a [Range]
    requires order { AreInOrder 0 (2 ^ 64 - 1) frames.now }
    requires ascend { AscendBetween 0 (2 ^ 64 - 1) addresses.now }
    ensures within { length result.now ≤ length frames.now }
    ensures order { AreInOrder 0 (2 ^ 64 - 1) result.now }
    ensures same { filter (is_live result.now) addresses.now ≡ filter (is_live frames.now) addresses.now }
    ensures counted { (tally : Tally) → tally_on result.now tally (filter (is_live result.now) addresses.now)
        ≡ tally_on frames.now tally (filter (is_live frames.now) addresses.now) }
{
    match addresses {
        [first, ..] => frames_from(frames, *first),
        [] => &[],
    }
}

/// How many of the frames end before the address or at it.
#[inline]
fn count_ended(frames: &[Range], address: u64) -> usize
    requires { AreInOrder 0 (2 ^ 64 - 1) frames.now }
    ensures within { result ≤ length frames.now }
    ensures ended { AllByRecursion (λ frame. frame.start + frame.len ≤ address) (take result frames.now) }
    ensures others { AllByRecursion (λ frame. address < frame.start + frame.len) (drop result frames.now) }
{
    let end = reach_of_ended(frames, address);
    frames[..end].partition_point(|frame| has_ended(frame, address))
}

/// At most twice as many of the first frames as end before the address or at it: none of the others does.
#[inline]
fn reach_of_ended(frames: &[Range], address: u64) -> usize
    requires { AreInOrder 0 (2 ^ 64 - 1) frames.now }
    ensures within { result ≤ length frames.now }
    ensures others { AllByRecursion (λ frame. address < frame.start + frame.len) (drop result frames.now) }
{
    let mut end = 0;
    while end < frames.len() {
        if !has_ended(&frames[end], address) {
            return end;
        }
        end = 2 * end + 1;
    }
    frames.len()
}

/// Whether the address is after all of the frame's.
#[inline]
fn has_ended(frame: &Range, address: u64) -> bool
    ensures { result ≡ nat_le (frame.now.start + frame.now.len) address }
{
    frame.start <= address && frame.len <= address - frame.start
}
