//! Frames, and the addresses that lie in them.
ghost use Rattle.std.specs.Prelude.{◌≡◌, ◌-◌, ◌^◌, filter, IfOk};
ghost use Rattle.wu_layout.specs.Postings.{is_live};
ghost use Rattle.wu_lists.specs.Ascending.{AscendBetween, AreInOrder};
ghost use Rattle.wu_parts.specs.LiveLists.{start_of};

use std::alloc::Global;
use wu_base::{NoMemory, Range, Sequence};
use wu_lists::put_within;

/// The addresses that lie in one of the frames. Takes the time that [`put_within`] tells.
pub(crate) fn within_frames(
    alloc: Global,
    addresses: &[u64],
    frames: &[Range],
) -> Result<Sequence<u64>, NoMemory>
    requires ascend { AscendBetween 0 (2 ^ 64 - 1) addresses.now }
    requires order { AreInOrder 0 (2 ^ 64 - 1) frames.now }
    ensures { IfOk result (λ found. found ≡ filter (is_live frames.now) addresses.now) }
{
    let mut found = Vec::new(alloc);
    put_within(&mut found, addresses, frames)?;
    Ok(Sequence::from(found))
}

/// Where the first frame starts, or 0 where there is none: no address below it lies in a frame.
pub(crate) fn first_start(frames: &[Range]) -> u64
    requires { AreInOrder 0 (2 ^ 64 - 1) frames.now }
    ensures start { result ≡ start_of frames.now }
    ensures order { AreInOrder result (2 ^ 64 - 1) frames.now }
{
    match frames {
        [first, ..] => first.start,
        [] => 0,
    }
}
