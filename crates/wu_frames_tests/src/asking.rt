//! Questions for the frames of users.
ghost use Rattle.wu_frames.specs.UserFrames.{CacheMatchesTree};

use std::alloc::Global;
use wu_base::Uid;
use wu_frames::{FrameCache, Frames};
use wu_rows::{NoAnswer, number_text, plain_text, small_number};
use wu_space::Space;
use wu_tree::Tree;

/// What the frames tell that are made for users anew.
pub fn told(
    alloc: Global,
    tree: &Tree,
    space: &Space,
    fields: &[&str],
) -> Result<String, NoAnswer> {
    let mut cache = FrameCache::new(alloc)?;
    told_by(alloc, &mut cache, tree, space, fields)
}

fn told_by(
    alloc: Global,
    cache: &mut FrameCache,
    tree: &Tree,
    space: &Space,
    fields: &[&str],
) -> Result<String, NoAnswer>
    requires { CacheMatchesTree tree.now space.now.ranges cache.old }
{
    match fields {
        ["frames", uid] => frames(alloc, cache, tree, space, small_number(uid)?),
        ["view", uid] => view(alloc, cache.frames_of(tree, space, small_number(uid)?)?),
        ["total", uid] => total(alloc, cache.frames_of(tree, space, small_number(uid)?)?),
        ["in turn", users, times] => in_turn(alloc, cache, tree, space, users, times),
        _ => Err(NoAnswer::BadRow),
    }
}

/// The frames as `START+LENGTH of INO at PLACE`, asked for twice.
fn frames(
    alloc: Global,
    cache: &mut FrameCache,
    tree: &Tree,
    space: &Space,
    uid: Uid,
) -> Result<String, NoAnswer>
    requires { CacheMatchesTree tree.now space.now.ranges cache.old }
{
    cache.prepare(tree, space, uid)?;
    written(alloc, cache.frames_of(tree, space, uid)?)
}

fn written(alloc: Global, frames: &Frames) -> Result<String, NoAnswer> {
    let mut text = String::new(alloc);
    for frame in frames.by_address.as_slice() {
        let start = frame.range.start;
        let len = frame.range.len;
        let ino = frame.ino;
        let place = frame.place;
        if !text.is_empty() {
            text.push_str(", ")?;
        }
        write!(text, "{start}+{len} of {ino} at {place}")?;
    }
    Ok(text)
}

/// Keeps frames of these users alone, whose numbers have a space between each two, the last first.
pub fn keep(
    alloc: Global,
    cache: &mut FrameCache,
    tree: &Tree,
    space: &Space,
    users: &str,
) -> Result<String, NoAnswer> {
    cache.clear();
    for uid in users.split_whitespace() {
        cache.prepare(tree, space, small_number(uid)?)?;
    }
    plain_text(alloc, "done")
}

/// The frames that are kept of the user, or `none`; `stale` where they aren't those that are made
/// anew.
pub fn kept(
    alloc: Global,
    tree: &Tree,
    space: &Space,
    uid: Uid,
    kept: Option<&Frames>,
) -> Result<String, NoAnswer> {
    match kept {
        None => plain_text(alloc, "none"),
        Some(frames) if is_anew(alloc, tree, space, uid, kept)? => written(alloc, frames),
        Some(_) => plain_text(alloc, "stale"),
    }
}

/// The numbers of the files of the view.
fn view(alloc: Global, frames: &Frames) -> Result<String, NoAnswer> {
    let mut text = String::new(alloc);
    for place in 0..frames.seen.len() {
        let Some(ino) = frames.seen.ino_at(place) else {
            break;
        };
        if !text.is_empty() {
            text.push(' ')?;
        }
        write!(text, "{ino}")?;
    }
    Ok(text)
}

/// How many addresses the frames have, and how many ranges there are.
fn total(alloc: Global, frames: &Frames) -> Result<String, NoAnswer> {
    let total = frames.total;
    let count = frames.ranges.len();
    Ok(format!(in alloc; "{total} in {count}")?)
}

/// How often so many users, who ask in turn, get the frames that are made for them anew.
fn in_turn(
    alloc: Global,
    cache: &mut FrameCache,
    tree: &Tree,
    space: &Space,
    users: &str,
    times: &str,
) -> Result<String, NoAnswer>
    requires { CacheMatchesTree tree.now space.now.ranges cache.old }
{
    let users = small_number(users)?.max(1);
    let times = small_number(times)?;
    let agreed = agreed(alloc, cache, tree, space, users, times)?;
    number_text(alloc, u64::from(agreed))
}

fn agreed(
    alloc: Global,
    cache: &mut FrameCache,
    tree: &Tree,
    space: &Space,
    users: Uid,
    times: u32,
) -> Result<u32, NoAnswer>
    requires { CacheMatchesTree tree.now space.now.ranges cache.old }
{
    let mut agreed: u32 = 0;
    for time in 0..times {
        let uid = time.checked_rem(users).unwrap_or(0);
        cache.prepare(tree, space, uid)?;
        if is_anew(alloc, tree, space, uid, cache.kept(uid))? {
            agreed = agreed.saturating_add(1);
        }
    }
    Ok(agreed)
}

/// Whether the frames that are kept of the user are those that are made for her anew.
fn is_anew(
    alloc: Global,
    tree: &Tree,
    space: &Space,
    uid: Uid,
    kept: Option<&Frames>,
) -> Result<bool, NoAnswer> {
    let mut cache = FrameCache::new(alloc)?;
    match kept {
        Some(frames) => is_same(alloc, &mut cache, tree, space, uid, frames),
        None => Ok(false),
    }
}

fn is_same(
    alloc: Global,
    cache: &mut FrameCache,
    tree: &Tree,
    space: &Space,
    uid: Uid,
    frames: &Frames,
) -> Result<bool, NoAnswer>
    requires { CacheMatchesTree tree.now space.now.ranges cache.old }
{
    let anew = cache.frames_of(tree, space, uid)?;
    let seen = frames.seen.to_seen(alloc)?;
    let seen_anew = anew.seen.to_seen(alloc)?;
    Ok(
        frames.total == anew.total
            && frames.ranges.as_slice() == anew.ranges.as_slice()
            && frames.by_address.as_slice() == anew.by_address.as_slice()
            && seen.as_slice() == seen_anew.as_slice(),
    )
}
