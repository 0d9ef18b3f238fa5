//! A space beside a plain list of the live ranges, changed at random.
use std::alloc::Global;
use wu_base::{Ino, Range};
use wu_rows::NoAnswer;
use wu_space::Space;

/// After how many of so many random changes the space tells what the plain list does.
pub fn agreed(alloc: Global, seed: u64, steps: u64) -> Result<u64, NoAnswer> {
    let mut space = Space::new(alloc, 0);
    agreed_of(alloc, &mut space, seed, steps)
}

fn agreed_of(alloc: Global, space: &mut Space, seed: u64, steps: u64) -> Result<u64, NoAnswer> {
    let mut live = Vec::new(alloc);
    let mut state = seed;
    let mut agreed: u64 = 0;
    for _ in 0..steps {
        state = drawn(state);
        change(
            space,
            &mut live,
            (state >> 33) as u32 % 50,
            1 + (state >> 40) % 9,
        )?;
        let low = (state >> 20) % (space.next().saturating_add(3));
        let agrees = tells(
            alloc,
            space,
            live.as_slice(),
            low,
            low.saturating_add(state % 40),
        )?;
        agreed = agreed.saturating_add(u64::from(agrees));
    }
    Ok(agreed)
}

/// The next number of a linear congruential generator, with Knuth's constants.
fn drawn(state: u64) -> u64 {
    state
        .wrapping_mul(6_364_136_223_846_793_005)
        .wrapping_add(1_442_695_040_888_963_407)
}

/// Releases the file's range where it has one, and else gives it one.
fn change(
    space: &mut Space,
    live: &mut Vec<(Ino, Range)>,
    ino: Ino,
    len: u64,
) -> Result<(), NoAnswer> {
    if space.range_of(ino).is_some() {
        space.release(ino);
        live.retain(|file| file.0 != ino);
        return Ok(());
    }
    if len == 0 || len > 1000 || space.next() > 1_000_000_000 {
        return Err(NoAnswer::BadRow);
    }
    let range = space.place(ino, len)?;
    live.push((ino, range))?;
    Ok(())
}

/// Whether the space, and the one that is rebuilt from the list, tell what the list does.
fn tells(
    alloc: Global,
    space: &Space,
    live: &[(Ino, Range)],
    low: u64,
    high: u64,
) -> Result<bool, NoAnswer> {
    match Space::rebuild(alloc, space.next(), live)? {
        Some(rebuilt) => tell_both(space, &rebuilt, live, low, high),
        None => Ok(false),
    }
}

fn tell_both(
    space: &Space,
    rebuilt: &Space,
    live: &[(Ino, Range)],
    low: u64,
    high: u64,
) -> Result<bool, NoAnswer> {
    Ok(tells_all(space, live, low, high)? && tells_all(rebuilt, live, low, high)?)
}

fn tells_all(space: &Space, live: &[(Ino, Range)], low: u64, high: u64) -> Result<bool, NoAnswer> {
    Ok(
        tells_owner(space, live, low)
            && tells_counts(space, live, low, high)
            && tells_ranges(space, live, low, high)?,
    )
}

fn tells_owner(space: &Space, live: &[(Ino, Range)], address: u64) -> bool {
    let mut owner = None;
    for (ino, range) in live {
        if shared(range, address, address) > 0 {
            owner = Some((*ino, address.saturating_sub(range.start)));
        }
    }
    match (space.owner_at(address), owner) {
        (Some((ino, offset)), Some((other, place))) => ino == other && offset == place,
        (None, None) => true,
        _ => false,
    }
}

fn tells_counts(space: &Space, live: &[(Ino, Range)], low: u64, high: u64) -> bool {
    let mut total: u64 = 0;
    let mut between: u64 = 0;
    for (_, range) in live {
        total = total.saturating_add(range.len);
        between = between.saturating_add(shared(range, low, high));
    }
    space.live_total() == total && space.live_in(low, high) == between
}

/// Files are given ascending addresses, so the list has the ranges in their order.
fn tells_ranges(
    space: &Space,
    live: &[(Ino, Range)],
    low: u64,
    high: u64,
) -> Result<bool, NoAnswer> {
    let found = space.live_ranges(low, high)?;
    let mut count: usize = 0;
    for (_, range) in live {
        if shared(range, low, high) > 0 {
            match found.as_slice().get(count) {
                Some(other) if other.start == range.start && other.len == range.len => {}
                _ => return Ok(false),
            }
            count = count.saturating_add(1);
        }
    }
    Ok(count == found.len())
}

/// How many addresses of the range lie from `low` to `high`.
fn shared(range: &Range, low: u64, high: u64) -> u64 {
    let end = range
        .start
        .saturating_add(range.len)
        .min(high.saturating_add(1));
    end.saturating_sub(range.start.max(low))
}
