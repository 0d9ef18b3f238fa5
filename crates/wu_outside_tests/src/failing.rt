//! Each call of a store failing in turn, and all from one on.
use std::alloc::Global;
use std::io;
use std::ops::Range;
use wu_outside::{MemStore, PlainStore};
use wu_outside_rows::Call::{Put, Read, Remove, Root, SetRoot, Size, Sync};
use wu_outside_rows::{Call, answer};
use wu_rows::NoAnswer;

/// Calls that touch all methods.
const CALLS: &[Call<'static>] = &[
    Root(8),
    Size(1),
    Read(1, 0, 8),
    Put(1, b"apple"),
    Size(1),
    Read(1, 0, 8),
    Read(1, 3, 8),
    Read(1, 5, 8),
    Read(1, 2, 1),
    SetRoot(b"root"),
    Root(2),
    Sync,
    Remove(1),
    Size(1),
];

/// Prints in how many runs with a fault all other calls answer as without it.
pub fn compare_failing(rt: &(impl Print + AllocGlobal)) -> io::Result<()> {
    let mut single = 0u64;
    let mut stopped = 0u64;
    for number in 0..CALLS.len() {
        single = single.saturating_add(u64::from(fails_alone(rt.alloc(), number)?));
    }
    for stop in 0..=CALLS.len() {
        stopped = stopped.saturating_add(u64::from(fails_from(rt.alloc(), stop)?));
    }
    println!(rt;
        "one call failing: {single} of {} runs answer the others as a plain store",
        CALLS.len()
    )?;
    println!(rt;
        "all calls failing from one on: {stopped} of {} runs answer those before it as a plain store",
        CALLS.len() + 1
    )
}

/// Whether the call with this number fails alone, and the others answer as a plain store to which
/// it isn't made.
fn fails_alone(alloc: Global, failing: usize) -> Result<bool, NoAnswer> {
    let fails = Vec::from_slice(alloc, &[failing as u64])?;
    fail(alloc, fails, u64::MAX, failing..failing.saturating_add(1))
}

/// Whether the calls from the stop on fail, and the others answer as a plain store.
fn fails_from(alloc: Global, stop: usize) -> Result<bool, NoAnswer> {
    fail(alloc, Vec::new(alloc), stop as u64, stop..CALLS.len())
}

/// Whether those calls fail of a store of which the named calls fail, and all from the stop on; and
/// whether the others answer as a plain store.
fn fail(
    alloc: Global,
    fails: Vec<u64>,
    stop: u64,
    failing: Range<usize>,
) -> Result<bool, NoAnswer> {
    let mut store = MemStore::new(alloc, fails, stop);
    let mut plain = PlainStore::new(alloc);
    are_failing(alloc, &mut store, &mut plain, failing)
}

fn are_failing(
    alloc: Global,
    store: &mut MemStore,
    plain: &mut PlainStore,
    failing: Range<usize>,
) -> Result<bool, NoAnswer> {
    let mut same = true;
    for (number, call) in CALLS.iter().enumerate() {
        let given = answer(alloc, store, *call)?;
        let is_wanted = if failing.contains(&number) {
            given.as_str() == "failed"
        } else {
            is_answer(alloc, plain, *call, given.as_str())?
        };
        same = same && is_wanted;
    }
    let counted = store.calls() == CALLS.len() as u64 && store.faults() == failing.len() as u64;
    Ok(same && counted && store.reads() == plain.reads())
}

/// Whether the plain store answers the call so.
fn is_answer(
    alloc: Global,
    plain: &mut PlainStore,
    call: Call,
    given: &str,
) -> Result<bool, NoAnswer> {
    Ok(answer(alloc, plain, call)?.as_str() == given)
}
