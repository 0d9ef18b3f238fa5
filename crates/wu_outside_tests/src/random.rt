//! Random calls on all stores, and what crashes leave, beside a plain map.
use std::alloc::Global;
use std::rt::Files;
use std::{fs, io};
use wu_base::Bytes;
use wu_outside::{DirStore, LockFolder, MemStore, PlainStore, Store};
use wu_outside_rows::Call::{Put, Read, Remove, Root, SetRoot, Size, Sync};
use wu_outside_rows::{Call, answer, of_bytes, of_nothing, of_size};
use wu_rows::NoAnswer;

/// Letters, of which puts write the first ones.
const LETTERS: &[u8] = b"the quick brown fox jumps over the lazy dog and runs away again";

/// Numbers that look random.
#[derive(Drop)]
struct Dice {
    state: u64,
}

impl Dice {
    /// A number below `top`.
    fn below(&mut self, top: u64) -> u64 {
        self.state = self
            .state
            .wrapping_mul(6_364_136_223_846_793_005)
            .wrapping_add(1_442_695_040_888_963_407);
        if top == 0 {
            0
        } else {
            (self.state >> 33) % top
        }
    }

    /// Some of the letters.
    fn letters(&mut self) -> &'static [u8] {
        let len = (self.below(64) as usize).min(LETTERS.len());
        &LETTERS[..len]
    }

    /// A call over six blobs.
    fn call(&mut self) -> Call<'static> {
        let blob = self.below(6);
        match self.below(10) {
            0 => Size(blob),
            1 | 2 | 3 => Read(blob, self.below(70), self.below(65)),
            4 | 5 => Put(blob, self.letters()),
            6 => Remove(blob),
            7 => Root(self.below(65)),
            8 => SetRoot(self.letters()),
            _ => Sync,
        }
    }
}

/// Blobs and the root in a plain list that has each number once, the root under the number 99.
type Map = Vec<(u64, Bytes)>;

/// The bytes at a place of the map.
fn bytes_at(map: &[(u64, Bytes)], number: u64) -> Option<&[u8]> {
    for (other, bytes) in map {
        if *other == number {
            return Some(bytes.as_slice());
        }
    }
    None
}

/// Takes the bytes at a place of the map away.
fn remove(map: &mut Map, number: u64) {
    map.retain(|held| held.0 != number);
}

/// The map again.
fn copied(alloc: Global, map: &[(u64, Bytes)]) -> Result<Map, NoAnswer> {
    let mut copy = Vec::new(alloc);
    for (number, bytes) in map {
        copy.push((*number, bytes.clone()?))?;
    }
    Ok(copy)
}

/// The bytes from a place on, at most so many.
fn part(bytes: &[u8], at: u64, len: u64) -> &[u8] {
    let start = (at as usize).min(bytes.len());
    let rest = &bytes[start..];
    &rest[..(len as usize).min(rest.len())]
}

/// What the map answers to a call.
fn map_answer(alloc: Global, map: &mut Map, call: Call) -> Result<String, NoAnswer> {
    match call {
        Size(blob) => {
            let size = bytes_at(map, blob).map(|bytes| bytes.len() as u64);
            of_size(alloc, Ok(size))
        }
        Read(blob, at, len) => match bytes_at(map, blob) {
            None => of_bytes(alloc, Ok(None), b""),
            Some(bytes) => {
                let given = part(bytes, at, len);
                of_bytes(alloc, Ok(Some(given.len())), given)
            }
        },
        Put(blob, bytes) => set(alloc, map, blob, bytes),
        Remove(blob) => {
            remove(map, blob);
            of_nothing(alloc, Ok(()))
        }
        Root(len) => match bytes_at(map, 99) {
            None => of_bytes(alloc, Ok(None), b""),
            Some(bytes) => of_bytes(alloc, Ok(Some(bytes.len())), part(bytes, 0, len)),
        },
        SetRoot(bytes) => set(alloc, map, 99, bytes),
        Sync => of_nothing(alloc, Ok(())),
    }
}

/// Gives a place of the map these bytes.
fn set(alloc: Global, map: &mut Map, number: u64, bytes: &[u8]) -> Result<String, NoAnswer> {
    let bytes = Bytes::from_slice(alloc, bytes)?;
    remove(map, number);
    map.push((number, bytes))?;
    of_nothing(alloc, Ok(()))
}

/// How many of 100 random calls on an empty store are answered as by a plain map.
fn agreeing<D: Store>(alloc: Global, store: &mut D, seed: u64) -> Result<u64, NoAnswer> {
    let mut dice = Dice { state: seed };
    let mut map = Vec::new(alloc);
    let mut same = 0u64;
    for _ in 0..100u32 {
        let call = dice.call();
        let wanted = map_answer(alloc, &mut map, call)?;
        let given = answer(alloc, store, call)?;
        same = same.saturating_add(u64::from(given.as_str() == wanted.as_str()));
    }
    Ok(same)
}

/// Makes random calls on each store, and prints how many are answered as by a plain map.
pub fn compare_stores<R: Files + Print + AllocGlobal>(rt: &R) -> io::Result<()>
where
    R::File: LockFolder,
{
    let mut in_memory = 0u64;
    let mut on_disk = 0u64;
    for seed in 0..20u64 {
        in_memory = in_memory.saturating_add(agreeing_in_memory(rt.alloc(), seed)?);
        on_disk = on_disk.saturating_add(agreeing_on_disk(rt, seed)?);
    }
    println!(rt;
        "random calls on MemStore and PlainStore: {in_memory} of 4000 are answered as by a map"
    )?;
    println!(rt; "random calls on DirStore: {on_disk} of 2000 are answered as by a map")
}

/// How many calls on both stores in memory agree; none where one fails or the stores read other
/// ranges.
fn agreeing_in_memory(alloc: Global, seed: u64) -> Result<u64, NoAnswer> {
    let mut memory = MemStore::new(alloc, Vec::new(alloc), u64::MAX);
    let mut plain = PlainStore::new(alloc);
    agreeing_both(alloc, &mut memory, &mut plain, seed)
}

fn agreeing_both(
    alloc: Global,
    memory: &mut MemStore,
    plain: &mut PlainStore,
    seed: u64,
) -> Result<u64, NoAnswer> {
    let same = agreeing(alloc, memory, seed)?.saturating_add(agreeing(alloc, plain, seed)?);
    if memory.faults() == 0 && memory.reads() == plain.reads() {
        Ok(same)
    } else {
        Ok(0)
    }
}

/// How many calls on a store in a folder agree; none where one fails.
fn agreeing_on_disk<R: Files + AllocGlobal>(files: &R, seed: u64) -> Result<u64, NoAnswer>
where
    R::File: LockFolder,
{
    let mut store = DirStore::new(files, "random")?;
    let same = agreeing(files.alloc(), &mut store, seed);
    let _ = fs::remove_dir_all(files, "random");
    if store.faults() == 0 { same } else { Ok(0) }
}

/// What a place may be after a crash: what it was at the last sync, or what a change since then
/// allows.
fn may_be(synced: &[(u64, Bytes)], since: &[Call], number: u64, left: Option<&[u8]>) -> bool {
    left == bytes_at(synced, number) || since.iter().any(|call| allows(*call, number, left))
}

/// Whether this change allows it.
fn allows(call: Call, number: u64, left: Option<&[u8]>) -> bool {
    match call {
        Put(blob, _) => blob == number,
        Remove(blob) => blob == number && left.is_none(),
        SetRoot(bytes) => number == 99 && left == Some(bytes),
        _ => false,
    }
}

/// The whole of a place of the store.
fn whole(alloc: Global, store: &mut MemStore, number: u64) -> Result<Option<Vec<u8>>, NoAnswer> {
    let mut buf = [0u8; 64];
    let count = if number == 99 {
        store.root(&mut buf)
    } else {
        store.read(number, 0, &mut buf)
    };
    match count {
        Ok(Some(count)) => Ok(Some(Vec::from_slice(alloc, &buf[..count.min(64)])?)),
        Ok(None) => Ok(None),
        Err(_) => Err(NoAnswer::BadRow),
    }
}

/// What is known of a store: what it holds, what it held at its last sync, and the calls since
/// then.
#[derive(Drop)]
struct Known {
    map: Map,
    synced: Map,
    since: Vec<Call<'static>>,
}

impl Known {
    fn note(&mut self, alloc: Global, call: Call<'static>) -> Result<(), NoAnswer> {
        map_answer(alloc, &mut self.map, call)?;
        self.since.push(call)?;
        if let Sync = call {
            self.since.clear();
            self.synced = copied(alloc, &self.map)?;
        }
        Ok(())
    }
}

/// How many of seven places hold what the definition of a crash allows, after 30 random calls.
fn allowed_places(alloc: Global, seed: u64) -> Result<u64, NoAnswer> {
    let mut store = MemStore::new(alloc, Vec::new(alloc), u64::MAX);
    let mut known = Known {
        map: Vec::new(alloc),
        synced: Vec::new(alloc),
        since: Vec::new(alloc),
    };
    let mut dice = Dice { state: seed };
    let made = make_calls(alloc, &mut store, &mut known, &mut dice);
    allowed_after(alloc, made, &store, &known, dice.below(1 << 31))
}

fn make_calls(
    alloc: Global,
    store: &mut MemStore,
    known: &mut Known,
    dice: &mut Dice,
) -> Result<(), NoAnswer> {
    for _ in 0..30u32 {
        let call = dice.call();
        answer(alloc, store, call)?;
        known.note(alloc, call)?;
    }
    Ok(())
}

fn allowed_after(
    alloc: Global,
    made: Result<(), NoAnswer>,
    store: &MemStore,
    known: &Known,
    choice: u64,
) -> Result<u64, NoAnswer> {
    made?;
    let mut left = store.crashed(choice)?;
    allowed_in(alloc, &mut left, known)
}

fn allowed_in(alloc: Global, left: &mut MemStore, known: &Known) -> Result<u64, NoAnswer> {
    let mut allowed = 0u64;
    for number in [0, 1, 2, 3, 4, 5, 99u64] {
        let bytes = whole(alloc, left, number)?;
        let bytes = bytes.as_ref().map(|bytes| bytes.as_slice());
        let is_allowed = may_be(&known.synced, known.since.as_slice(), number, bytes);
        allowed = allowed.saturating_add(u64::from(is_allowed));
    }
    Ok(allowed)
}

/// Lets stores crash after random calls, and prints how many places hold what the definition of a
/// crash allows.
pub fn compare_crashes(rt: &(impl Print + AllocGlobal)) -> io::Result<()> {
    let mut allowed = 0u64;
    for seed in 0..40u64 {
        allowed = allowed.saturating_add(allowed_places(rt.alloc(), seed)?);
    }
    println!(rt; "crashes after random calls: {allowed} of 280 places hold what is allowed")
}
