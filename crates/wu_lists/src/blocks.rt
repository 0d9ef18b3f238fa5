//! Blocks, as they are read from the store.
ghost use Rattle.std.proofs.Common.{rules};
ghost use Rattle.std.specs.Cmp.Rules.{hashing};
ghost use Rattle.std.specs.Hash as fed;
ghost use Rattle.std.specs.Prelude.{◌≡◌, ◌<◌, ◌++◌, ℕ, List, [], ◌∷◌, length, max, option_map, vec_capacity, IfOk, IfErr, IfSome, OnOk, OnErr};
ghost use Rattle.wu_lists.specs.Blocks.{HasBytes, IsSpelledIn, IsSpelling, range_of};
ghost use Rattle.wu_lists.specs.Causes.{IsCause};

use std::alloc::Global;
use std::hash::{Hash, Hasher};
use wu_base::{NoMemory, Trouble};
use wu_outside::Store;
use wu_vbyte::{decode_block, is_block};

/// A block of a part, as the part's directory tells of it.
#[derive(Clone, Copy, Debug, PartialEq, Eq)]
pub struct Block {
    /// The number of the part's blob.
    pub blob: u64,
    /// The part's lowest address, from which the first address of a block is counted.
    pub low: u64,
    /// How many addresses the block has.
    pub count: usize,
    /// The first of them.
    pub first: u64,
    /// The last of them.
    pub last: u64,
    /// Where the block's bytes begin in the blob.
    pub at: u64,
    /// How many bytes it has.
    pub len: u64,
}

/// A block's place in its blob tells it from nearly all others, so nothing else is hashed.
impl Hash for Block {
    ghost hash_input = { λ block. fed.u64 block.at };

    ghost respects_eq = { Prim.search (hashing, rules) };

    fn hash<H: Hasher>(&self, state: &mut H) {
        state.write_u64(self.at);
    }
}

impl Block {
    /// The block's addresses, of which the bytes are the spelling. Out of memory is the one error.
    pub(crate) fn addresses(&self, alloc: Global, bytes: &[u8]) -> Result<Vec<u64>, NoMemory>
        requires { (addresses : List ℕ) × IsSpelling self.now addresses bytes.now }
        ensures { IfOk result (λ found. IsSpelling self.now found.items bytes.now) }
    {
        decode_block(alloc, bytes, self.low, self.count, self.first, self.last)
    }
}

/// The only error is that the bytes aren't the spelling of the block's addresses: its blob is damaged. Takes no memory.
pub(crate) fn check(block: &Block, bytes: &[u8]) -> Result<(), Trouble>
    ensures ok { OnOk result ((addresses : List ℕ) × IsSpelling block.now addresses bytes.now) }
    ensures err { IfErr result (λ trouble. (trouble ≡ Trouble.Damaged block.now.blob)
        × ((addresses : List ℕ) → IsSpelling block.now addresses bytes.now → ⊥)) }
{
    if is_block(bytes, block.low, block.count, block.first, block.last) {
        Ok(())
    } else {
        Err(Trouble::Damaged { blob: block.blob })
    }
}

/// The block's bytes, all of them, in one read of that range, in the vector that is given for them. Where the
/// blob is absent or ends before, it is damaged. Memory is taken before the store is asked.
pub(crate) fn read_bytes<D: Store>(
    store: &mut D,
    block: &Block,
    mut bytes: Vec<u8>,
) -> Result<Vec<u8>, Trouble>
    ensures bytes { IfOk result (λ bytes. IfSome (D.holds store.old) (λ content. HasBytes content block.now bytes.items)) }
    ensures holds { D.holds store.new ≡ D.holds store.old }
    ensures moments { D.moments store.new ≡ D.moments store.old }
    ensures reads { OnOk result (D.reads store.new ≡ option_map (λ ranges. ranges ++ range_of block.now ∷ []) (D.reads store.old)) }
    ensures memory { result ≡ Err Trouble.NoMemory → D.reads store.new ≡ D.reads store.old }
    ensures calm { OnOk result (D.faults store.new ≡ D.faults store.old) }
    ensures cause { IfErr result (IsCause (block.now ∷ []) block.now.blob
        (IfSome (D.holds store.old) (λ content. IsSpelledIn content block.now → ⊥))
        (D.faults store.old) (D.faults store.new) (D.reads store.old) (D.reads store.new)) }
{
    set_len(&mut bytes, block.len as usize)?;
    match store.read(block.blob, block.at, &mut bytes)? {
        Some(count) if count == bytes.len() => Ok(bytes),
        _ => Err(Trouble::Damaged { blob: block.blob }),
    }
}

/// Gives the vector that length. Out of memory, it had less room.
fn set_len(bytes: &mut Vec<u8>, len: usize) -> Result<(), NoMemory>
    ensures long { OnOk result (length bytes.new.items ≡ len) }
    ensures full { OnErr result (vec_capacity bytes.old < len) }
{
    make_room(bytes, len)?;
    bytes.resize(len, 0)?;
    Ok(())
}

/// Makes room for so many bytes. Where there was less there is no more than that, since a vector is kept with its
/// block.
fn make_room(bytes: &mut Vec<u8>, len: usize) -> Result<(), NoMemory>
    ensures room { OnOk result (vec_capacity bytes.new ≡ max (vec_capacity bytes.old) len) }
    ensures full { OnErr result (vec_capacity bytes.old < len) }
{
    bytes.reserve_exact(len.saturating_sub(bytes.len()))?;
    Ok(())
}
