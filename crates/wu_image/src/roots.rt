//! The root of a store: the few bytes that name its checkpoint.
ghost use Rattle.std.specs.Prelude.{◌≡◌, ℕ, ◌+◌, ◌^◌, ◌<◌, ◌≤◌, IfSome, IfNone, MatchBool, length, take, drop};
ghost use Rattle.wu_image.specs.declared.roots.Root.{Root};
ghost use Rattle.wu_image.specs.Roots.{IsVersion, SpellsRoot, eight_bytes, root_mark};

/// The first bytes of a root of the first version, and of the second.
const FIRST_MARK: [u8; 8] = *b"WUMPUSR1";

const SECOND_MARK: [u8; 8] = *b"WUMPUSR2";

/// How many bytes a root has.
pub const ROOT_LEN: usize = 40;

/// What a root tells: the version of the store, the blob of the checkpoint and its size in bytes, and the
/// next address and the next blob number, as the checkpoint has them.
#[derive(Clone, Copy, Debug, PartialEq, Eq)]
pub struct Root {
    /// 1 or 2. Both are read, and 2 is written. The version of the checkpoint is another thing.
    pub version: u8,
    pub checkpoint: u64,
    pub size: u64,
    pub next_address: u64,
    pub next_blob: u64,
}

/// The bytes of the root. Its version is 2, and its checkpoint's blob isn't 0 and is below the next blob. Takes
/// no memory.
pub fn write_root(root: &Root) -> [u8; 40]
    requires version { root.now.version ≡ 2 }
    requires some { 0 < root.now.checkpoint }
    requires drawn { root.now.checkpoint < root.now.next_blob }
    ensures { SpellsRoot root.now result }
{
    let mut bytes = [0; ROOT_LEN];
    bytes[..8].copy_from_slice(&SECOND_MARK);
    bytes[8..16].copy_from_slice(&bytes_of(root.checkpoint));
    bytes[16..24].copy_from_slice(&bytes_of(root.size));
    bytes[24..32].copy_from_slice(&bytes_of(root.next_address));
    bytes[32..].copy_from_slice(&bytes_of(root.next_blob));
    bytes
}

/// The number in eight bytes, the highest first.
fn bytes_of(number: u64) -> [u8; 8]
    ensures bytes { result ≡ eight_bytes number }
    ensures fits { number < 2 ^ 64 }
{
    number.to_be_bytes()
}

/// The root whose bytes these are, in either version. `None` exactly where they are no root's: they aren't 40, or
/// begin otherwise, or the checkpoint's blob is 0 or isn't below the next blob. Takes no memory.
pub fn read_root(bytes: &[u8]) -> Option<Root>
    ensures found { IfSome result (λ root. SpellsRoot root bytes.now) }
    ensures none { IfNone result ((root : Root) → SpellsRoot root bytes.now → ⊥) }
{
    if bytes.len() != ROOT_LEN {
        return None;
    }
    let Some(version) = version_of(bytes) else {
        return None;
    };
    let root = Root {
        version,
        checkpoint: number_at(bytes, 8),
        size: number_at(bytes, 16),
        next_address: number_at(bytes, 24),
        next_blob: number_at(bytes, 32),
    };
    if may_name(root.checkpoint, root.next_blob) {
        Some(root)
    } else {
        None
    }
}

/// The version whose mark the bytes begin with.
fn version_of(bytes: &[u8]) -> Option<u8>
    ensures found { IfSome result (λ version. IsVersion version × (root_mark version ≡ take 8 bytes.now)) }
    ensures none { IfNone result ((version : ℕ) → IsVersion version → root_mark version ≡ take 8 bytes.now → ⊥) }
{
    if bytes.starts_with(&FIRST_MARK) {
        return Some(1);
    }
    if bytes.starts_with(&SECOND_MARK) {
        Some(2)
    } else {
        None
    }
}

/// Whether a checkpoint may be in that blob, where so many blobs were drawn.
fn may_name(checkpoint: u64, next_blob: u64) -> bool
    ensures { MatchBool result ((0 < checkpoint) × (checkpoint < next_blob)) (0 < checkpoint → checkpoint < next_blob → ⊥) }
{
    0 < checkpoint && checkpoint < next_blob
}

/// The number whose eight bytes stand at the place, the highest first.
fn number_at(bytes: &[u8], place: usize) -> u64
    requires { place + 8 ≤ length bytes.now }
    ensures { eight_bytes result ≡ take 8 (drop place bytes.now) }
{
    u64::from_be_bytes([
        bytes[place],
        bytes[place + 1],
        bytes[place + 2],
        bytes[place + 3],
        bytes[place + 4],
        bytes[place + 5],
        bytes[place + 6],
        bytes[place + 7],
    ])
}
