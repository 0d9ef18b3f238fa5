//! The frames of the users who asked last.
ghost use Rattle.std.specs.Prelude.{◌≡◌, [], nat_eq, IfOk, IsOk, OnOk, OnErr, IsSome, MatchResult, None, Some, option_copied};
ghost use Rattle.std.specs.Map.{remove_entry};
ghost use Rattle.wu_tree.specs.FileSystems.{FileSystem};
ghost use Rattle.wu_space.specs.Addresses.{Addresses, Ranges};
ghost use Rattle.wu_frames.specs.UserFrames.{CacheMatchesTree, AreFrames, AreSeldomMended, AskedLast, HasAsked, IsMove, StayMendable};
ghost use Rattle.wu_frames.specs.UserFrames.{StayOrMove, frames_for, with_range};
ghost use Rattle.wu_frames.specs.Permissions.{IsGroupChange, IsPermChange, kept_as_before};
ghost use Rattle.wu_frames.specs.Links.{IsLinkChange, KeepRanges, kept_unshown};

use crate::changes::Change;
use crate::links::LinkChanges;
use crate::{Frames, making, walks};
use lru::LruCache;
use std::alloc::Global;
use std::marker::Model;
use std::num::NonZeroUsize;
use wu_access::Acl;
use wu_base::{Ino, NoMemory, Range, Uid};
use wu_space::Space;
use wu_tree::{Node, Tree};

/// For how many users frames are kept.
pub const USERS_KEPT: usize = 16;

/// The frames that were made of late, for at most `USERS_KEPT` users. Contracts see each of these users,
/// the one who asked last first, with her frames.
#[derive(Drop)]
pub struct FrameCache {
    alloc: Global,
    kept: LruCache<Uid, Frames>,
}

impl Model for FrameCache {
    ghost use Rattle.std.specs.Prelude.{◌≡◌};
    ghost use Rattle.wu_frames.specs.declared.caches.TheConstants.{USERS_KEPT};
    ghost use Rattle.wu_frames.specs.UserFrames.{AreSeldomMended, Kept};

    ghost Value = { Kept };

    ghost view = { λ c. c.kept.entries };

    // An `LruCache` has no user twice, and no more users than its `cap`.
    ghost invariant = { λ c. (c.kept.cap ≡ USERS_KEPT) × AreSeldomMended c.kept.entries };
}

impl FrameCache {
    ghost use Rattle.std.specs.Borrow.{sem};
    ghost use Rattle.std.specs.Io.BufRead.{Rests};
    ghost use Rattle.wu_frames.specs.contracts.caches.FrameCache.{the_row};

    /// No frames, of no user. The cache keeps the allocator for its changes. The one error is out of memory.
    pub fn new(alloc: Global) -> Result<FrameCache, NoMemory>
        ensures { IfOk result (λ cache. cache ≡ []) }
    {
        let users = NonZeroUsize::new(USERS_KEPT).unwrap();
        Ok(FrameCache {
            alloc,
            kept: LruCache::new(alloc, users)?,
        })
    }

    /// The frames of the user: those that are kept, or else made now and kept, in the place of the ones
    /// that were asked for longest ago where `USERS_KEPT` users have some. All that is kept has to be right for this tree
    /// and for the live ranges of this space; then it stays so. The only error is out of memory, which changes nothing,
    /// and there is none where her frames are kept.
    ///
    /// Takes no more than a look-up where her frames are kept; else time near linear in the entries of the
    /// directories that she may reach and in the bytes of her view.
    pub fn frames_of(&mut self, tree: &Tree, space: &Space, uid: Uid) -> Result<&Frames, NoMemory>
        requires { CacheMatchesTree tree.now space.now.ranges self.old }
        ensures frames { IfOk result (λ frames. AreFrames tree.now space.now.ranges uid frames.now) }
        ensures ready { IsSome (frames_for self.old uid) → IsOk result }
        // What is kept once the answer is let go.
        ensures* right { sem 𝓛 (Rests the_row self.entry (λ kept. CacheMatchesTree tree.now space.now.ranges kept
            × MatchResult result (λ frames. AskedLast uid kept × (frames_for kept uid ≡ Some frames.now) × HasAsked uid self.old kept)
            (λ _. kept ≡ self.old))) }
    {
        self.prepare(tree, space, uid)?;
        match self.kept(uid) {
            Some(frames) => Ok(frames),
            // They were just prepared.
            None => unreachable!(),
        }
    }

    /// Has the frames of the user kept, as `frames_of` does, under its condition. She is the first then, and the others
    /// follow in their order, without the one who asked longest ago where there is no room. Out of memory, which is the
    /// one error, nothing changes. Frames that are kept take none.
    pub fn prepare(&mut self, tree: &Tree, space: &Space, uid: Uid) -> Result<(), NoMemory>
        requires { CacheMatchesTree tree.now space.now.ranges self.old }
        ensures right { CacheMatchesTree tree.now space.now.ranges self.new }
        ensures kept { OnOk result (IsSome (frames_for self.new uid)) }
        ensures asked { OnOk result (AskedLast uid self.new) }
        ensures entries { OnOk result (HasAsked uid self.old self.new) }
        ensures same { OnErr result (self.new ≡ self.old) }
        ensures ready { IsSome (frames_for self.old uid) → IsOk result }
    {
        // That no user is there twice, and no more than have room, is said of the length.
        let _ = self.kept.len();
        if let Some(frames) = self.kept.get_mut(&uid) {
            frames.mends = 0;
            return Ok(());
        }
        let frames = making::made(self.alloc, tree, space, uid)?;
        self.kept.put(uid, frames)?;
        Ok(())
    }

    /// The frames of the user, where they are kept.
    pub fn kept(&self, uid: Uid) -> Option<&Frames>
        ensures { option_copied result ≡ frames_for self.now uid }
    {
        self.kept.peek(&uid)
    }

    /// Brings the frames up to date after a file had a new text: who had a frame with its old range has one
    /// with the new range instead, behind her others. Nothing else may have changed since the frames were
    /// right, and the new range lies behind all addresses that were given before. Who had no frame with the old range keeps
    /// hers as they are. Of the others exactly those are forgotten whose files had `MENDS_MAX` new texts since they asked.
    /// All who are kept keep their order.
    ///
    /// Takes no memory, and time linear in the frames behind the old ones.
    pub fn move_range(&mut self, ino: Ino, old: Range, new: Range)
        ensures right { (fs : FileSystem) (space : Addresses) → IsMove space ino old new
            → CacheMatchesTree fs space.ranges self.old → CacheMatchesTree fs (with_range ino new space.ranges) self.new }
        ensures stays { StayOrMove old self.old self.new }
        ensures users { StayMendable ino old new self.old self.new }
        ensures few { AreSeldomMended self.new }
    {
        walks::mend_each(self.alloc, &mut self.kept, ino, old, new);
    }

    /// Forgets the frames of each user to whom a node that has other permissions, or another access list, doesn't
    /// grant what it granted her before: to read it, where it is a file, or to pass through it, where it is a
    /// directory. The frames of others stay. `before` is the node that it was, and `acl` the list that it had.
    /// Takes no memory.
    pub fn recheck(&mut self, tree: &Tree, ino: Ino, before: Node, acl: Option<Acl>)
        ensures right { (fs : FileSystem) (live : Ranges) → IsPermChange fs ino before acl tree.now
            → CacheMatchesTree fs live self.old → CacheMatchesTree tree.now live self.new }
        ensures stays { self.new ≡ kept_as_before tree.now ino before acl self.old }
    {
        tree.keeps_the_rules();
        walks::forget_changed(&mut self.kept, tree, &Change::PermOf(ino, before, acl));
    }

    /// Forgets the frames of each user to whom one of the links is shown that an event made or removed: whose view has
    /// or had a path through it. That is, the link's directory and each above it, the root included, grant her execute,
    /// and the node that it names grants her read, where it is a file, or execute, where it is a directory. The frames
    /// of others stay, so that a file in a closed directory, and an empty directory anywhere, comes and goes without
    /// effect on them.
    ///
    /// Takes no memory, and for each user that is kept at most three ways up to the root; where no link changes, no time.
    pub fn relink(&mut self, tree: &Tree, links: LinkChanges)
        ensures right { (fs : FileSystem) (live now : Ranges) → IsLinkChange fs links tree.now → KeepRanges fs tree.now live now
            → CacheMatchesTree fs live self.old → CacheMatchesTree tree.now now self.new }
        ensures stays { self.new ≡ kept_unshown tree.now links self.old }
        ensures quiet { links.made ≡ None → links.removed ≡ None → links.replaced ≡ None → self.new ≡ self.old }
    {
        tree.keeps_the_rules();
        if let LinkChanges {
            made: None,
            removed: None,
            replaced: None,
        } = links
        {
            return;
        }
        walks::forget_changed(&mut self.kept, tree, &Change::Links(links));
    }

    /// Forgets the frames of a user who is in other groups now, and no others. Takes no memory.
    pub fn forget(&mut self, uid: Uid)
        ensures right { (before after : FileSystem) (live : Ranges) → IsGroupChange before uid after
            → CacheMatchesTree before live self.old → CacheMatchesTree after live self.new }
        ensures others { self.new ≡ remove_entry (nat_eq uid) self.old }
    {
        // That no user is there twice is said of the length.
        let _ = self.kept.len();
        self.kept.pop(&uid);
    }

    /// Forgets all frames: called where a file has a new text and had no range, or has none now. Takes no memory.
    pub fn clear(&mut self)
        ensures { self.new ≡ [] }
    {
        self.kept.clear();
    }
}
