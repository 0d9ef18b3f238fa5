//! Laws of what is saved.
ghost use Rattle.std.specs.Prelude.{◌≡◌, ◌≢◌, ℕ, List, [], Option};
ghost use Rattle.wu_layout.specs.Layouts.{Layout};
ghost use Rattle.wu_outside.specs.Content.{Content, with_blob};
ghost use Rattle.wu_tree.specs.FileSystems.{FileSystem};
ghost use Rattle.wu_image.specs.declared.checkpoints.Checkpoint.{Checkpoint};
ghost use Rattle.wu_image.specs.declared.roots.Root.{Root};
ghost use Rattle.wu_image.specs.Checkpoints.{SpellsCheckpoint, SpellsVersion};
ghost use Rattle.wu_image.specs.declared.checkpoints.Version.{Version};
ghost use Rattle.wu_image.specs.Images.{IsImage, Names, Texts};
ghost use Rattle.wu_image.specs.Roots.{SpellsRoot};

/// A law: a root has one spelling, and a spelling is that of one root.
pub fn each_root_has_one_spelling()
    ensures spelling { (root : Root) (bytes other : List ℕ) → SpellsRoot root bytes → SpellsRoot root other → bytes ≡ other }
    ensures root { (root other : Root) (bytes : List ℕ) → SpellsRoot root bytes → SpellsRoot other bytes → root ≡ other }
{}

/// A law: a checkpoint has one spelling in each version, and in all one where it has access lists, which the first
/// version can't tell; and a spelling is that of one checkpoint.
pub fn each_checkpoint_has_one_spelling()
    ensures spelling { (version : Version) (checkpoint : Checkpoint) (bytes other : List ℕ) → SpellsVersion version checkpoint bytes
        → SpellsVersion version checkpoint other → bytes ≡ other }
    ensures lists { (checkpoint : Checkpoint) (bytes other : List ℕ) → checkpoint.tree.acls ≢ [] → SpellsCheckpoint checkpoint bytes
        → SpellsCheckpoint checkpoint other → bytes ≡ other }
    ensures checkpoint { (checkpoint other : Checkpoint) (bytes : List ℕ) → SpellsCheckpoint checkpoint bytes
        → SpellsCheckpoint other bytes → checkpoint ≡ other }
{}

/// A law: what a store holds under blobs that an image of a state doesn't name counts for nothing. What has
/// the image's root, and the same bytes in each blob that it names, is an image of that state too; so is
/// what comes of the image where another blob is written or removed.
pub fn other_blobs_count_for_nothing()
    ensures same { (content other : Content) (tree : FileSystem) (texts : Texts) (layout : Layout) → IsImage content tree texts layout
        → other.root ≡ content.root → ((blob : ℕ) → Names layout blob → other.blobs blob ≡ content.blobs blob)
        → IsImage other tree texts layout }
    ensures changed { (content : Content) (tree : FileSystem) (texts : Texts) (layout : Layout) (blob : ℕ) (bytes : Option (List ℕ))
        → IsImage content tree texts layout → (Names layout blob → ⊥) → IsImage (with_blob blob bytes content) tree texts layout }
{}
