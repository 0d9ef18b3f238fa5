//! Laws of what a checker finds.
ghost use Rattle.std.specs.Prelude.{◌≡◌, ℕ, Bool, List, length};
ghost use Rattle.std.specs.List.{AllByRecursion};
ghost use Rattle.wu_base.specs.declared.addresses.PartRec.{PartRec};
ghost use Rattle.wu_layout.specs.Layouts.{Layout, Part};
ghost use Rattle.wu_outside.specs.Content.{Content};
ghost use Rattle.wu_token.specs.Tokens.{tokens_of};
ghost use Rattle.wu_tree.specs.FileSystems.{FileSystem};
ghost use Rattle.wu_image.specs.Images.{IsImage, Texts, text_held};
ghost use Rattle.wu_image.specs.declared.records.FileRec.{FileRec};
ghost use Rattle.wu_check.specs.Imaged.{AreOfOneState, HasPostings, IndexesTexts, counts_in};
ghost use Rattle.wu_check.specs.Wrong.{IsChecked, IsSound, IsSoundPart};
ghost use Rattle.wu_check.specs.declared.checking.Checked.{Checked};

/// A law: of one content one thing is found. A store that is sound has nothing wrong in it, its
/// counts are those counts and no others, and of what is wrong in a store one blob is the first.
pub fn a_store_has_one_finding()
    ensures { (content : Content) (found other : Checked) → IsChecked content found
        → IsChecked content other → found ≡ other }
{}

/// A law: what was saved is sound. Where the content of a store is an image of a state, and that
/// state's layout is one of its files and texts, nothing is wrong in the store, and what is counted
/// is what the layout has.
pub fn an_image_is_sound()
    ensures { (content : Content) (tree : FileSystem) (texts : Texts) (layout : Layout)
        (is_file : ℕ → Bool) → IsImage content tree texts layout
        → IndexesTexts is_file texts layout → IsSound content (counts_in layout) }
{}

/// A law: a sound part is a part of an index. Where the ranges of the texts are as long as their
/// tokens are many, there are postings of which its blob is the part, and these are those of the
/// texts that lie within its span.
pub fn a_part_has_its_postings()
    ensures { (content : Content) (files : List FileRec) (recorded : PartRec)
        → IsSoundPart content files recorded → AllByRecursion
        (λ file. file.range.len ≡ length (tokens_of (text_held content file))) files
        → (part : Part) × HasPostings content files recorded part }
{}

/// A law: a sound store is an image of a tree, of texts and of a layout of one state, and what is
/// counted is what the layout has. They are what the checkpoint records and the blobs hold; without
/// a root, they are empty.
pub fn a_sound_store_is_an_image()
    ensures { (content : Content) (counts : Checked) → IsSound content counts
        → (tree : FileSystem) × (texts : Texts) × (layout : Layout)
        × IsImage content tree texts layout × AreOfOneState tree texts layout
        × (counts ≡ counts_in layout) }
{}

/// A law: a store is an image of one state alone. Of two trees, each with the texts and the layout
/// of one state, of which a content is an image, neither differs from the other.
pub fn an_image_is_of_one_state()
    ensures { (content : Content) (tree other_tree : FileSystem) (texts other_texts : Texts)
        (layout other_layout : Layout) → AreOfOneState tree texts layout
        → AreOfOneState other_tree other_texts other_layout → IsImage content tree texts layout
        → IsImage content other_tree other_texts other_layout
        → (tree ≡ other_tree) × (texts ≡ other_texts) × (layout ≡ other_layout) }
{}
