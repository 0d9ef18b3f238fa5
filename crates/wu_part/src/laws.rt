//! Laws of the format.
ghost use Rattle.std.specs.Prelude.{◌≡◌, ℕ, List};
ghost use Rattle.wu_base.specs.declared.addresses.TermList.{TermList};
ghost use Rattle.wu_part.specs.Directories.{PartDirectory, SpellsDirectory};
ghost use Rattle.wu_part.specs.Parts.{SpellsPart};

/// A law: a directory has one spelling, and a spelling is that of one directory of a size.
pub fn each_directory_has_one_spelling()
    ensures spelling { (directory : PartDirectory) (code other : List ℕ) → SpellsDirectory directory code → SpellsDirectory directory other
        → code ≡ other }
    ensures directory { (directory other : PartDirectory) (code : List ℕ) → SpellsDirectory directory code → SpellsDirectory other code
        → directory.size ≡ other.size → directory ≡ other }
{}

/// A law: lists have one spelling as a part of a generation, and a spelling is that of one directory
/// and of the same lists.
pub fn each_part_has_one_spelling()
    ensures spelling { (directory other : PartDirectory) (lists : List TermList) (blob another : List ℕ) → SpellsPart directory lists blob
        → SpellsPart other lists another → directory.generation ≡ other.generation → blob ≡ another }
    ensures part { (directory other : PartDirectory) (lists others : List TermList) (blob : List ℕ) → SpellsPart directory lists blob
        → SpellsPart other others blob → (directory ≡ other) × (lists ≡ others) }
{}
