//! Laws of the items of a script.
ghost use Rattle.std.specs.Prelude.{◌≡◌, ◌<◌, ◌≤◌, ◌+◌, ◌*◌, ◌^◌, ◌++◌, ◌∷◌, List, ℕ, [], false, true, length};
ghost use Rattle.std.specs.List.{sum_by};
ghost use Rattle.wu_base.specs.declared.limits.TheConstants.{INPUT_MAX};
ghost use Rattle.wu_script.specs.Commands.{Entry};
ghost use Rattle.wu_script.specs.Items.{first_of, items_of, whole_items_of};
ghost use Rattle.wu_script.specs.Said.{Reading, said_of, text_given, tokens_given};

/// No bytes have no item; the items of others are the first, and those of what is after it.
pub fn items_are_the_first_and_the_rest()
    ensures none { items_of [] ≡ [] }
    ensures some { (bytes : List ℕ) → 0 < length bytes → items_of bytes ≡ (first_of bytes).entry ∷ items_of (first_of bytes).rest }
{}

/// An item whose closing LF was given stays the first, whatever follows.
pub fn a_closed_item_stays()
    ensures { (bytes more : List ℕ) → (first_of bytes).closed ≡ true
        → first_of (bytes ++ more) ≡ record { entry = (first_of bytes).entry; rest = (first_of bytes).rest ++ more; closed = true } }
{}

/// Of an input that may go on: no bytes have no whole item, nor have bytes whose first item isn't
/// closed; the whole items of others are the first, and those of what is after it.
pub fn whole_items_are_the_first_and_the_rest()
    ensures none { whole_items_of [] ≡ [] }
    ensures unclosed { (bytes : List ℕ) → (first_of bytes).closed ≡ false → whole_items_of bytes ≡ [] }
    ensures closed { (bytes : List ℕ) → (first_of bytes).closed ≡ true → whole_items_of bytes ≡ (first_of bytes).entry ∷ whole_items_of (first_of bytes).rest }
{}

/// The whole items of some bytes are the first of the items of the whole input, and of its whole items,
/// whatever follows: they may be answered before the rest is known.
pub fn whole_items_are_a_prefix()
    ensures items { (bytes more : List ℕ) → (rest : List Entry) × (items_of (bytes ++ more) ≡ whole_items_of bytes ++ rest) }
    ensures whole { (bytes more : List ℕ) → (rest : List Entry) × (whole_items_of (bytes ++ more) ≡ whole_items_of bytes ++ rest) }
{}

/// The tokens of the text that an item gives are at most three times the bytes that it uses, and it
/// uses more bytes than its text has.
pub fn an_item_gives_few_tokens()
    ensures tokens { (read : Reading) (bytes : List ℕ) → 0 < length bytes
        → tokens_given (said_of read (first_of bytes).entry) + 3 * length (first_of bytes).rest ≤ 3 * length bytes }
    ensures text { (read : Reading) (bytes : List ℕ) → 0 < length bytes
        → length (text_given (said_of read (first_of bytes).entry)) + length (first_of bytes).rest < length bytes }
{}

/// The tokens of all texts that a script gives are at most three times its bytes, and so fewer than
/// 2^42 where it has at most INPUT_MAX bytes.
pub fn a_script_gives_few_tokens()
    ensures tokens { (read : Reading) (bytes : List ℕ)
        → sum_by (λ entry. tokens_given (said_of read entry)) (items_of bytes) ≤ 3 * length bytes }
    ensures addresses { (read : Reading) (bytes : List ℕ) → length bytes ≤ INPUT_MAX
        → sum_by (λ entry. tokens_given (said_of read entry)) (items_of bytes) < 2 ^ 42 }
{}
