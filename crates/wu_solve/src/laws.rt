//! Laws on the extents that an expression means.
ghost use Rattle.std.specs.Prelude.{◌≡◌, ℕ, ◌+◌, ◌<◌, Bool, List, [], Contains, length, map};
ghost use Rattle.wu_base.specs.declared.addresses.Range.{Range};
ghost use Rattle.wu_base.specs.declared.addresses.TermList.{TermList};
ghost use Rattle.wu_gcl.specs.Extents.{hits, is_token_at, token_hits};
ghost use Rattle.wu_gcl.specs.Regions.{Region};
ghost use Rattle.wu_gcl.specs.Terms.{terms_in};
ghost use Rattle.wu_solve.specs.Addresses.{has_address};
ghost use Rattle.wu_solve.specs.Listing.{IsAscending};
ghost use Rattle.wu_solve.specs.Needed.{Needs, HasNone};
ghost use Rattle.wu_solve.specs.Solving.{moved, frame_hits};

/// In the extents of every expression starts and ends both ascend strictly, wherever its terms stand.
pub fn extents_ascend()
    ensures { (region : Region) (stands : List ℕ → ℕ → Bool) (len : ℕ) → IsAscending (hits region stands len) }
{}

/// Over the lists of a text's tokens a frame has the extents of these tokens.
pub fn frames_of_texts()
    ensures { (region : Region) (lists : List TermList) (frame : Range) (tokens : List (List ℕ)) → frame.len ≡ length tokens
        → ((term : List ℕ) → Contains (terms_in region) term → (place : ℕ) → place < length tokens
        → has_address lists term (frame.start + place) ≡ is_token_at tokens term place)
        → frame_hits region lists frame ≡ map (moved frame.start) (token_hits region tokens) }
{}

/// A frame in which a needed term has no address has no extent, so that it can be left out.
pub fn needed_terms_stand()
    ensures { (region : Region) (lists : List TermList) (frame : Range) (term : List ℕ) → Needs region term → HasNone lists term frame
        → frame_hits region lists frame ≡ [] }
{}
