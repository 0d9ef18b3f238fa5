//! Lists that exist only in proofs: after a list that there was no memory for, and once a part's bytes are handed out,
//! nothing else is left that tells which lists there were.
ghost use Rattle.std.specs.Prelude.{◌≡◌, List, [], ◌∷◌, ◌++◌};
ghost use Rattle.std.specs.Borrow.{ftrue};
ghost use Rattle.wu_base.specs.declared.addresses.TermList.{TermList};

use std::marker::Model;
use wu_base::TermList;

/// A list of lists that only clauses read. It takes no bytes.
#[derive(Drop)]
pub struct History {
    pub ghost lists: { List TermList },
}

impl Model for History {
    ghost also_owns = { λ _. ftrue };
}

impl History {
    /// No list.
    pub fn new() -> History
        ensures { result.lists ≡ [] }
    {
        History {}
    }

    /// These lists, and that one at their end.
    pub fn with(_before: &History, _list: &TermList) -> History
        ensures { result.lists ≡ _before.now.lists ++ _list.now ∷ [] }
    {
        History {}
    }
}
