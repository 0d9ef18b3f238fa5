//! Laws of the access check.
ghost use Rattle.std.specs.Prelude.{◌≡◌, ◌⊎◌, IsTrue, IsSome, Option, None, Some};
ghost use Rattle.wu_access.specs.declared.acls.Acl.{Acl};
ghost use Rattle.wu_access.specs.declared.Perm.{Perm};
ghost use Rattle.wu_access.specs.declared.UserRec.{UserRec};
ghost use Rattle.wu_access.specs.declared.Want.{Want};
ghost use Rattle.wu_access.specs.Access.{IsDecidedByCases, IsOther, entry_for, is_allowed, is_granted, is_in_class, mask_of, other_digit, plain_acl};

/// A law: the check grants exactly what its cases grant, whatever the user's groups and the list's entries are,
/// also where they don't ascend.
pub fn check_is_decided_by_cases()
    ensures { IsDecidedByCases }
{}

/// A law: a list that says what the mode says, in which the owning group has the mode's group bits and nobody is
/// named, changes no answer.
pub fn plain_acls_change_nothing()
    ensures { (user : UserRec) (node : Perm) (want : Want)
        → is_allowed user node (Some (plain_acl node)) want ≡ is_allowed user node None want }
{}

/// A law: a user who isn't the owner, whom no entry names, and none of whose groups is the node's or is named by
/// one, gets what others get.
pub fn strangers_get_what_others_get()
    ensures { (user : UserRec) (node : Perm) (acl : Acl) (want : Want) → IsOther user node → entry_for user acl ≡ None
        → (¬ IsTrue (is_in_class user.groups node acl)) → is_allowed user node (Some acl) want ≡ is_granted (other_digit node.mode) want }
{}

/// A law: the mask bounds what every entry grants, named users', the owning group's and named groups'; only the
/// bits of the owner and of others are beyond it.
pub fn masks_bound_entries()
    ensures { (user : UserRec) (node : Perm) (acl : Acl) (want : Want) → IsOther user node
        → (IsSome (entry_for user acl) ⊎ IsTrue (is_in_class user.groups node acl)) → IsTrue (is_allowed user node (Some acl) want)
        → IsTrue (is_granted (mask_of node) want) }
{}
