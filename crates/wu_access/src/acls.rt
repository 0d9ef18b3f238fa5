//! Access lists.
ghost use Rattle.std.specs.Prelude.{◌≡◌, IfOk};

use std::alloc::Global;
use wu_base::{NoMemory, Sequence};

/// What an access list grants one user or one group.
#[derive(Clone, Copy, PartialEq, Eq)]
pub struct AclEntry {
    /// The number of the user or of the group.
    pub id: u32,
    /// An octal digit: 4 to read, 2 to write, 1 to execute. Writing has no effect.
    pub bits: u8,
}

/// The access list of a node, after acl(5). Its mask is no part of it: that is the group's digit of the node's
/// mode. The entries of owner and others are the mode's other digits. A list as a node has it has bits of at most
/// 7, and entries that ascend by number, without repeats.
#[derive(PartialEq, Eq, Drop)]
pub struct Acl {
    /// The bits of the owning group, which is the node's group.
    pub owning: u8,
    /// The entries of named users.
    pub users: Sequence<AclEntry>,
    /// The entries of named groups.
    pub groups: Sequence<AclEntry>,
}

impl Acl {
    /// The same list once more. The only error is out of memory.
    pub fn copied(&self, alloc: Global) -> Result<Acl, NoMemory>
        ensures { IfOk result (λ copy. copy ≡ self.now) }
    {
        let users = Vec::from_slice(alloc, self.users.as_slice())?;
        let groups = Vec::from_slice(alloc, self.groups.as_slice())?;
        Ok(Acl {
            owning: self.owning,
            users: Sequence::from(users),
            groups: Sequence::from(groups),
        })
    }
}
