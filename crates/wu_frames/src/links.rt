//! The links that an event makes, removes or moves, and who sees them.
ghost use Rattle.std.specs.Prelude.{◌≡◌, true, IfOk, option_copied};
ghost use Rattle.wu_tree.specs.FileSystems.{is_directory};
ghost use Rattle.wu_view.specs.Views.{is_open, may};
ghost use Rattle.wu_access.specs.declared.Want.TheVariants.{Execute};
ghost use Rattle.wu_frames.specs.Permissions.{user_in};
ghost use Rattle.wu_frames.specs.Links.{is_shown, is_some_shown, link_at, link_to, links_changed, no_links, sees_none};

use crate::permissions::{copied_acl, grants, want_of};
use std::alloc::Global;
use wu_access::{Acl, Want};
use wu_base::{Ino, NoMemory, ROOT, Uid};
use wu_tree::{Event, Kind, Node, Tree};

/// A link that an event makes or removes.
#[derive(Drop)]
pub struct ChangedLink {
    /// The directory in which it stands.
    pub directory: Ino,
    /// The node that it names.
    pub node: Node,
    /// The access list of that node, which may go with the link.
    pub acl: Option<Acl>,
}

/// The links that an event makes and removes. One to a directory that it makes or removes isn't among them: the
/// directory is empty, so no file is seen through it.
#[derive(Drop)]
pub struct LinkChanges {
    /// The one that it makes.
    pub made: Option<ChangedLink>,
    /// The one that it removes.
    pub removed: Option<ChangedLink>,
    /// The one whose place is taken by the one that it makes.
    pub replaced: Option<ChangedLink>,
}

/// The links that the event makes and removes, if the tree accepts it. Takes a few look-ups, and memory only for
/// access lists of the nodes that the links name. The only error is out of memory.
pub fn links_changed(alloc: Global, tree: &Tree, event: &Event) -> Result<LinkChanges, NoMemory>
    ensures { IfOk result (λ links. links ≡ links_changed tree.now event.now) }
{
    let links = match event {
        Event::Create { parent, perm, .. } => LinkChanges {
            made: Some(ChangedLink {
                directory: *parent,
                node: Node {
                    kind: Kind::File,
                    perm: *perm,
                },
                acl: None,
            }),
            ..no_links()
        },
        Event::Link { ino, parent, .. } => LinkChanges {
            made: link_to(alloc, tree, *parent, *ino)?,
            ..no_links()
        },
        Event::Unlink { parent, name } => LinkChanges {
            removed: link_at(alloc, tree, *parent, name.as_slice(), *parent)?,
            ..no_links()
        },
        Event::Rename {
            parent,
            name,
            new_parent,
            new_name,
        } => LinkChanges {
            made: link_at(alloc, tree, *parent, name.as_slice(), *new_parent)?,
            removed: link_at(alloc, tree, *parent, name.as_slice(), *parent)?,
            replaced: link_at(alloc, tree, *new_parent, new_name.as_slice(), *new_parent)?,
        },
        _ => no_links(),
    };
    Ok(links)
}

fn no_links() -> LinkChanges
    ensures { result ≡ no_links }
{
    LinkChanges {
        made: None,
        removed: None,
        replaced: None,
    }
}

/// The link in that directory to that node, if there is one.
fn link_to(
    alloc: Global,
    tree: &Tree,
    directory: Ino,
    ino: Ino,
) -> Result<Option<ChangedLink>, NoMemory>
    ensures { IfOk result (λ link. link ≡ link_to tree.now directory ino) }
{
    match tree.node(ino) {
        Some(node) => Ok(Some(ChangedLink {
            directory,
            node,
            acl: copied_acl(alloc, tree, ino)?,
        })),
        None => Ok(None),
    }
}

/// A link in that directory to the node that has that name in `parent`, if there is one.
fn link_at(
    alloc: Global,
    tree: &Tree,
    parent: Ino,
    name: &[u8],
    directory: Ino,
) -> Result<Option<ChangedLink>, NoMemory>
    ensures { IfOk result (λ link. link ≡ link_at tree.now parent name.now directory) }
{
    match tree.child(parent, name) {
        Some(ino) => link_to(alloc, tree, directory, ino),
        None => Ok(None),
    }
}

/// Whether the user sees none of the links.
pub(crate) fn sees_none(tree: &Tree, links: &LinkChanges, uid: Uid) -> bool
    ensures { result ≡ sees_none tree.now links.now uid }
{
    let sees_one = is_some_shown(tree, uid, links.made.as_ref())
        || is_some_shown(tree, uid, links.removed.as_ref())
        || is_some_shown(tree, uid, links.replaced.as_ref());
    !sees_one
}

/// Whether the link, if there is one, is shown to the user.
fn is_some_shown(tree: &Tree, uid: Uid, link: Option<&ChangedLink>) -> bool
    ensures { result ≡ is_some_shown tree.now (user_in tree.now uid) (option_copied link.entry) }
{
    match link {
        Some(link) => is_shown(tree, uid, link),
        None => false,
    }
}

/// Whether the link leads the user to a file that she may read, or to a directory that she may pass through.
fn is_shown(tree: &Tree, uid: Uid, link: &ChangedLink) -> bool
    ensures { result ≡ is_shown tree.now (user_in tree.now uid) link.now }
{
    let want = want_of(link.node.kind);
    grants(tree, uid, &link.node.perm, link.acl.as_ref(), want)
        && is_directory(tree, link.directory)
        && is_open(tree, uid, link.directory)
}

fn is_directory(tree: &Tree, ino: Ino) -> bool
    ensures { result ≡ is_directory tree.now ino }
{
    match tree.node(ino) {
        Some(node) => node.kind == Kind::Directory,
        None => false,
    }
}

/// Whether the directory and each above it, the root included, grant the user execute. Goes up from the directory.
fn is_open(tree: &Tree, uid: Uid, directory: Ino) -> bool
    requires { is_directory tree.now directory ≡ true }
    ensures { result ≡ is_open tree.now (user_in tree.now uid) directory }
{
    tree.keeps_the_rules();
    let mut current = directory;
    while may_pass(tree, uid, current) {
        if current == ROOT {
            return true;
        }
        match tree.parent(current) {
            Some(parent) => current = parent,
            None => return true,
        }
    }
    false
}

/// Whether the node is there and grants the user execute.
fn may_pass(tree: &Tree, uid: Uid, ino: Ino) -> bool
    ensures { result ≡ may tree.now (user_in tree.now uid) Execute ino }
{
    match tree.node(ino) {
        Some(node) => grants(tree, uid, &node.perm, tree.acl_of(ino), Want::Execute),
        None => false,
    }
}
