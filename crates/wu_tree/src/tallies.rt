//! How the nodes of a list hang by a list of links.
ghost use Rattle.std.specs.Prelude.{◌≡◌, ◌<◌, true, false, ◌&&◌, not, ◌==◌, IfOk, MatchOption, length, map, []};
ghost use Rattle.std.specs.Ordering.{nat_cmp};
ghost use Rattle.std.specs.List.{HoldsAt};
ghost use Rattle.std.specs.List.Sorted.{IsStrictlySortedBy};
ghost use Rattle.std.specs.Map.{keys_of};
ghost use Rattle.wu_tree.specs.Lists.{AreHung, children_test, has_number, hung_node, one_more as one_more_of, with_link};

use crate::events::{LinkRec, Node};
use std::alloc::Global;
use wu_base::{Ino, NoMemory, ROOT};

/// What a list of links says of a node that some of them name: how it hangs in its tree, if they make one.
#[derive(Clone, Copy)]
pub(crate) struct Hung {
    /// The number of the directory in which its first link stands.
    pub(crate) parent: Ino,
    /// How many links name it, at least one.
    pub(crate) count: u64,
}

/// A node, and how it hangs by some links.
#[derive(Clone, Copy)]
pub(crate) struct LinkedNode {
    pub(crate) ino: Ino,
    pub(crate) node: Node,
    /// None where no link names it.
    pub(crate) hung: Option<Hung>,
}

/// Each node with how it hangs by the links, or None where one of these names the root or no node. Takes a
/// binary search for each link.
pub(crate) fn tally(
    alloc: Global,
    nodes: &[(Ino, Node)],
    links: &[LinkRec],
) -> Result<Option<Vec<LinkedNode>>, NoMemory>
    requires { IsStrictlySortedBy nat_cmp (keys_of nodes.now) }
    ensures { IfOk result (λ it. MatchOption it (children_test nodes.now links.now ≡ false) (λ it. AreHung nodes.now links.now it.items)) }
{
    let mut hung = without_links(alloc, nodes)?;
    for link in links {
        if !attach_link(hung.as_mut_slice(), link.parent, link.child)? {
            return Ok(None);
        }
    }
    Ok(Some(hung))
}

/// The nodes where there are no links.
fn without_links(alloc: Global, nodes: &[(Ino, Node)]) -> Result<Vec<LinkedNode>, NoMemory>
    ensures { IfOk result (λ hung. hung.items ≡ map (hung_node []) nodes.now) }
{
    let hung = nodes
        .iter()
        .map(|(ino, node)| LinkedNode {
            ino: *ino,
            node: *node,
            hung: None,
        })
        .collect(alloc)?;
    Ok(hung)
}

/// Hangs a child by one more link, in that parent. Tells whether it is one of the nodes and isn't the root.
fn attach_link(nodes: &mut [LinkedNode], parent: Ino, child: Ino) -> Result<bool, NoMemory>
    requires { IsStrictlySortedBy nat_cmp (map (λ n. n.ino) nodes.old) }
    ensures told { IfOk result (λ told. told ≡ (has_number nodes.old child && not (child == 1))) }
    ensures hung { IfOk result (λ told. told ≡ true → nodes.new ≡ map (with_link parent child) nodes.old) }
{
    match place_of(nodes, child) {
        Some(place) => {
            nodes[place].hung = Some(one_more(nodes[place].hung, parent)?);
            Ok(child != ROOT)
        }
        None => Ok(false),
    }
}

/// The place of the node of that number.
fn place_of(nodes: &[LinkedNode], ino: Ino) -> Option<usize>
    requires { IsStrictlySortedBy nat_cmp (map (λ n. n.ino) nodes.now) }
    ensures { MatchOption result (has_number nodes.now ino ≡ false) (λ k. (k < length nodes.now) × HoldsAt (λ n. n.ino ≡ ino) nodes.now k) }
{
    nodes.binary_search_by_key(&ino, |node| node.ino).ok()
}

/// How a node hangs with one more link. There is no memory for so many that they can't be counted.
fn one_more(hung: Option<Hung>, parent: Ino) -> Result<Hung, NoMemory>
    ensures { IfOk result (λ more. more ≡ one_more_of hung parent) }
{
    match hung {
        Some(hung) => Ok(Hung {
            parent: hung.parent,
            count: hung.count.checked_add(1).ok_or(NoMemory)?,
        }),
        None => Ok(Hung { parent, count: 1 }),
    }
}
