//! The links between the nodes of a tree.
ghost use Rattle.std.specs.Prelude.{◌≡◌, ◌+◌, ◌-◌, ◌<◌, ◌≤◌, length, vec_len, vec_capacity};
ghost use Rattle.def_tree.specs.Rules.{most_nodes};
ghost use Rattle.xg_tree.specs.Linked.{ComeAfterParents, first_below, links_at, linked_next, next_place, numbered};
ghost use Rattle.xg_tree.specs.Linked.{with_next};
ghost use Rattle.xg_tree.specs.Visits.{left_after};

/// The numbers of a node's parent, its first child and its next sibling. Nodes are numbered from 1, and 0 stands for
/// none.
///
/// As long as a node has children to come, `next_sibling` is how many.
#[derive(Clone, Copy)]
pub(crate) struct Links {
    pub(crate) parent: u32,
    pub(crate) first_child: u32,
    pub(crate) next_sibling: u32,
}

// Where a node stands: its parent, and the sibling before it.
#[derive(Clone, Copy)]
pub(crate) struct NodePlace {
    pub(crate) parent: u32,
    pub(crate) previous: u32,
}

/// The links of node `k`, and none for 0.
#[inline(always)]
pub(crate) fn links_at(links: &[Links], k: u32) -> Links
    requires { k ≤ length links.now }
    ensures { result ≡ links_at links.now k }
{
    if k == 0 {
        return Links {
            parent: 0,
            first_child: 0,
            next_sibling: 0,
        };
    }
    links[k as usize - 1]
}

/// Where the next node stands: below the innermost node with children to come.
#[inline(always)]
pub(crate) fn next_place(links: &[Links]) -> NodePlace
    requires limit { length links.now < most_nodes }
    requires ordered { ComeAfterParents links.now }
    ensures { result ≡ next_place links.now }
{
    let mut place = NodePlace {
        parent: links.len() as u32,
        previous: 0,
    };
    while place.parent > 0 && links_at(links, place.parent).next_sibling == 0 {
        place = NodePlace {
            parent: links_at(links, place.parent).parent,
            previous: place.parent,
        };
    }
    place
}

/// Sets the next sibling of node `k`. There is nothing to set for 0.
#[inline(always)]
pub(crate) fn set_next(links: &mut Vec<Links>, k: u32, next: u32)
    requires { k ≤ length links.old.items }
    ensures { links.new.items ≡ with_next links.old.items k next }
{
    if k > 0 {
        links[k as usize - 1].next_sibling = next;
    }
}

// The first child of node `k`, which has so many children: the node that comes next.
#[inline(always)]
fn first_below(k: u32, children: u32) -> u32
    requires { k ≤ most_nodes }
    ensures { result ≡ first_below k children }
{
    if children == 0 { 0 } else { k + 1 }
}

/// Puts the links of the next node, which has so many children.
#[inline(always)]
pub(crate) fn put_next(links: &mut Vec<Links>, children: u32)
    requires room { vec_len links.old < vec_capacity links.old }
    requires limit { length links.old.items < most_nodes }
    requires ordered { ComeAfterParents links.old.items }
    ensures { links.new.items ≡ linked_next links.old.items children }
{
    let place = next_place(links);
    let to_come = links_at(links, place.parent).next_sibling;
    let number = links.len() as u32 + 1;
    links.push_reserved(Links {
        parent: place.parent,
        first_child: first_below(number, children),
        next_sibling: children,
    });
    set_next(links, place.previous, number);
    set_next(links, place.parent, to_come.saturating_sub(1));
}

/// The node that is left right after node `k`: its parent after a last child, and none otherwise.
pub(crate) fn left_after(links: &[Links], k: u32) -> u32
    requires { k ≤ length links.now }
    ensures { result ≡ left_after links.now k }
{
    let node = links_at(links, k);
    if node.next_sibling == 0 {
        node.parent
    } else {
        0
    }
}

/// The node that a number stands for.
pub(crate) fn numbered(number: u32) -> Option<u32>
    ensures { result ≡ numbered number }
{
    if number == 0 { None } else { Some(number) }
}
