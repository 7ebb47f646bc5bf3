//! The walk of cells through node records, on any memory.
ghost use Rattle.std.specs.Prelude.{◌≡◌};
ghost use Rattle.diagram.specs.Diagram.{node, branch as edge, next as onward, follow as path, walk};

use crate::{Link, Node};

/// The level of a record; one past the memory is at level 0.
pub fn level_of(nodes: &[Node], number: u16) -> u8
    ensures { result ≡ (node nodes.now number).level }
{
    nodes.get(usize::from(number)).map_or(0, |node| node.level)
}

/// The link of a record at a cell; past the memory and past its branches it is not applicable.
pub fn branch(nodes: &[Node], number: u16, cell: u8) -> Link
    ensures { result ≡ edge nodes.now number cell }
{
    nodes
        .get(usize::from(number))
        .map_or(Link::Decision(0), |node| node.branch(cell))
}

/// Where a link at a level leads in a cell of that attribute.
pub fn next(nodes: &[Node], level: usize, link: Link, cell: u8) -> Link
    ensures { result ≡ onward nodes.now level link cell }
{
    match link {
        Link::Record(r) if usize::from(level_of(nodes, r)) == level => branch(nodes, r, cell),
        _ => link,
    }
}

/// The link that the path of the cells leads to from a root.
pub fn follow(nodes: &[Node], root: Link, cells: &[u8]) -> Link
    ensures { result ≡ path nodes.now 0 cells.now root }
{
    let mut link = root;
    for (level, cell) in cells.iter().enumerate() {
        link = next(nodes, level, link, *cell);
    }
    link
}

/// The decision that the path of the cells leads to from a root.
pub fn decide(nodes: &[Node], root: Link, cells: &[u8]) -> u8
    ensures { result ≡ walk nodes.now 0 cells.now root }
{
    follow(nodes, root, cells).decision()
}
