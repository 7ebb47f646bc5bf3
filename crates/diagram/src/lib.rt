//! Node records of a reduced, shared decision diagram: what they mean, and how they are asked.
#![tactic(auto)]

ghost use Rattle.std.specs.Prelude.{◌≡◌};
ghost use Rattle.diagram.specs.Diagram.{decision, link};

pub mod asking;
pub mod laws;

/// Where a branch leads: to a decision, or to a node record by its number.
#[derive(Clone, Copy, PartialEq, Eq, Debug)]
pub enum Link {
    Decision(u8),
    Record(u16),
}

/// A node record: the attribute at which it branches, and a link for each cell. Those past the cells are `Decision(0)`.
#[derive(Clone, Copy, PartialEq, Eq, Debug)]
pub struct Node {
    pub level: u8,
    pub branches: [Link; 16],
}

impl Link {
    /// The decision of a link past the last attribute; a record there is not applicable.
    pub fn decision(self) -> u8
        ensures { result ≡ decision self }
    {
        match self {
            Link::Decision(d) => d,
            Link::Record(_) => 0,
        }
    }
}

impl Node {
    /// The link at a cell; past the branches it is not applicable.
    pub fn branch(&self, cell: u8) -> Link
        ensures { result ≡ link self.now cell }
    {
        self.branches
            .get(usize::from(cell))
            .copied()
            .unwrap_or(Link::Decision(0))
    }
}
