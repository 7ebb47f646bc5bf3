//! What a building walk is asked to build: places that stand at a level and have a page there.
#![tactic(auto)]

ghost use Rattle.std.specs.Prelude.{◌≡◌, ℕ, ◌<◌, List, slice_index};
ghost use Rattle.diagram.specs.declared.Node.{Node as Nodes};
ghost use Rattle.places.specs.Places.{SamePlaces, SeenAs, LeadsTo};

use diagram::{Link, Node};

/// What is seen of a place: the link of its page, or the level at which it branches.
#[derive(Clone, Copy)]
pub enum Seen {
    Settled(Link),
    Branches(u8),
}

/// A level of a shape, given by its cell counts, with the node records as they are.
#[derive(Clone, Copy)]
pub struct Level<'a> {
    pub nodes: &'a [Node],
    pub counts: &'a [u8],
    pub number: u8,
}

impl Level<'_> {
    /// How many cells the attribute at this level has; none past the last attribute.
    pub fn cells(&self) -> u8
        ensures { result ≡ slice_index self.now.counts.now self.now.number }
    {
        self.counts
            .get(usize::from(self.number))
            .copied()
            .unwrap_or(0)
    }
}

/// Places of which a walk builds the pages.
pub trait Places {
    type Place: Copy;

    ghost stands: { Self → ℕ → List ℕ → List Nodes → List ℕ → ℕ → Self.Place → Type 0 };

    ghost says: { Self → List ℕ → List Nodes → ℕ → Self.Place → List ℕ };

    ghost kept: { Self → Self → Type 0 };

    /// What is seen of a place at a level; the places and what was kept so far stay.
    fn look(&mut self, level: &Level, place: Self::Place) -> Seen
        ensures same_places { SamePlaces (stands self.old) (says self.old) (stands self.new) (says self.new) }
        ensures keeps_what_was_kept { (first : Self) → kept first self.old → kept first self.new }
        ensures seen_as_it_is { SeenAs (stands self.old) (says self.old) level.now.counts.now level.now.nodes.now level.now.number place result };

    /// The place in a cell of the attribute at a level.
    fn child(&self, level: &Level, place: Self::Place, cell: u8) -> Self::Place
        requires { cell < 16 }
        ensures leads_to_the_cell { (k : ℕ) (marks : List ℕ) → LeadsTo (stands self.now) (says self.now) k level.now.counts.now level.now.nodes.now marks level.now.number place cell result };
}
