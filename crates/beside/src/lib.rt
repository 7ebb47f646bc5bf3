//! Making a policy beside those that stand: mark what they reach, walk, and clear the marks.
#![tactic(auto)]

ghost use Rattle.std.specs.Prelude.{◌≡◌, ℕ, ◌≤◌, List, length, replicate};
ghost use Rattle.vocabulary.specs.Record.{counts_of};
ghost use Rattle.diagram.specs.Marks.{Closed};
ghost use Rattle.places.specs.Places.{KeepWhileMemoryGrows, FillTheGrid};
ghost use Rattle.reaching.specs.Roots.{roots_in, SoundRoots};
ghost use Rattle.beside.specs.Makes.{Makes};

pub mod laws;

use building::{Frame, build};
use diagram::{Link, Node};
use marking::Marking;
use places::Places;
use reaching::mark_reached;
use vocabulary::record::Shape;

/// What policies stand in: node records, a marking byte for each, and the shape of the pages.
#[derive(Drop)]
pub struct Memory<'a> {
    pub nodes: &'a mut [Node],
    pub bytes: &'a mut [u8],
    pub shape: &'a Shape,
    ghost one_byte_a_record: { length bytes.now ≡ length nodes.now },
    ghost at_most_2048_records: { length nodes.now ≤ 2048 },
}

impl Memory<'_> {
    /// The root of a place's page, made beside the roots that stand; none where records are lacking.
    pub fn make_beside<P: Places>(
        &mut self,
        places: &mut P,
        roots: &[Option<Link>],
        slots: &mut [Frame<P::Place>],
        start: P::Place,
    ) -> Option<Link>
        requires { 8 ≤ length slots.old }
        ensures same_nodes { self.new.nodes.ghost_name ≡ self.old.nodes.ghost_name }
        ensures same_bytes { self.new.bytes.ghost_name ≡ self.old.bytes.ghost_name }
        ensures same_shape { self.new.shape.now ≡ self.old.shape.now }
        ensures bytes_are_cleared { self.new.bytes.now ≡ replicate (length self.old.bytes.now) 0 }
        ensures keeps_what_was_kept { (first : P) → P.Places.kept first places.old → P.Places.kept first places.new }
        ensures made_beside_the_roots { (k : ℕ) → SoundRoots k (counts_of self.old.shape.now) self.old.nodes.now (roots_in roots.now) → KeepWhileMemoryGrows (P.Places.stands places.old) (P.Places.says places.old) k (counts_of self.old.shape.now) → FillTheGrid (P.Places.stands places.old) (P.Places.says places.old) k (counts_of self.old.shape.now) → ((marks : List ℕ) → Closed (counts_of self.old.shape.now) self.old.nodes.now (roots_in roots.now) marks → P.Places.stands places.old k (counts_of self.old.shape.now) self.old.nodes.now marks 0 start) → Makes k (counts_of self.old.shape.now) self.old.nodes.now (roots_in roots.now) self.new.nodes.now (P.Places.says places.old (counts_of self.old.shape.now) self.old.nodes.now 0 start) result }
    {
        let nodes = &mut *self.nodes;
        let bytes = &mut *self.bytes;
        let mut marking = Marking::new(bytes);
        mark_reached(&mut marking, nodes, self.shape.counts(), roots);
        build(
            places,
            nodes,
            &mut marking,
            self.shape.counts(),
            slots,
            start,
        )
    }
}
