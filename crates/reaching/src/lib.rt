//! Marking all that roots reach, one sweep a level, on any node memory.
#![tactic(auto)]

ghost use Rattle.std.specs.Prelude.{◌≡◌, ℕ, suc, ◌≤◌, List, [], ◌∷◌, map, length, replicate, slice_index};
ghost use Rattle.vocabulary.specs.Grid.{Filled};
ghost use Rattle.pages.specs.Sizes.{size};
ghost use Rattle.diagram.specs.declared.Link.{Link as Links};
ghost use Rattle.diagram.specs.Diagram.{page};
ghost use Rattle.diagram.specs.Marks.{Closed};
ghost use Rattle.reaching.specs.Roots.{roots_in, marked_by, marked_by_all, first_links, swept_one, SoundRoots};
ghost use Rattle.reaching.specs.Swept.{ClosedBelow, StaysMarked};

use diagram::{Link, Node};
use marking::Marking;

/// The record of a link becomes live.
fn mark_link(marking: &mut Marking, link: Link)
    ensures same_bytes { marking.new.bytes.ghost_name ≡ marking.old.bytes.ghost_name }
    ensures record_is_marked { marking.new.bytes.now ≡ marked_by link marking.old.bytes.now }
{
    if let Link::Record(number) = link {
        marking.mark(usize::from(number));
    }
}

/// The record of a root becomes live, if there is a root.
fn mark_root(marking: &mut Marking, root: Option<Link>)
    ensures same_bytes { marking.new.bytes.ghost_name ≡ marking.old.bytes.ghost_name }
    ensures record_is_marked { marking.new.bytes.now ≡ marked_by_all (roots_in (root ∷ [])) marking.old.bytes.now }
{
    if let Some(link) = root {
        mark_link(marking, link);
    }
}

/// The records of the roots that are there become live.
pub fn mark_roots(marking: &mut Marking, roots: &[Option<Link>])
    ensures same_bytes { marking.new.bytes.ghost_name ≡ marking.old.bytes.ghost_name }
    ensures records_of_the_roots_are_marked { marking.new.bytes.now ≡ marked_by_all (roots_in roots.now) marking.old.bytes.now }
{
    for root in roots {
        mark_root(marking, *root);
    }
}

/// What a record leads to in its first cells becomes live.
fn mark_branches(marking: &mut Marking, node: &Node, cells: u8)
    ensures same_bytes { marking.new.bytes.ghost_name ≡ marking.old.bytes.ghost_name }
    ensures branches_are_marked { marking.new.bytes.now ≡ marked_by_all (first_links node.now cells) marking.old.bytes.now }
{
    for cell in 0..cells {
        mark_link(marking, node.branch(cell));
    }
}

/// What a record leads to becomes live, if it is live and of this level.
fn sweep_one(marking: &mut Marking, node: &Node, number: usize, level: usize, cells: u8)
    ensures same_bytes { marking.new.bytes.ghost_name ≡ marking.old.bytes.ghost_name }
    ensures branches_of_a_live_record_are_marked { marking.new.bytes.now ≡ swept_one level cells node.now number marking.old.bytes.now }
{
    if usize::from(node.level) == level && marking.is_marked(number) {
        mark_branches(marking, node, cells);
    }
}

/// What the live records of a level lead to becomes live.
fn sweep(marking: &mut Marking, nodes: &[Node], level: usize, cells: u8)
    ensures same_bytes { marking.new.bytes.ghost_name ≡ marking.old.bytes.ghost_name }
    ensures marks_stay { StaysMarked marking.old.bytes.now marking.new.bytes.now }
    ensures one_level_more_is_closed { (k : ℕ) (shape : List ℕ) (roots : List Links) → SoundRoots k shape nodes.now roots → length marking.old.bytes.now ≡ length nodes.now → cells ≡ slice_index shape level → ClosedBelow shape nodes.now roots marking.old.bytes.now level → ClosedBelow shape nodes.now roots marking.new.bytes.now (suc level) }
{
    for (number, node) in nodes.iter().enumerate() {
        sweep_one(marking, node, number, level, cells);
    }
}

/// What live records lead to becomes live.
pub fn close(marking: &mut Marking, nodes: &[Node], counts: &[u8])
    ensures same_bytes { marking.new.bytes.ghost_name ≡ marking.old.bytes.ghost_name }
    ensures marks_stay { StaysMarked marking.old.bytes.now marking.new.bytes.now }
    ensures marks_are_closed { (k : ℕ) (roots : List Links) → SoundRoots k counts.now nodes.now roots → length marking.old.bytes.now ≡ length nodes.now → ClosedBelow counts.now nodes.now roots marking.old.bytes.now 0 → Closed counts.now nodes.now roots marking.new.bytes.now }
{
    for (level, cells) in counts.iter().enumerate() {
        sweep(marking, nodes, level, *cells);
    }
}

/// All that the roots reach becomes live, and nothing else; no record is live before.
pub fn mark_reached(marking: &mut Marking, nodes: &[Node], counts: &[u8], roots: &[Option<Link>])
    ensures same_bytes { marking.new.bytes.ghost_name ≡ marking.old.bytes.ghost_name }
    ensures as_many_bytes { length marking.new.bytes.now ≡ length marking.old.bytes.now }
    ensures just_what_is_reached_is_live { (k : ℕ) → SoundRoots k counts.now nodes.now (roots_in roots.now) → marking.old.bytes.now ≡ replicate (length nodes.now) 0 → Closed counts.now nodes.now (roots_in roots.now) marking.new.bytes.now }
{
    mark_roots(marking, roots);
    close(marking, nodes, counts);
}

/// How many records the roots reach; every marking byte is 0 in the end.
pub fn count_reached(
    nodes: &[Node],
    counts: &[u8],
    roots: &[Option<Link>],
    bytes: &mut [u8],
) -> usize
    ensures bytes_are_cleared { bytes.new ≡ replicate (length bytes.old) 0 }
    ensures size_of_their_pages { (k : ℕ) → Filled counts.now → SoundRoots k counts.now nodes.now (roots_in roots.now) → length bytes.old ≡ length nodes.now → result ≡ size counts.now (map (page nodes.now 0 counts.now) (roots_in roots.now)) }
{
    let mut marking = Marking::new(bytes);
    mark_reached(&mut marking, nodes, counts, roots);
    marking.count()
}
