//! Making policies beside those that stand, each from its operands. None where records are lacking.
ghost use Rattle.std.specs.Prelude.{◌≡◌, ℕ, ◌<◌, map, length, replicate};
ghost use Rattle.vocabulary.specs.Grid.{grid};
ghost use Rattle.vocabulary.specs.Record.{counts_of};
ghost use Rattle.pages.specs.Operators.{combined};
ghost use Rattle.pages.specs.Projection.{projected};
ghost use Rattle.diagram.specs.Diagram.{page};
ghost use Rattle.diagram.specs.Sound.{Fit, Met};
ghost use Rattle.reaching.specs.Roots.{roots_in, SoundRoots};
ghost use Rattle.beside.specs.Makes.{Makes};
ghost use Rattle.making.specs.Operators.{operator_of};
ghost use Rattle.making.specs.Spans.{decisions_at};

use crate::negated::Negated;
use crate::operator::Operator;
use crate::pairs::{Pair, Pairs};
use crate::projected::Projected;
use crate::sourced::{Sourced, Span};
use algebra::Algebra;
use beside::Memory;
use building::Frame;
use diagram::Link;
use policy::source::Source;

/// The policy that a source means; each grid number is consulted once, and the meaning stays.
pub fn import<S: Source>(
    source: &mut S,
    memory: &mut Memory,
    roots: &[Option<Link>],
) -> Option<Link>
    ensures same_nodes { memory.new.nodes.ghost_name ≡ memory.old.nodes.ghost_name }
    ensures same_bytes { memory.new.bytes.ghost_name ≡ memory.old.bytes.ghost_name }
    ensures same_shape { memory.new.shape.now ≡ memory.old.shape.now }
    ensures bytes_are_cleared { memory.new.bytes.now ≡ replicate (length memory.old.bytes.now) 0 }
    ensures meaning_stays { S.Source.meaning source.new ≡ S.Source.meaning source.old }
    ensures made_beside_the_roots { (k : ℕ) → SoundRoots k (counts_of memory.old.shape.now) memory.old.nodes.now (roots_in roots.now) → ((g : ℕ) → (S.Source.meaning source.old).decision g < k) → Makes k (counts_of memory.old.shape.now) memory.old.nodes.now (roots_in roots.now) memory.new.nodes.now (decisions_at (S.Source.meaning source.old).decision (grid (counts_of memory.old.shape.now)) 0) result }
{
    let start = Span {
        first: 0,
        count: memory.shape.size() as u32,
    };
    let mut slots = [Frame::new(start, 0); 8];
    let mut sourced = Sourced { source };
    memory.make_beside(&mut sourced, roots, &mut slots, start)
}

/// What an operator makes of two policies that stand, at each grid number.
pub fn combine<A: Algebra>(
    algebra: &A,
    operator: Operator,
    left: Link,
    right: Link,
    memory: &mut Memory,
    roots: &[Option<Link>],
) -> Option<Link>
    ensures same_nodes { memory.new.nodes.ghost_name ≡ memory.old.nodes.ghost_name }
    ensures same_bytes { memory.new.bytes.ghost_name ≡ memory.old.bytes.ghost_name }
    ensures same_shape { memory.new.shape.now ≡ memory.old.shape.now }
    ensures bytes_are_cleared { memory.new.bytes.now ≡ replicate (length memory.old.bytes.now) 0 }
    ensures made_beside_the_roots { SoundRoots (A.Algebra.tables algebra.now).size (counts_of memory.old.shape.now) memory.old.nodes.now (roots_in roots.now) → Fit (A.Algebra.tables algebra.now).size memory.old.nodes.now (Met memory.old.nodes.now (counts_of memory.old.shape.now) (roots_in roots.now)) 0 left → Fit (A.Algebra.tables algebra.now).size memory.old.nodes.now (Met memory.old.nodes.now (counts_of memory.old.shape.now) (roots_in roots.now)) 0 right → Makes (A.Algebra.tables algebra.now).size (counts_of memory.old.shape.now) memory.old.nodes.now (roots_in roots.now) memory.new.nodes.now (combined (operator_of operator (A.Algebra.tables algebra.now)) (page memory.old.nodes.now 0 (counts_of memory.old.shape.now) left) (page memory.old.nodes.now 0 (counts_of memory.old.shape.now) right)) result }
{
    let start = Pair { left, right };
    let mut slots = [Frame::new(start, 0); 8];
    let mut pairs = Pairs { algebra, operator };
    memory.make_beside(&mut pairs, roots, &mut slots, start)
}

/// The negation of a policy that stands, at each grid number.
pub fn negate<A: Algebra>(
    algebra: &A,
    link: Link,
    memory: &mut Memory,
    roots: &[Option<Link>],
) -> Option<Link>
    ensures same_nodes { memory.new.nodes.ghost_name ≡ memory.old.nodes.ghost_name }
    ensures same_bytes { memory.new.bytes.ghost_name ≡ memory.old.bytes.ghost_name }
    ensures same_shape { memory.new.shape.now ≡ memory.old.shape.now }
    ensures bytes_are_cleared { memory.new.bytes.now ≡ replicate (length memory.old.bytes.now) 0 }
    ensures made_beside_the_roots { SoundRoots (A.Algebra.tables algebra.now).size (counts_of memory.old.shape.now) memory.old.nodes.now (roots_in roots.now) → Fit (A.Algebra.tables algebra.now).size memory.old.nodes.now (Met memory.old.nodes.now (counts_of memory.old.shape.now) (roots_in roots.now)) 0 link → Makes (A.Algebra.tables algebra.now).size (counts_of memory.old.shape.now) memory.old.nodes.now (roots_in roots.now) memory.new.nodes.now (map (A.Algebra.tables algebra.now).negation (page memory.old.nodes.now 0 (counts_of memory.old.shape.now) link)) result }
{
    let mut slots = [Frame::new(link, 0); 8];
    let mut negated = Negated { algebra };
    memory.make_beside(&mut negated, roots, &mut slots, link)
}

/// What masks keep of a policy that stands: one for each attribute, and one for decisions.
pub fn project(
    masks: &[u16],
    decisions: u16,
    link: Link,
    memory: &mut Memory,
    roots: &[Option<Link>],
) -> Option<Link>
    ensures same_nodes { memory.new.nodes.ghost_name ≡ memory.old.nodes.ghost_name }
    ensures same_bytes { memory.new.bytes.ghost_name ≡ memory.old.bytes.ghost_name }
    ensures same_shape { memory.new.shape.now ≡ memory.old.shape.now }
    ensures bytes_are_cleared { memory.new.bytes.now ≡ replicate (length memory.old.bytes.now) 0 }
    ensures made_beside_the_roots { (k : ℕ) → 0 < k → length masks.now ≡ length (counts_of memory.old.shape.now) → SoundRoots k (counts_of memory.old.shape.now) memory.old.nodes.now (roots_in roots.now) → Fit k memory.old.nodes.now (Met memory.old.nodes.now (counts_of memory.old.shape.now) (roots_in roots.now)) 0 link → Makes k (counts_of memory.old.shape.now) memory.old.nodes.now (roots_in roots.now) memory.new.nodes.now (projected masks.now decisions (counts_of memory.old.shape.now) (page memory.old.nodes.now 0 (counts_of memory.old.shape.now) link)) result }
{
    let mut slots = [Frame::new(link, 0); 8];
    let mut places = Projected { masks, decisions };
    memory.make_beside(&mut places, roots, &mut slots, link)
}
