//! The first steps of every collection: policies made in records that may hold anything.
ghost use Rattle.std.specs.Prelude.{◌≡◌, ℕ, ◌<◌, ◌≤◌, [], ◌∷◌, length, replicate, Some};
ghost use Rattle.vocabulary.specs.Grid.{grid, Cells, number};
ghost use Rattle.vocabulary.specs.Record.{counts_of};
ghost use Rattle.pages.specs.Operators.{combined};
ghost use Rattle.pages.specs.Sizes.{size};
ghost use Rattle.making.specs.Operators.{operator_of};
ghost use Rattle.making.specs.Spans.{decisions_at};

use crate::calls::{combine, import};
use crate::operator::Operator;
use algebra::Algebra;
use beside::Memory;
use diagram::asking::decide;
use policy::source::Source;

/// What an operator gives for what two sources decide at cells, by way of policies that are made for it.
/// It succeeds wherever the records suffice for both policies and what is made of them.
pub fn combined_at<A: Algebra, S: Source, T: Source>(
    algebra: &A,
    operator: Operator,
    first: &mut S,
    second: &mut T,
    memory: &mut Memory,
    cells: &[u8],
) -> Option<u8>
    ensures same_nodes { memory.new.nodes.ghost_name ≡ memory.old.nodes.ghost_name }
    ensures same_bytes { memory.new.bytes.ghost_name ≡ memory.old.bytes.ghost_name }
    ensures same_shape { memory.new.shape.now ≡ memory.old.shape.now }
    ensures bytes_are_cleared { memory.new.bytes.now ≡ replicate (length memory.old.bytes.now) 0 }
    ensures decides_by_the_operator { ((g : ℕ) → (S.Source.meaning first.old).decision g < (A.Algebra.tables algebra.now).size) → ((g : ℕ) → (T.Source.meaning second.old).decision g < (A.Algebra.tables algebra.now).size) → size (counts_of memory.old.shape.now) (combined (operator_of operator (A.Algebra.tables algebra.now)) (decisions_at (S.Source.meaning first.old).decision (grid (counts_of memory.old.shape.now)) 0) (decisions_at (T.Source.meaning second.old).decision (grid (counts_of memory.old.shape.now)) 0) ∷ decisions_at (T.Source.meaning second.old).decision (grid (counts_of memory.old.shape.now)) 0 ∷ decisions_at (S.Source.meaning first.old).decision (grid (counts_of memory.old.shape.now)) 0 ∷ []) ≤ length memory.old.nodes.now → Cells (counts_of memory.old.shape.now) cells.now → result ≡ Some (operator_of operator (A.Algebra.tables algebra.now) ((S.Source.meaning first.old).decision (number (counts_of memory.old.shape.now) cells.now)) ((T.Source.meaning second.old).decision (number (counts_of memory.old.shape.now) cells.now))) }
{
    let left = import(first, memory, &[])?;
    let right = import(second, memory, &[Some(left)])?;
    let both = [Some(right), Some(left)];
    let root = combine(algebra, operator, left, right, memory, &both)?;
    Some(decide(memory.nodes, root, cells))
}
