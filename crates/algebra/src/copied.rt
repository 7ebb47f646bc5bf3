//! A copy of an algebra's tables, as a value.
ghost use Rattle.std.specs.Prelude.{◌≡◌, ℕ, ◌/◌, ◌%◌, ◌<◌, ◌≤◌, slice_index};
ghost use Rattle.algebra.specs.Laws.{ShortCutLaws, RegroupingLaws};
ghost use Rattle.algebra.specs.Layout.{laid_out};
ghost use Rattle.algebra.specs.Truncated as truncated;

use crate::Algebra;
use std::array;

/// The tables of an algebra, in rows of sixteen.
#[derive(Clone, Copy)]
pub struct CopiedTables {
    size: u8,
    sums: [u8; 256],
    meets: [u8; 256],
    negations: [u8; 16],
    ghost size_at_most_16: { size ≤ 16 },
    ghost short_cuts: { ∥ ShortCutLaws (laid_out size sums meets negations) ∥₁ },
    ghost regrouping: { ∥ RegroupingLaws (laid_out size sums meets negations) ∥₁ },
}

impl CopiedTables {
    /// A copy of the tables of any algebra: it means the same tables.
    pub fn of<G: Algebra>(algebra: &G) -> CopiedTables
        ensures { laid_out result.size result.sums result.meets result.negations ≡ G.tables algebra.now }
    {
        CopiedTables {
            size: algebra.size(),
            sums: array::from_fn(|i| algebra.sum((i / 16) as u8, (i % 16) as u8)),
            meets: array::from_fn(|i| algebra.meet((i / 16) as u8, (i % 16) as u8)),
            negations: negations_of(algebra),
        }
    }
}

impl Algebra for CopiedTables {
    ghost tables = { λ c. laid_out c.size c.sums c.meets c.negations };

    ghost short_cuts = { λ s. truncated.short_cuts s.short_cuts };

    ghost regrouping = { λ s. truncated.regrouping s.regrouping };

    fn size(&self) -> u8 {
        self.size
    }

    fn sum(&self, a: u8, b: u8) -> u8 {
        if a < self.size && b < self.size {
            self.sums[16 * a as usize + b as usize]
        } else {
            0
        }
    }

    fn meet(&self, a: u8, b: u8) -> u8 {
        if a < self.size && b < self.size {
            self.meets[16 * a as usize + b as usize]
        } else {
            0
        }
    }

    fn negation(&self, a: u8) -> u8 {
        if a < self.size {
            self.negations[a as usize]
        } else {
            0
        }
    }
}

/// The negations, in the order of the codes.
fn negations_of<G: Algebra>(algebra: &G) -> [u8; 16]
    ensures { (i : ℕ) → i < 16 → slice_index result i ≡ (G.tables algebra.now).negation i }
{
    array::from_fn(|a| algebra.negation(a as u8))
}
