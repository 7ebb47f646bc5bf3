//! The algebra of compressor stages.
ghost use Rattle.algebra.specs.Stages.{stages, lower, common, opposite};
ghost use Rattle.algebra.specs.Computed.{short_cuts_of, regrouping_of};
ghost use Rattle.algebra.specs.StagesAlgebraLemmas.{tested};

use crate::Algebra;

const SIZE: u8 = 7;

/// A code from 1 to 6 is the highest stage that may run: the lower stage wins a sum,
/// a meet is the stage that both name, and a negation counts from the other end.
#[derive(Clone, Copy)]
pub struct Stages;

impl Algebra for Stages {
    ghost tables = { λ _. stages };

    ghost short_cuts = { λ s. short_cuts_of 7 lower common opposite tested };

    ghost regrouping = { λ s. regrouping_of 7 lower common opposite tested };

    fn size(&self) -> u8 {
        SIZE
    }

    fn sum(&self, a: u8, b: u8) -> u8 {
        if a >= SIZE || b >= SIZE {
            0
        } else if a == 0 {
            b
        } else if b == 0 {
            a
        } else {
            a.min(b)
        }
    }

    fn meet(&self, a: u8, b: u8) -> u8 {
        if a < SIZE && a == b { a } else { 0 }
    }

    fn negation(&self, a: u8) -> u8 {
        if a == 0 || a >= SIZE { 0 } else { SIZE - a }
    }
}
