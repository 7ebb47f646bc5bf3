//! A policy that is given in full: a code for each grid number.
ghost use Rattle.std.specs.Prelude.{◌≡◌, ℕ, ◌<◌, length, get_or};
ghost use Rattle.vocabulary.specs.Grid.{grid};
ghost use Rattle.policy.specs.Lists.{codes_meaning, AllBelow};
ghost use Rattle.vocabulary.specs.Record.{counts_of};

use crate::source::Source;
use vocabulary::record::Shape;

mod reading;

/// Room for the largest grid.
pub const LARGEST_GRID: usize = 4096;

/// The codes of a grid list, and 0 behind them.
#[derive(Clone, Copy)]
pub struct GridSource {
    codes: [u8; LARGEST_GRID],
    shape: Shape,
    size: u8,
    ghost some_code: { 0 < size },
    ghost all_below: { ∥ AllBelow size codes ∥₁ },
}

impl Source for GridSource {
    ghost use Rattle.policy.specs.Lawfulness.{codes_lawful};

    ghost meaning = { λ s. codes_meaning (counts_of s.shape) s.size s.codes };

    ghost decisions_are_lawful = { λ s. codes_lawful (counts_of s.shape) s.size s.codes s.some_code s.all_below };

    fn shape(&self) -> Shape {
        self.shape
    }

    fn size(&self) -> u8 {
        self.size
    }

    fn consult(&mut self, number: usize) -> u8 {
        if number < self.shape.size() {
            self.codes[number]
        } else {
            0
        }
    }
}
