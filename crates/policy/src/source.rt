//! A policy from outside, whatever it is kept in.
ghost use Rattle.std.specs.Prelude.{◌≡◌};
ghost use Rattle.vocabulary.specs.Record.{counts_of};
ghost use Rattle.policy.specs.Meaning.{Meaning, Lawful};

use vocabulary::record::Shape;

/// Means one decision below its size for each grid number of its shape, and 0 beyond the grid.
pub trait Source {
    ghost meaning: { Self → Meaning };

    /// The shape of the grid.
    fn shape(&self) -> Shape
        ensures { counts_of result ≡ (meaning self.now).shape };

    /// The size of the algebra: every decision is below it.
    fn size(&self) -> u8
        ensures { result ≡ (meaning self.now).size };

    /// The decision for a grid number; the meaning stays.
    fn consult(&mut self, number: usize) -> u8
        ensures answers_by_its_meaning { result ≡ (meaning self.old).decision number }
        ensures meaning_stays { meaning self.new ≡ meaning self.old };

    ghost decisions_are_lawful: { (s : Self) → Lawful (meaning s) };
}
