//! A policy sheet as a source.
ghost use Rattle.std.specs.Prelude.{◌≡◌};
ghost use Rattle.algebra.specs.Layout.{laid_out};
ghost use Rattle.vocabulary.specs.Record.{attributes_of};
ghost use Rattle.policy.specs.Meaning.{Lawful};
ghost use Rattle.policy.specs.Sheets.{sheet_meaning};

use crate::source::Source;
use crate::walking::decide_number;
use algebra::Algebra;
use algebra::copied::CopiedTables;
use vocabulary::record::{Shape, Vocabulary};

/// The bytes of a policy sheet, its vocabulary and a copy of its algebra's tables.
#[derive(Drop)]
pub struct PolicySheet<'a> {
    sheet: &'a [u8],
    vocabulary: &'a Vocabulary<'a>,
    tables: CopiedTables,
    ghost lawful: { ∥ Lawful (sheet_meaning (laid_out tables.size tables.sums tables.meets tables.negations) (attributes_of vocabulary.now) sheet.now) ∥₁ },
}

impl<'a> PolicySheet<'a> {
    /// The policy of a sheet; it decides nothing where the sheet is refused.
    pub fn new<A: Algebra>(
        algebra: &A,
        vocabulary: &'a Vocabulary<'a>,
        sheet: &'a [u8],
    ) -> PolicySheet<'a>
        ensures { sheet_meaning (laid_out result.tables.size result.tables.sums result.tables.meets result.tables.negations) (attributes_of result.vocabulary.now) result.sheet.now ≡ sheet_meaning (A.tables algebra.now) (attributes_of vocabulary.now) sheet.now }
    {
        let tables = CopiedTables::of(algebra);
        PolicySheet {
            sheet,
            vocabulary,
            tables,
        }
    }
}

impl<'a> Source for PolicySheet<'a> {
    ghost use Rattle.policy.specs.Lawfulness.{lawful_of};

    ghost meaning = { λ s. sheet_meaning (laid_out s.tables.size s.tables.sums s.tables.meets s.tables.negations) (attributes_of s.vocabulary.now) s.sheet.now };

    ghost decisions_are_lawful = { λ s. lawful_of s.lawful };

    fn shape(&self) -> Shape {
        self.vocabulary.shape()
    }

    fn size(&self) -> u8 {
        self.tables.size()
    }

    fn consult(&mut self, number: usize) -> u8 {
        decide_number(&self.tables, self.vocabulary, self.sheet, number)
    }
}
