//! What a policy sheet decides under permit and deny.
ghost use Rattle.std.specs.Prelude.{◌≡◌};
ghost use Rattle.algebra.specs.PermitDeny.{code_of};
ghost use Rattle.vocabulary.specs.Record.{attributes_of};
ghost use Rattle.decision.specs.Differing.{decision_at};

use algebra::permit_deny::{Decision, PermitDeny};
use policy::walking::decide_number;
use vocabulary::record::Vocabulary;

/// The code that a sheet decides at a grid number.
pub fn code_at(vocabulary: &Vocabulary, sheet: &[u8], number: usize) -> u8
    ensures { result ≡ decision_at (attributes_of vocabulary.now) sheet.now number }
{
    decide_number(&PermitDeny, vocabulary, sheet, number)
}

/// What a sheet decides at a grid number.
pub fn decision_at(vocabulary: &Vocabulary, sheet: &[u8], number: usize) -> Decision
    ensures { code_of result ≡ decision_at (attributes_of vocabulary.now) sheet.now number }
{
    let code = code_at(vocabulary, sheet, number);
    Decision::try_from(code).unwrap()
}
