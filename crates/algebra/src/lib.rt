//! Algebras of decisions: a decision is a code below the algebra's size, and 0 means not applicable.
#![tactic(auto)]

ghost use Rattle.std.specs.Prelude.{◌≡◌};
ghost use Rattle.algebra.specs.Derived.{minus, precedence, DerivedLawsHold};
ghost use Rattle.algebra.specs.Laws.{ShortCutLaws, RegroupingLaws};
ghost use Rattle.algebra.specs.Tables.{Tables};
ghost use Rattle.algebra.specs.Threes.{SumOfThree};
ghost use Rattle.algebra.specs.Worked.{WorkedValues};

pub mod copied;
pub mod permit_deny;
pub mod stages;

/// The sum, the meet and the negation of the codes below a size from 2 to 16.
/// On a code of the size or more every answer is 0.
pub trait Algebra {
    ghost tables: { Self → Tables };

    /// How many codes there are.
    fn size(&self) -> u8
        ensures { result ≡ (tables self.now).size };

    /// What two decisions say together.
    fn sum(&self, a: u8, b: u8) -> u8
        ensures { result ≡ (tables self.now).sum a b };

    /// What two decisions agree on.
    fn meet(&self, a: u8, b: u8) -> u8
        ensures { result ≡ (tables self.now).meet a b };

    /// The opposite decision.
    fn negation(&self, a: u8) -> u8
        ensures { result ≡ (tables self.now).negation a };

    /// `a` where `b` is not applicable, else 0.
    fn minus(&self, a: u8, b: u8) -> u8
        ensures { result ≡ minus (tables self.now) a b }
    {
        let size = self.size();
        if a >= size || b >= size {
            0
        } else if b == 0 {
            a
        } else {
            0
        }
    }

    /// `a`, unless it is not applicable: then `b`.
    fn precedence(&self, a: u8, b: u8) -> u8
        ensures { result ≡ precedence (tables self.now) a b }
    {
        let size = self.size();
        if a >= size || b >= size {
            0
        } else if a == 0 {
            b
        } else {
            a
        }
    }

    ghost short_cuts: { (s : Self) → ShortCutLaws (tables s) };

    ghost regrouping: { (s : Self) → RegroupingLaws (tables s) };
}

/// The sum of three codes, the same in every grouping and order; 0 where one is no code.
pub fn sum_of_three<G: Algebra>(algebra: &G, a: u8, b: u8, c: u8) -> u8
    ensures { SumOfThree (G.tables algebra.now) a b c result }
{
    let size = algebra.size();
    if a >= size || b >= size || c >= size {
        return 0;
    }
    algebra.sum(algebra.sum(a, b), c)
}

/// In every algebra `minus` and `precedence` answer a code, and an operand that is 0, two equal
/// operands or one that is no code settle the answer.
pub fn derived_laws_hold()
    ensures { DerivedLawsHold }
{}

/// Values of the operators on codes of the two algebras that stand here.
pub fn worked_values()
    ensures { WorkedValues }
{}
