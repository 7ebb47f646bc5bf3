//! The operators on two decisions, in any algebra.
ghost use Rattle.std.specs.Prelude.{◌≡◌, ℕ, ◌<◌, if◌then◌else◌};
ghost use Rattle.making.specs.Operators.{operator_of, InEveryAlgebra};

use algebra::Algebra;

/// An operator on two decisions.
#[derive(Clone, Copy)]
pub enum Operator {
    Sum,
    Meet,
    Minus,
    Precedence,
}

impl Operator {
    /// What the operator gives for two decisions.
    pub fn apply<A: Algebra>(self, algebra: &A, left: u8, right: u8) -> u8
        ensures { result ≡ operator_of self (A.Algebra.tables algebra.now) left right }
    {
        match self {
            Operator::Sum => algebra.sum(left, right),
            Operator::Meet => algebra.meet(left, right),
            Operator::Minus => algebra.minus(left, right),
            Operator::Precedence => algebra.precedence(left, right),
        }
    }

    /// Whether two equal decisions give that decision; else they give 0.
    pub fn keeps_same(self) -> bool
        ensures { InEveryAlgebra (λ t code. operator_of self t code code ≡ (if result then code else 0)) }
    {
        match self {
            Operator::Minus => false,
            _ => true,
        }
    }

    /// Whether a decision on the left, with 0 on the right, is given; else 0 is.
    pub fn keeps_left(self) -> bool
        ensures { InEveryAlgebra (λ t code. operator_of self t code 0 ≡ (if result then code else 0)) }
    {
        match self {
            Operator::Meet => false,
            _ => true,
        }
    }

    /// Whether a decision on the right, with 0 on the left, is given; else 0 is.
    pub fn keeps_right(self) -> bool
        ensures { InEveryAlgebra (λ t code. operator_of self t 0 code ≡ (if result then code else 0)) }
    {
        match self {
            Operator::Sum | Operator::Precedence => true,
            Operator::Meet | Operator::Minus => false,
        }
    }
}
