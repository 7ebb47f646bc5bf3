//! The algebra of permit and deny.
ghost use Rattle.std.specs.Prelude.{◌≡◌};
ghost use Rattle.algebra.specs.PermitDeny.{code_of, Decoded, permit_deny, at, sum_rows, meet_rows, exchanged};
ghost use Rattle.algebra.specs.Computed.{short_cuts_of, regrouping_of};
ghost use Rattle.algebra.specs.PermitDenyAlgebraLemmas.{tested};

use crate::Algebra;
use std::error::Error;
use std::fmt;

/// A decision of the algebra of permit and deny.
#[derive(Clone, Copy, PartialEq, Eq, Debug)]
pub enum Decision {
    NotApplicable,
    Permit,
    Deny,
}

/// A code that no decision has.
#[derive(Clone, Copy, PartialEq, Eq, Debug)]
pub struct NoDecision(pub u8);

/// The code of a decision.
impl From<Decision> for u8 {
    ghost from_gives = { λ d code. code ≡ code_of d };

    fn from(decision: Decision) -> u8 {
        decision as u8
    }
}

/// The decision of a code, if it has one.
impl TryFrom<u8> for Decision {
    type Error = NoDecision;

    ghost try_from_gives = { Decoded };

    fn try_from(code: u8) -> Result<Decision, NoDecision> {
        match code {
            0 => Ok(Decision::NotApplicable),
            1 => Ok(Decision::Permit),
            2 => Ok(Decision::Deny),
            _ => Err(NoDecision(code)),
        }
    }
}

/// A decision is shown by its word; `silence` where none applies.
impl fmt::Display for Decision {
    fn fmt<W: fmt::Write>(&self, f: &mut fmt::Formatter<W>) -> fmt::Result {
        f.write_str(match *self {
            Decision::NotApplicable => "silence",
            Decision::Permit => "permit",
            Decision::Deny => "deny",
        })
    }
}

impl fmt::Display for NoDecision {
    fn fmt<W: fmt::Write>(&self, f: &mut fmt::Formatter<W>) -> fmt::Result {
        write!(f, "no decision has code {}", self.0)
    }
}

impl Error for NoDecision {}

const SIZE: u8 = 3;

const SUM: [[u8; 3]; 3] = [[0, 1, 2], [1, 1, 1], [2, 1, 2]];

const MEET: [[u8; 3]; 3] = [[0, 0, 0], [0, 1, 0], [0, 0, 2]];

/// Permit wins a sum, a meet is what both say, and a negation exchanges the two.
#[derive(Clone, Copy)]
pub struct PermitDeny;

impl Algebra for PermitDeny {
    ghost tables = { λ _. permit_deny };

    ghost short_cuts = { λ s. short_cuts_of 3 (at sum_rows) (at meet_rows) exchanged tested };

    ghost regrouping = { λ s. regrouping_of 3 (at sum_rows) (at meet_rows) exchanged tested };

    fn size(&self) -> u8 {
        SIZE
    }

    fn sum(&self, a: u8, b: u8) -> u8 {
        if a < SIZE && b < SIZE {
            SUM[a as usize][b as usize]
        } else {
            0
        }
    }

    fn meet(&self, a: u8, b: u8) -> u8 {
        if a < SIZE && b < SIZE {
            MEET[a as usize][b as usize]
        } else {
            0
        }
    }

    fn negation(&self, a: u8) -> u8 {
        match a {
            1 => 2,
            2 => 1,
            _ => 0,
        }
    }
}
