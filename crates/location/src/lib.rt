//! What the program `locate` answers: cells and grid number of each request, or the first refusal.
#![tactic(auto)]

pub mod finding;

ghost use Rattle.std.specs.Prelude.{◌≡◌};
ghost use Rattle.location.specs.declared.Failure.TheVariants.{Refused, OutOfMemory};

use refusal::Refusal;
use std::alloc::{AllocError, AllocFailed};
use std::error::Error;
use std::fmt;
use vocabulary::record::CellList;

/// Where a request lies in the grid.
#[derive(Clone, Copy)]
pub struct Location {
    pub number: usize,
    pub cells: CellList,
}

/// A location is shown as a line `grid N cells C1 C2 ..`.
impl fmt::Display for Location {
    fn fmt<W: fmt::Write>(&self, f: &mut fmt::Formatter<W>) -> fmt::Result {
        let number = self.number;
        write!(f, "grid {number} cells")?;
        for cell in self.cells.as_slice() {
            write!(f, " {cell}")?;
        }
        Ok(())
    }
}

/// Why there is no answer.
#[derive(Clone, Copy, PartialEq, Eq, Debug)]
pub enum Failure {
    Refused(Refusal),
    OutOfMemory,
}

impl fmt::Display for Failure {
    fn fmt<W: fmt::Write>(&self, f: &mut fmt::Formatter<W>) -> fmt::Result {
        match self {
            Failure::Refused(reason) => write!(f, "{reason}"),
            Failure::OutOfMemory => f.write_str("out of memory"),
        }
    }
}

impl Error for Failure {}

impl From<Refusal> for Failure {
    ghost from_gives = { λ r f. f ≡ Refused r };

    fn from(refusal: Refusal) -> Failure {
        Failure::Refused(refusal)
    }
}

impl<T: Drop> From<AllocFailed<T>> for Failure {
    ghost from_gives = { λ r f. f ≡ OutOfMemory };

    fn from(_value: AllocFailed<T>) -> Failure {
        Failure::OutOfMemory
    }
}

impl From<AllocError> for Failure {
    ghost from_gives = { λ e f. f ≡ OutOfMemory };

    fn from(_value: AllocError) -> Failure {
        Failure::OutOfMemory
    }
}
