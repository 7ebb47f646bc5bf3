//! The four ways to combine the decisions of the rules that match.
ghost use Rattle.std.specs.Prelude.{ℕ};
ghost use Rattle.fields.specs.Ways.{HasWay};

use std::error::Error;
use std::fmt;

/// How the decisions of the rules that match are combined: a sheet names it by a number from 1 to 4.
#[derive(Clone, Copy, PartialEq, Eq, Debug)]
pub enum Way {
    /// The first decision.
    First = 1,
    /// The sum of all.
    Sum = 2,
    /// The only one, where just one rule matches.
    Only = 3,
    /// The opposite of the sum of the opposites.
    OppositeSum = 4,
}

/// No way has this number.
#[derive(Clone, Copy, PartialEq, Eq, Debug)]
pub struct NoSuchWay;

impl fmt::Display for NoSuchWay {
    fn fmt<W: fmt::Write>(&self, f: &mut fmt::Formatter<W>) -> fmt::Result {
        f.write_str("no way to combine has this number")
    }
}

impl Error for NoSuchWay {}

impl TryFrom<u8> for Way {
    type Error = NoSuchWay;

    ghost try_from_gives = { HasWay };

    fn try_from(number: u8) -> Result<Way, NoSuchWay> {
        match number {
            1 => Ok(Way::First),
            2 => Ok(Way::Sum),
            3 => Ok(Way::Only),
            4 => Ok(Way::OppositeSum),
            _ => Err(NoSuchWay),
        }
    }
}
