//! The levels at which places branch, on any node memory.
ghost use Rattle.std.specs.Prelude.{◌≡◌};
ghost use Rattle.making.specs.Levels.{BranchesWithin};

use diagram::Link;
use places::{Level, Seen};

/// A place that stands at a level branches at another, if that is not before it and the shape has it.
/// On sound memory it has; on any other the place is not applicable.
pub fn branches_within(level: &Level, at: u8) -> Seen
    ensures { BranchesWithin level.now.counts.now level.now.number at result }
{
    if level.number <= at && usize::from(at) < level.counts.len() {
        Seen::Branches(at)
    } else {
        Seen::Settled(Link::Decision(0))
    }
}
