//! The decisions of the rules that match, combined one after another.
ghost use Rattle.std.specs.Prelude.{◌≡◌};
ghost use Rattle.fields.specs.Ways.{way_number};
ghost use Rattle.policy.specs.Walking.{no_tally, settled};
ghost use Rattle.policy.specs.Tallies.{tally_of, with_one};

use algebra::Algebra;
use fields::way::Way;

/// What the decisions so far come to, once a rule has matched.
#[derive(Clone, Copy)]
pub(crate) struct Tally {
    value: Option<u8>,
}

impl Tally {
    /// No rule has matched yet.
    pub(crate) fn new() -> Tally
        ensures { tally_of result ≡ no_tally }
    {
        Tally { value: None }
    }

    /// One more rule matches, with this decision.
    pub(crate) fn add<A: Algebra>(&mut self, algebra: &A, way: Way, decision: u8)
        ensures { tally_of self.new ≡ with_one (A.tables algebra.now) (way_number way) (tally_of self.old) decision }
    {
        self.value = Some(match (way, self.value) {
            (Way::First, Some(value)) => value,
            (Way::Sum, Some(value)) => algebra.sum(value, decision),
            (Way::Only, Some(_)) => 0,
            (Way::First | Way::Sum | Way::Only, None) => decision,
            (Way::OppositeSum, None) => algebra.negation(decision),
            (Way::OppositeSum, Some(value)) => algebra.sum(value, algebra.negation(decision)),
        });
    }

    /// The decision, once all rules are read.
    pub(crate) fn decision<A: Algebra>(&self, algebra: &A, way: Way) -> u8
        ensures { result ≡ settled (A.tables algebra.now) (way_number way) (tally_of self.now) }
    {
        let value = self.value.unwrap_or(0);
        match way {
            Way::First | Way::Sum | Way::Only => value,
            Way::OppositeSum => algebra.negation(value),
        }
    }
}
