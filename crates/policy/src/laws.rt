//! Laws of rules and of the ways to combine decisions, each the contract of a function that does nothing.
ghost use Rattle.policy.specs.Combining.{FirstWayIsPrecedence, ThirdWayGivesWhatStandsAlone, FourthWayNegatesTheSecond, OneDecisionMore, EveryWayCombinesCodes, WorkedCombinations};
ghost use Rattle.policy.specs.Matching.{RuleMatchesWhereEachCellIsAllowed};

/// A rule matches exactly where each attribute's cell is among those that it names, or it names none.
pub fn rule_matches_where_each_cell_is_allowed()
    ensures { RuleMatchesWhereEachCellIsAllowed }
{}

/// The first way is the precedence of the decisions, in order.
pub fn first_way_is_precedence()
    ensures { FirstWayIsPrecedence }
{}

/// The third way gives a decision exactly where it stands alone.
pub fn third_way_gives_what_stands_alone()
    ensures { ThirdWayGivesWhatStandsAlone }
{}

/// The fourth way is the negation of the second on negated decisions.
pub fn fourth_way_negates_the_second()
    ensures { FourthWayNegatesTheSecond }
{}

/// What one decision more at the end makes of the first, the sum and the only one.
pub fn one_decision_more()
    ensures { OneDecisionMore }
{}

/// In every algebra each way combines codes into a code; none gives 0, and one alone gives itself.
pub fn every_way_combines_codes()
    ensures { EveryWayCombinesCodes }
{}

/// No decision, permit or deny alone, and deny before permit, in the four ways.
pub fn worked_combinations()
    ensures { WorkedCombinations }
{}
