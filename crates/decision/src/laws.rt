//! Laws of differences, each the contract of a function that does nothing.
ghost use Rattle.decision.specs.Example.{WorkedReports};
ghost use Rattle.decision.specs.Differing.{DifferNowhereWhereAlike, EachTwoSheetsAreComparedOnce};

/// Two sheets differ at no grid number exactly where they decide alike at every one.
pub fn differ_nowhere_where_alike()
    ensures { DifferNowhereWhereAlike }
{}

/// The differences are those of each two sheets, each told once.
pub fn each_two_sheets_are_compared_once()
    ensures { EachTwoSheetsAreComparedOnce }
{}

/// The worked input with its lines and its difference, and inputs that are refused.
pub fn worked_reports()
    ensures { WorkedReports }
{}
