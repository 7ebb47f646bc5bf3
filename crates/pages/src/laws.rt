//! Laws of pages, parts and sizes, each the contract of a function that does nothing.
ghost use Rattle.pages.specs.Operators.{OperatorsActOnDecisions};
ghost use Rattle.pages.specs.Pages.{PagesAreEqualWhereTheyDecideAlike, PagesAreMadeByCells, WhatIsLeftDecidesAsThePage};
ghost use Rattle.pages.specs.Parts.{PartsAreTheBranchingParts};
ghost use Rattle.pages.specs.Projection.{ProjectionKeepsWhatMasksAllow};
ghost use Rattle.pages.specs.Sizes.{SizeIsTheNumberOfBranchingParts};
ghost use Rattle.pages.specs.Worked.{WorkedPages};

/// What a page says once cells are fixed decides, for the cells of the other attributes, as the page does.
pub fn what_is_left_decides_as_the_page()
    ensures { WhatIsLeftDecidesAsThePage }
{}

/// Pages of a shape that decide alike for all cells are equal, which a test tells.
pub fn pages_are_equal_where_they_decide_alike()
    ensures { PagesAreEqualWhereTheyDecideAlike }
{}

/// A page made of decisions for lists of cells has them at the numbers of the cells.
pub fn pages_are_made_by_cells()
    ensures { PagesAreMadeByCells }
{}

/// The computed list of parts has a part exactly where two cells of the next attribute leave something different.
pub fn parts_are_the_branching_parts()
    ensures { PartsAreTheBranchingParts }
{}

/// A list that has each branching part of the pages once, and nothing else, is as long as the size says, and there is one.
pub fn size_is_the_number_of_branching_parts()
    ensures { SizeIsTheNumberOfBranchingParts }
{}

/// An operator on pages acts at each grid number on what the pages decide there.
pub fn operators_act_on_decisions()
    ensures { OperatorsActOnDecisions }
{}

/// A projection keeps a decision where every bit concerned is set, and gives 0 elsewhere; no other bit matters.
pub fn projection_keeps_what_masks_allow()
    ensures { ProjectionKeepsWhatMasksAllow }
{}

/// Two pages of permit and deny, their sum and precedence, and the sizes of all.
pub fn worked_pages()
    ensures { WorkedPages }
{}
