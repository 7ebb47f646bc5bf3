//! Laws of vocabularies and cells, each the contract of a function that does nothing.
ghost use Rattle.vocabulary.specs.Grid.{CellsAndNumbersCorrespond, CellsAreTested};
ghost use Rattle.vocabulary.specs.Cells.{CellIsOfTheLastCutNotAbove, WorkedCells};
ghost use Rattle.vocabulary.specs.Vocabulary.{ReadingGoesOn, WhatIsReadIsProper};

/// Cells and grid numbers correspond one to one.
pub fn cells_and_numbers_correspond()
    ensures { CellsAndNumbersCorrespond }
{}

/// What passes the test of cells is cells of the shape, and nothing else passes.
pub fn cells_are_tested()
    ensures { CellsAreTested }
{}

/// The cell of a number is that of the last cut not above it; below the first cut and from the last one on there is none.
pub fn cell_is_of_the_last_cut_not_above()
    ensures { CellIsOfTheLastCutNotAbove }
{}

/// Cells among the cuts -200, 70 and 350.
pub fn worked_cells()
    ensures { WorkedCells }
{}

/// Reading one run of bytes and then another is reading the second from the progress after the first.
pub fn reading_goes_on()
    ensures { ReadingGoesOn }
{}

/// Every vocabulary that is read has proper and distinct names, rising cuts and a grid of at most 4,096 numbers.
pub fn what_is_read_is_proper()
    ensures { WhatIsReadIsProper }
{}
