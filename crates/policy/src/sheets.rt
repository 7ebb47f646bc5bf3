//! Laws of policy sheets, each the contract of a function that does nothing.
ghost use Rattle.policy.specs.Sheets.{ReadingGoesOn, SheetsMeanCodes};
ghost use Rattle.policy.specs.Example.{WorkedSheets};
ghost use Rattle.policy.specs.Walking.{WalkDecides};

/// Reading one run of bytes and then another is reading the second from the progress after the first.
pub fn reading_goes_on()
    ensures { ReadingGoesOn }
{}

/// Two worked sheets, the pages that they mean, and sheets that are refused.
pub fn worked_sheets()
    ensures { WorkedSheets }
{}

/// A walk through a sheet answers what its rules decide, and refuses what the reader refuses.
pub fn walk_decides()
    ensures { WalkDecides }
{}

/// What a sheet means is lawful: decisions below the size, and 0 beyond the grid.
pub fn sheets_mean_codes()
    ensures { SheetsMeanCodes }
{}
