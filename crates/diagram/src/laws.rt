//! Laws of links and node records, each the contract of a function that does nothing.
ghost use Rattle.diagram.specs.Changed.{MemoryThatAgreesServes, NothingLiveIsSound, OneMoreRecordIsSound, OtherRecordsMayBeWritten, WhatRootsReachIsSound};
ghost use Rattle.diagram.specs.Denoted.{LinksDenoteTheirWalks, OperatorsActCellByCell};
ghost use Rattle.diagram.specs.Marks.{ClosedMarksCountTheSize};
ghost use Rattle.diagram.specs.Reduced.{FullMemoryLacksCapacity, LinksOfOnePageAreOneLink, NoTwoRecordsHoldOnePart, RecordsHoldTheBranchingParts, RootsDecideByCodes, RootsThatDecideAlikeAreOneLink, SizesCountRecords};
ghost use Rattle.diagram.specs.Worked.{WorkedDiagram};

/// The page of a link, in any memory, has for all cells the decision that their walk leads to.
pub fn links_denote_their_walks()
    ensures { LinksDenoteTheirWalks }
{}

/// An operator on pages of links goes cell by cell, and settles decisions at once.
pub fn operators_act_cell_by_cell()
    ensures { OperatorsActCellByCell }
{}

/// Links that denote the same page are the same link.
pub fn links_of_one_page_are_one_link()
    ensures { LinksOfOnePageAreOneLink }
{}

/// Roots from which the walks of all cells lead to the same decisions are one link.
pub fn roots_that_decide_alike_are_one_link()
    ensures { RootsThatDecideAlikeAreOneLink }
{}

/// What a root decides is a code below the size of the algebra.
pub fn roots_decide_by_codes()
    ensures { RootsDecideByCodes }
{}

/// The records met from roots hold the branching parts of their pages, and nothing else.
pub fn records_hold_the_branching_parts()
    ensures { RecordsHoldTheBranchingParts }
{}

/// Distinct live records hold distinct parts.
pub fn no_two_records_hold_one_part()
    ensures { NoTwoRecordsHoldOnePart }
{}

/// The size of roots' pages is the number of records met from them, and no more than there are records.
pub fn sizes_count_records()
    ensures { SizesCountRecords }
{}

/// Where every record holds one of the parts and there is a part more, the parts outnumber the records.
pub fn full_memory_lacks_capacity()
    ensures { FullMemoryLacksCapacity }
{}

/// With nothing live, any node memory is sound.
pub fn nothing_live_is_sound()
    ensures { NothingLiveIsSound }
{}

/// A sound set stays, with all that it means, in every memory that has the same in the live records.
pub fn memory_that_agrees_serves()
    ensures { MemoryThatAgreesServes }
{}

/// Records that are not live may be written: the set stays sound, and its links denote what they denoted.
pub fn other_records_may_be_written()
    ensures { OtherRecordsMayBeWritten }
{}

/// What is met from roots is live and sound by itself, and the roots may stand on it.
pub fn what_roots_reach_is_sound()
    ensures { WhatRootsReachIsSound }
{}

/// A proper record that is like no live one may be put into one that is not live, and be live.
pub fn one_more_record_is_sound()
    ensures { OneMoreRecordIsSound }
{}

/// Marks that are closed are on just the records met, and they are as many as the size.
pub fn closed_marks_count_the_size()
    ensures { ClosedMarksCountTheSize }
{}

/// Two records that are sound, and hold a page of permit and deny.
pub fn worked_diagram()
    ensures { WorkedDiagram }
{}
