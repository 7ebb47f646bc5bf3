//! Laws of building, each the contract of a function that does nothing.
ghost use Rattle.table.specs.Exact.{CapacityDecides, OnlyPartsOfThePageCome};

/// Where only what roots meet is live, a page is built exactly where there are records for the parts of the page and of all standing pages together.
pub fn capacity_decides()
    ensures { CapacityDecides }
{}

/// Where only what roots meet is live, each record that building a page makes holds a branching part of that page.
pub fn only_parts_of_the_page_come()
    ensures { OnlyPartsOfThePageCome }
{}
