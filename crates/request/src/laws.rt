//! Laws of requests, each the contract of a function that does nothing.
ghost use Rattle.request.specs.Request.{ReadGivesCells, ReadingGoesOn, RequestsReadBack, OrderDoesNotMatter};
ghost use Rattle.request.specs.Example.{WorkedRequests};

/// A request written for cells is read as these cells, and 288 bytes always do for it.
pub fn requests_read_back()
    ensures { RequestsReadBack }
{}

/// Reading one run of bytes and then another is reading the second from what is given after the first.
pub fn reading_goes_on()
    ensures { ReadingGoesOn }
{}

/// What a request gives does not depend on the order of its fields.
pub fn order_does_not_matter()
    ensures { OrderDoesNotMatter }
{}

/// A worked vocabulary sheet, and requests on both sides of each cut.
pub fn worked_requests()
    ensures { WorkedRequests }
{}

/// A request that is read gives cells of the vocabulary's shape.
pub fn read_gives_cells()
    ensures { ReadGivesCells }
{}
