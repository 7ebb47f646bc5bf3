//! Laws of making, each the contract of a function that does nothing.
ghost use Rattle.beside.specs.Makes.{WhatIsBuiltIsMade};

/// A page that is built where just the standing policies are marked stands beside them, and none of them changes.
pub fn what_is_built_stands()
    ensures { WhatIsBuiltIsMade }
{}
