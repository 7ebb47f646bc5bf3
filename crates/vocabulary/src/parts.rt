//! What a vocabulary is made of.
ghost use Rattle.std.specs.Prelude.{◌≡◌, ◌≤◌};

use short_list::ShortList;

/// Where a name stands in the sheet.
#[derive(Clone, Copy)]
pub struct Span {
    pub from: u16,
    pub len: u16,
}

/// Up to sixteen value names.
pub type Names = ShortList<Span, 16>;

/// Up to seventeen cuts.
pub type Cuts = ShortList<i32, 17>;

/// What an attribute is measured by: named values or rising cuts.
#[derive(Clone, Copy)]
pub enum Kind {
    Valued(Names),
    Ranged(Cuts),
}

#[derive(Clone, Copy)]
pub struct Attribute {
    pub name: Span,
    pub kind: Kind,
}

/// What came before the next field: the attribute that is being read.
#[derive(Clone, Copy)]
pub enum State {
    Start,
    Opened(Span),
    Listing(Span, Names),
    Bounded(Span, Cuts),
}

impl Span {
    /// No name.
    pub(crate) const EMPTY: Span = Span { from: 0, len: 0 };
}

impl Kind {
    ghost use Rattle.vocabulary.specs.Counted.{cells_in};

    /// How many cells there are: each value is one, and cuts bound one less than there are.
    pub(crate) fn cells(self) -> usize
        ensures number_of_cells { result ≡ cells_in self }
        ensures at_most_sixteen { result ≤ 16 }
    {
        match self {
            Kind::Valued(names) => names.len(),
            Kind::Ranged(cuts) => cuts.len().saturating_sub(1),
        }
    }
}
