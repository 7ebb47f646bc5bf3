//! How far a walk through a policy sheet has come.
ghost use Rattle.std.specs.Prelude.{◌≡◌, length};
ghost use Rattle.vocabulary.specs.Record.{attributes_of};

use crate::tally::Tally;
use fields::way::Way;
use short_list::ShortList;
use vocabulary::record::Vocabulary;

/// For each attribute that the rule names: whether one of its conditions names the cell.
#[derive(Clone, Copy)]
pub(crate) struct Seen {
    pub(crate) met: ShortList<Option<bool>, 8>,
}

/// The rule that is being read, after those in the tally.
#[derive(Clone, Copy)]
pub(crate) struct Judging {
    pub(crate) way: Way,
    pub(crate) tally: Tally,
    pub(crate) decision: u8,
    pub(crate) seen: Seen,
}

/// What came before the next field.
#[derive(Clone, Copy)]
pub(crate) enum State {
    Begun,
    Headed(Way),
    Ruled(Judging),
}

/// A walk for one list of cells, one an attribute: of the rules it keeps only what they decide there.
#[derive(Drop)]
pub(crate) struct Walk<'a, A> {
    pub(crate) algebra: &'a A,
    pub(crate) vocabulary: &'a Vocabulary<'a>,
    pub(crate) cells: &'a [u8],
    ghost one_cell_an_attribute: { length cells.now ≡ length (attributes_of vocabulary.now) },
}
