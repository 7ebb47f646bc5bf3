//! The attributes of a vocabulary, and a vocabulary that is being read.
ghost use Rattle.std.specs.Prelude.{◌≡◌, ◌≤◌, length};
ghost use Rattle.short_list.specs.Items.{items_of};
ghost use Rattle.vocabulary.specs.Grid.{grid};
ghost use Rattle.vocabulary.specs.Counted.{counts_in};
ghost use Rattle.vocabulary.specs.Room.{RoomIn};

use crate::parts::{Attribute, State};
use short_list::ShortList;

/// Up to eight attributes, and the product of their cell counts.
#[derive(Clone, Copy)]
pub struct Attributes {
    pub items: ShortList<Attribute, 8>,
    pub size: usize,
    ghost sized: { size ≡ grid (counts_in (items_of items)) },
    ghost small: { size ≤ 4096 },
}

/// A sheet, the attributes that are whole so far, and what came before the next field.
#[derive(Clone, Copy)]
pub struct Reader<'a> {
    pub sheet: &'a [u8],
    pub whole: Attributes,
    pub state: State,
    ghost sheet_is_not_too_long: { length sheet.now ≤ 65535 },
    ghost room: { ∥ RoomIn state whole.items whole.size ∥₁ },
}
