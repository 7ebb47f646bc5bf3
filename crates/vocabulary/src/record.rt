//! A vocabulary that has been read, its shape, and one cell an attribute.
ghost use Rattle.std.specs.Prelude.{◌≡◌, ◌<◌, ◌≤◌};
ghost use Rattle.short_list.specs.Items.{items_of};
ghost use Rattle.vocabulary.specs.Grid.{grid, Narrow};
ghost use Rattle.vocabulary.specs.Vocabulary.{Proper};
ghost use Rattle.vocabulary.specs.Parts.{attributes_in};

use crate::attributes::Attributes;
use short_list::ShortList;

pub mod grid;
pub mod lookup;
pub mod reading;

/// The attributes that a sheet names: names are proper and distinct, cuts rise, and the grid fits.
#[derive(Clone, Copy)]
pub struct Vocabulary<'a> {
    sheet: &'a [u8],
    attributes: Attributes,
    ghost proper: { ∥ Proper (attributes_in sheet.now attributes) ∥₁ },
}

/// The cell counts of a vocabulary's attributes, in order, and their product.
#[derive(Clone, Copy)]
pub struct Shape {
    counts: ShortList<u8, 8>,
    size: usize,
    ghost sized: { size ≡ grid (items_of counts) },
    ghost not_empty: { 0 < size },
    ghost small: { size ≤ 4096 },
    ghost narrow: { ∥ Narrow (items_of counts) ∥₁ },
}

/// What names a cell in a request.
#[derive(Clone, Copy)]
pub enum Label<'a> {
    /// A value by its name.
    Name(&'a [u8]),
    /// A range by the cut at which it begins.
    Number(i32),
}

/// Up to eight cells, one an attribute, in order.
pub type CellList = ShortList<u8, 8>;
