//! The shape of a vocabulary: cells by grid number, and grid numbers by cells.
ghost use Rattle.std.specs.Prelude.{◌≡◌, ◌≤◌, length, Decides};
ghost use Rattle.std.specs.Str.{bytes_eq};
ghost use Rattle.std.specs.Cmp.Rules.{comparing};
ghost use Rattle.std.proofs.Common.{rules};
ghost use Rattle.std.specs.Option.{option_map};
ghost use Rattle.vocabulary.specs.Grid.{grid, count_if, number_if, cells_if};
ghost use Rattle.vocabulary.specs.Vocabulary.{shape_of};
ghost use Rattle.vocabulary.specs.Record.{attributes_of, counts_of, cells_of};

use crate::record::{CellList, Shape, Vocabulary};
use short_list::ShortList;

impl Vocabulary<'_> {
    /// How many cells each attribute has.
    pub fn shape(&self) -> Shape
        ensures { counts_of result ≡ shape_of (attributes_of self.now) }
    {
        let mut counts = ShortList::new(0);
        for attribute in self.attributes.items.as_slice() {
            counts.add(attribute.kind.cells() as u8);
        }
        Shape {
            counts,
            size: self.attributes.size,
        }
    }
}

/// Shapes are equal where they have the same counts.
impl PartialEq for Shape {
    ghost eq = { λ a b. bytes_eq (counts_of a) (counts_of b) };

    ghost laws = { Prim.search (comparing, rules) };

    fn eq(&self, other: &Shape) -> bool
        ensures compares_the_counts { result ≡ bytes_eq (counts_of self.now) (counts_of other.now) }
        ensures true_just_where_they_are_the_same { Decides result (counts_of self.now ≡ counts_of other.now) }
    {
        self.counts() == other.counts()
    }
}

impl Eq for Shape {
    ghost laws = { Prim.search (comparing, rules) };
}

impl Shape {
    /// How many attributes there are.
    pub fn len(&self) -> usize
        ensures number_of_counts { result ≡ length (counts_of self.now) }
        ensures at_most_eight { result ≤ 8 }
    {
        self.counts.len()
    }

    /// How many grid numbers there are.
    pub fn size(&self) -> usize
        ensures product_of_the_counts { result ≡ grid (counts_of self.now) }
        ensures at_least_one { 1 ≤ result }
        ensures at_most_4096 { result ≤ 4096 }
    {
        self.size
    }

    /// How many cells each attribute has, in order.
    pub fn counts(&self) -> &[u8]
        ensures { result.now ≡ counts_of self.now }
    {
        self.counts.as_slice()
    }

    /// How many cells attribute `i` has.
    pub fn count(&self, i: usize) -> Option<u8>
        ensures { result ≡ count_if (counts_of self.now) i }
    {
        self.counts().get(i).copied()
    }

    /// The grid number of cells, with the last attribute fastest; none where a cell is missing, too many or not below its count.
    pub fn number(&self, cells: &[u8]) -> Option<usize>
        ensures { result ≡ number_if (counts_of self.now) cells.now }
    {
        let counts = self.counts();
        if cells.len() != counts.len() {
            return None;
        }
        let mut number = 0;
        for (i, count) in counts.iter().enumerate() {
            if cells[i] >= *count {
                return None;
            }
            number = number * usize::from(*count) + usize::from(cells[i]);
        }
        Some(number)
    }

    /// The cells of a grid number; none from the grid size on.
    pub fn cells(&self, number: usize) -> Option<CellList>
        ensures { option_map cells_of result ≡ cells_if (counts_of self.now) number }
    {
        if number >= self.size {
            return None;
        }
        let mut cells = ShortList::new(0);
        let mut size = self.size;
        let mut rest = number;
        for count in self.counts() {
            size /= usize::from(*count);
            cells.add((rest / size) as u8);
            rest %= size;
        }
        Some(cells)
    }
}
