//! Short lists: up to a fixed number of items, held in place. They are copied as a whole, and no call allocates.
#![tactic(auto)]

ghost use Rattle.std.specs.Prelude.{◌≤◌, length};

use std::alloc::AllocError;
use std::error::Error;
use std::fmt;

/// There is an item in each place.
#[derive(Clone, Copy, PartialEq, Eq, Debug)]
pub struct Full;

impl fmt::Display for Full {
    fn fmt<W: fmt::Write>(&self, f: &mut fmt::Formatter<W>) -> fmt::Result {
        f.write_str("there is an item in each place")
    }
}

impl Error for Full {}

/// Up to `N` items in the first places; what the others hold does not matter.
pub struct ShortList<T, const N: usize> {
    items: [T; N],
    len: usize,
    ghost few: { len ≤ N },
    ghost held: { len ≤ length items },
}

impl<T: Copy, const N: usize> Clone for ShortList<T, N> {
    ghost use Rattle.std.specs.Prelude.{◌≡◌, ⊤};

    ghost is_clone = { λ x y. y ≡ x };

    ghost is_infallible = { λ _. ⊤ };

    fn clone(&self) -> Result<ShortList<T, N>, AllocError> {
        Ok(*self)
    }
}

impl<T: Copy, const N: usize> Copy for ShortList<T, N> {}

impl<T: Copy, const N: usize> ShortList<T, N> {
    ghost use Rattle.std.specs.Prelude.{◌≡◌, ◌<◌, ◌≤◌, [], ◌∷◌, ◌++◌, length, replicate, slice_set};
    ghost use Rattle.short_list.specs.Items.{items_of, Added};

    /// No items; `blank` fills the places.
    pub fn new(blank: T) -> ShortList<T, N>
        ensures { items_of result ≡ [] }
    {
        ShortList {
            items: [blank; N],
            len: 0,
        }
    }

    /// The same item, `len` times.
    #[tactic(auto, using(crate::proofs::Places::repeated))]
    pub fn repeat(item: T, len: usize) -> ShortList<T, N>
        requires { len ≤ N }
        ensures { items_of result ≡ replicate len item }
    {
        ShortList {
            items: [item; N],
            len,
        }
    }

    /// How many items there are.
    pub fn len(&self) -> usize
        ensures number_of_items { result ≡ length (items_of self.now) }
        ensures at_most_the_places { result ≤ N }
    {
        self.as_slice().len()
    }

    /// The items, in order.
    pub fn as_slice(&self) -> &[T]
        ensures { result.now ≡ items_of self.now }
    {
        &self.items[..self.len]
    }

    /// Adds an item at the end, where there is room.
    pub fn add(&mut self, item: T)
        requires { length (items_of self.old) < N }
        ensures { items_of self.new ≡ items_of self.old ++ item ∷ [] }
    {
        self.items[self.len] = item;
        self.len += 1;
    }

    /// Adds an item at the end, unless there is one in each place.
    pub fn push(&mut self, item: T) -> Result<(), Full>
        ensures { Added self.old item result self.new }
    {
        if self.len >= N {
            return Err(Full);
        }
        self.add(item);
        Ok(())
    }

    /// Puts an item in the place of another.
    #[tactic(auto, using(crate::proofs::Places::put_among))]
    pub fn set(&mut self, i: usize, item: T)
        requires { i < length (items_of self.old) }
        ensures { items_of self.new ≡ slice_set (items_of self.old) i item }
    {
        self.items[i] = item;
    }
}
