//! What a request has given so far.
use short_list::ShortList;

/// For each attribute its cell, once it is given.
#[derive(Clone, Copy)]
pub struct Given {
    pub cells: ShortList<Option<u8>, 8>,
}
