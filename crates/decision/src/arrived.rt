//! What of an input has been served.
use crate::Line;

/// The sheets that have arrived, and the lines of the requests so far.
#[derive(Drop)]
pub(crate) struct Arrived<'a> {
    pub(crate) sheets: Vec<&'a [u8]>,
    pub(crate) lines: Vec<Line>,
}
