//! Reading a grid list.
ghost use Rattle.std.specs.Prelude.{◌≡◌, ◌≤◌, ◌++◌, length, drop, replicate, IfOk, nat_le, position};
ghost use Rattle.refusal.specs.Answers.{answer_by};
ghost use Rattle.vocabulary.specs.Record.{counts_of};
ghost use Rattle.policy.specs.Grids.{codes_held, meaning_of};
ghost use Rattle.policy.specs.Lists.{codes_of, codes_meaning};

use crate::grid::{GridSource, LARGEST_GRID};
use algebra::Algebra;
use refusal::{Cause, Refusal};
use vocabulary::record::Shape;

impl GridSource {
    /// The source of a grid list: a code of the algebra for each grid number of the shape, in order.
    pub fn read<A: Algebra>(shape: Shape, algebra: &A, list: &[u8]) -> Result<GridSource, Refusal>
        ensures codes_of_the_list { answer_by codes_held result ≡ codes_of (counts_of shape) (A.tables algebra.now).size list.now }
        ensures means_the_list { IfOk result (λ s. meaning_of s ≡ codes_meaning (counts_of shape) (A.tables algebra.now).size list.now) }
    {
        if list.len() != shape.size() {
            return Err(Refusal {
                cause: Cause::BadLength,
                place: 0,
            });
        }
        let size = algebra.size();
        if let Some(place) = first_beyond(list, size) {
            return Err(Refusal {
                cause: Cause::BadContent,
                place,
            });
        }
        let codes = held(list);
        Ok(GridSource { codes, shape, size })
    }
}

/// Where the first code stands that is not below the size.
fn first_beyond(list: &[u8], size: u8) -> Option<usize>
    ensures { result ≡ position (λ c. nat_le size c) list.now }
{
    list.iter().position(|code| *code >= size)
}

/// The codes of a list, and 0 behind them.
fn held(list: &[u8]) -> [u8; LARGEST_GRID]
    requires { length list.now ≤ 4096 }
    ensures room_for_the_largest_grid { length result ≡ 4096 }
    ensures codes_then_zeros { result ≡ list.now ++ drop (length list.now) (replicate 4096 0) }
{
    let mut codes = [0u8; LARGEST_GRID];
    codes[..list.len()].copy_from_slice(list);
    codes
}
