//! How often a source decides each code.
ghost use Rattle.std.specs.Prelude.{◌≡◌, ℕ, ◌<◌, slice_index};
ghost use Rattle.vocabulary.specs.Grid.{grid};
ghost use Rattle.policy.specs.Counts.{how_many};

use crate::source::Source;

/// How many grid numbers have each code. Each is consulted once, in order.
pub fn count_decisions<S: Source>(source: &mut S) -> [usize; 16]
    ensures counts_each_code { (c : ℕ) → c < 16 → slice_index result c ≡ how_many (S.meaning source.old).decision c (grid (S.meaning source.old).shape) }
    ensures meaning_stays { S.meaning source.new ≡ S.meaning source.old }
{
    let mut counts = [0usize; 16];
    for number in 0..source.shape().size() {
        let code = source.consult(number) as usize;
        if code < 16 {
            counts[code] += 1;
        }
    }
    counts
}
