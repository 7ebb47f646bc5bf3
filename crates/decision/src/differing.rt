//! Where policy sheets decide differently.
ghost use Rattle.std.specs.Prelude.{◌≡◌, ◌+◌, ◌<◌, [], ◌++◌, map, length, drop, IfOk, OnOk, slice_index_or};
ghost use Rattle.fields.specs.Parts.{list_now};
ghost use Rattle.vocabulary.specs.Grid.{grid};
ghost use Rattle.vocabulary.specs.Vocabulary.{shape_of};
ghost use Rattle.vocabulary.specs.Record.{attributes_of};
ghost use Rattle.decision.specs.Differing.{decision_at, differ_at, how_many_differ, against, differences_from};
ghost use Rattle.decision.specs.Shown.{difference_shown};

use crate::Difference;
use crate::consulting::code_at;
use std::alloc::{AllocError, Global};
use vocabulary::record::Vocabulary;

/// Two sheets decide differently at a grid number.
pub fn differ_at(vocabulary: &Vocabulary, first: &[u8], second: &[u8], number: usize) -> bool
    ensures { result ≡ differ_at (decision_at (attributes_of vocabulary.now) first.now) (decision_at (attributes_of vocabulary.now) second.now) number }
{
    code_at(vocabulary, first, number) != code_at(vocabulary, second, number)
}

/// At how many grid numbers two sheets decide differently.
pub fn how_many_differ(vocabulary: &Vocabulary, first: &[u8], second: &[u8]) -> usize
    ensures { result ≡ how_many_differ (decision_at (attributes_of vocabulary.now) first.now) (decision_at (attributes_of vocabulary.now) second.now) (grid (shape_of (attributes_of vocabulary.now))) }
{
    (0..vocabulary.shape().size())
        .filter(|number| differ_at(vocabulary, first, second, *number))
        .count()
}

/// Adds the differences of sheet `i` and those behind it.
fn compare_behind(
    vocabulary: &Vocabulary,
    sheets: &[&[u8]],
    i: usize,
    differences: &mut Vec<Difference>,
) -> Result<(), AllocError>
    requires { i < length sheets.now }
    ensures { OnOk result (map difference_shown differences.new.items ≡ map difference_shown differences.old.items ++ against (attributes_of vocabulary.now) i (slice_index_or (map list_now sheets.now) i []) (i + 1) (drop (i + 1) (map list_now sheets.now))) }
{
    for j in i + 1..sheets.len() {
        let numbers = how_many_differ(vocabulary, sheets[i], sheets[j]);
        differences.push(Difference {
            first: i,
            second: j,
            numbers,
        })?;
    }
    Ok(())
}

/// The differences of each sheet and those behind it.
pub fn differences_of(
    heap: Global,
    vocabulary: &Vocabulary,
    sheets: &[&[u8]],
) -> Result<Vec<Difference>, AllocError>
    ensures { IfOk result (λ ds. map difference_shown ds.items ≡ differences_from (attributes_of vocabulary.now) 0 (map list_now sheets.now)) }
{
    let mut differences = Vec::new(heap);
    for i in 0..sheets.len() {
        compare_behind(vocabulary, sheets, i, &mut differences)?;
    }
    Ok(differences)
}
