//! Locating the requests of an input.
ghost use Rattle.std.specs.Prelude.{◌≡◌, map, IfOk};
ghost use Rattle.std.specs.Option.{unwrap_or};
ghost use Rattle.refusal.specs.Answers.{answer_by};
ghost use Rattle.fields.specs.Shown.{bare, found, EndsWithin};
ghost use Rattle.vocabulary.specs.Grid.{number_if};
ghost use Rattle.vocabulary.specs.Vocabulary.{shape_of};
ghost use Rattle.vocabulary.specs.Record.{attributes_of};
ghost use Rattle.location.specs.Served.{vocabulary_field};
ghost use Rattle.location.specs.Located.{placed, located};
ghost use Rattle.location.specs.Shown.{place_shown, Answered};

use crate::{Failure, Location};
use fields::RawField;
use fields::raw::next_field;
use fields::sheet::Fields;
use refusal::{Cause, Refusal};
use request::reading::read_request;
use std::alloc::Global;
use vocabulary::record::Vocabulary;

/// The first field of an input, which must hold a vocabulary.
pub fn vocabulary_field<'a>(input: &'a [u8]) -> Result<RawField<'a>, Refusal>
    ensures field_is_the_first { answer_by found result ≡ vocabulary_field input.now }
    ensures field_ends_within { IfOk result (EndsWithin input.now 0) }
{
    let first = next_field(input, 0)?;
    if first.tag != 0x01 {
        return Err(first.refused(Cause::UnexpectedTag));
    }
    Ok(first)
}

/// The grid number of cells; they have one where they are cells of the vocabulary.
fn grid_number(vocabulary: &Vocabulary, cells: &[u8]) -> usize
    ensures { result ≡ unwrap_or (number_if (shape_of (attributes_of vocabulary.now)) cells.now) 0 }
{
    vocabulary.shape().number(cells).unwrap_or(0)
}

/// Where the request in a field 0x04 lies.
pub fn find(vocabulary: &Vocabulary, raw: &RawField) -> Result<Location, Refusal>
    ensures { answer_by place_shown result ≡ placed raw.now.at (attributes_of vocabulary.now) (bare raw.now) }
{
    if raw.tag != 0x04 {
        return Err(raw.refused(Cause::UnexpectedTag));
    }
    let cells = read_request(vocabulary, raw.content)?;
    Ok(Location {
        number: grid_number(vocabulary, cells.as_slice()),
        cells,
    })
}

/// The places of the requests of an input, in order.
pub fn locate(heap: Global, input: &[u8]) -> Result<Vec<Location>, Failure>
    ensures { Answered (λ v. map place_shown v.items) result (located input.now) }
{
    let first = vocabulary_field(input)?;
    let vocabulary = Vocabulary::of_sheet(first.content)?;
    let mut locations = Vec::new(heap);
    for raw in Fields::from_place(input, first.next) {
        let raw = raw?;
        locations.push(find(&vocabulary, &raw)?)?;
    }
    Ok(locations)
}
