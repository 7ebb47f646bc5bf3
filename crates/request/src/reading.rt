//! Reading a request.
ghost use Rattle.std.specs.Prelude.{◌≡◌, ◌<◌, ◌≤◌, length, Some, None, slice_index_or};
ghost use Rattle.refusal.specs.Answers.{answer_by};
ghost use Rattle.fields.specs.Shown.{bare, said};
ghost use Rattle.vocabulary.specs.Record.{attributes_of, cells_of};
ghost use Rattle.request.specs.Request.{give_once, given_cell, take_in, ask as ask_of, none_given, all_given, request_of};
ghost use Rattle.request.specs.Reading.{given_in, Stepped};

use crate::given::Given;
use fields::sheet::Fields;
use fields::words::number;
use fields::{Field, RawField};
use refusal::{Cause, Refusal};
use short_list::ShortList;
use vocabulary::record::{CellList, Vocabulary};

impl Given {
    /// No attribute is given.
    fn none(vocabulary: &Vocabulary) -> Given
        ensures { given_in result ≡ none_given (attributes_of vocabulary.now) }
    {
        Given {
            cells: ShortList::repeat(None, vocabulary.len()),
        }
    }

    /// Attribute `i` is given, unless it was before.
    fn give_once(&mut self, raw: &RawField, i: usize, cell: u8) -> Result<(), Refusal>
        requires { i < length (given_in self.old) }
        ensures { Stepped (give_once raw.now.at (given_in self.old) i cell (slice_index_or (given_in self.old) i None)) self.old result self.new }
    {
        if self.cells.as_slice()[i].is_some() {
            return Err(raw.refused(Cause::RepeatedAttribute));
        }
        self.cells.set(i, Some(cell));
        Ok(())
    }

    /// The attribute is given the cell, if it has one.
    fn give(&mut self, raw: &RawField, i: usize, cell: Option<u8>) -> Result<(), Refusal>
        requires { i < length (given_in self.old) }
        ensures { Stepped (given_cell raw.now.at (given_in self.old) i cell) self.old result self.new }
    {
        let cell = cell.ok_or(raw.refused(Cause::ForeignValue))?;
        self.give_once(raw, i, cell)
    }

    /// What a field says is taken in.
    fn take_in(
        &mut self,
        vocabulary: &Vocabulary,
        raw: &RawField,
        field: Field,
    ) -> Result<(), Refusal>
        requires { length (given_in self.old) ≡ length (attributes_of vocabulary.now) }
        ensures { Stepped (take_in (attributes_of vocabulary.now) raw.now.at (given_in self.old) (said field.entry)) self.old result self.new }
    {
        let unknown = raw.refused(Cause::UnknownAttribute);
        match field {
            Field::Choice(name, value) => {
                let i = vocabulary.find(name).ok_or(unknown)?;
                self.give(raw, i, vocabulary.value_cell(i, value))
            }
            Field::Measure(name, bytes) => {
                let i = vocabulary.find(name).ok_or(unknown)?;
                self.give(raw, i, vocabulary.number_cell(i, number(bytes)))
            }
            _ => Err(raw.refused(Cause::UnexpectedTag)),
        }
    }

    /// One field.
    fn ask(&mut self, vocabulary: &Vocabulary, raw: &RawField) -> Result<(), Refusal>
        requires { length (given_in self.old) ≡ length (attributes_of vocabulary.now) }
        ensures { Stepped (ask_of (attributes_of vocabulary.now) raw.now.at (given_in self.old) (bare raw.now)) self.old result self.new }
    {
        match raw.tag {
            0x31 | 0x32 => self.take_in(vocabulary, raw, raw.field()?),
            _ => Err(raw.refused(Cause::UnexpectedTag)),
        }
    }

    /// The cells once the request has ended, with every attribute given.
    fn all(&self, end: usize) -> Result<CellList, Refusal>
        ensures { answer_by cells_of result ≡ all_given end (given_in self.now) }
    {
        let missing = Refusal {
            cause: Cause::MissingAttribute,
            place: end,
        };
        let mut cells = ShortList::new(0);
        for given in self.cells.as_slice() {
            cells.add(given.ok_or(missing)?);
        }
        Ok(cells)
    }
}

/// The cells that a request gives, one an attribute.
pub fn read_request(vocabulary: &Vocabulary, request: &[u8]) -> Result<CellList, Refusal>
    ensures { answer_by cells_of result ≡ request_of (attributes_of vocabulary.now) request.now }
{
    let fields = Fields::of_sheet(request)?;
    let mut given = Given::none(vocabulary);
    for raw in fields {
        let raw = raw?;
        given.ask(vocabulary, &raw)?;
    }
    given.all(request.len())
}
