//! Writing the request that is read as given cells.
ghost use Rattle.std.specs.Prelude.{◌≡◌, ◌+◌, ◌≤◌, true, length, IfOk};
ghost use Rattle.refusal.specs.Answers.{answer_by};
ghost use Rattle.fields.specs.Parts.{itself};
ghost use Rattle.fields.specs.Written.{written};
ghost use Rattle.vocabulary.specs.Grid.{are_cells};
ghost use Rattle.vocabulary.specs.Vocabulary.{shape_of};
ghost use Rattle.vocabulary.specs.Record.{attributes_of, label_shown};
ghost use Rattle.request.specs.Request.{request_for};
ghost use Rattle.request.specs.Writing.{given_bytes, field_bytes_at, written_length, memory_after, ReadsAs};

use fields::words::number_bytes;
use fields::write::write_field;
use refusal::{Cause, Refusal};
use vocabulary::record::{Label, Vocabulary};

/// Whether there is one cell for each attribute, below the attribute's count.
fn are_cells(vocabulary: &Vocabulary, cells: &[u8]) -> bool
    ensures { result ≡ are_cells (shape_of (attributes_of vocabulary.now)) cells.now }
{
    vocabulary.shape().number(cells).is_some()
}

/// How many bytes stand after `=` in the field for a label.
fn given_len(label: Label) -> usize
    ensures { result ≡ length (given_bytes (label_shown label.entry)) }
{
    match label {
        Label::Name(value) => value.len(),
        Label::Number(_) => 4,
    }
}

/// How many bytes the field has that gives attribute `i` its cell.
fn field_len(vocabulary: &Vocabulary, i: usize, cell: u8) -> usize
    requires { length (field_bytes_at (attributes_of vocabulary.now) i cell) ≤ 288 }
    ensures { result ≡ length (field_bytes_at (attributes_of vocabulary.now) i cell) }
{
    let given = given_len(vocabulary.label(i, cell as usize));
    4 + vocabulary.name(i).len() + given
}

/// How many bytes the request for these cells has.
fn request_len(vocabulary: &Vocabulary, cells: &[u8]) -> usize
    requires { are_cells (shape_of (attributes_of vocabulary.now)) cells.now ≡ true }
    ensures { result ≡ length (request_for (attributes_of vocabulary.now) cells.now) }
{
    let mut len = 0;
    for (i, cell) in cells.iter().enumerate() {
        len += field_len(vocabulary, i, *cell);
    }
    len
}

/// How many bytes the request for these cells has, if they are cells of the vocabulary's shape and it fits the room.
fn checked_len(vocabulary: &Vocabulary, cells: &[u8], room: usize) -> Result<usize, Refusal>
    ensures { answer_by itself result ≡ written_length (attributes_of vocabulary.now) cells.now room }
{
    if !are_cells(vocabulary, cells) {
        return Err(Refusal {
            cause: Cause::Mismatch,
            place: 0,
        });
    }
    let len = request_len(vocabulary, cells);
    if room < len {
        return Err(Refusal {
            cause: Cause::MemoryTooShort,
            place: 0,
        });
    }
    Ok(len)
}

/// Writes the field that gives attribute `i` its cell, and answers the place after it.
fn write_cell(vocabulary: &Vocabulary, i: usize, cell: u8, out: &mut [u8], at: usize) -> usize
    requires field_is_short { length (field_bytes_at (attributes_of vocabulary.now) i cell) ≤ 288 }
    requires room_is_left { at + length (field_bytes_at (attributes_of vocabulary.now) i cell) ≤ length out.old }
    ensures answers_the_place_after { result ≡ at + length (field_bytes_at (attributes_of vocabulary.now) i cell) }
    ensures field_is_written { out.new ≡ written out.old at (field_bytes_at (attributes_of vocabulary.now) i cell) }
{
    let name = vocabulary.name(i);
    match vocabulary.label(i, cell as usize) {
        Label::Name(value) => write_field(out, at, 0x31, name, value),
        Label::Number(number) => write_field(out, at, 0x32, name, &number_bytes(number)),
    }
}

/// Writes the request for these cells at the beginning of memory.
fn write_cells(vocabulary: &Vocabulary, cells: &[u8], out: &mut [u8])
    requires cells_are_of_the_shape { are_cells (shape_of (attributes_of vocabulary.now)) cells.now ≡ true }
    requires room_is_left { length (request_for (attributes_of vocabulary.now) cells.now) ≤ length out.old }
    ensures { out.new ≡ written out.old 0 (request_for (attributes_of vocabulary.now) cells.now) }
{
    let mut at = 0;
    for (i, cell) in cells.iter().enumerate() {
        at = write_cell(vocabulary, i, *cell, out, at);
    }
}

/// Writes the request that is read as these cells, and answers its length.
///
/// Refused, and memory stays as it was, if these are not cells of the vocabulary's shape, and else if memory is too short.
pub fn write_request(
    vocabulary: &Vocabulary,
    cells: &[u8],
    out: &mut [u8],
) -> Result<usize, Refusal>
    ensures length_is_the_one_laid_down { answer_by itself result ≡ written_length (attributes_of vocabulary.now) cells.now (length out.old) }
    ensures memory_holds_the_request { out.new ≡ memory_after (request_for (attributes_of vocabulary.now) cells.now) out.old result }
    ensures request_is_read_back { IfOk result (ReadsAs (attributes_of vocabulary.now) cells.now out.new) }
{
    let len = checked_len(vocabulary, cells, out.len())?;
    write_cells(vocabulary, cells, out);
    Ok(len)
}
