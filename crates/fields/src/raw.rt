//! Reading a field: first as it lies in the sheet, then what it says.
ghost use Rattle.std.specs.Prelude.{◌≡◌, ℕ, ◌+◌, ◌/◌, ◌≤◌, length, IfOk};
ghost use Rattle.refusal.specs.Answers.{answer_by};
ghost use Rattle.fields.specs.Fields.{field_at, name_in, cuts_in, byte_in, way_in, choice_said, range_said, measure_said, said_by, sides_in, between};
ghost use Rattle.fields.specs.Ways.{way_number};
ghost use Rattle.fields.specs.Shown.{said, bare, found, EndsWithin, PartsFit};
ghost use Rattle.fields.specs.Parts.{itself, list_now, numbers_now, both_now};

use crate::way::Way;
use crate::words::{is_name, is_rising, split_name};
use crate::{Field, RawField};
use refusal::{Cause, Refusal};

/// The field at `at`.
pub fn next_field<'a>(sheet: &'a [u8], at: usize) -> Result<RawField<'a>, Refusal>
    requires { at ≤ length sheet.now }
    ensures field_is_the_one_at_the_place { answer_by found result ≡ field_at sheet.now at }
    ensures field_ends_within { IfOk result (EndsWithin sheet.now at) }
{
    let truncated = Refusal {
        cause: Cause::Truncated,
        place: at,
    };
    let (head, rest) = sheet[at..].split_first_chunk::<3>().ok_or(truncated)?;
    let size = usize::from(u16::from_be_bytes([head[1], head[2]]));
    if rest.len() < size {
        return Err(truncated);
    }
    Ok(RawField {
        tag: head[0],
        content: &rest[..size],
        at,
        next: at + 3 + size,
    })
}

impl<'a> RawField<'a> {
    /// A refusal at the field's tag byte.
    pub fn refused(&self, cause: Cause) -> Refusal
        ensures { result ≡ record { cause = cause; place = self.now.at } }
    {
        Refusal {
            cause,
            place: self.at,
        }
    }

    fn is_between(&self, low: usize, high: usize) -> bool
        ensures { result ≡ between low high self.now.content.now }
    {
        (low..=high).contains(&self.content.len())
    }

    fn name(&self) -> Result<&'a [u8], Refusal>
        ensures name_is_checked { answer_by list_now result ≡ name_in self.now.at self.now.content.now }
        ensures name_is_the_content { IfOk result (λ n. n.now ≡ self.now.content.now) }
    {
        if !self.is_between(1, 16) {
            return Err(self.refused(Cause::BadLength));
        }
        if !is_name(self.content) {
            return Err(self.refused(Cause::BadContent));
        }
        Ok(self.content)
    }

    fn cuts(&self) -> Result<&'a [u8], Refusal>
        ensures cuts_are_checked { answer_by numbers_now result ≡ cuts_in self.now.at self.now.content.now }
        ensures cuts_are_the_content { IfOk result (λ n. (n.now ≡ self.now.content.now) × (length self.now.content.now / 4 ≤ 17)) }
    {
        let allowed = self.is_between(8, 68) && self.content.len() % 4 == 0;
        if !allowed {
            return Err(self.refused(Cause::BadLength));
        }
        if !is_rising(self.content) {
            return Err(self.refused(Cause::BadContent));
        }
        Ok(self.content)
    }

    fn byte(&self) -> Result<u8, Refusal>
        ensures { answer_by itself result ≡ byte_in self.now.at self.now.content.now }
    {
        match self.content {
            [byte] => Ok(*byte),
            _ => Err(self.refused(Cause::BadLength)),
        }
    }

    fn way(&self) -> Result<Way, Refusal>
        ensures { answer_by way_number result ≡ way_in self.now.at self.now.content.now }
    {
        Way::try_from(self.byte()?).or(Err(self.refused(Cause::BadContent)))
    }

    /// The two sides of the first `=`.
    fn sides(&self, low: usize, high: usize) -> Result<(&'a [u8], &'a [u8]), Refusal>
        ensures { answer_by both_now result ≡ sides_in self.now.at low high self.now.content.now }
    {
        if !self.is_between(low, high) {
            return Err(self.refused(Cause::BadLength));
        }
        split_name(self.content).ok_or(self.refused(Cause::BadContent))
    }

    fn choice(&self) -> Result<Field<'a>, Refusal>
        ensures says_what_is_laid_down { answer_by said result ≡ choice_said self.now.at self.now.content.now }
        ensures parts_fit { IfOk result (PartsFit self.now.content.now) }
    {
        let (attribute, value) = self.sides(3, 33)?;
        if !is_name(value) {
            return Err(self.refused(Cause::BadContent));
        }
        Ok(Field::Choice(attribute, value))
    }

    fn range(&self) -> Result<Field<'a>, Refusal>
        ensures says_what_is_laid_down { answer_by said result ≡ range_said self.now.at self.now.content.now }
        ensures parts_fit { IfOk result (PartsFit self.now.content.now) }
    {
        let (attribute, numbers) = self.sides(10, 25)?;
        match numbers.as_chunks() {
            ([from, to], []) => Ok(Field::Range(attribute, from, to)),
            _ => Err(self.refused(Cause::BadContent)),
        }
    }

    fn measure(&self) -> Result<Field<'a>, Refusal>
        ensures says_what_is_laid_down { answer_by said result ≡ measure_said self.now.at self.now.content.now }
        ensures parts_fit { IfOk result (PartsFit self.now.content.now) }
    {
        let (attribute, numbers) = self.sides(6, 21)?;
        match numbers.as_chunks() {
            ([number], []) => Ok(Field::Measure(attribute, number)),
            _ => Err(self.refused(Cause::BadContent)),
        }
    }

    /// What the field says.
    pub fn field(&self) -> Result<Field<'a>, Refusal>
        ensures says_what_is_laid_down { answer_by said result ≡ said_by self.now.at (bare self.now) }
        ensures parts_fit { IfOk result (PartsFit self.now.content.now) }
    {
        match self.tag {
            0x10 => Ok(Field::Attribute(self.name()?)),
            0x11 => Ok(Field::Value(self.name()?)),
            0x12 => Ok(Field::Cuts(self.cuts()?)),
            0x1F => Ok(Field::Way(self.way()?)),
            0x20 => Ok(Field::Rule(self.byte()?)),
            0x21 | 0x31 => self.choice(),
            0x22 => self.range(),
            0x32 => self.measure(),
            _ => Err(self.refused(Cause::UnexpectedTag)),
        }
    }
}
