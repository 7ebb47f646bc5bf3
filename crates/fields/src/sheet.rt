//! A sheet, field by field.
ghost use Rattle.std.specs.Prelude.{◌-◌, length};
ghost use Rattle.std.specs.Iterator.{at_most};
ghost use Rattle.fields.specs.Sheet.{StandsAt, NextField, OpensSheet};

use crate::RawField;
use crate::raw::next_field;
use refusal::{Cause, Refusal};

/// The longest sheet, in bytes.
pub const LONGEST_SHEET: usize = 65535;

/// The fields from a place of some bytes on, one after the other; after a refusal there are none.
#[derive(Drop)]
pub struct Fields<'a> {
    bytes: &'a [u8],
    at: usize,
}

impl<'a> Fields<'a> {
    /// The fields from a place on.
    pub fn from_place(bytes: &'a [u8], at: usize) -> Fields<'a>
        ensures { StandsAt bytes.now at result }
    {
        Fields { bytes, at }
    }

    /// The fields of a sheet, which has at most 65,535 bytes.
    pub fn of_sheet(sheet: &'a [u8]) -> Result<Fields<'a>, Refusal>
        ensures { OpensSheet sheet.now result }
    {
        if sheet.len() > LONGEST_SHEET {
            return Err(Refusal {
                cause: Cause::SheetTooLong,
                place: 0,
            });
        }
        Ok(Fields::from_place(sheet, 0))
    }
}

impl<'a> Iterator for Fields<'a> {
    type Item = Result<RawField<'a>, Refusal>;

    ghost next_gives = { NextField };

    ghost remaining = { λ s. at_most (length s.bytes.now - s.at) };

    fn next(&mut self) -> Option<Result<RawField<'a>, Refusal>> {
        if self.at >= self.bytes.len() {
            return None;
        }
        let field = next_field(self.bytes, self.at);
        self.at = field.map_or(self.bytes.len(), |raw| raw.next);
        Some(field)
    }
}
