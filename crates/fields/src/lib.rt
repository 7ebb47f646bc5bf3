//! The fields of a sheet: a tag byte, a length in two bytes with the high byte first, and the content.
#![tactic(auto)]

pub mod raw;
pub mod sheet;
pub mod way;
pub mod words;
pub mod write;

use crate::way::Way;

/// What a field says; its parts are borrowed from the sheet.
#[derive(Clone, Copy)]
pub enum Field<'a> {
    /// An attribute's name.
    Attribute(&'a [u8]),
    /// A value's name.
    Value(&'a [u8]),
    /// Rising numbers of four bytes each.
    Cuts(&'a [u8]),
    /// How the rules of a policy sheet are combined.
    Way(Way),
    /// The decision of a rule.
    Rule(u8),
    /// An attribute's name and a value's name.
    Choice(&'a [u8], &'a [u8]),
    /// An attribute's name and two numbers.
    Range(&'a [u8], &'a [u8; 4], &'a [u8; 4]),
    /// An attribute's name and a number.
    Measure(&'a [u8], &'a [u8; 4]),
}

/// A field as it lies in a sheet, at `at` and before `next`.
#[derive(Clone, Copy)]
pub struct RawField<'a> {
    pub tag: u8,
    pub content: &'a [u8],
    pub at: usize,
    pub next: usize,
}
