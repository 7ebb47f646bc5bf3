//! Refusals: what is wrong with an input or a call, where, and in which layer.
#![tactic(auto)]

ghost use Rattle.std.specs.Prelude.{◌≡◌};
ghost use Rattle.refusal.specs.Numbers.{number_of, layer_of, layer_number};

use std::error::Error;
use std::fmt;

/// What is wrong, by its number.
#[derive(Clone, Copy, PartialEq, Eq, Debug)]
pub enum Cause {
    Truncated = 10,
    UnexpectedTag = 11,
    BadLength = 12,
    BadContent = 13,
    SheetTooLong = 14,
    TooMany = 20,
    GridTooLarge = 21,
    RepeatedName = 22,
    UnknownAttribute = 23,
    ForeignValue = 24,
    RepeatedAttribute = 25,
    MissingAttribute = 26,
    UnexpectedText = 30,
    TooManyOpen = 31,
    TextTooLong = 33,
    NoSuchMark = 40,
    TargetTaken = 41,
    OperandVacant = 42,
    NoSuchCode = 43,
    CapacityLacking = 44,
    MemoryTooShort = 45,
    TooManyRecords = 46,
    Mismatch = 47,
}

/// The part of the library that refuses, by its number.
#[derive(Clone, Copy, PartialEq, Eq, Debug)]
pub enum Layer {
    Fields = 1,
    Words = 2,
    Text = 3,
    Collection = 4,
}

/// A cause is shown by the sentence that explains it.
impl fmt::Display for Cause {
    fn fmt<W: fmt::Write>(&self, f: &mut fmt::Formatter<W>) -> fmt::Result {
        f.write_str(self.sentence())
    }
}

/// A cause with its place: a byte of the input, or 0.
#[derive(Clone, Copy, PartialEq, Eq, Debug)]
pub struct Refusal {
    pub cause: Cause,
    pub place: usize,
}

/// A refusal is shown by its number, its place and the sentence.
impl fmt::Display for Refusal {
    fn fmt<W: fmt::Write>(&self, f: &mut fmt::Formatter<W>) -> fmt::Result {
        let Refusal { cause, place } = *self;
        write!(f, "refused {} {place}: {cause}", cause.number())
    }
}

impl Error for Refusal {}

impl Cause {
    /// The number of this cause.
    pub fn number(self) -> u8
        ensures { result ≡ number_of self }
    {
        self as u8
    }

    /// The layer of this cause: the tens of its number.
    pub fn layer(self) -> Layer
        ensures { layer_number result ≡ layer_of (number_of self) }
    {
        match self.number() / 10 {
            1 => Layer::Fields,
            2 => Layer::Words,
            3 => Layer::Text,
            _ => Layer::Collection,
        }
    }

    fn sentence(self) -> &'static str {
        match self {
            Cause::Truncated => "the bytes end inside a field or before the sheet may end",
            Cause::UnexpectedTag => "this tag is unknown or may not stand here",
            Cause::BadLength => "this length is not allowed",
            Cause::BadContent => "this content is not well formed",
            Cause::SheetTooLong => "the sheet is over 65535 bytes",
            Cause::TooMany => "this is a ninth attribute or a seventeenth value",
            Cause::GridTooLarge => "with this field the grid is over 4096",
            Cause::RepeatedName => "this name was given before",
            Cause::UnknownAttribute => "the vocabulary has no such attribute",
            Cause::ForeignValue => "the attribute has no such value, cut, number or range",
            Cause::RepeatedAttribute => "this attribute was given before",
            Cause::MissingAttribute => "an attribute is missing",
            Cause::UnexpectedText => "the text cannot go on like this",
            Cause::TooManyOpen => "this is a seventeenth open sign",
            Cause::TextTooLong => "the text is over 1024 bytes",
            Cause::NoSuchMark => "marks go up to 47",
            Cause::TargetTaken => "a policy stands at the target",
            Cause::OperandVacant => "no policy stands at an operand",
            Cause::NoSuchCode => "the algebra has no such code",
            Cause::CapacityLacking => "the policies have more parts than there are records",
            Cause::MemoryTooShort => "the memory handed over is too short",
            Cause::TooManyRecords => "there are over 2048 records",
            Cause::Mismatch => "shape, size or number of masks is not the collection's",
        }
    }
}

impl Refusal {
    /// The number of the cause.
    pub fn number(&self) -> u8
        ensures { result ≡ number_of self.now.cause }
    {
        self.cause.number()
    }

    /// The layer that refuses.
    pub fn layer(&self) -> Layer
        ensures { layer_number result ≡ layer_of (number_of self.now.cause) }
    {
        self.cause.layer()
    }
}
