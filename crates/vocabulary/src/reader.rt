//! Reading a vocabulary: a step for each field.
ghost use Rattle.std.specs.Prelude.{◌≡◌, ℕ, ◌+◌, ◌-◌, ◌*◌, ◌/◌, ◌<◌, ◌≤◌, List, [], ◌∷◌, ◌++◌, map, length};
ghost use Rattle.short_list.specs.Items.{items_of};
ghost use Rattle.fields.specs.Words.{numbers_of};
ghost use Rattle.fields.specs.Shown.{bare, said, EndsWithin, PartsFit};
ghost use Rattle.vocabulary.specs.Vocabulary.{start, whole_so_far, open_attribute, add_value, in_grid, enter as enter_of, step as step_of, bounded};
ghost use Rattle.vocabulary.specs.Counted.{cells_in};
ghost use Rattle.vocabulary.specs.Parts.{name_at, names_in, cuts_in, attribute_in, attributes_in, progress, Stepped, NamedBy};
ghost use Rattle.vocabulary.specs.Joined.{joined, RoomFor};

use crate::attributes::{Attributes, Reader};
use crate::names::find;
use crate::parts::{Attribute, Cuts, Kind, Names, Span, State};
use fields::words::number;
use fields::{Field, RawField};
use refusal::{Cause, Refusal};
use short_list::ShortList;

/// The cuts that stand one after the other in `bytes`.
fn read_cuts(bytes: &[u8]) -> Cuts
    requires { length bytes.now / 4 ≤ 17 }
    ensures { cuts_in result ≡ numbers_of bytes.now }
{
    let mut cuts = ShortList::new(0);
    let (numbers, _) = bytes.as_chunks::<4>();
    for four in numbers {
        cuts.add(number(four));
    }
    cuts
}

impl Attributes {
    pub(crate) fn none() -> Attributes
        ensures { items_of result.items ≡ [] }
    {
        let blank = Attribute {
            name: Span::EMPTY,
            kind: Kind::Valued(ShortList::new(Span::EMPTY)),
        };
        Attributes {
            items: ShortList::new(blank),
            size: 1,
        }
    }

    fn push(&mut self, attribute: Attribute)
        requires room_for_an_attribute { length (items_of self.old.items) < 8 }
        requires grid_still_fits { self.old.size * cells_in attribute.kind ≤ 4096 }
        ensures { items_of self.new.items ≡ items_of self.old.items ++ attribute ∷ [] }
    {
        self.items.add(attribute);
        self.size *= attribute.kind.cells();
    }

    /// Adds an attribute, if there is one.
    fn join(&mut self, attribute: Option<Attribute>)
        requires { RoomFor self.old attribute }
        ensures { items_of self.new.items ≡ joined (items_of self.old.items) attribute }
    {
        if let Some(attribute) = attribute {
            self.push(attribute);
        }
    }
}

impl<'a> Reader<'a> {
    /// Before the first field.
    pub(crate) fn new(sheet: &'a [u8]) -> Reader<'a>
        requires { length sheet.now ≤ 65535 }
        ensures reads_the_sheet { result.sheet.now ≡ sheet.now }
        ensures starts { progress result ≡ start }
    {
        Reader {
            sheet,
            whole: Attributes::none(),
            state: State::Start,
        }
    }

    /// The attribute that is being read, if it has cells.
    fn last(&self) -> Option<Attribute>
        ensures joins_those_that_are_whole { map (attribute_in self.now.sheet.now) (joined (items_of self.now.whole.items) result) ≡ whole_so_far (progress self.now) }
        ensures there_is_room_for_it { RoomFor self.now.whole result }
    {
        match self.state {
            State::Start | State::Opened(_) => None,
            State::Listing(name, names) => Some(Attribute {
                name,
                kind: Kind::Valued(names),
            }),
            State::Bounded(name, cuts) => Some(Attribute {
                name,
                kind: Kind::Ranged(cuts),
            }),
        }
    }

    /// The attributes that are whole, with the one that is being read if it has cells.
    pub(crate) fn closed(&self) -> Attributes
        ensures { attributes_in self.now.sheet.now result ≡ whole_so_far (progress self.now) }
    {
        let mut whole = self.whole;
        whole.join(self.last());
        whole
    }

    /// A further attribute.
    fn open(&mut self, raw: &RawField, name: &[u8]) -> Result<(), Refusal>
        requires { NamedBy self.old.sheet.now raw.now name.now }
        ensures { Stepped self.old.sheet.now (open_attribute raw.now.at (whole_so_far (progress self.old)) name.now) result self.new }
    {
        let last = self.last();
        if self.whole.items.len() + usize::from(last.is_some()) >= 8 {
            return Err(raw.refused(Cause::TooMany));
        }
        self.whole.join(last);
        self.state = State::Opened(span_of(raw));
        if self.whole.find(self.sheet, name).is_some() {
            return Err(raw.refused(Cause::RepeatedName));
        }
        Ok(())
    }

    /// A further value of the attribute `name`, after those in `names`.
    fn add_value(
        &mut self,
        raw: &RawField,
        name: Span,
        names: Names,
        value: &[u8],
    ) -> Result<(), Refusal>
        requires room_for_an_attribute { length (items_of self.old.whole.items) < 8 }
        requires named_by { NamedBy self.old.sheet.now raw.now value.now }
        ensures { Stepped self.old.sheet.now (add_value raw.now.at (attributes_in self.old.sheet.now self.old.whole) (name_at self.old.sheet.now name) (names_in self.old.sheet.now names) value.now) result self.new }
    {
        if names.len() >= 16 {
            return Err(raw.refused(Cause::TooMany));
        }
        if find(self.sheet, names.as_slice(), value).is_some() {
            return Err(raw.refused(Cause::RepeatedName));
        }
        if self.whole.size * (names.len() + 1) > 4096 {
            return Err(raw.refused(Cause::GridTooLarge));
        }
        let mut names = names;
        names.add(span_of(raw));
        self.state = State::Listing(name, names);
        Ok(())
    }

    /// The cuts of the attribute `name`.
    fn add_cuts(&mut self, raw: &RawField, name: Span, numbers: &[u8]) -> Result<(), Refusal>
        requires room_for_an_attribute { length (items_of self.old.whole.items) < 8 }
        requires at_most_17_cuts { length numbers.now / 4 ≤ 17 }
        ensures { Stepped self.old.sheet.now (in_grid raw.now.at (attributes_in self.old.sheet.now self.old.whole) (length (numbers_of numbers.now) - 1) (bounded (attributes_in self.old.sheet.now self.old.whole) (name_at self.old.sheet.now name) (numbers_of numbers.now))) result self.new }
    {
        let cuts = read_cuts(numbers);
        if self.whole.size * cuts.len().saturating_sub(1) > 4096 {
            return Err(raw.refused(Cause::GridTooLarge));
        }
        self.state = State::Bounded(name, cuts);
        Ok(())
    }

    /// What a field says is entered.
    fn enter(&mut self, raw: &RawField, field: Field) -> Result<(), Refusal>
        requires ends_within { EndsWithin self.old.sheet.now raw.now.at raw.now }
        requires parts_fit { PartsFit raw.now.content.now field }
        ensures { Stepped self.old.sheet.now (enter_of raw.now.at (progress self.old) (said field.entry)) result self.new }
    {
        match (field, self.state) {
            (Field::Attribute(name), _) => self.open(raw, name),
            (Field::Value(value), State::Opened(name)) => {
                self.add_value(raw, name, ShortList::new(Span::EMPTY), value)
            }
            (Field::Value(value), State::Listing(name, names)) => {
                self.add_value(raw, name, names, value)
            }
            (Field::Cuts(numbers), State::Opened(name)) => self.add_cuts(raw, name, numbers),
            _ => Err(raw.refused(Cause::UnexpectedTag)),
        }
    }

    /// One field: whether its tag may follow depends on what came before.
    pub(crate) fn step(&mut self, raw: &RawField) -> Result<(), Refusal>
        requires { EndsWithin self.old.sheet.now raw.now.at raw.now }
        ensures { Stepped self.old.sheet.now (step_of raw.now.at (progress self.old) (bare raw.now)) result self.new }
    {
        match (self.state, raw.tag) {
            (State::Start | State::Listing(_, _) | State::Bounded(_, _), 0x10)
            | (State::Opened(_) | State::Listing(_, _), 0x11)
            | (State::Opened(_), 0x12) => self.enter(raw, raw.field()?),
            _ => Err(raw.refused(Cause::UnexpectedTag)),
        }
    }
}

/// Where the name stands that is a field's whole content.
fn span_of(raw: &RawField) -> Span
    requires { raw.now.at + 3 + length raw.now.content.now ≤ 65535 }
    ensures begins_behind_the_head { result.from ≡ raw.now.at + 3 }
    ensures as_long_as_the_content { result.len ≡ length raw.now.content.now }
{
    Span {
        from: (raw.at + 3) as u16,
        len: raw.content.len() as u16,
    }
}
