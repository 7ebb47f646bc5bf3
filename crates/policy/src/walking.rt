//! Walking through a policy sheet, for one list of cells.
ghost use Rattle.std.specs.Prelude.{◌≡◌, ◌<◌, ◌&&◌, ◌||◌, length, replicate, None, Ok, IfOk, nat_le, nat_lt};
ghost use Rattle.refusal.specs.Answers.{answer_by, given};
ghost use Rattle.fields.specs.Parts.{itself};
ghost use Rattle.fields.specs.Shown.{bare, said};
ghost use Rattle.fields.specs.Ways.{way_number};
ghost use Rattle.vocabulary.specs.Vocabulary.{names_of, place};
ghost use Rattle.vocabulary.specs.Lookup.{attribute_at};
ghost use Rattle.vocabulary.specs.Record.{attributes_of};
ghost use Rattle.policy.specs.Sheets.{between, choice_cells, range_cells, sheet_meaning};
ghost use Rattle.policy.specs.Walking.{was_met, all_met, may_follow, closed as closed_by, open_rule as opened, enter as enter_of, step as step_of, finish as finish_of};
ghost use Rattle.policy.specs.Tallies.{tally_of};
ghost use Rattle.policy.specs.Walks.{seen_in, state_in, decided_by, checked_by, nothing, among, meets, missed, noting};

use crate::tally::Tally;
use crate::walk::{Judging, Seen, State, Walk};
use algebra::Algebra;
use fields::sheet::Fields;
use fields::way::Way;
use fields::words::number;
use fields::{Field, RawField};
use refusal::{Cause, Refusal};
use short_list::ShortList;
use vocabulary::record::{CellList, Vocabulary};

/// The cell was named before, or is now.
fn meets_now(before: Option<bool>, met: bool) -> bool
    ensures { result ≡ (was_met before || met) }
{
    before.unwrap_or(false) || met
}

/// The attribute is named, and its cell is not.
fn is_missed(seen: Option<bool>) -> bool
    ensures { result ≡ missed seen }
{
    seen == Some(false)
}

impl Seen {
    /// No condition is read yet.
    fn none(vocabulary: &Vocabulary) -> Seen
        ensures { seen_in result ≡ replicate (length (attributes_of vocabulary.now)) None }
    {
        Seen {
            met: ShortList::repeat(None, vocabulary.len()),
        }
    }

    /// A condition on attribute `i` names the cell, or it does not; past the attributes nothing is noted.
    fn note(&mut self, i: usize, met: bool)
        ensures { seen_in self.new ≡ meets (seen_in self.old) i met }
    {
        if let Some(before) = self.met.as_slice().get(i).copied() {
            self.met.set(i, Some(meets_now(before, met)));
        }
    }

    /// Every attribute that is named has its cell named.
    fn all_met(&self) -> bool
        ensures { result ≡ all_met (seen_in self.now) }
    {
        self.met.as_slice().iter().all(|seen| !is_missed(*seen))
    }
}

impl Judging {
    /// What the rules come to with the one that is being read.
    fn close<A: Algebra>(&self, algebra: &A) -> Tally
        ensures { tally_of result ≡ closed_by (A.tables algebra.now) (way_number self.now.way) (tally_of self.now.tally) self.now.decision (seen_in self.now.seen) }
    {
        let mut tally = self.tally;
        if self.seen.all_met() {
            tally.add(algebra, self.way, self.decision);
        }
        tally
    }

    /// A further condition, on attribute `i`, which names the cell or does not.
    fn note(mut self, raw: &RawField, i: usize, met: Option<bool>) -> Result<State, Refusal>
        ensures { answer_by state_in result ≡ noting raw.now.at self i met }
    {
        let met = met.ok_or(raw.refused(Cause::ForeignValue))?;
        self.seen.note(i, met);
        Ok(State::Ruled(self))
    }
}

/// Whether a value of attribute `i` is the cell.
fn is_chosen(vocabulary: &Vocabulary, i: usize, value: &[u8], cell: u8) -> Option<bool>
    ensures { result ≡ among cell (choice_cells (attribute_at (attributes_of vocabulary.now) i).kind value.now) }
{
    vocabulary.value_cell(i, value).map(|chosen| chosen == cell)
}

/// Whether the cell lies from one up to, not including, another.
fn is_from(low: u8, high: u8, cell: u8) -> bool
    ensures { result ≡ (nat_le low cell && nat_lt cell high) }
{
    (low..high).contains(&cell)
}

/// Whether the cell lies from one cut up to another, if these are in order.
fn lies_between(low: Option<u8>, high: Option<u8>, cell: u8) -> Option<bool>
    ensures { result ≡ among cell (between low high) }
{
    let (low, high) = (low?, high?);
    (low < high).then_some(is_from(low, high, cell))
}

/// Whether the cell lies from one cut of attribute `i` up to another.
fn is_in_range(vocabulary: &Vocabulary, i: usize, from: i32, to: i32, cell: u8) -> Option<bool>
    ensures { result ≡ among cell (range_cells (attribute_at (attributes_of vocabulary.now) i).kind from to) }
{
    lies_between(vocabulary.cut(i, from), vocabulary.cut(i, to), cell)
}

impl State {
    /// Whether a field of this tag may come next.
    fn may_precede(&self, tag: u8) -> bool
        ensures { result ≡ may_follow (state_in self.now) tag }
    {
        matches!(
            (*self, tag),
            (State::Begun, 0x1F) | (State::Headed(_), 0x20) | (State::Ruled(_), 0x20..=0x22)
        )
    }
}

impl<A: Algebra> Walk<'_, A> {
    /// Where the attribute of this name stands.
    fn attribute(&self, raw: &RawField, name: &[u8]) -> Result<usize, Refusal>
        ensures place_of_the_name { answer_by itself result ≡ given (place name.now (names_of (attributes_of self.now.vocabulary.now))) 23 raw.now.at (λ i. Ok i) }
        ensures has_a_cell { IfOk result (λ i. i < length self.now.cells.now) }
    {
        self.vocabulary
            .find(name)
            .ok_or(raw.refused(Cause::UnknownAttribute))
    }

    /// A further rule, after those in the tally.
    fn open_rule(
        &self,
        raw: &RawField,
        way: Way,
        tally: Tally,
        decision: u8,
    ) -> Result<State, Refusal>
        ensures { answer_by state_in result ≡ opened (length (attributes_of self.now.vocabulary.now)) (A.tables self.now.algebra.now).size raw.now.at (way_number way) (tally_of tally) decision }
    {
        if decision == 0 || decision >= self.algebra.size() {
            return Err(raw.refused(Cause::BadContent));
        }
        let seen = Seen::none(self.vocabulary);
        Ok(State::Ruled(Judging {
            way,
            tally,
            decision,
            seen,
        }))
    }

    /// What a field says is entered.
    fn enter(&self, state: State, raw: &RawField, field: Field) -> Result<State, Refusal>
        ensures { answer_by state_in result ≡ enter_of (A.tables self.now.algebra.now) (attributes_of self.now.vocabulary.now) self.now.cells.now raw.now.at (state_in state) (said field.entry) }
    {
        match (field, state) {
            (Field::Way(way), State::Begun) => Ok(State::Headed(way)),
            (Field::Rule(decision), State::Headed(way)) => {
                self.open_rule(raw, way, Tally::new(), decision)
            }
            (Field::Rule(decision), State::Ruled(rule)) => {
                self.open_rule(raw, rule.way, rule.close(self.algebra), decision)
            }
            (Field::Choice(name, value), State::Ruled(rule)) => {
                let i = self.attribute(raw, name)?;
                rule.note(raw, i, is_chosen(self.vocabulary, i, value, self.cells[i]))
            }
            (Field::Range(name, from, to), State::Ruled(rule)) => {
                let i = self.attribute(raw, name)?;
                rule.note(
                    raw,
                    i,
                    is_in_range(self.vocabulary, i, number(from), number(to), self.cells[i]),
                )
            }
            _ => Err(raw.refused(Cause::UnexpectedTag)),
        }
    }

    /// One field: whether its tag may follow depends on what came before.
    fn step(&self, state: State, raw: &RawField) -> Result<State, Refusal>
        ensures { answer_by state_in result ≡ step_of (A.tables self.now.algebra.now) (attributes_of self.now.vocabulary.now) self.now.cells.now raw.now.at (state_in state) (bare raw.now) }
    {
        if state.may_precede(raw.tag) {
            self.enter(state, raw, raw.field()?)
        } else {
            Err(raw.refused(Cause::UnexpectedTag))
        }
    }

    /// The decision once the sheet has ended.
    fn finish(&self, state: State, end: usize) -> Result<u8, Refusal>
        ensures { answer_by itself result ≡ finish_of (A.tables self.now.algebra.now) end (state_in state) }
    {
        match state {
            State::Begun => Err(Refusal {
                cause: Cause::Truncated,
                place: end,
            }),
            State::Headed(way) => Ok(Tally::new().decision(self.algebra, way)),
            State::Ruled(rule) => Ok(rule.close(self.algebra).decision(self.algebra, rule.way)),
        }
    }

    /// What the rules of a policy sheet decide at the cells.
    fn decide(&self, sheet: &[u8]) -> Result<u8, Refusal>
        ensures { answer_by itself result ≡ decided_by (A.tables self.now.algebra.now) (attributes_of self.now.vocabulary.now) self.now.cells.now sheet.now }
    {
        let fields = Fields::of_sheet(sheet)?;
        let mut state = State::Begun;
        for raw in fields {
            let raw = raw?;
            state = self.step(state, &raw)?;
        }
        self.finish(state, sheet.len())
    }
}

/// What the rules of a policy sheet decide at a grid number; 0 beyond the grid and for a refused sheet.
pub fn decide_number<A: Algebra>(
    algebra: &A,
    vocabulary: &Vocabulary,
    sheet: &[u8],
    number: usize,
) -> u8
    ensures { result ≡ (sheet_meaning (A.tables algebra.now) (attributes_of vocabulary.now) sheet.now).decision number }
{
    let shape = vocabulary.shape();
    let Some(cells) = shape.cells(number) else {
        return 0;
    };
    let walk = Walk {
        algebra,
        vocabulary,
        cells: cells.as_slice(),
    };
    walk.decide(sheet).unwrap_or(0)
}

/// Whether a sheet describes a policy, or why it is refused.
pub fn check<A: Algebra>(algebra: &A, vocabulary: &Vocabulary, sheet: &[u8]) -> Result<(), Refusal>
    ensures { answer_by nothing result ≡ checked_by (A.tables algebra.now).size (attributes_of vocabulary.now) sheet.now }
{
    let anywhere: CellList = ShortList::repeat(0, vocabulary.len());
    let walk = Walk {
        algebra,
        vocabulary,
        cells: anywhere.as_slice(),
    };
    walk.decide(sheet)?;
    Ok(())
}
