//! The building walk: a loop that builds the page of a place in node records, with frames on a stack.
#![tactic(auto)]

ghost use Rattle.std.specs.Prelude.{◌≡◌, ℕ, ◌<◌, ◌≤◌, List, length, slice_index};
ghost use Rattle.vocabulary.specs.Grid.{Filled, Narrow};
ghost use Rattle.marking.specs.Marks.{Marked};
ghost use Rattle.diagram.specs.Sound.{Sound};
ghost use Rattle.places.specs.Places.{FillTheGrid, KeepWhileMemoryGrows};
ghost use Rattle.table.specs.Built.{Built};
ghost use Rattle.table.specs.Made.{LiveStays};
ghost use Rattle.building.specs.Work.{frames, work_left};
ghost use Rattle.building.specs.Walk.{fresh, Aim, Underway};

use diagram::{Link, Node};
use marking::Marking;
use places::{Level, Places, Seen};
use stack::Stack;
use table::reduce;

/// A place whose cells are built one after the other, with the branches of the cells before `cell`.
#[derive(Clone, Copy)]
pub struct Frame<T> {
    pub place: T,
    pub level: u8,
    pub cell: u8,
    pub branches: [Link; 16],
}

/// What the walk does next: open a place at a level, hand a link to the newest frame, or end with an answer.
#[derive(Clone, Copy)]
enum Turn<T> {
    Open(u8, T),
    Hand(Link),
    End(Option<Link>),
}

impl<T: Copy> Frame<T> {
    /// A frame at the first cell, with blank branches.
    pub fn new(place: T, level: u8) -> Frame<T>
        ensures { result ≡ fresh place level }
    {
        Frame {
            place,
            level,
            cell: 0,
            branches: [Link::Decision(0); 16],
        }
    }
}

/// Opens a place: its link at once, or a frame for it and the place in its first cell.
fn down<P: Places>(
    places: &mut P,
    nodes: &[Node],
    counts: &[u8],
    stack: &mut Stack<Frame<P::Place>>,
    level: u8,
    place: P::Place,
) -> Turn<P::Place>
    requires at_most_eight_attributes { length counts.now ≤ 8 }
    requires one_slot_an_attribute { length counts.now ≤ length stack.old.slots.now }
    ensures same_slots { stack.new.slots.ghost_name ≡ stack.old.slots.ghost_name }
    ensures as_many_slots { length stack.new.slots.now ≡ length stack.old.slots.now }
    ensures keeps_what_was_kept { (first : P) → P.Places.kept first places.old → P.Places.kept first places.new }
    ensures less_is_left { work_left counts.now (frames stack.new.slots.now stack.new.len) result < work_left counts.now (frames stack.old.slots.now stack.old.len) (Turn.Open level place) }
    ensures walk_goes_on { (aim : Aim) (marks : List ℕ) → Underway (P.Places.stands places.old) (P.Places.says places.old) counts.now aim nodes.now marks (frames stack.old.slots.now stack.old.len) (Turn.Open level place) → Underway (P.Places.stands places.new) (P.Places.says places.new) counts.now aim nodes.now marks (frames stack.new.slots.now stack.new.len) result }
{
    let here = Level {
        nodes,
        counts,
        number: level,
    };
    match places.look(&here, place) {
        Seen::Settled(link) => Turn::Hand(link),
        Seen::Branches(at) => {
            let first = places.child(&Level { number: at, ..here }, place, 0);
            stack
                .push(Frame::new(place, at))
                .map_or(Turn::End(None), |()| Turn::Open(at + 1, first))
        }
    }
}

/// Hands a link to the newest frame, which then goes on with its next cell, or is reduced to a link itself.
fn up<P: Places>(
    places: &P,
    nodes: &mut [Node],
    marking: &mut Marking,
    counts: &[u8],
    stack: &mut Stack<Frame<P::Place>>,
    link: Link,
) -> Turn<P::Place>
    requires one_byte_a_record { length marking.old.bytes.now ≡ length nodes.old }
    requires at_most_2048_records { length nodes.old ≤ 2048 }
    requires narrow { Narrow counts.now }
    requires at_most_eight_attributes { length counts.now ≤ 8 }
    ensures same_slots { stack.new.slots.ghost_name ≡ stack.old.slots.ghost_name }
    ensures as_many_slots { length stack.new.slots.now ≡ length stack.old.slots.now }
    ensures same_bytes { marking.new.bytes.ghost_name ≡ marking.old.bytes.ghost_name }
    ensures live_stays { LiveStays nodes.old marking.old.bytes.now nodes.new marking.new.bytes.now }
    ensures less_is_left { work_left counts.now (frames stack.new.slots.now stack.new.len) result < work_left counts.now (frames stack.old.slots.now stack.old.len) (Turn.Hand link) }
    ensures walk_goes_on { (aim : Aim) → Underway (P.Places.stands places.now) (P.Places.says places.now) counts.now aim nodes.old marking.old.bytes.now (frames stack.old.slots.now stack.old.len) (Turn.Hand link) → Underway (P.Places.stands places.now) (P.Places.says places.now) counts.now aim nodes.new marking.new.bytes.now (frames stack.new.slots.now stack.new.len) result }
{
    let Some(frame) = stack.pop() else {
        return Turn::End(Some(link));
    };
    let level = Level {
        nodes,
        counts,
        number: frame.level,
    };
    let n = level.cells();
    if frame.cell >= n {
        return Turn::End(None);
    }
    let mut branches = frame.branches;
    branches[frame.cell as usize] = link;
    let cell = frame.cell + 1;
    if cell < n {
        let place = places.child(&level, frame.place, cell);
        let next = Frame {
            cell,
            branches,
            ..frame
        };
        return stack
            .push(next)
            .map_or(Turn::End(None), |()| Turn::Open(frame.level + 1, place));
    }
    reduce(nodes, marking, frame.level, n, branches).map_or(
        Turn::End(None),
        |whole| Turn::Hand(whole),
    )
}

/// Builds the page of a place: its link, or nothing where a record is lacking.
pub fn build<P: Places>(
    places: &mut P,
    nodes: &mut [Node],
    marking: &mut Marking,
    counts: &[u8],
    slots: &mut [Frame<P::Place>],
    start: P::Place,
) -> Option<Link>
    requires one_byte_a_record { length marking.old.bytes.now ≡ length nodes.old }
    requires at_most_2048_records { length nodes.old ≤ 2048 }
    requires narrow { Narrow counts.now }
    requires at_most_eight_attributes { length counts.now ≤ 8 }
    requires one_slot_an_attribute { length counts.now ≤ length slots.old }
    ensures same_bytes { marking.new.bytes.ghost_name ≡ marking.old.bytes.ghost_name }
    ensures live_stays { LiveStays nodes.old marking.old.bytes.now nodes.new marking.new.bytes.now }
    ensures keeps_what_was_kept { (first : P) → P.Places.kept first places.old → P.Places.kept first places.new }
    ensures builds_the_page { (k : ℕ) → Filled counts.now → Sound k counts.now nodes.old (Marked marking.old.bytes.now) → KeepWhileMemoryGrows (P.Places.stands places.old) (P.Places.says places.old) k counts.now → FillTheGrid (P.Places.stands places.old) (P.Places.says places.old) k counts.now → P.Places.stands places.old k counts.now nodes.old marking.old.bytes.now 0 start → Built k counts.now nodes.old (Marked marking.old.bytes.now) nodes.new (Marked marking.new.bytes.now) 0 (P.Places.says places.old counts.now nodes.old 0 start) result }
{
    let mut stack = Stack::new(slots);
    let mut turn = Turn::Open(0, start);
    'turns: loop {
        match turn {
            Turn::Open(level, place) => {
                turn = down(places, nodes, counts, &mut stack, level, place);
            }
            Turn::Hand(link) => turn = up(places, nodes, marking, counts, &mut stack, link),
            Turn::End(answer) => return answer,
        }
    }
}
