//! The grid numbers of a source.
ghost use Rattle.std.specs.Prelude.{◌≡◌, ℕ, ◌+◌, ◌*◌, ◌^◌, ◌<◌};
ghost use Rattle.making.specs.Spans.{span_stands, span_says};

use diagram::Link;
use places::{Level, Places, Seen};
use policy::source::Source;

/// The grid numbers of a part: the first one, and how many there are.
#[derive(Clone, Copy)]
pub struct Span {
    pub first: u32,
    pub count: u32,
}

/// The parts of what a source means.
#[derive(Drop)]
pub struct Sourced<'a, S> {
    pub source: &'a mut S,
}

/// How many of the grid numbers one cell has, where the attribute has cells.
fn share(count: u32, cells: u8) -> u32
    ensures { (each : ℕ) → 0 < cells → count ≡ cells * each → result ≡ each }
{
    count.checked_div(u32::from(cells)).unwrap_or(0)
}

/// The grid number so many cells further on; 0 where a number cannot be so large.
fn along(first: u32, cell: u8, each: u32) -> u32
    requires { cell < 16 }
    ensures { first + cell * each < 2 ^ 32 → result ≡ first + cell * each }
{
    u32::from(cell)
        .checked_mul(each)
        .and_then(|further| first.checked_add(further))
        .unwrap_or(0)
}

impl<'a, S: Source> Places for Sourced<'a, S> {
    type Place = Span;

    ghost stands = { λ s. span_stands (S.Source.meaning s.source.now) };

    ghost says = { λ s. span_says (S.Source.meaning s.source.now) };

    ghost kept = { λ first last. (last.source.ghost_name ≡ first.source.ghost_name) × (S.Source.meaning last.source.now ≡ S.Source.meaning first.source.now) };

    fn look(&mut self, level: &Level, place: Span) -> Seen {
        if (level.number as usize) < level.counts.len() {
            Seen::Branches(level.number)
        } else {
            Seen::Settled(Link::Decision(self.source.consult(place.first as usize)))
        }
    }

    fn child(&self, level: &Level, place: Span, cell: u8) -> Span {
        let count = share(place.count, level.cells());
        let first = along(place.first, cell, count);
        Span { first, count }
    }
}
