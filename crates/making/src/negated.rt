//! Links under negation.
ghost use Rattle.std.specs.Prelude.{◌≡◌};
ghost use Rattle.making.specs.Negations.{negation_stands, negation_says};

use crate::levels::branches_within;
use algebra::Algebra;
use diagram::Link;
use diagram::asking::{level_of, next};
use places::{Level, Places, Seen};

/// The links whose pages are negated in an algebra.
#[derive(Drop)]
pub struct Negated<'a, A> {
    pub algebra: &'a A,
}

impl<'a, A: Algebra> Places for Negated<'a, A> {
    type Place = Link;

    ghost stands = { λ s. negation_stands (A.Algebra.tables s.algebra.now) };

    ghost says = { λ s. negation_says (A.Algebra.tables s.algebra.now) };

    ghost kept = { λ first last. last ≡ first };

    fn look(&mut self, level: &Level, place: Link) -> Seen {
        match place {
            Link::Decision(d) => Seen::Settled(Link::Decision(self.algebra.negation(d))),
            Link::Record(r) => branches_within(level, level_of(level.nodes, r)),
        }
    }

    fn child(&self, level: &Level, place: Link, cell: u8) -> Link {
        next(level.nodes, level.number as usize, place, cell)
    }
}
