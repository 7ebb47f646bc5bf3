//! Pairs of links under an operator.
ghost use Rattle.std.specs.Prelude.{◌≡◌, ℕ, List, if◌then◌else◌};
ghost use Rattle.diagram.specs.declared.Link.TheVariants.{Decision};
ghost use Rattle.places.specs.Places.{SeenAs};
ghost use Rattle.making.specs.Pairs.{first_level, pair_stands, pair_says, SettledAs, SettledJustAtOnce};

use crate::levels::branches_within;
use crate::operator::Operator;
use algebra::Algebra;
use diagram::asking::{level_of, next};
use diagram::{Link, Node};
use places::{Level, Places, Seen};

/// Two links, of whose pages an operator makes one.
#[derive(Clone, Copy)]
pub struct Pair {
    pub left: Link,
    pub right: Link,
}

/// The pairs of links under an operator of an algebra.
#[derive(Drop)]
pub struct Pairs<'a, A> {
    pub algebra: &'a A,
    pub operator: Operator,
}

/// The link where it is kept, else not applicable.
fn kept(keep: bool, link: Link) -> Link
    ensures { result ≡ (if keep then link else Decision 0) }
{
    if keep { link } else { Link::Decision(0) }
}

/// The link of a pair that is settled at once, if it is.
fn settled<A: Algebra>(algebra: &A, operator: Operator, pair: Pair) -> Option<Link>
    ensures { SettledAs (A.Algebra.tables algebra.now) operator pair result }
{
    let Pair { left, right } = pair;
    if left == right {
        return Some(kept(operator.keeps_same(), left));
    }
    if left == Link::Decision(0) {
        return Some(kept(operator.keeps_right(), right));
    }
    if right == Link::Decision(0) {
        return Some(kept(operator.keeps_left(), left));
    }
    match (left, right) {
        (Link::Decision(a), Link::Decision(b)) => {
            Some(Link::Decision(operator.apply(algebra, a, b)))
        }
        _ => None,
    }
}

/// The first level at which a link of the pair has its record; 0 where none has one.
fn first_level(nodes: &[Node], pair: Pair) -> u8
    ensures { result ≡ first_level nodes.now pair.left pair.right }
{
    match (pair.left, pair.right) {
        (Link::Record(r), Link::Record(s)) => level_of(nodes, r).min(level_of(nodes, s)),
        (Link::Record(r), Link::Decision(_)) => level_of(nodes, r),
        (Link::Decision(_), Link::Record(s)) => level_of(nodes, s),
        (Link::Decision(_), Link::Decision(_)) => 0,
    }
}

impl<'a, A: Algebra> Pairs<'a, A> {
    /// What is seen of a pair at a level; on sound memory it is settled just where it is settled at once.
    pub fn see(&self, level: &Level, pair: Pair) -> Seen
        ensures seen_as_it_is { SeenAs (pair_stands (A.Algebra.tables self.now.algebra.now)) (pair_says self.now.operator (A.Algebra.tables self.now.algebra.now)) level.now.counts.now level.now.nodes.now level.now.number pair result }
        ensures settled_just_at_once { SettledJustAtOnce (A.Algebra.tables self.now.algebra.now) level.now.counts.now level.now.nodes.now level.now.number pair result }
    {
        match settled(self.algebra, self.operator, pair) {
            Some(link) => Seen::Settled(link),
            None => branches_within(level, first_level(level.nodes, pair)),
        }
    }
}

impl<'a, A: Algebra> Places for Pairs<'a, A> {
    type Place = Pair;

    ghost stands = { λ s. pair_stands (A.Algebra.tables s.algebra.now) };

    ghost says = { λ s. pair_says s.operator (A.Algebra.tables s.algebra.now) };

    ghost kept = { λ first last. last ≡ first };

    fn look(&mut self, level: &Level, place: Pair) -> Seen {
        self.see(level, place)
    }

    fn child(&self, level: &Level, place: Pair, cell: u8) -> Pair {
        let number = level.number as usize;
        Pair {
            left: next(level.nodes, number, place.left, cell),
            right: next(level.nodes, number, place.right, cell),
        }
    }
}
