//! Links under projection by masks.
ghost use Rattle.std.specs.Prelude.{◌≡◌, if◌then◌else◌, slice_index};
ghost use Rattle.pages.specs.Projection.{has_bit};
ghost use Rattle.making.specs.Projections.{projection_stands, projection_says, stands_at, LeavesOut, FirstBranch};

use diagram::asking::{level_of, next};
use diagram::{Link, Node};
use places::{Level, Places, Seen};

/// The links whose pages are projected: a mask for each attribute and one for decisions, in which bit c stands for cell or code c.
#[derive(Drop)]
pub struct Projected<'a> {
    pub masks: &'a [u16],
    pub decisions: u16,
}

/// Whether a bit of a mask is set; there are sixteen.
pub fn has_bit(mask: u16, bit: u8) -> bool
    ensures { result ≡ has_bit mask bit }
{
    bit < 16 && (mask >> bit) % 2 == 1
}

/// Whether a mask leaves one of the first cells out.
fn leaves_out(mask: u16, cells: u8) -> bool
    ensures { LeavesOut mask cells result }
{
    for cell in 0..cells {
        if !has_bit(mask, cell) {
            return true;
        }
    }
    false
}

/// Whether the record of a link stands at a level.
fn stands_at(nodes: &[Node], level: usize, link: Link) -> bool
    ensures { result ≡ stands_at nodes.now level link }
{
    match link {
        Link::Decision(_) => false,
        Link::Record(r) => usize::from(level_of(nodes, r)) == level,
    }
}

impl<'a> Projected<'a> {
    /// The mask of the attribute at a level; where there is none it has no bit.
    fn mask(&self, level: usize) -> u16
        ensures { result ≡ slice_index self.now.masks.now level }
    {
        self.masks.get(level).copied().unwrap_or(0)
    }

    /// The first level, from one on, at which the link's record stands or a cell is left out; level 255, if there is one, as it is.
    fn first_branch(&self, level: &Level, link: Link) -> Option<u8>
        ensures { FirstBranch self.now.masks.now level.now.counts.now level.now.nodes.now level.now.number link result }
    {
        let first = usize::from(level.number);
        let end = level.counts.len().min(255);
        let counts = level.counts.get(first..end).unwrap_or(&[]);
        for (further, cells) in counts.iter().enumerate() {
            let at = first + further;
            if stands_at(level.nodes, at, link) || leaves_out(self.mask(at), *cells) {
                return Some(at as u8);
            }
        }
        (level.counts.len() > 255).then_some(255)
    }
}

impl<'a> Places for Projected<'a> {
    type Place = Link;

    ghost stands = { λ s. projection_stands s.masks.now };

    ghost says = { λ s. projection_says s.masks.now s.decisions };

    ghost kept = { λ first last. last ≡ first };

    fn look(&mut self, level: &Level, place: Link) -> Seen {
        if place == Link::Decision(0) {
            return Seen::Settled(place);
        }
        self.first_branch(level, place).map_or_else(
            || Seen::Settled(Link::Decision(kept(self.decisions, place.decision()))),
            Seen::Branches,
        )
    }

    fn child(&self, level: &Level, place: Link, cell: u8) -> Link {
        let number = level.number as usize;
        if has_bit(self.mask(number), cell) {
            next(level.nodes, number, place, cell)
        } else {
            Link::Decision(0)
        }
    }
}

/// The decision where its bit is set, else 0.
fn kept(mask: u16, decision: u8) -> u8
    ensures { result ≡ (if has_bit mask decision then decision else 0) }
{
    if has_bit(mask, decision) { decision } else { 0 }
}
