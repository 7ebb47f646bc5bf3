//! Finding or making node records: no two live records are alike, and none has the same link in every cell.
#![tactic(auto)]

ghost use Rattle.std.specs.Prelude.{◌≡◌, ℕ, ◌<◌, ◌≤◌, true, false, List, length, Decides, MatchOption};
ghost use Rattle.pages.specs.Pages.{runs};
ghost use Rattle.marking.specs.Marks.{Marked};
ghost use Rattle.diagram.specs.declared.Node.{Node as Nodes};
ghost use Rattle.diagram.specs.Diagram.{node};
ghost use Rattle.diagram.specs.Sound.{Alike, Sound, Proper};
ghost use Rattle.table.specs.Made.{Made, NoneIsAlike, StoredWhereAnswered};
ghost use Rattle.table.specs.Built.{Built};
ghost use Rattle.table.specs.Reduced.{AllTheSame, OneDiffers, Reduced, Reducible};

pub mod laws;

use diagram::{Link, Node};
use marking::Marking;

/// Whether two records have the same level and the same branches.
fn alike(a: &Node, b: &Node) -> bool
    ensures { Decides result (Alike a.now b.now) }
{
    if a.level != b.level {
        return false;
    }
    for c in 0..16 {
        if a.branch(c) != b.branch(c) {
            return false;
        }
    }
    true
}

/// A live record that is like the wanted one.
fn find(nodes: &[Node], marking: &Marking, wanted: &Node) -> Option<usize>
    requires { length marking.now.bytes.now ≡ length nodes.now }
    ensures { MatchOption result (NoneIsAlike nodes.now marking.now.bytes.now wanted.now) (λ s. (s < length nodes.now) × Marked marking.now.bytes.now s × Alike (node nodes.now s) wanted.now) }
{
    for (number, node) in nodes.iter().enumerate() {
        if marking.is_marked(number) && alike(node, wanted) {
            return Some(number);
        }
    }
    None
}

/// Writes the wanted record, which no live one is like, into one that is not live, which then is.
fn store(nodes: &mut [Node], marking: &mut Marking, wanted: &Node) -> Option<u16>
    requires one_byte_a_record { length marking.old.bytes.now ≡ length nodes.old }
    requires at_most_2048_records { length nodes.old ≤ 2048 }
    requires none_is_alike { NoneIsAlike nodes.old marking.old.bytes.now wanted.now }
    ensures same_bytes { marking.new.bytes.ghost_name ≡ marking.old.bytes.ghost_name }
    ensures found_or_taken { Made nodes.old marking.old.bytes.now nodes.new marking.new.bytes.now wanted.now result }
    ensures stays_sound { (k : ℕ) (shape : List ℕ) → Sound k shape nodes.old (Marked marking.old.bytes.now) → Proper k shape nodes.old (Marked marking.old.bytes.now) wanted.now → StoredWhereAnswered k shape nodes.old marking.old.bytes.now nodes.new marking.new.bytes.now wanted.now result }
{
    let number = marking.vacant()?;
    nodes[number] = *wanted;
    marking.mark(number);
    Some(number as u16)
}

/// The number of a live record like the wanted one, or of a record that was not live and now holds it.
pub fn make(nodes: &mut [Node], marking: &mut Marking, wanted: &Node) -> Option<u16>
    requires one_byte_a_record { length marking.old.bytes.now ≡ length nodes.old }
    requires at_most_2048_records { length nodes.old ≤ 2048 }
    ensures same_bytes { marking.new.bytes.ghost_name ≡ marking.old.bytes.ghost_name }
    ensures found_or_taken { Made nodes.old marking.old.bytes.now nodes.new marking.new.bytes.now wanted.now result }
    ensures stays_sound { (k : ℕ) (shape : List ℕ) → Sound k shape nodes.old (Marked marking.old.bytes.now) → Proper k shape nodes.old (Marked marking.old.bytes.now) wanted.now → StoredWhereAnswered k shape nodes.old marking.old.bytes.now nodes.new marking.new.bytes.now wanted.now result }
{
    match find(nodes, marking, wanted) {
        Some(number) => Some(number as u16),
        None => store(nodes, marking, wanted),
    }
}

/// Whether a branch of the first cells is another than the first one.
fn one_differs(branches: &[Link; 16], cells: u8) -> bool
    requires { cells ≤ 16 }
    ensures true_where_one_differs { result ≡ true → OneDiffers cells branches.now }
    ensures false_where_all_are_the_same { result ≡ false → AllTheSame cells branches.now }
{
    branches[..usize::from(cells)]
        .iter()
        .any(|branch| *branch != branches[0])
}

/// A link to the record with these branches, two of which differ: it is found or made.
fn record_of(
    nodes: &mut [Node],
    marking: &mut Marking,
    level: u8,
    cells: u8,
    branches: [Link; 16],
) -> Option<Link>
    requires one_byte_a_record { length marking.old.bytes.now ≡ length nodes.old }
    requires at_most_2048_records { length nodes.old ≤ 2048 }
    requires at_most_sixteen_cells { cells ≤ 16 }
    requires one_differs { OneDiffers cells branches }
    ensures same_bytes { marking.new.bytes.ghost_name ≡ marking.old.bytes.ghost_name }
    ensures one_link_or_one_record { Reduced nodes.old marking.old.bytes.now nodes.new marking.new.bytes.now level cells branches result }
    ensures builds_the_page { (k : ℕ) (shape : List ℕ) (first : List Nodes) (marks : List ℕ) (P : ℕ → List ℕ) → Reducible k shape first (Marked marks) nodes.old (Marked marking.old.bytes.now) level P cells branches → Built k shape first (Marked marks) nodes.new (Marked marking.new.bytes.now) level (runs cells P) result }
{
    let number = make(nodes, marking, &Node { level, branches })?;
    Some(Link::Record(number))
}

/// One link for the branches of all cells: the branch itself where all are the same, else a record that is found or made.
pub fn reduce(
    nodes: &mut [Node],
    marking: &mut Marking,
    level: u8,
    cells: u8,
    branches: [Link; 16],
) -> Option<Link>
    requires one_byte_a_record { length marking.old.bytes.now ≡ length nodes.old }
    requires at_most_2048_records { length nodes.old ≤ 2048 }
    requires at_most_sixteen_cells { cells ≤ 16 }
    ensures same_bytes { marking.new.bytes.ghost_name ≡ marking.old.bytes.ghost_name }
    ensures one_link_or_one_record { Reduced nodes.old marking.old.bytes.now nodes.new marking.new.bytes.now level cells branches result }
    ensures builds_the_page { (k : ℕ) (shape : List ℕ) (first : List Nodes) (marks : List ℕ) (P : ℕ → List ℕ) → Reducible k shape first (Marked marks) nodes.old (Marked marking.old.bytes.now) level P cells branches → Built k shape first (Marked marks) nodes.new (Marked marking.new.bytes.now) level (runs cells P) result }
{
    if one_differs(&branches, cells) {
        record_of(nodes, marking, level, cells, branches)
    } else {
        Some(branches[0])
    }
}
