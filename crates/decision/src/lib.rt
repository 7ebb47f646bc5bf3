//! What the program `decide` answers: the decisions of policy sheets on requests, and where the sheets differ.
#![tactic(auto)]

mod arrived;
pub mod consulting;
pub mod deciding;
pub mod differing;
pub mod laws;

use algebra::permit_deny::Decision;
use std::fmt;

/// What the sheets that came before a request decide on it, in their order.
#[derive(PartialEq, Eq, Debug, Drop)]
pub struct Line {
    pub decisions: Vec<Decision>,
}

/// At how many grid numbers two sheets decide differently.
#[derive(Clone, Copy, PartialEq, Eq, Debug)]
pub struct Difference {
    pub first: usize,
    pub second: usize,
    pub numbers: usize,
}

/// A line for each request, and a difference for each two sheets.
#[derive(PartialEq, Eq, Debug, Drop)]
pub struct Report {
    pub lines: Vec<Line>,
    pub differences: Vec<Difference>,
}

/// A line is shown as the words of its decisions.
impl fmt::Display for Line {
    fn fmt<W: fmt::Write>(&self, f: &mut fmt::Formatter<W>) -> fmt::Result {
        for (i, decision) in self.decisions.iter().enumerate() {
            if i > 0 {
                f.write_str(" ")?;
            }
            write!(f, "{decision}")?;
        }
        Ok(())
    }
}

/// A difference is shown as `differ I J N`, with two digits for each sheet.
impl fmt::Display for Difference {
    fn fmt<W: fmt::Write>(&self, f: &mut fmt::Formatter<W>) -> fmt::Result {
        let Difference {
            first,
            second,
            numbers,
        } = *self;
        write!(f, "differ {first:02} {second:02} {numbers}")
    }
}

/// A report is shown as its lines and then its differences, each with the end of a line.
impl fmt::Display for Report {
    fn fmt<W: fmt::Write>(&self, f: &mut fmt::Formatter<W>) -> fmt::Result {
        for line in self.lines.iter() {
            writeln!(f, "{line}")?;
        }
        for difference in self.differences.iter() {
            writeln!(f, "{difference}")?;
        }
        Ok(())
    }
}
