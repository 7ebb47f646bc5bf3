//! Deciding the requests of an input.
ghost use Rattle.std.specs.Prelude.{◌≡◌, map, IfOk};
ghost use Rattle.fields.specs.Parts.{list_now};
ghost use Rattle.fields.specs.Shown.{bare};
ghost use Rattle.vocabulary.specs.Record.{attributes_of};
ghost use Rattle.location.specs.Shown.{Answered};
ghost use Rattle.decision.specs.Decided.{decisions_at, serve, decided};
ghost use Rattle.decision.specs.Shown.{line_shown, report_shown};
ghost use Rattle.decision.specs.Serving.{arrived_shown};

use crate::arrived::Arrived;
use crate::consulting::decision_at;
use crate::differing::differences_of;
use crate::{Line, Report};
use algebra::permit_deny::PermitDeny;
use fields::RawField;
use fields::sheet::Fields;
use location::Failure;
use location::finding::{find, vocabulary_field};
use policy::walking::check;
use std::alloc::{AllocError, Global};
use vocabulary::record::Vocabulary;

/// What each sheet decides at a grid number, in order.
fn line_of(
    heap: Global,
    vocabulary: &Vocabulary,
    sheets: &[&[u8]],
    number: usize,
) -> Result<Line, AllocError>
    ensures { IfOk result (λ l. line_shown l ≡ decisions_at (attributes_of vocabulary.now) (map list_now sheets.now) number) }
{
    let decisions = sheets
        .iter()
        .map(|sheet| decision_at(vocabulary, sheet, number))
        .collect(heap)?;
    Ok(Line { decisions })
}

impl<'a> Arrived<'a> {
    /// A sheet is checked and joins the others; a request is answered by those that are there.
    fn serve(
        &mut self,
        heap: Global,
        vocabulary: &Vocabulary,
        raw: &RawField<'a>,
    ) -> Result<(), Failure>
        ensures { Answered (λ _. arrived_shown self.new) result (serve raw.now.at (attributes_of vocabulary.now) (arrived_shown self.old) (bare raw.now)) }
    {
        if raw.tag == 0x02 {
            check(&PermitDeny, vocabulary, raw.content)?;
            self.sheets.push(raw.content)?;
        } else {
            let number = find(vocabulary, raw)?.number;
            let line = line_of(heap, vocabulary, self.sheets.as_slice(), number)?;
            self.lines.push(line)?;
        }
        Ok(())
    }
}

/// The lines of an input's requests, in order, and the differences of its sheets.
pub fn decide(heap: Global, input: &[u8]) -> Result<Report, Failure>
    ensures { Answered report_shown result (decided input.now) }
{
    let first = vocabulary_field(input)?;
    let vocabulary = Vocabulary::of_sheet(first.content)?;
    let mut arrived = Arrived {
        sheets: Vec::new(heap),
        lines: Vec::new(heap),
    };
    for raw in Fields::from_place(input, first.next) {
        let raw = raw?;
        arrived.serve(heap, &vocabulary, &raw)?;
    }
    let Arrived { sheets, lines } = arrived;
    let differences = differences_of(heap, &vocabulary, sheets.as_slice())?;
    Ok(Report { lines, differences })
}
