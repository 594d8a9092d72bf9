ghost use Rattle.growth.specs.Growth.{WasRefused};
ghost use Rattle.std.specs.Prelude.{◌≡◌, ◌+◌, ◌<◌, ◌^◌, [], ◌∷◌, ◌++◌, List, IfOk, OnErr};
ghost use Rattle.std.specs.String.{string_bytes};
ghost use Rattle.lte_events.specs.declared.lines.Line.{Line};
ghost use Rattle.report_text.specs.Summary.{is_refused, is_handover, is_vertical, tally_of, figures, name_of, number_of, figure_text};

use crate::TextMemory;
use lte_events::{Answer, Line, Who};
use rec_base::Way;
use std::alloc::{AllocError, Global};
use std::marker::Model;

/// How many lines of a run there are so far, and how many of them tell what the summary counts.
#[derive(Clone, Copy)]
pub struct Tally {
    steps: u32,
    records: u32,
    refused: u32,
    handovers: u32,
    vertical: u32,
}

impl Model for Tally {
    ghost use Rattle.std.specs.Prelude.{◌≤◌};
    ghost use Rattle.report_text.specs.Summary.{Tallied};

    ghost Value = { Tallied };

    ghost view = { λ t. record {
      steps = t.steps;
      records = t.records;
      refused = t.refused;
      handovers = t.handovers;
      vertical = t.vertical;
    } };

    ghost invariant = { λ t. (t.records ≤ t.steps) × (t.refused ≤ t.steps) × (t.handovers ≤ t.steps) × (t.vertical ≤ t.steps) };

    ghost inverse = { λ v. record {
      steps = v.steps;
      records = v.records;
      refused = v.refused;
      handovers = v.handovers;
      vertical = v.vertical;
    } };
}

impl Tally {
    /// The figures of no lines.
    pub fn new() -> Tally
        ensures { result ≡ tally_of [] }
    {
        Tally {
            steps: 0,
            records: 0,
            refused: 0,
            handovers: 0,
            vertical: 0,
        }
    }

    /// Counts one line more, the next of the run.
    pub fn count(&mut self, line: &Line)
        requires { self.old.steps + 1 < 2 ^ 32 }
        ensures lines { (lines : List Line) → self.old ≡ tally_of lines → self.new ≡ tally_of (lines ++ line.now ∷ []) }
        ensures steps { self.new.steps ≡ self.old.steps + 1 }
    {
        self.steps += 1;
        self.records += u32::from(line.sent.is_some());
        self.refused += u32::from(is_refused(line));
        self.handovers += u32::from(is_handover(line));
        self.vertical += u32::from(is_vertical(line));
    }

    // The number of a figure.
    fn number(&self, rows: u32, figure: Figure) -> u32
        ensures { result ≡ number_of self.now rows figure }
    {
        match figure {
            Figure::Steps => self.steps,
            Figure::Records => self.records,
            Figure::Refused => self.refused,
            Figure::Handovers => self.handovers,
            Figure::Vertical => self.vertical,
            Figure::Rows => rows,
        }
    }
}

/// A figure of a summary.
#[derive(Clone, Copy)]
pub enum Figure {
    /// The steps.
    Steps,
    /// The records sent.
    Records,
    /// The steps that were refused.
    Refused,
    /// The handovers that were completed.
    Handovers,
    /// The handovers at which the phone came by its key from an unused NH.
    Vertical,
    /// The rows of the ladder.
    Rows,
}

impl Figure {
    /// All figures, in the order of a summary.
    pub fn all() -> [Figure; 6]
        ensures { result ≡ figures }
    {
        [
            Figure::Steps,
            Figure::Records,
            Figure::Refused,
            Figure::Handovers,
            Figure::Vertical,
            Figure::Rows,
        ]
    }

    // Its name.
    fn name(self) -> &'static str
        ensures { result.now ≡ name_of self }
    {
        match self {
            Figure::Steps => "steps",
            Figure::Records => "records",
            Figure::Refused => "refused",
            Figure::Handovers => "handovers",
            Figure::Vertical => "vertical",
            Figure::Rows => "rows",
        }
    }
}

/// The line of a summary for one of its figures, in ASCII, with the LF that ends it. The one error is want of
/// memory.
pub fn summary_line(
    alloc: Global,
    tally: &Tally,
    rows: u32,
    figure: Figure,
) -> Result<Vec<u8>, TextMemory>
    ensures text { IfOk result (λ text. text.items ≡ figure_text tally.now rows figure) }
    ensures refused { OnErr result WasRefused }
{
    let text = figure_text(alloc, tally, rows, figure)?;
    Ok(text.into_bytes())
}

#[tactic(auto, unfolding(crate::specs::Summary::figure_text))]
fn figure_text(
    alloc: Global,
    tally: &Tally,
    rows: u32,
    figure: Figure,
) -> Result<String, AllocError>
    ensures text { IfOk result (λ text. string_bytes text ≡ figure_text tally.now rows figure) }
    ensures refused { OnErr result WasRefused }
{
    let name = figure.name();
    let number = tally.number(rows, figure);
    growth::format(alloc, format_args!("{name} {number}\n"))
}

fn is_refused(line: &Line) -> bool
    ensures { result ≡ is_refused line.now }
{
    !matches!(line.answer, Answer::Done)
}

fn is_handover(line: &Line) -> bool
    ensures { result ≡ is_handover line.now }
{
    matches!(&line.note, Some(note) if matches!(note.way, Way::Completed))
}

fn is_vertical(line: &Line) -> bool
    ensures { result ≡ is_vertical line.now }
{
    matches!(line.who, Who::Phone)
        && matches!(&line.note, Some(note) if matches!(note.way, Way::Vertical))
}
