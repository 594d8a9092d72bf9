// A question, line by line.
ghost use Rattle.std.specs.Prelude.{◌≡◌, ◌∷◌, ◌++◌, [], map, IfErr, IfOk, OnOk, OnErr, Ok, Err};
ghost use Rattle.growth.specs.Growth.{WasRefused};
ghost use Rattle.trace_text.specs.Question.{nothing, with_entry};

use crate::entries::{Due, Entry, Site};
use annex_a_keys::Kasme;
use std::alloc::{AllocError, Global};
use std::marker::Model;
use trace_keys::{Sight, Where};
use trace_order::Clue;

/// A question: what a capture shows of the keys of one phone, and which moves may have been.
#[derive(Drop)]
pub struct Question {
    pub(crate) kasmes: Vec<Kasme>,
    pub(crate) sites: Vec<Site>,
    pub(crate) dues: Vec<Due>,
    pub(crate) firsts: Vec<bool>,
    pub(crate) covered: Vec<Where>,
    pub(crate) clues: Vec<Clue>,
    pub(crate) capture: Vec<Sight>,
    pub(crate) bound: u32,
    pub(crate) air: bool,
    pub(crate) moves: bool,
}

impl Model for Question {
    ghost use Rattle.trace_text.specs.Question.{Question as QuestionOf};

    ghost Value = { QuestionOf };

    ghost view = { λ q. record {
      kasmes = q.kasmes.items;
      sites = q.sites.items;
      dues = q.dues.items;
      firsts = q.firsts.items;
      covered = q.covered.items;
      clues = q.clues.items;
      capture = q.capture.items;
      bound = q.bound;
      air = q.air;
      moves = q.moves;
    } };
}

impl Question {
    /// A question of nothing.
    pub fn new(alloc: Global) -> Question
        ensures { result ≡ nothing }
    {
        Question {
            kasmes: Vec::new(alloc),
            sites: Vec::new(alloc),
            dues: Vec::new(alloc),
            firsts: Vec::new(alloc),
            covered: Vec::new(alloc),
            clues: Vec::new(alloc),
            capture: Vec::new(alloc),
            bound: 0,
            air: false,
            moves: false,
        }
    }

    /// The KASMEs.
    pub fn kasmes(&self) -> &[Kasme]
        ensures { result.now ≡ self.now.kasmes }
    {
        self.kasmes.as_slice()
    }

    /// Where taps are.
    pub fn covered(&self) -> &[Where]
        ensures { result.now ≡ self.now.covered }
    {
        self.covered.as_slice()
    }

    /// The keys that are known.
    pub fn clues(&self) -> &[Clue]
        ensures { result.now ≡ self.now.clues }
    {
        self.clues.as_slice()
    }

    /// What taps have.
    pub fn capture(&self) -> &[Sight]
        ensures { result.now ≡ self.now.capture }
    {
        self.capture.as_slice()
    }

    /// How many moves may go unseen between two sightings.
    pub fn bound(&self) -> u32
        ensures { result ≡ self.now.bound }
    {
        self.bound
    }

    /// Whether the moves that explain are to be told.
    pub fn moves(&self) -> bool
        ensures { result ≡ self.now.moves }
    {
        self.moves
    }

    // With one line more.
    pub(crate) fn add(&mut self, entry: &Entry) -> Result<(), AllocError>
        ensures value { OnOk result (self.new ≡ with_entry self.old entry.now) }
        ensures refused { OnErr result WasRefused }
    {
        match entry {
            Entry::Air => self.air = true,
            Entry::Moves => self.moves = true,
            Entry::Bound(bound) => self.bound = *bound,
            Entry::First(early) => push(&mut self.firsts, *early)?,
            Entry::Kasme(key) => push(&mut self.kasmes, *key)?,
            Entry::Count(due) => push(&mut self.dues, *due)?,
            Entry::Cell(site) => push(&mut self.sites, *site)?,
            Entry::Covers(at) => push(&mut self.covered, *at)?,
            Entry::Clue(clue) => push(&mut self.clues, *clue)?,
            Entry::Seen(sight) => push(&mut self.capture, *sight)?,
        }
        Ok(())
    }
}

// Puts an item at the end.
pub(crate) fn push<T: Copy + Drop>(items: &mut Vec<T>, item: T) -> Result<(), AllocError>
    ensures items { OnOk result (items.new.items ≡ items.old.items ++ item ∷ []) }
    ensures refused { OnErr result WasRefused }
{
    growth::push(items, item)?;
    Ok(())
}
