ghost use Rattle.std.specs.Prelude.{◌≡◌, [], OnErr, OnOk, slice_get};
ghost use Rattle.std.specs.List.{list_any};
ghost use Rattle.std.specs.Option.{option_copied};
ghost use Rattle.growth.specs.Growth.{WasRefused};
ghost use Rattle.ladder_text.specs.Text.{same, with_row};

use crate::key::LineKey;
use crate::line::LadderLine;
use indexmap::IndexMap;
use key_terms::Row;
use std::alloc::{AllocError, Global};
use std::marker::Model;

// The different derivations and roots of the lines so far, in the order of their rows, of which each is
// one. Whether one is there is found in constant time. A contract sees the list of their lines.
#[derive(Drop)]
pub(crate) struct Derivations {
    lines: IndexMap<LineKey, LadderLine>,
}

impl Model for Derivations {
    ghost use Rattle.std.specs.Prelude.{List, map};
    ghost use Rattle.ladder_text.specs.declared.line.LadderLine.{LadderLine};
    ghost use Rattle.ladder_text.specs.Key.{AreKeyed};

    ghost Value = { List LadderLine };

    ghost view = { λ d. map (λ e. e.1) d.lines.entries };

    ghost invariant = { λ d. AreKeyed d.lines.entries };
}

impl Derivations {
    // None. It takes no memory.
    pub fn new(alloc: Global) -> Derivations
        ensures { result ≡ [] }
    {
        Derivations {
            lines: IndexMap::new(alloc),
        }
    }

    // Adds the row that a line makes, if it makes a new one. Where memory runs out none is added.
    pub fn add(&mut self, line: &LadderLine) -> Result<(), AllocError>
        ensures rows { OnOk result (self.new ≡ with_row self.old line.now) }
        ensures refused { OnErr result WasRefused }
    {
        let key = line.key();
        if !self.lines.contains_key(&key) {
            growth::insert(&mut self.lines, key, *line)?;
        }
        Ok(())
    }

    // Whether a row is the same derivation from the same rows.
    pub fn has(&self, line: &LadderLine) -> bool
        ensures { result ≡ list_any (λ earlier. same earlier line.now) self.now }
    {
        self.lines.contains_key(&line.key())
    }

    // The line that made a row.
    pub fn get(&self, row: Row) -> Option<&LadderLine>
        ensures { option_copied result ≡ slice_get self.now row.0 }
    {
        let (_, line) = self.lines.get_index(row.0 as usize)?;
        Some(line)
    }
}
