// The messages that faults happen to.
ghost use Rattle.growth.specs.Growth.{WasRefused};
ghost use Rattle.std.specs.Prelude.{◌≡◌, ◌<◌, ◌≤◌, [], ◌∷◌, ◌++◌, length, IfOk, OnErr};
ghost use Rattle.std.specs.List.{filter};
ghost use Rattle.item_outcomes.specs.Probe.{is_among};
ghost use Rattle.lte_variants.specs.Named.{is_later, most_named, one_more};

use std::alloc::{AllocError, Global};
use std::marker::Model;

/// So many messages are named at most.
const MOST: usize = 8;

/// The messages that are named, by the steps that deliver them, each later than those before.
#[derive(Drop)]
pub struct Named {
    // the first so many of these
    steps: [u32; 8],
    count: usize,
}

impl Model for Named {
    ghost use Rattle.std.specs.Prelude.{◌≤◌, ℕ, List, take};

    ghost Value = { List ℕ };

    ghost view = { λ n. take n.count n.steps };

    ghost invariant = { λ n. n.count ≤ 8 };
}

impl Named {
    /// None so far.
    pub fn none() -> Named
        ensures { result ≡ [] }
    {
        Named {
            steps: [0; 8],
            count: 0,
        }
    }

    /// The steps.
    pub fn steps(&self) -> &[u32]
        ensures steps { result.now ≡ self.now }
        ensures few { length result.now ≤ most_named }
    {
        &self.steps[..self.count]
    }

    /// One more. None where there are eight, or where this one is no later than those.
    pub fn with(self, step: u32) -> Option<Named>
        ensures { result ≡ one_more step self }
    {
        if self.steps().len() < MOST && is_later(step, self.steps()) {
            Some(self.and(step))
        } else {
            None
        }
    }

    // The same, with one more behind those.
    fn and(self, step: u32) -> Named
        requires { length self < most_named }
        ensures { result ≡ self ++ step ∷ [] }
    {
        let mut steps = self.steps;
        steps[self.count] = step;
        Named {
            steps,
            count: self.count + 1,
        }
    }
}

// Whether a step is later than all of these.
fn is_later(step: u32, steps: &[u32]) -> bool
    ensures { result ≡ is_later step steps.now }
{
    steps.iter().all(|before| *before < step)
}

/// Those of these steps that are among the messages.
pub fn those(alloc: Global, named: &[u32], messages: &[u32]) -> Result<Vec<u32>, AllocError>
    ensures messages { IfOk result (λ list. list.items ≡ filter (is_among messages.now) named.now) }
    ensures few { IfOk result (λ list. length list.items ≤ length named.now) }
    ensures refused { OnErr result WasRefused }
{
    let mut list = Vec::new(alloc);
    for step in named {
        if is_among(messages, *step) {
            growth::reserve(&mut list, 1)?;
            list.push_reserved(*step);
        }
    }
    Ok(list)
}

fn is_among(messages: &[u32], step: u32) -> bool
    ensures { result ≡ is_among messages.now step }
{
    messages.iter().any(|message| *message == step)
}
