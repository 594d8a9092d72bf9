// The nets on the way to a capture, and the moves that led to them.
ghost use Rattle.std.specs.Prelude.{◌≡◌, IfOk, OnErr};
ghost use Rattle.growth.specs.Growth.{WasRefused};
ghost use Rattle.trace_plain.specs.Way.{from_start};

use crate::Told;
use std::alloc::{AllocError, Global};
use std::marker::Model;
use trace_keys::Net;

/// A move that is told, and the place of the net that it leaves from; at place 0 is the net to begin in.
#[derive(Clone, Copy)]
pub(crate) struct Came {
    told: Told,
    from: usize,
}

impl Model for Came {
    ghost use Rattle.trace_plain.specs.Way.{Came as CameOf};
    ghost use Rattle.trace_keys.specs.declared.moves.Move.{Move as AMove};

    ghost Value = { CameOf AMove };

    ghost view = { λ c. record { told = c.told; from = c.from } };

    ghost inverse = { λ c. record { told = c.told; from = c.from } };
}

impl Came {
    pub(crate) fn new(told: Told, from: usize) -> Came
        ensures { result ≡ record { told = told; from = from } }
    {
        Came { told, from }
    }

    pub(crate) fn told(&self) -> Told
        ensures { result ≡ self.now.told }
    {
        self.told
    }

    pub(crate) fn from(&self) -> usize
        ensures { result ≡ self.now.from }
    {
        self.from
    }
}

/// A net, how many moves went unseen since the last sighting, and its place.
#[derive(Clone, Copy)]
pub(crate) struct Step {
    net: Net,
    unseen: u32,
    place: usize,
}

impl Model for Step {
    ghost use Rattle.std.specs.Prelude.{List, ℕ};
    ghost use Rattle.trace_plain.specs.Way.{Step as StepOf};
    ghost use Rattle.trace_keys.specs.Net.{Net as NetOf};

    ghost Value = { StepOf (NetOf (List ℕ) ℕ) };

    ghost view = { λ s. record { net = s.net; unseen = s.unseen; place = s.place } };

    ghost inverse = { λ s. record { net = s.net; unseen = s.unseen; place = s.place } };
}

impl Step {
    pub(crate) fn new(net: &Net, unseen: u32, place: usize) -> Step
        ensures { result ≡ record { net = net.now; unseen = unseen; place = place } }
    {
        Step {
            net: *net,
            unseen,
            place,
        }
    }

    pub(crate) fn net(&self) -> &Net
        ensures { result.now ≡ self.now.net }
    {
        &self.net
    }

    pub(crate) fn unseen(&self) -> u32
        ensures { result ≡ self.now.unseen }
    {
        self.unseen
    }

    pub(crate) fn place(&self) -> usize
        ensures { result ≡ self.now.place }
    {
        self.place
    }
}

/// The moves to each place from 1 on, and the nets from the last sighting on.
#[derive(Drop)]
pub(crate) struct Way {
    pub(crate) came: Vec<Came>,
    pub(crate) steps: Vec<Step>,
}

impl Model for Way {
    ghost use Rattle.std.specs.Prelude.{List, ℕ};
    ghost use Rattle.trace_plain.specs.Way.{Way as WayOf};
    ghost use Rattle.trace_keys.specs.Net.{Net as NetOf};
    ghost use Rattle.trace_keys.specs.declared.moves.Move.{Move as AMove};

    ghost Value = { WayOf (NetOf (List ℕ) ℕ) AMove };

    ghost view = { λ w. record { came = w.came.items; steps = w.steps.items } };
}

impl Way {
    // The net to begin in.
    pub(crate) fn new(alloc: Global, start: &Net) -> Result<Way, AllocError>
        ensures way { IfOk result (λ way. way ≡ from_start start.now) }
        ensures refused { OnErr result WasRefused }
    {
        let steps = growth::from_slice(alloc, &[Step::new(start, 0, 0)])?;
        Ok(Way {
            came: Vec::new(alloc),
            steps,
        })
    }

    pub(crate) fn came(&self) -> &[Came]
        ensures { result.now ≡ self.now.came }
    {
        self.came.as_slice()
    }

    pub(crate) fn steps(&self) -> &[Step]
        ensures { result.now ≡ self.now.steps }
    {
        self.steps.as_slice()
    }
}
