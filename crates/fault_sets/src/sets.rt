// All choices of so many faults of a list.
ghost use Rattle.std.specs.Prelude.{◌≡◌, ◌≤◌, [], ◌∷◌, length, IfSome, None, true, false, map};
ghost use Rattle.fault_sets.specs.Laws.{AreAll};
ghost use Rattle.fault_sets.specs.Sets.{chosen, later, left, sets_of};

use item_faults::{Fault, Kind};
use std::marker::Model;

// A fault that is chosen, and those behind it.
#[derive(Clone, Copy)]
struct Place<'a> {
    fault: Fault,
    rest: &'a [Fault],
}

// Puts the first choice of these faults into these places. False where there is none.
#[tactic(auto, using(crate::proofs::Few::put_some, crate::proofs::Few::put_none), unfolding(crate::specs::Sets::sets_of, crate::specs::Sets::later))]
fn put<'a>(places: &mut [Place<'a>], faults: &'a [Fault]) -> bool
    ensures some { result ≡ true → sets_of (length places.old) faults.now ≡ left places.new }
    ensures none { result ≡ false → sets_of (length places.old) faults.now ≡ [] }
    ensures as_many { length places.new ≡ length places.old }
{
    if places.is_empty() {
        return true;
    }
    match faults.split_first() {
        Some((fault, rest)) => {
            places[0] = Place {
                fault: *fault,
                rest,
            };
            put(&mut places[1..], rest)
        }
        None => false,
    }
}

// Goes on to the next choice. False where there is none.
#[tactic(auto, using(crate::proofs::Few::go_some), unfolding(crate::specs::Sets::later))]
fn go_on<'a>(places: &mut [Place<'a>]) -> bool
    ensures some { result ≡ true → later places.old ≡ left places.new }
    ensures none { result ≡ false → later places.old ≡ [] }
    ensures as_many { length places.new ≡ length places.old }
{
    if places.is_empty() {
        return false;
    }
    if go_on(&mut places[1..]) {
        return true;
    }
    let rest = places[0].rest;
    put(places, rest)
}

/// Eight faults at most.
#[derive(Drop)]
pub struct Choice {
    // the first so many of these
    faults: [Fault; 8],
    count: usize,
}

impl Model for Choice {
    ghost use Rattle.std.specs.Prelude.{◌≤◌, List, take};
    ghost use Rattle.item_faults.specs.declared.changes.Fault.{Fault as AFault};

    ghost Value = { List AFault };

    ghost view = { λ c. take c.count c.faults };

    ghost invariant = { λ c. c.count ≤ 8 };
}

impl Choice {
    /// The faults.
    pub fn faults(&self) -> &[Fault]
        ensures faults { result.now ≡ self.now }
        ensures few { length result.now ≤ 8 }
    {
        &self.faults[..self.count]
    }
}

// The faults that stand in these places.
fn chosen(places: &[Place; 8]) -> [Fault; 8]
    ensures { result ≡ map chosen places.now }
{
    [
        places[0].fault,
        places[1].fault,
        places[2].fault,
        places[3].fault,
        places[4].fault,
        places[5].fault,
        places[6].fault,
        places[7].fault,
    ]
}

/// The choices of so many of a list of faults that are still to come, in their order.
#[derive(Drop)]
pub struct Sets<'a> {
    // the next choice stands in the first so many of these
    places: [Place<'a>; 8],
    count: usize,
    // none is left
    over: bool,
}

impl<'a> Model for Sets<'a> {
    ghost use Rattle.std.specs.Prelude.{◌≤◌, List, take};
    ghost use Rattle.fault_sets.specs.Sets.{left_unless};
    ghost use Rattle.item_faults.specs.declared.changes.Fault.{Fault as AFault};

    ghost Value = { List (List AFault) };

    ghost view = { λ s. left_unless s.over (take s.count s.places) };

    ghost invariant = { λ s. s.count ≤ 8 };
}

impl<'a> Sets<'a> {
    /// All choices of so many of these faults.
    pub fn of(count: usize, faults: &'a [Fault]) -> Sets<'a>
        requires { count ≤ 8 }
        ensures sets { result ≡ sets_of count faults.now }
        ensures all { AreAll count faults.now result }
    {
        Sets::begun(count, faults)
    }

    // The same: the first choice stands in its places.
    fn begun(count: usize, faults: &'a [Fault]) -> Sets<'a>
        requires { count ≤ 8 }
        ensures { result ≡ sets_of count faults.now }
    {
        let none = Place {
            fault: Fault {
                kind: Kind::Lost,
                message: 0,
                after: 0,
            },
            rest: faults,
        };
        let mut places = [none; 8];
        let there = put(&mut places[..count], faults);
        Sets {
            places,
            count,
            over: !there,
        }
    }

    /// The next choice.
    pub fn next(&mut self) -> Option<Choice>
        ensures next { IfSome result (λ choice. self.old ≡ choice ∷ self.new) }
        ensures none { result ≡ None → self.old ≡ [] }
    {
        if self.over {
            return None;
        }
        let (faults, count) = (chosen(&self.places), self.count);
        self.over = !go_on(&mut self.places[..count]);
        Some(Choice { faults, count })
    }
}
