// The moves of a history that shows a capture: the search once more, with where each net came from.
ghost use Rattle.std.specs.Prelude.{◌≡◌, ◌<◌, false, true, Some, List, length, reverse, slice_get, ℕ, IfOk, OnErr, OnOk};
ghost use Rattle.growth.specs.Growth.{WasRefused};
ghost use Rattle.key_model.specs.Reading.{octet_reading};
ghost use Rattle.trace_keys.specs.Net.{Net as ANet};
ghost use Rattle.trace_keys.specs.Moved.{moved as moved_by};
ghost use Rattle.trace_keys.specs.Same.{same_net as same_net_by};
ghost use Rattle.trace_keys.specs.declared.moves.Move.{Move as AMove};
ghost use Rattle.trace_rules.specs.Rules.{AreIn};
ghost use Rattle.trace_rules.specs.History.{History};
ghost use Rattle.trace_rules.specs.Told.{Told as ToldOf, moves_told, tells};
ghost use Rattle.trace_plain.specs.Sights.{fits, is_covered};
ghost use Rattle.trace_plain.specs.Way as by;

use crate::Told;
use crate::onward::{Came, Step, Way};
use crate::telling::{Standing, told_by};
use annex_a_keys::Kasme;
use std::alloc::{AllocError, Global};
use trace_keys::{Move, Net, Sight, Where, same_net};

// Whether a net is there, behind no more unseen moves.
fn is_known(steps: &[Step], net: &Net, unseen: u32) -> bool
    ensures { result ≡ by.is_known same_net_by steps.now net.now unseen }
{
    for step in steps {
        if is_no_later(step, net, unseen) {
            return true;
        }
    }
    false
}

// Whether a step is to this net, by no more unseen moves.
fn is_no_later(step: &Step, net: &Net, unseen: u32) -> bool
    ensures { result ≡ by.is_no_later same_net_by step.now net.now unseen }
{
    let same = same_net(step.net(), net);
    let few = step.unseen() <= unseen;
    same && few
}

// Puts a net at the end, if it is not there.
fn put(way: &mut Way, net: &Net, unseen: u32, one: Came) -> Result<(), AllocError>
    ensures put { OnOk result (way.new ≡ by.put same_net_by way.old net.now unseen one) }
    ensures refused { OnErr result WasRefused }
{
    let known = is_known(way.steps.as_slice(), net, unseen);
    if !known {
        growth::push(&mut way.came, one)?;
        let place = way.came.len();
        growth::push(&mut way.steps, Step::new(net, unseen, place))?;
    }
    Ok(())
}

// By one move.
fn by_move(
    way: &mut Way,
    kasmes: &[Kasme],
    covered: &[Where],
    bound: u32,
    seen: bool,
    rest: &[Sight],
    at: &Step,
    by_one: &Move,
) -> Result<(), AllocError>
    ensures put { OnOk result (way.new ≡ by.by_move (moved_by octet_reading kasmes.now) fits (is_covered covered.now) bound same_net_by seen rest.now at.now way.old by_one.now) }
    ensures refused { OnErr result WasRefused }
{
    let one = Told::new(*by_one, seen);
    let standing = Standing::new(at.net(), at.unseen(), rest);
    if let Some(next) = told_by(kasmes, covered, bound, &standing, &one) {
        put(way, next.net(), next.unseen(), Came::new(one, at.place()))?;
    }
    Ok(())
}

// By each of these moves.
fn by_moves(
    way: &mut Way,
    kasmes: &[Kasme],
    covered: &[Where],
    family: &[Move],
    bound: u32,
    seen: bool,
    rest: &[Sight],
    at: &Step,
) -> Result<(), AllocError>
    ensures put { OnOk result (way.new ≡ by.by_moves (moved_by octet_reading kasmes.now) fits (is_covered covered.now) bound same_net_by seen rest.now at.now family.now way.old) }
    ensures refused { OnErr result WasRefused }
{
    for one in family {
        by_move(way, kasmes, covered, bound, seen, rest, at, one)?;
    }
    Ok(())
}

// From each of these nets.
fn from_each(
    way: &mut Way,
    kasmes: &[Kasme],
    covered: &[Where],
    family: &[Move],
    bound: u32,
    seen: bool,
    rest: &[Sight],
    steps: &[Step],
) -> Result<(), AllocError>
    ensures put { OnOk result (way.new ≡ by.from_each (moved_by octet_reading kasmes.now) fits (is_covered covered.now) family.now bound same_net_by seen rest.now steps.now way.old) }
    ensures refused { OnErr result WasRefused }
{
    for at in steps {
        by_moves(way, kasmes, covered, family, bound, seen, rest, at)?;
    }
    Ok(())
}

// By one unseen move more.
fn unseen_once(
    alloc: Global,
    way: &mut Way,
    kasmes: &[Kasme],
    covered: &[Where],
    family: &[Move],
    bound: u32,
    rest: &[Sight],
) -> Result<(), AllocError>
    ensures put { OnOk result (way.new ≡ by.from_each (moved_by octet_reading kasmes.now) fits (is_covered covered.now) family.now bound same_net_by false rest.now way.old.steps way.old) }
    ensures refused { OnErr result WasRefused }
{
    let steps = growth::from_slice(alloc, way.steps.as_slice())?;
    from_each(
        way,
        kasmes,
        covered,
        family,
        bound,
        false,
        rest,
        steps.as_slice(),
    )
}

// By at most so many unseen moves.
fn unseen_on(
    alloc: Global,
    way: &mut Way,
    kasmes: &[Kasme],
    covered: &[Where],
    family: &[Move],
    bound: u32,
    rest: &[Sight],
) -> Result<(), AllocError>
    ensures put { OnOk result (way.new ≡ by.unseen_on (moved_by octet_reading kasmes.now) fits (is_covered covered.now) family.now bound same_net_by bound rest.now way.old) }
    ensures refused { OnErr result WasRefused }
{
    for _turn in 0..bound {
        unseen_once(alloc, way, kasmes, covered, family, bound, rest)?;
    }
    Ok(())
}

// To the next sighting.
fn seen_on(
    alloc: Global,
    way: &mut Way,
    kasmes: &[Kasme],
    covered: &[Where],
    family: &[Move],
    bound: u32,
    rest: &[Sight],
) -> Result<(), AllocError>
    ensures put { OnOk result (way.new ≡ by.seen_on (moved_by octet_reading kasmes.now) fits (is_covered covered.now) family.now bound same_net_by rest.now way.old) }
    ensures refused { OnErr result WasRefused }
{
    let steps = growth::from_slice(alloc, way.steps.as_slice())?;
    way.steps.clear();
    from_each(
        way,
        kasmes,
        covered,
        family,
        bound,
        true,
        rest,
        steps.as_slice(),
    )
}

// To the last one.
fn way_on(
    alloc: Global,
    way: &mut Way,
    kasmes: &[Kasme],
    covered: &[Where],
    family: &[Move],
    bound: u32,
    capture: &[Sight],
) -> Result<(), AllocError>
    ensures put { OnOk result (way.new ≡ by.way_on (moved_by octet_reading kasmes.now) fits (is_covered covered.now) family.now bound same_net_by capture.now way.old) }
    ensures refused { OnErr result WasRefused }
{
    for place in 0..capture.len() {
        let rest = &capture[place..];
        unseen_on(alloc, way, kasmes, covered, family, bound, rest)?;
        seen_on(alloc, way, kasmes, covered, family, bound, rest)?;
    }
    Ok(())
}

// The moves that led to a place.
fn told_back(alloc: Global, came: &[Came], last: usize) -> Result<Vec<Told>, AllocError>
    requires { (back : List (ToldOf AMove)) × by.Back came.now last back }
    ensures told { IfOk result (λ told. (back : List (ToldOf AMove)) → by.Back came.now last back → told.items ≡ reverse back) }
    ensures refused { OnErr result WasRefused }
{
    let mut told = Vec::new(alloc);
    let mut at = last;
    while at > 0 {
        let one = &came[at - 1];
        growth::push(&mut told, one.told())?;
        at = one.from();
    }
    told.reverse();
    Ok(told)
}

// The place of the first net.
fn first_place(steps: &[Step]) -> usize
    requires { 0 < length steps.now }
    ensures { (s : by.Step (ANet (List ℕ) ℕ)) → slice_get steps.now 0 ≡ Some s → result ≡ s.place }
{
    steps[0].place()
}

// The search, from its first net on.
fn walked(
    alloc: Global,
    kasmes: &[Kasme],
    covered: &[Where],
    family: &[Move],
    bound: u32,
    start: &Net,
    capture: &[Sight],
) -> Result<Way, AllocError>
    ensures way { IfOk result (λ way. way ≡ by.way_on (moved_by octet_reading kasmes.now) fits (is_covered covered.now) family.now bound same_net_by capture.now (by.from_start start.now)) }
    ensures refused { OnErr result WasRefused }
{
    let mut way = Way::new(alloc, start)?;
    way_on(alloc, &mut way, kasmes, covered, family, bound, capture)?;
    Ok(way)
}

/// The moves of a lawful history that shows a capture, with at most so many unseen ones between two sightings. Where there is such a
/// history of these moves, one is told: the only error is want of memory.
pub fn way_to(
    alloc: Global,
    kasmes: &[Kasme],
    covered: &[Where],
    family: &[Move],
    bound: u32,
    start: &Net,
    capture: &[Sight],
) -> Result<Vec<Told>, AllocError>
    requires explained { (moves : List AMove) × AreIn moves family.now × History (moved_by octet_reading kasmes.now) fits (is_covered covered.now) bound bound start.now moves capture.now }
    ensures told { IfOk result (λ told. tells (moved_by octet_reading kasmes.now) fits (is_covered covered.now) bound start.now capture.now told.items ≡ true) }
    ensures history { IfOk result (λ told. History (moved_by octet_reading kasmes.now) fits (is_covered covered.now) bound bound start.now (moves_told told.items) capture.now) }
    ensures refused { OnErr result WasRefused }
{
    let way = walked(alloc, kasmes, covered, family, bound, start, capture)?;
    let last = first_place(way.steps());
    told_back(alloc, way.came(), last)
}
