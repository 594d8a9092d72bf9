ghost use Rattle.growth.specs.Growth.{WasRefused};
ghost use Rattle.std.specs.Prelude.{◌≡◌, ◌^◌, ◌<◌, ◌≤◌, All, IfOk, IfSome, OnErr, length};
ghost use Rattle.item_faults.specs.Laws.{IsStep};
ghost use Rattle.item_steps.specs.Steps.{core_does, delivers, does_of, next_step, one_of_eight, sends_of, starts, station_does, station_in, steps_of};
ghost use Rattle.lte_events.specs.Scenario.{most_events};

use crate::messages::message_of;
use crate::records::sender_of;
use item_faults::{Does, Message, Step};
use item_lines::Told;
use lte_events::{CoreAct, Event, Events, HoKind, StationAct, Who};
use std::alloc::{AllocError, Global};

fn starts(kind: HoKind) -> Does
    ensures { result ≡ starts kind }
{
    match kind {
        HoKind::X2 => Does::StartX2,
        _ => Does::Start,
    }
}

fn station_does(act: &StationAct) -> Does
    ensures { result ≡ station_does act.now }
{
    match act {
        StationAct::Start(kind, _) => starts(*kind),
        StationAct::Command => Does::Command,
        StationAct::Cancel => Does::Cancel,
        _ => Does::Act,
    }
}

fn core_does(act: &CoreAct) -> Does
    ensures { result ≡ core_does act.now }
{
    match act {
        CoreAct::Connect(_) => Does::Connect,
        _ => Does::Act,
    }
}

fn delivers(of: Option<usize>) -> Does
    requires { IfSome of (λ place. place < 2 ^ 32) }
    ensures { result ≡ delivers of }
{
    match of {
        Some(place) => Does::Delivers(place as u32),
        None => Does::Nothing,
    }
}

// What a step does, behind steps with these lines.
fn does_of(before: &[Told], event: &Event) -> Does
    requires { length before.now < 2 ^ 32 }
    ensures { result ≡ does_of before.now event.now }
{
    match event {
        Event::Deliver(i) => delivers(sender_of(before, i)),
        Event::Station(_, act) => station_does(act),
        Event::Core(act) => core_does(act),
        _ => Does::Act,
    }
}

fn one_of_eight(id: u8) -> Option<u8>
    ensures { result ≡ one_of_eight id }
{
    if id < 8 { Some(id) } else { None }
}

// The station that takes a step.
fn station_in(who: Who) -> Option<u8>
    ensures { result ≡ station_in who }
{
    match who {
        Who::Station(id) => one_of_eight(id),
        _ => None,
    }
}

// The message that it sends, where it sends one.
fn sends_of(
    steps: &[Step],
    before: &[Told],
    event: &Event,
    does: Does,
    told: &Told,
) -> Option<Message>
    ensures { result ≡ sends_of steps.now before.now event.now does told.now.line told.now.line.sent }
{
    match told.line.sent {
        Some((_, class)) => Some(message_of(steps, before, event, does, told, class)),
        None => None,
    }
}

// The next step, behind these steps and their lines.
fn next_step(steps: &[Step], before: &[Told], event: &Event, told: &Told) -> Step
    requires steps { length steps.now < 2 ^ 32 }
    requires lines { length before.now < 2 ^ 32 }
    ensures { result ≡ next_step steps.now before.now event.now told.now }
{
    let does = does_of(before, event);
    Step {
        number: steps.len() as u32,
        does,
        station: station_in(told.line.who),
        sends: sends_of(steps, before, event, does, told),
    }
}

/// The steps of a scenario, by its events and the lines that its run told of them: line k is of event k.
pub fn steps_of(alloc: Global, events: &Events, told: &[Told]) -> Result<Vec<Step>, AllocError>
    requires a_line_each { length told.now ≡ length events.now.items }
    requires few { length events.now.items ≤ most_events }
    ensures steps { IfOk result (λ steps. steps.items ≡ steps_of events.now.items told.now) }
    ensures are_steps { IfOk result (λ steps. All (IsStep (length events.now.items)) steps.items) }
    ensures as_many { IfOk result (λ steps. length steps.items ≡ length events.now.items) }
    ensures refused { OnErr result WasRefused }
{
    listed(alloc, events, told)
}

#[tactic(auto, unfolding(crate::specs::Steps::steps_from))]
fn listed(alloc: Global, events: &Events, told: &[Told]) -> Result<Vec<Step>, AllocError>
    requires a_line_each { length told.now ≡ length events.now.items }
    requires few { length events.now.items ≤ most_events }
    ensures steps { IfOk result (λ steps. steps.items ≡ steps_of events.now.items told.now) }
    ensures refused { OnErr result WasRefused }
{
    let mut steps = Vec::new(alloc);
    for number in 0..events.len() {
        let event = events.at(number);
        let step = next_step(steps.as_slice(), &told[..number], &event, &told[number]);
        growth::reserve(&mut steps, 1)?;
        steps.push_reserved(step);
    }
    Ok(steps)
}
