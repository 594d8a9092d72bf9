// What is wrong in the scenario itself, without any fault.
ghost use Rattle.growth.specs.Growth.{WasRefused};
ghost use Rattle.std.specs.Prelude.{◌≡◌, ◌<◌, ◌≤◌, Some, length, slice_get, IfOk, OnErr, OnOk};
ghost use Rattle.std.specs.List.{list_any};
ghost use Rattle.std.specs.Option.{option_map};
ghost use Rattle.variant_runs.specs.Troubles.{core_text, delivers, is_lost, is_lost_in, is_unopened, keys_from, lost_before, opens, phone_text, station_text, text_at, text_of, troubles_of, with_if};

use item_faults::{Does, Step};
use item_lines::{Told, line_of, opens as line_opens};
use item_outcomes::{Standing, Trouble};
use lte_events::{CoreAct, Event, Events, PhoneAct, StationAct};
use std::alloc::{AllocError, Global};

fn phone_text(act: &PhoneAct) -> Option<&[u8]>
    ensures { option_map (λ t. t.now) result ≡ phone_text act.now }
{
    match act {
        PhoneAct::SendUser(_, text) => Some(text.as_slice()),
        PhoneAct::SendRrc(_, text) => Some(text.as_slice()),
        PhoneAct::SendNas(text) => Some(text.as_slice()),
        _ => None,
    }
}

fn station_text(act: &StationAct) -> Option<&[u8]>
    ensures { option_map (λ t. t.now) result ≡ station_text act.now }
{
    match act {
        StationAct::SendUser(_, text) => Some(text.as_slice()),
        StationAct::SendRrc(_, text) => Some(text.as_slice()),
        _ => None,
    }
}

fn core_text(act: &CoreAct) -> Option<&[u8]>
    ensures { option_map (λ t. t.now) result ≡ core_text act.now }
{
    match act {
        CoreAct::SendNas(text) => Some(text.as_slice()),
        _ => None,
    }
}

// The text that an act sends.
fn text_of(event: &Event) -> Option<&[u8]>
    ensures { option_map (λ t. t.now) result ≡ text_of event.now }
{
    match event {
        Event::Phone(act) => phone_text(act),
        Event::Station(_, act) => station_text(act),
        Event::Core(act) => core_text(act),
        _ => None,
    }
}

// Whether a step delivers what the step of this number sent.
fn delivers(number: u32, step: &Step) -> bool
    ensures { result ≡ delivers number step.now }
{
    match step.does {
        Does::Delivers(of) => of == number,
        _ => false,
    }
}

fn opens(told: &[Told], text: &[u8], number: u32, step: &Step) -> bool
    ensures { result ≡ opens told.now text.now number step.now }
{
    delivers(number, step) && line_opens(line_of(step.number, told), text)
}

fn is_delivered(steps: &[Step], number: u32) -> bool
    ensures { result ≡ list_any (delivers number) steps.now }
{
    steps.iter().any(|step| delivers(number, step))
}

fn is_opened(told: &[Told], steps: &[Step], number: u32, text: &[u8]) -> bool
    ensures { result ≡ list_any (opens told.now text.now number) steps.now }
{
    steps.iter().any(|step| opens(told, text, number, step))
}

// Whether this text comes, and nobody opens it.
fn is_unopened(told: &[Told], steps: &[Step], number: u32, text: &[u8]) -> bool
    ensures { result ≡ is_unopened told.now steps.now number text.now }
{
    is_delivered(steps, number) && !is_opened(told, steps, number, text)
}

fn is_lost_by(told: &[Told], steps: &[Step], number: u32, act: &Event) -> bool
    ensures { result ≡ is_lost_in told.now steps.now number (text_at (Some act.now)) }
{
    match text_of(act) {
        Some(text) => is_unopened(told, steps, number, text),
        None => false,
    }
}

fn is_lost(told: &[Told], acts: &Events, steps: &[Step], number: u32) -> bool
    requires { number < length acts.now.items }
    ensures { result ≡ is_lost told.now acts.now.items steps.now number }
{
    let act = acts.at(number as usize);
    is_lost_by(told, steps, number, &act)
}

#[tactic(auto, unfolding(crate::specs::Troubles::keys_from))]
fn add_keys(list: &mut Vec<Trouble>, names: &[u32]) -> Result<(), AllocError>
    ensures added { OnOk result (list.new.items ≡ keys_from list.old.items names.now) }
    ensures refused { OnErr result WasRefused }
{
    for name in names {
        growth::reserve(list, 1)?;
        list.push_reserved(Trouble::KeysDiffer(*name));
    }
    Ok(())
}

fn add_if(list: &mut Vec<Trouble>, is: bool, trouble: Trouble) -> Result<(), AllocError>
    ensures added { OnOk result (list.new.items ≡ with_if is trouble list.old.items) }
    ensures refused { OnErr result WasRefused }
{
    if is {
        growth::reserve(list, 1)?;
        list.push_reserved(trouble);
    }
    Ok(())
}

fn add_lost(
    list: &mut Vec<Trouble>,
    told: &[Told],
    acts: &Events,
    steps: &[Step],
) -> Result<(), AllocError>
    requires few { length steps.now ≤ 2000 }
    requires there { length steps.now ≤ length acts.now.items }
    ensures added { OnOk result (list.new.items ≡ lost_before told.now acts.now.items steps.now list.old.items (length steps.now)) }
    ensures refused { OnErr result WasRefused }
{
    for number in 0..steps.len() as u32 {
        let is = is_lost(told, acts, steps, number);
        add_if(list, is, Trouble::PacketLost(number))?;
    }
    Ok(())
}

/// What is wrong in a scenario of these acts and steps, with what the probe finds behind it.
pub(crate) fn troubles_of(
    alloc: Global,
    usual: &Standing,
    acts: &Events,
    steps: &[Step],
) -> Result<Vec<Trouble>, AllocError>
    requires few { length steps.now ≤ 2000 }
    requires there { length steps.now ≤ length acts.now.items }
    ensures troubles { IfOk result (λ list. list.items ≡ troubles_of usual.now acts.now.items steps.now) }
    ensures refused { OnErr result WasRefused }
{
    let mut list = Vec::new(alloc);
    add_keys(&mut list, usual.parted())?;
    add_if(&mut list, usual.fates().is_stuck(), Trouble::Stuck)?;
    add_lost(&mut list, usual.told(), acts, steps)?;
    Ok(list)
}
