// The items of the probe.
ghost use Rattle.growth.specs.Growth.{WasRefused};
ghost use Rattle.std.specs.Prelude.{◌≡◌, ℕ, ◌+◌, ◌≤◌, [], ◌∷◌, ◌++◌, length, All, IfOk, OnOk, OnErr};
ghost use Rattle.std.specs.List.{flat_map};
ghost use Rattle.lte_events.specs.Ranges.{IsSetup};
ghost use Rattle.items.specs.Items.{IsItemOf};
ghost use Rattle.item_faults.specs.Entries.{most_steps};
ghost use Rattle.item_probe.specs.Parts.{act, chain, down_from, first_part, hands_over, most_first, most_second, most_third, second_part, third_part};
ghost use Rattle.item_probe.specs.Places.{more_acts};

use crate::acts::other_cell;
use crate::places::{
    authenticates, begins_at, begins_security, connects_at, go_idle, send_again, send_anew,
    send_down, send_nas_down, send_nas_up, send_up, service,
};
use annex_a_keys::Cell;
use item_faults::{cancel, command};
use item_outcomes::names::{
    AGAIN, ANEW, BEGIN, CANCEL, COMMAND, COMMAND_ANEW, CONNECT, CONNECT_ANEW, IDLE, IDLE_ANEW,
    NAS_DOWN, NAS_UP, RENEW, SERVICE, SERVICE_ANEW, UP, down,
};
use items::{Deed, Item};
use lte_events::{Setup, StationSetup};
use std::alloc::{AllocError, Global};

// So many records that come of an item, each of the one before, are delivered at once at most.
const MOST_AT_ONCE: u8 = 8;

/// The first part of the probe behind so many steps: a user packet up, one down from each station, a NAS text up and one down.
pub fn first_part(alloc: Global, setup: &Setup, steps: u32) -> Result<Vec<Item>, AllocError>
    requires { steps ≤ most_steps }
    ensures items { IfOk result (λ list. list.items ≡ first_part setup.now steps) }
    ensures are_items { (acts : ℕ) → steps + more_acts ≤ acts → IsSetup setup.now → IfOk result (λ list. All (IsItemOf acts) list.items) }
    ensures few { IfOk result (λ list. length list.items ≤ most_first) }
    ensures refused { OnErr result WasRefused }
{
    // This brings into the proof that there are at most eight.
    let _ = setup.stations.as_slice();
    list_first(alloc, setup, steps)
}

/// The second part, where this station serves: its timer, a handover, idle, a Service Request, a connection, and a user packet.
pub fn second_part(
    alloc: Global,
    setup: &Setup,
    steps: u32,
    serving: u8,
) -> Result<Vec<Item>, AllocError>
    requires { steps ≤ most_steps }
    ensures items { IfOk result (λ list. list.items ≡ second_part setup.now steps serving) }
    ensures are_items { (acts : ℕ) → steps + more_acts ≤ acts → serving ≤ 7 → IfOk result (λ list. All (IsItemOf acts) list.items) }
    ensures few { IfOk result (λ list. length list.items ≤ most_second) }
    ensures refused { OnErr result WasRefused }
{
    list_second(alloc, setup, steps, serving)
}

/// The third part, where this station serves: an authentication and its Security Mode, idle, a Service Request, a connection, and a user
/// packet.
pub fn third_part(alloc: Global, steps: u32, serving: u8) -> Result<Vec<Item>, AllocError>
    requires { steps ≤ most_steps }
    ensures items { IfOk result (λ list. list.items ≡ third_part steps serving) }
    ensures are_items { (acts : ℕ) → steps + more_acts ≤ acts → serving ≤ 7 → IfOk result (λ list. All (IsItemOf acts) list.items) }
    ensures few { IfOk result (λ list. length list.items ≤ most_third) }
    ensures refused { OnErr result WasRefused }
{
    list_third(alloc, steps, serving)
}

fn list_first(alloc: Global, setup: &Setup, steps: u32) -> Result<Vec<Item>, AllocError>
    requires { steps ≤ most_steps }
    ensures items { IfOk result (λ list. list.items ≡ first_part setup.now steps) }
    ensures refused { OnErr result WasRefused }
{
    let mut list = Vec::new(alloc);
    act(&mut list, UP, send_up(steps), 1)?;
    down_from(&mut list, setup.stations.as_slice(), steps)?;
    act(&mut list, NAS_UP, send_nas_up(steps), 1)?;
    act(&mut list, NAS_DOWN, send_nas_down(steps), 1)?;
    Ok(list)
}

fn list_second(
    alloc: Global,
    setup: &Setup,
    steps: u32,
    serving: u8,
) -> Result<Vec<Item>, AllocError>
    requires { steps ≤ most_steps }
    ensures items { IfOk result (λ list. list.items ≡ second_part setup.now steps serving) }
    ensures refused { OnErr result WasRefused }
{
    let mut list = Vec::new(alloc);
    act(&mut list, CANCEL, cancel(steps, serving), 2)?;
    hands_over(&mut list, steps, serving, other_cell(&setup.cells, serving))?;
    act(&mut list, IDLE, go_idle(steps), 0)?;
    act(&mut list, SERVICE, service(steps), 1)?;
    act(&mut list, CONNECT, connects_at(steps, serving), 3)?;
    act(&mut list, AGAIN, send_again(steps), 1)?;
    Ok(list)
}

fn list_third(alloc: Global, steps: u32, serving: u8) -> Result<Vec<Item>, AllocError>
    requires { steps ≤ most_steps }
    ensures items { IfOk result (λ list. list.items ≡ third_part steps serving) }
    ensures refused { OnErr result WasRefused }
{
    let mut list = Vec::new(alloc);
    act(&mut list, RENEW, authenticates(steps), 0)?;
    act(&mut list, COMMAND_ANEW, begins_security(steps), 2)?;
    act(&mut list, IDLE_ANEW, go_idle(steps), 0)?;
    act(&mut list, SERVICE_ANEW, service(steps), 1)?;
    act(&mut list, CONNECT_ANEW, connects_at(steps, serving), 3)?;
    act(&mut list, ANEW, send_anew(steps), 1)?;
    Ok(list)
}

// A packet down from each of these stations.
fn down_from(list: &mut Vec<Item>, stations: &[StationSetup], steps: u32) -> Result<(), AllocError>
    requires { steps ≤ most_steps }
    ensures items { OnOk result (list.new.items ≡ list.old.items ++ flat_map (down_from steps) stations.now) }
    ensures refused { OnErr result WasRefused }
{
    for station in stations {
        act(list, down(station.id), send_down(steps, station.id), 1)?;
    }
    Ok(())
}

// A handover to the cell of another station, or within this one.
fn hands_over(
    list: &mut Vec<Item>,
    steps: u32,
    serving: u8,
    other: Option<Cell>,
) -> Result<(), AllocError>
    requires { steps ≤ most_steps }
    ensures items { OnOk result (list.new.items ≡ list.old.items ++ hands_over steps serving other) }
    ensures refused { OnErr result WasRefused }
{
    match other {
        Some(_) => {
            act(list, BEGIN, begins_at(steps, serving), 2)?;
            act(list, COMMAND, command(steps, serving), 5)
        }
        None => {
            act(list, BEGIN, begins_at(steps, serving), 0)?;
            act(list, COMMAND, command(steps, serving), 2)
        }
    }
}

// An act, and so many deliveries behind it.
fn act(list: &mut Vec<Item>, name: u32, place: u32, deliveries: u8) -> Result<(), AllocError>
    requires { name ≤ 2000000 }
    ensures items { OnOk result (list.new.items ≡ list.old.items ++ act name place deliveries) }
    ensures refused { OnErr result WasRefused }
{
    chain(list, name, Deed::Act(place), deliveries)
}

// An act or a delivery, and so many deliveries behind it.
fn chain(list: &mut Vec<Item>, name: u32, deed: Deed, times: u8) -> Result<(), AllocError>
    requires { name + times ≤ 3000000 }
    ensures items { OnOk result (list.new.items ≡ list.old.items ++ chain name deed times) }
    ensures refused { OnErr result WasRefused }
{
    if times == 0 {
        return push(list, name, deed, MOST_AT_ONCE);
    }
    push(list, name, deed, 0)?;
    chain(list, name + 1, Deed::Delivery(name), times - 1)
}

fn push(list: &mut Vec<Item>, name: u32, deed: Deed, at_once: u8) -> Result<(), AllocError>
    ensures items { OnOk result (list.new.items ≡ list.old.items ++ record { name = name; deed = deed; at_once = at_once } ∷ []) }
    ensures refused { OnErr result WasRefused }
{
    growth::reserve(list, 1)?;
    list.push_reserved(Item {
        name,
        deed,
        at_once,
    });
    Ok(())
}
