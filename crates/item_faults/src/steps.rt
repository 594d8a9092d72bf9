ghost use Rattle.growth.specs.Growth.{WasRefused};
ghost use Rattle.std.specs.Prelude.{◌≡◌, ◌+◌, ◌≤◌, ℕ, All, None, IfOk, OnErr, length, slice_get};
ghost use Rattle.item_faults.specs.Entries.{most_steps};
ghost use Rattle.item_faults.specs.Laws.{AreEntries, IsStep};
ghost use Rattle.item_faults.specs.Steps.{asks, cause, cause_from, counts, deed_of, delivered, ends, entries_of, entry_of, is_answer, is_attempt, is_connect, is_same, lets, messages_of, moves_with, senders_of, source_of, step_of};

use crate::again::again_of;
use crate::{Entry, Message};
use items::Deed;
use std::alloc::{AllocError, Global};

/// What a step does, as far as faults depend on it.
#[derive(Clone, Copy)]
pub enum Does {
    /// It delivers what the step of this number sent.
    Delivers(u32),
    /// It delivers a record that was not sent by then.
    Nothing,
    /// A station commands its handover.
    Command,
    /// A station opens an attempt over X2.
    StartX2,
    /// A station opens an attempt over S1 or within itself.
    Start,
    /// A station cancels its attempt.
    Cancel,
    /// The core sets up the context of the phone at a station.
    Connect,
    /// Another act.
    Act,
}

/// A step of a scenario, as its run tells it.
#[derive(Clone, Copy)]
pub struct Step {
    /// Its number.
    pub number: u32,
    /// What it does.
    pub does: Does,
    /// The station that takes it, if one does.
    pub station: Option<u8>,
    /// The message that it sends, if it sends one.
    pub sends: Option<Message>,
}

// The step that sent what this one delivers.
fn source_of(does: Does) -> Option<u32>
    ensures { result ≡ source_of does }
{
    match does {
        Does::Delivers(of) => Some(of),
        _ => None,
    }
}

fn at(number: u32, steps: &[Step]) -> Option<Step>
    ensures { result ≡ slice_get steps.now number }
{
    steps.get(number as usize).copied()
}

/// The step that sent what this one delivers.
pub(crate) fn sender(does: Does, steps: &[Step]) -> Option<Step>
    ensures { result ≡ step_of steps.now (source_of does) }
{
    match source_of(does) {
        Some(number) => at(number, steps),
        None => None,
    }
}

/// The message that a step delivers.
pub fn delivered(does: Does, steps: &[Step]) -> Option<Message>
    ensures { result ≡ delivered steps.now does }
{
    match sender(does, steps) {
        Some(step) => step.sends,
        None => None,
    }
}

fn is_answer(message: Option<Message>) -> bool
    ensures { result ≡ is_answer message }
{
    match message {
        Some(Message::X2HandoverRequestAcknowledge) => true,
        Some(Message::HandoverCommand) => true,
        _ => false,
    }
}

fn asks(message: Option<Message>) -> bool
    ensures { result ≡ asks message }
{
    match message {
        Some(Message::ServiceRequest) => true,
        Some(Message::NasSecurityModeComplete) => true,
        _ => false,
    }
}

fn is_attempt(does: Does) -> bool
    ensures { result ≡ is_attempt does }
{
    match does {
        Does::Command => true,
        Does::StartX2 => true,
        Does::Start => true,
        Does::Cancel => true,
        _ => false,
    }
}

fn is_connect(does: Does) -> bool
    ensures { result ≡ is_connect does }
{
    match does {
        Does::Connect => true,
        _ => false,
    }
}

fn is_same(one: Option<u8>, other: Option<u8>) -> bool
    ensures { result ≡ is_same one other }
{
    match one {
        Some(one) => match other {
            Some(other) => other == one,
            None => false,
        },
        None => false,
    }
}

// Whether a step lets this act happen.
fn lets(act: &Step, step: &Step, steps: &[Step]) -> bool
    ensures { result ≡ lets steps.now act.now.does act.now.station step.now }
{
    match act.does {
        Does::Command => {
            is_same(act.station, step.station) && is_answer(delivered(step.does, steps))
        }
        Does::Connect => asks(delivered(step.does, steps)),
        _ => false,
    }
}

// Whether a step ends what lets it.
fn ends(act: &Step, step: &Step) -> bool
    ensures { result ≡ ends act.now.does act.now.station step.now }
{
    match act.does {
        Does::Command => is_same(act.station, step.station) && is_attempt(step.does),
        Does::Connect => is_connect(step.does),
        _ => false,
    }
}

fn cause(lets: bool, ends: bool, number: u32, before: Option<u32>) -> Option<u32>
    ensures { result ≡ cause lets ends number before }
{
    if lets {
        Some(number)
    } else if ends {
        None
    } else {
        before
    }
}

// What makes an act happen.
#[tactic(auto, unfolding(crate::specs::Steps::cause_from))]
fn cause_of(act: &Step, steps: &[Step]) -> Option<u32>
    ensures { result ≡ cause_from steps.now act.now None steps.now }
{
    let mut found = None;
    for step in steps {
        if step.number == act.number {
            return found;
        }
        found = cause(lets(act, step, steps), ends(act, step), step.number, found);
    }
    found
}

fn moves_with(step: &Step, steps: &[Step]) -> Option<u32>
    ensures { result ≡ moves_with steps.now step.now step.now.does }
{
    match step.does {
        Does::Delivers(of) => Some(of),
        _ => cause_of(step, steps),
    }
}

fn deed_of(number: u32, does: Does) -> Deed
    ensures { result ≡ deed_of number does }
{
    match does {
        Does::Delivers(of) => Deed::Delivery(of),
        _ => Deed::Act(number),
    }
}

fn entry_of(acts: u32, step: &Step, steps: &[Step]) -> Entry
    requires { acts ≤ most_steps }
    ensures { result ≡ entry_of acts steps.now step.now }
{
    let deed = deed_of(step.number, step.does);
    let moves_with = moves_with(step, steps);
    let again = again_of(acts, sender(step.does, steps), steps);
    Entry {
        name: step.number,
        deed,
        moves_with,
        again,
    }
}

/// The items of a scenario of so many acts. Behind these stand 26 acts by which messages are sent again: `resend`, `service`, and for each of
/// eight stations `command`, `ask` and `cancel`.
pub fn entries_of(alloc: Global, acts: u32, steps: &[Step]) -> Result<Vec<Entry>, AllocError>
    requires { acts ≤ most_steps }
    ensures entries { IfOk result (λ entries. entries.items ≡ entries_of acts steps.now) }
    ensures are_entries { (total : ℕ) → acts + 26 ≤ total → All (IsStep acts) steps.now → IfOk result (λ entries. AreEntries total entries.items) }
    ensures as_many { IfOk result (λ entries. length entries.items ≡ length steps.now) }
    ensures refused { OnErr result WasRefused }
{
    entries_by(alloc, acts, steps)
}

fn entries_by(alloc: Global, acts: u32, steps: &[Step]) -> Result<Vec<Entry>, AllocError>
    requires { acts ≤ most_steps }
    ensures entries { IfOk result (λ entries. entries.items ≡ entries_of acts steps.now) }
    ensures refused { OnErr result WasRefused }
{
    let mut entries = Vec::new(alloc);
    for step in steps {
        let entry = entry_of(acts, step, steps);
        growth::reserve(&mut entries, 1)?;
        entries.push_reserved(entry);
    }
    Ok(entries)
}

fn counts(packets: bool, message: Option<Message>) -> bool
    ensures { result ≡ counts packets message }
{
    match message {
        Some(Message::UserPacket) => packets,
        Some(_) => true,
        None => false,
    }
}

/// The messages that a fault may happen to: all that is delivered, and user packets if so chosen.
#[tactic(auto, unfolding(crate::specs::Steps::messages_from))]
pub fn messages_of(alloc: Global, packets: bool, steps: &[Step]) -> Result<Vec<u32>, AllocError>
    ensures messages { IfOk result (λ numbers. numbers.items ≡ messages_of packets steps.now) }
    ensures refused { OnErr result WasRefused }
{
    let mut found = Vec::new(alloc);
    for step in steps {
        if counts(packets, delivered(step.does, steps)) {
            growth::reserve(&mut found, 1)?;
            found.push_reserved(step.number);
        }
    }
    Ok(found)
}

/// The steps that send.
#[tactic(auto, unfolding(crate::specs::Steps::senders_from))]
pub fn senders_of(alloc: Global, steps: &[Step]) -> Result<Vec<u32>, AllocError>
    ensures senders { IfOk result (λ numbers. numbers.items ≡ senders_of steps.now) }
    ensures refused { OnErr result WasRefused }
{
    let mut found = Vec::new(alloc);
    for step in steps {
        if step.sends.is_some() {
            growth::reserve(&mut found, 1)?;
            found.push_reserved(step.number);
        }
    }
    Ok(found)
}
