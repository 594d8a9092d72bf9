// What a text says, for each kind of system alike.
ghost use Rattle.growth.specs.Growth.{WasRefused};
ghost use Rattle.std.specs.Prelude.{◌≡◌, ◌≢◌, ◌≤◌, ◌<◌, [], length, Some, None, Ok, Err, IfOk, IfErr, OnOk, All};
ghost use Rattle.toml.specs.View.{table_view, items_view, view};
ghost use Rattle.lte_events.specs.Ranges.{IsSetup};
ghost use Rattle.lte_events.specs.Scenario.{most_events, CanHappen, IsScenarioBy};
ghost use Rattle.scenario_file.specs.Values.{result_map, read_in};
ghost use Rattle.scenario_file.specs.Setup.{start_of};
ghost use Rattle.scenario_file.specs.Reading.{at_place, before_steps, steps_of, step_in, step_at, kept_from, if_few, whole_of, document_of, text_of};

use crate::faults::Refusal;
use crate::kept::{Kept, Step};
use crate::setup::Start;
use crate::systems::System;
use crate::{Field, ScenarioFault, setup, steps, values};
use lte_events::Event;
use std::alloc::Global;
use toml::{Table, Value};

// What a system starts with, and what is kept of the steps.
#[derive(Drop)]
pub(crate) struct Whole<E> {
    pub(crate) start: Start,
    pub(crate) steps: E,
}

// What a text says of a system of this kind, or its first fault.
pub(crate) fn read_as<E: Kept>(
    alloc: Global,
    octets: &[u8],
    system: System,
) -> Result<Whole<E>, ScenarioFault>
    ensures whole { IfOk result (λ w. text_of E.kept system octets.now ≡ Ok (w.start, E.items w.steps)) }
    ensures refused { IfErr result (λ fault. ¬ (fault ≡ ScenarioFault.Memory) → text_of E.kept system octets.now ≡ Err fault) }
    ensures memory { IfErr result (λ fault. fault ≡ ScenarioFault.Memory → WasRefused) }
    ensures is_scenario { IfOk result (λ w. IsScenarioBy E.happening w.start.setup (E.items w.steps)) }
    ensures cells { IfOk result (λ w. 1 ≤ length w.start.setup.cells) }
    ensures phones { IfOk result (λ w. (1 ≤ w.start.phones) × (w.start.phones ≤ 256)) }
    ensures cores { IfOk result (λ w. All (λ core. core ≤ 1) w.start.core_of × (length w.start.core_of ≡ 8)) }
    ensures phones_stand { IfOk result (λ w. All (E.is_of w.start.phones) (E.items w.steps)) }
{
    let document = document(alloc, octets)?;
    whole_in(alloc, &document, system)
}

// The document that a text is.
fn document(alloc: Global, octets: &[u8]) -> Result<Table, ScenarioFault>
    ensures document { IfOk result (λ t. document_of octets.now ≡ Some (table_view t)) }
    ensures refused { IfErr result (λ fault. ¬ (fault ≡ ScenarioFault.Memory) → (fault ≡ ScenarioFault.NotToml) × (document_of octets.now ≡ None)) }
    ensures memory { IfErr result (λ fault. fault ≡ ScenarioFault.Memory → WasRefused) }
{
    match toml_text::table_from_slice(alloc, octets) {
        Ok(table) => Ok(table),
        Err(fault) => {
            if fault.is_memory() {
                Err(ScenarioFault::Memory)
            } else {
                Err(ScenarioFault::NotToml)
            }
        }
    }
}

// What a document says.
#[tactic(auto, unfolding(crate::specs::Reading::whole_of))]
fn whole_in<E: Kept>(
    alloc: Global,
    document: &Table,
    system: System,
) -> Result<Whole<E>, ScenarioFault>
    ensures whole { IfOk result (λ w. whole_of E.kept system (table_view document.now) ≡ Ok (w.start, E.items w.steps)) }
    ensures refused { IfErr result (λ fault. ¬ (fault ≡ ScenarioFault.Memory) → whole_of E.kept system (table_view document.now) ≡ Err fault) }
    ensures memory { IfErr result (λ fault. fault ≡ ScenarioFault.Memory → WasRefused) }
    ensures before_steps { (fault : ScenarioFault) → before_steps system (table_view document.now) ≡ Err fault → result ≡ Err fault }
    ensures is_scenario { IfOk result (λ w. IsScenarioBy E.happening w.start.setup (E.items w.steps)) }
    ensures cells { IfOk result (λ w. 1 ≤ length w.start.setup.cells) }
    ensures phones { IfOk result (λ w. (1 ≤ w.start.phones) × (w.start.phones ≤ 256)) }
    ensures cores { IfOk result (λ w. All (λ core. core ≤ 1) w.start.core_of × (length w.start.core_of ≡ 8)) }
    ensures phones_stand { IfOk result (λ w. All (E.is_of w.start.phones) (E.items w.steps)) }
{
    let start = start_in(document, system)?;
    let values = steps_in(document)?;
    if_few(values)?;
    let steps = kept_steps(alloc, values, system, &start)?;
    Ok(Whole { start, steps })
}

fn start_in(document: &Table, system: System) -> Result<Start, ScenarioFault>
    ensures value { result ≡ at_place None (start_of system (table_view document.now)) }
    ensures of_text { IfErr result (λ fault. fault ≢ ScenarioFault.Memory) }
    ensures can { IfOk result (λ start. IsSetup start.setup) }
    ensures cells { IfOk result (λ start. 1 ≤ length start.setup.cells) }
    ensures phones { IfOk result (λ start. (1 ≤ start.phones) × (start.phones ≤ 256)) }
    ensures cores { IfOk result (λ start. All (λ core. core ≤ 1) start.core_of × (length start.core_of ≡ 8)) }
{
    match setup::start_in(document, system) {
        Ok(start) => Ok(start),
        Err(refusal) => Err(refusal.at(None)),
    }
}

fn steps_in(document: &Table) -> Result<&[Value], ScenarioFault>
    ensures value { result_map (λ vs. items_view vs.now) result ≡ at_place None (steps_of (table_view document.now)) }
    ensures of_text { IfErr result (λ fault. fault ≢ ScenarioFault.Memory) }
{
    match steps_of(document) {
        Ok(steps) => Ok(steps),
        Err(refusal) => Err(refusal.at(None)),
    }
}

// The tables of the steps, of which there may be none.
#[tactic(auto, unfolding(crate::specs::Reading::steps_of))]
fn steps_of(document: &Table) -> Result<&[Value], Refusal>
    ensures { result_map (λ vs. items_view vs.now) result ≡ steps_of (table_view document.now) }
{
    match values::found(document, Field::Step) {
        None => Ok(&[]),
        Some(_) => values::tables(document, Field::Step),
    }
}

fn if_few(steps: &[Value]) -> Result<(), ScenarioFault>
    ensures value { result ≡ if_few (items_view steps.now) }
    ensures of_text { IfErr result (λ fault. fault ≢ ScenarioFault.Memory) }
    ensures few { OnOk result (length steps.now ≤ most_events) }
{
    if setup::count(steps) > 200_000 {
        return Err(ScenarioFault::TooMany);
    }
    Ok(())
}

// What is kept of the steps, in their order.
fn kept_steps<E: Kept>(
    alloc: Global,
    values: &[Value],
    system: System,
    start: &Start,
) -> Result<E, ScenarioFault>
    requires setup { IsSetup start.now.setup }
    requires phones { 1 ≤ start.now.phones }
    requires few { length values.now ≤ most_events }
    ensures steps { IfOk result (λ es. kept_from E.kept system start.now [] (items_view values.now) ≡ Ok (E.items es)) }
    ensures refused { IfErr result (λ fault. ¬ (fault ≡ ScenarioFault.Memory) → kept_from E.kept system start.now [] (items_view values.now) ≡ Err fault) }
    ensures memory { IfErr result (λ fault. fault ≡ ScenarioFault.Memory → WasRefused) }
    ensures can { IfOk result (λ es. All (λ e. CanHappen start.now.setup (E.happening e)) (E.items es)) }
    ensures stand { IfOk result (λ es. All (E.is_of start.now.phones) (E.items es)) }
    ensures few { IfOk result (λ es. length (E.items es) ≤ most_events) }
{
    let mut steps = E::new(alloc);
    let mut step = Step {
        phone: 0,
        event: Event::Deliver(0),
    };
    for value in values {
        step_at(value, system, start, steps.len() as u32, &mut step)?;
        steps.keep(&step)?;
    }
    Ok(steps)
}

// What a step says, by its number.
fn step_at(
    value: &Value,
    system: System,
    start: &Start,
    n: u32,
    step: &mut Step,
) -> Result<(), ScenarioFault>
    requires setup { IsSetup start.now.setup }
    requires phones { 1 ≤ start.now.phones }
    ensures value { read_in result step.new ≡ step_at system start.now n (view value.now) }
    ensures of_text { IfErr result (λ fault. fault ≢ ScenarioFault.Memory) }
    ensures can { OnOk result (CanHappen start.now.setup step.new.event) }
    ensures phone { OnOk result (step.new.phone < start.now.phones) }
{
    match step_in(value, system, start, step) {
        Ok(()) => Ok(()),
        Err(refusal) => Err(refusal.at(Some(n))),
    }
}

fn step_in(value: &Value, system: System, start: &Start, step: &mut Step) -> Result<(), Refusal>
    requires setup { IsSetup start.now.setup }
    requires phones { 1 ≤ start.now.phones }
    ensures value { read_in result step.new ≡ step_in system start.now (view value.now) }
    ensures can { OnOk result (CanHappen start.now.setup step.new.event) }
    ensures phone { OnOk result (step.new.phone < start.now.phones) }
{
    match value.as_table() {
        Some(table) => steps::step_in(table, system, start, step),
        None => Err(Refusal::Wrong(Field::Step)),
    }
}
