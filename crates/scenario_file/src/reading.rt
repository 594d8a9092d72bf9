ghost use Rattle.growth.specs.Growth.{WasRefused};
ghost use Rattle.std.specs.Prelude.{◌≡◌, ◌≤◌, ◌<◌, length, Ok, Err, IfOk, IfErr, All};
ghost use Rattle.lte_events.specs.Scenario.{IsScenario, IsScenarioBy};
ghost use Rattle.scenario_file.specs.Reading.{reading_of, fleet_reading_of, two_reading_of};

use crate::ScenarioFault;
use crate::systems::System;
use crate::whole::{Whole, read_as};
use lte_events::{Events, FleetEvents, Setup};
use std::alloc::Global;

/// What a system starts with, and what then happens to it.
#[derive(Drop)]
pub struct Scenario {
    /// The phone, the core, the stations and their cells.
    pub setup: Setup,
    /// The events, in their order, at most 200,000.
    pub events: Events,
}

/// What a fleet of phones over the same stations and core starts with, and what then happens to them.
#[derive(Drop)]
pub struct FleetScenario {
    /// Each phone, the core, the stations and their cells.
    pub setup: Setup,
    /// How many phones there are, 1 to 256.
    pub phones: u16,
    /// The events, each with the phone that it happens to, in their order, at most 200,000.
    pub events: FleetEvents,
}

/// What a system of two cores starts with, and what then happens to it.
#[derive(Drop)]
pub struct TwoScenario {
    /// The phone, the cores, the stations and their cells.
    pub setup: Setup,
    /// The core, 0 or 1, of each station by its number; 0 if there is no such station.
    pub core_of: [u8; 8],
    /// The events, in their order, at most 200,000.
    pub events: Events,
}

/// The scenario that a text says, in TOML, or its first fault. `Memory` where std refused memory, which says nothing
/// of the text.
#[tactic(auto, unfolding(crate::specs::Reading::reading_of))]
pub fn read(alloc: Global, octets: &[u8]) -> Result<Scenario, ScenarioFault>
    ensures scenario { IfOk result (λ s. reading_of octets.now ≡ Ok (s.setup, s.events.items)) }
    ensures refused { IfErr result (λ fault. ¬ (fault ≡ ScenarioFault.Memory) → reading_of octets.now ≡ Err fault) }
    ensures memory { IfErr result (λ fault. fault ≡ ScenarioFault.Memory → WasRefused) }
    ensures is_scenario { IfOk result (λ s. IsScenario s.setup s.events.items) }
    ensures cells { IfOk result (λ s. 1 ≤ length s.setup.cells) }
{
    let whole: Whole<Events> = read_as(alloc, octets, System::Single)?;
    Ok(Scenario {
        setup: whole.start.setup,
        events: whole.steps,
    })
}

/// The scenario of a fleet that a text says, in TOML, or its first fault, or `Memory`.
#[tactic(auto, unfolding(crate::specs::Reading::fleet_reading_of))]
pub fn read_fleet(alloc: Global, octets: &[u8]) -> Result<FleetScenario, ScenarioFault>
    ensures scenario { IfOk result (λ s. fleet_reading_of octets.now ≡ Ok (s.setup, s.phones, s.events.items)) }
    ensures refused { IfErr result (λ fault. ¬ (fault ≡ ScenarioFault.Memory) → fleet_reading_of octets.now ≡ Err fault) }
    ensures memory { IfErr result (λ fault. fault ≡ ScenarioFault.Memory → WasRefused) }
    ensures is_scenario { IfOk result (λ s. IsScenarioBy (λ step. step.1) s.setup s.events.items) }
    ensures cells { IfOk result (λ s. 1 ≤ length s.setup.cells) }
    ensures phones { IfOk result (λ s. (1 ≤ s.phones) × (s.phones ≤ 256)) }
    ensures phones_stand { IfOk result (λ s. All (λ step. step.0 < s.phones) s.events.items) }
{
    let whole: Whole<FleetEvents> = read_as(alloc, octets, System::Fleet)?;
    let phones = whole.start.phones;
    Ok(FleetScenario {
        setup: whole.start.setup,
        phones,
        events: whole.steps,
    })
}

/// The scenario of two cores that a text says, in TOML, or its first fault, or `Memory`.
#[tactic(auto, unfolding(crate::specs::Reading::two_reading_of))]
pub fn read_two(alloc: Global, octets: &[u8]) -> Result<TwoScenario, ScenarioFault>
    ensures scenario { IfOk result (λ s. two_reading_of octets.now ≡ Ok (s.setup, s.core_of, s.events.items)) }
    ensures refused { IfErr result (λ fault. ¬ (fault ≡ ScenarioFault.Memory) → two_reading_of octets.now ≡ Err fault) }
    ensures memory { IfErr result (λ fault. fault ≡ ScenarioFault.Memory → WasRefused) }
    ensures is_scenario { IfOk result (λ s. IsScenario s.setup s.events.items) }
    ensures cells { IfOk result (λ s. 1 ≤ length s.setup.cells) }
    ensures cores { IfOk result (λ s. All (λ core. core ≤ 1) s.core_of) }
    ensures eight { IfOk result (λ s. length s.core_of ≡ 8) }
{
    let whole: Whole<Events> = read_as(alloc, octets, System::TwoCores)?;
    let core_of = whole.start.core_of;
    Ok(TwoScenario {
        setup: whole.start.setup,
        core_of,
        events: whole.steps,
    })
}
