ghost use Rattle.growth.specs.Growth.{WasRefused};
ghost use Rattle.std.specs.Prelude.{◌≡◌, ◌≤◌, ◌<◌, ◌∷◌, ◌++◌, [], false, length, IfOk, IsOkUnless, OnErr};
ghost use Rattle.std.specs.List.{list_any};
ghost use Rattle.lte_events.specs.Site.{is_site};
ghost use Rattle.lte_events.specs.Scenario.{IsScenario};
ghost use Rattle.scenario_file.specs.Draws.{cell_of, station_setup, site_of, generated_caps, generated_setup, generated};

use crate::first_steps::FirstSteps;
use crate::journey::Journey;
use crate::setup::usual_priority;
use crate::turns::add_opening;
use crate::{Scenario, ScenarioFault};
use alg_choice::Caps;
use annex_a_keys::Cell;
use lte_events::{Cells, Events, FirstNcc, Setup, StationSetup};
use rec_base::Few;
use std::alloc::Global;

/// The scenario of `n` steps that a seed gives, n being 1 to 100,000: a phone with traffic and handovers among
/// four stations, over X2, over S1 and within a station, with answers that come and answers that are lost. It
/// is the same for ever, and want of memory, which std refused, is the one refusal.
pub fn generate(alloc: Global, n: u32, seed: u32) -> Result<Scenario, ScenarioFault>
    requires some { 1 ≤ n }
    requires few { n ≤ 100000 }
    ensures setup { IfOk result (λ s. s.setup ≡ generated_setup) }
    ensures events { IfOk result (λ s. s.events.items ≡ generated n seed) }
    ensures steps { IfOk result (λ s. length s.events.items ≡ n) }
    ensures memory { IsOkUnless result ScenarioFault.Memory }
    ensures refused { OnErr result WasRefused }
    ensures is_scenario { IfOk result (λ s. IsScenario s.setup s.events.items) }
{
    let setup = generated_setup();
    let events = generated_events(alloc, n, seed)?;
    Ok(Scenario { setup, events })
}

// The first so many steps.
fn generated_events(alloc: Global, n: u32, seed: u32) -> Result<Events, ScenarioFault>
    ensures events { IfOk result (λ events. events.items ≡ generated n seed) }
    ensures memory { IsOkUnless result ScenarioFault.Memory }
    ensures refused { OnErr result WasRefused }
{
    let mut first = FirstSteps::new(alloc, n as usize);
    add_opening(&mut first)?;
    let mut journey = Journey {
        state: u64::from(seed),
        serving: 0,
        unanswered: false,
    };
    for _turn in 0..n {
        if first.is_full() {
            break;
        }
        journey.turn().add_to(&mut first)?;
    }
    Ok(first.into_steps())
}

// Four stations, each with one cell.
#[tactic(auto, unfolding(crate::specs::Draws::generated_setup))]
fn generated_setup() -> Setup
    ensures { result ≡ generated_setup }
{
    let mut stations = Few::new();
    let mut cells = Cells::new();
    for s in 0..4u8 {
        stations.push(station_setup(s));
        add_cell(&mut cells, s);
    }
    Setup {
        caps: generated_caps(),
        core_priority: usual_priority(),
        core_first: 1,
        core_first_ncc: FirstNcc::One,
        stations,
        cells,
    }
}

fn station_setup(s: u8) -> StationSetup
    ensures { result ≡ station_setup s }
{
    StationSetup {
        id: s,
        priority: usual_priority(),
        first: 1,
    }
}

// Adds the cell of a station, which is new.
fn add_cell(cells: &mut Cells, s: u8)
    requires station { s ≤ 7 }
    requires few { length cells.old < 32 }
    requires new { list_any (is_site (cell_of s)) cells.old ≡ false }
    ensures { cells.new ≡ cells.old ++ site_of s ∷ [] }
{
    let _ = cells.add(s, cell_of(s));
}

// The one cell of a station.
pub(crate) fn cell_of(s: u8) -> Cell
    ensures { result ≡ cell_of s }
{
    match Cell::new(10 + u16::from(s), 100 + u32::from(s)) {
        Ok(cell) => cell,
        Err(_) => unreachable!(),
    }
}

// EEA0 and EEA2, EIA2.
pub(crate) fn generated_caps() -> Caps
    ensures { result ≡ generated_caps }
{
    Caps {
        eea: 0xa0,
        eia: 0x20,
    }
}
