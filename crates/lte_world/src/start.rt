// The system before its first event.
ghost use Rattle.growth.specs.Growth.{WasRefused};
ghost use Rattle.std.specs.Prelude.{◌≡◌, ◌<◌, ◌≤◌, All, IfOk, IsOkUnless, List, map, OnErr};
ghost use Rattle.lte_events.specs.Ranges.{IsSetup, IsStation};
ghost use Rattle.lte_machine.specs.Run.{first_world, stations_of as first_stations};
ghost use Rattle.lte_world.specs.Systems.{Are};

use crate::WorldFault;
use crate::network::Network;
use crate::system::System;
use enb_context::Station;
use lte_events::{Cells, Setup, StationSetup};
use mme_context::Core;
use std::alloc::{AllocError, Global};
use ue_context::Phone;

impl System {
    // The phone, the core and the stations of a setup, to which nothing has happened. It makes the list of the stations.
    pub fn new(alloc: Global, setup: &Setup) -> Result<System, WorldFault>
        requires { IsSetup setup.now }
        ensures memory { IsOkUnless result WorldFault.Memory }
        ensures refused { OnErr result WasRefused }
        ensures begins { IfOk result (λ s. Are (first_world setup.now) s) }
    {
        let setups = setup.stations.as_slice();
        let ids = ids_of(alloc, setups).map_err(|_| WorldFault::Memory)?;
        let stations = stations_of(alloc, &setup.cells, setups).map_err(|_| WorldFault::Memory)?;
        Ok(System {
            phone: Phone::new(setup.caps),
            core: Core::with_first_ncc(
                &setup.cells,
                setup.core_priority,
                setup.core_first,
                setup.core_first_ncc,
            ),
            ids,
            stations,
            network: Network::new(alloc),
        })
    }
}

// The numbers of the stations.
fn ids_of(alloc: Global, setups: &[StationSetup]) -> Result<Vec<u8>, AllocError>
    ensures ids { IfOk result (λ ids. ids.items ≡ map (λ s. s.id) setups.now) }
    ensures refused { OnErr result WasRefused }
{
    growth::collect(setups.iter().map(|s| s.id), alloc)
}

// The stations, none of which has served anybody.
fn stations_of(
    alloc: Global,
    cells: &Cells,
    setups: &[StationSetup],
) -> Result<Vec<Station>, AllocError>
    requires { All IsStation setups.now }
    ensures stations { IfOk result (λ stations. stations.items ≡ first_stations cells.now setups.now) }
    ensures refused { OnErr result WasRefused }
{
    let mut stations = Vec::new(alloc);
    for setup in setups {
        growth::push(
            &mut stations,
            Station::new(setup.id, cells, setup.priority, setup.first),
        )?;
    }
    Ok(stations)
}
