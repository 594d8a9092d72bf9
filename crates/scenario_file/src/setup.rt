// What a system starts with: the tables of the phone, the core and the stations.
ghost use Rattle.std.specs.Prelude.{◌≡◌, ◌≤◌, ◌<◌, ◌+◌, ◌*◌, length, IfOk, IfSome};
ghost use Rattle.toml.specs.View.{table_view, items_view, view};
ghost use Rattle.scenario_file.specs.declared.fields.Field.TheVariants.{Priority as PriorityField, First, FirstNcc as FirstNccField};
ghost use Rattle.lte_events.specs.declared.setups.FirstNcc.TheVariants.{One};
ghost use Rattle.scenario_file.specs.Values.{count_of, or_default, priority_in, first_in, first_ncc_in};
ghost use Rattle.scenario_file.specs.Setup.{usual_priority, phones_in, phones_of, phone_of, shared_in, core_in, usual_core, core_of, id_in, with_site, sites_from, cells_in, core_number_in, with_station, station_from, stations_from, no_stations, network_of, start_of};

use crate::faults::Refusal;
use crate::keys::only;
use crate::systems::System;
use crate::{Field, values};
use alg_choice::{Caps, Eea, Priority};
use annex_a_keys::Cell;
use lte_events::{Cells, FirstNcc, Setup, StationSetup};
use rec_base::Few;
use toml::{Table, Value};

// The algorithms that the core or a station may choose, and the first number that it draws.
#[derive(Clone, Copy)]
pub(crate) struct Numbers {
    pub(crate) priority: Priority,
    pub(crate) first: u32,
}

// What the core starts with.
#[derive(Clone, Copy)]
pub(crate) struct CoreStart {
    pub(crate) numbers: Numbers,
    pub(crate) first_ncc: FirstNcc,
}

// The stations read so far, their cells, and the core of each by its number.
#[derive(Drop)]
pub(crate) struct Network {
    pub(crate) stations: Few<StationSetup, 8>,
    pub(crate) cells: Cells,
    pub(crate) core_of: [u8; 8],
}

// What a system starts with: the phone, the core and the stations; how many such phones; and the core of each
// station by its number, which is 0 where there is no such station.
#[derive(Drop)]
pub(crate) struct Start {
    pub(crate) setup: Setup,
    pub(crate) phones: u16,
    pub(crate) core_of: [u8; 8],
}

// What a document says that a system starts with.
#[tactic(auto, unfolding(crate::specs::Setup::start_of))]
pub(crate) fn start_in(document: &Table, system: System) -> Result<Start, Refusal>
    ensures { result ≡ start_of system (table_view document.now) }
{
    only(
        document,
        &[Field::Phone, Field::Core, Field::Station, Field::Step],
        system.more_at_top(),
    )?;
    let phones = phones(document, system)?;
    let caps = phone(document)?;
    let core = core(document)?;
    let network = network_in(document, system)?;
    let core_of = network.core_of;
    let numbers = core.numbers;
    let first_ncc = core.first_ncc;
    Ok(Start {
        setup: Setup {
            caps,
            core_priority: numbers.priority,
            core_first: numbers.first,
            core_first_ncc: first_ncc,
            stations: network.stations,
            cells: network.cells,
        },
        phones,
        core_of,
    })
}

// How many phones there are.
fn phones(document: &Table, system: System) -> Result<u16, Refusal>
    ensures { result ≡ phones_of system (table_view document.now) }
{
    match system {
        System::Fleet => phones_in(document),
        System::Single | System::TwoCores => Ok(1),
    }
}

// The table of the fleet.
#[tactic(auto, unfolding(crate::specs::Setup::phones_in))]
fn phones_in(document: &Table) -> Result<u16, Refusal>
    ensures { result ≡ phones_in (table_view document.now) }
{
    let fleet = values::table(document, Field::Fleet)?;
    only(fleet, &[Field::Phones], &[])?;
    Ok(values::number(fleet, Field::Phones, 1, 256)? as u16)
}

// The table of the phone.
#[tactic(auto, unfolding(crate::specs::Setup::phone_of))]
fn phone(document: &Table) -> Result<Caps, Refusal>
    ensures { result ≡ phone_of (table_view document.now) }
{
    let phone = values::table(document, Field::Phone)?;
    only(phone, &[Field::Caps], &[])?;
    values::caps(phone, Field::Caps)
}

// The table of the core, which need not stand.
#[tactic(auto, unfolding(crate::specs::Setup::core_of))]
fn core(document: &Table) -> Result<CoreStart, Refusal>
    ensures { result ≡ core_of (table_view document.now) }
{
    match values::found(document, Field::Core) {
        None => Ok(usual_core()),
        Some(_) => core_in(document, Field::Core),
    }
}

#[tactic(auto, unfolding(crate::specs::Setup::core_in))]
fn core_in(document: &Table, field: Field) -> Result<CoreStart, Refusal>
    ensures { result ≡ core_in field (table_view document.now) }
{
    let core = values::table(document, field)?;
    only(core, &[Field::Priority, Field::First, Field::FirstNcc], &[])?;
    let numbers = shared_in(core)?;
    let first_ncc = first_ncc_in(core)?;
    Ok(CoreStart { numbers, first_ncc })
}

// What it starts with where the table does not stand.
fn usual_core() -> CoreStart
    ensures { result ≡ usual_core }
{
    let numbers = Numbers {
        priority: usual_priority(),
        first: 1,
    };
    CoreStart {
        numbers,
        first_ncc: FirstNcc::One,
    }
}

// The fields that the core and a station share.
#[tactic(auto, unfolding(crate::specs::Setup::shared_in))]
fn shared_in(table: &Table) -> Result<Numbers, Refusal>
    ensures { result ≡ shared_in (table_view table.now) }
{
    let priority = priority_in(table)?;
    let first = first_in(table)?;
    Ok(Numbers { priority, first })
}

fn priority_in(table: &Table) -> Result<Priority, Refusal>
    ensures { result ≡ or_default usual_priority priority_in PriorityField (table_view table.now) }
{
    match values::found(table, Field::Priority) {
        None => Ok(usual_priority()),
        Some(_) => values::priority(table, Field::Priority),
    }
}

fn first_in(table: &Table) -> Result<u32, Refusal>
    ensures { result ≡ or_default 1 first_in First (table_view table.now) }
{
    match values::found(table, Field::First) {
        None => Ok(1),
        Some(_) => values::first(table, Field::First),
    }
}

fn first_ncc_in(table: &Table) -> Result<FirstNcc, Refusal>
    ensures { result ≡ or_default One first_ncc_in FirstNccField (table_view table.now) }
{
    match values::found(table, Field::FirstNcc) {
        None => Ok(FirstNcc::One),
        Some(_) => values::first_ncc(table, Field::FirstNcc),
    }
}

// 128-EEA2 before EEA0.
pub(crate) fn usual_priority() -> Priority
    ensures { result ≡ usual_priority }
{
    Priority::new(Eea::Eea2, Some(Eea::Eea0))
}

// The tables of the stations.
#[tactic(auto, unfolding(crate::specs::Setup::network_of))]
fn network_in(document: &Table, system: System) -> Result<Network, Refusal>
    ensures { result ≡ network_of system (table_view document.now) }
{
    let values = values::tables(document, Field::Station)?;
    match count(values) {
        0 => Err(Refusal::Missing(Field::Station)),
        1..=8 => stations(values, system),
        _ => Err(Refusal::Wrong(Field::Station)),
    }
}

// How many there are.
#[tactic(auto, using(crate::proofs::Elements::count_of_values))]
pub(crate) fn count(values: &[Value]) -> usize
    ensures value { result ≡ count_of (items_view values.now) }
    ensures len { result ≡ length values.now }
{
    values.len()
}

// The stations in their order.
fn stations(values: &[Value], system: System) -> Result<Network, Refusal>
    requires { length values.now ≤ 8 }
    ensures { result ≡ stations_from system no_stations (items_view values.now) }
{
    let mut network = Network {
        stations: Few::new(),
        cells: Cells::new(),
        core_of: [0; 8],
    };
    for value in values {
        network = station(network, value, system)?;
    }
    Ok(network)
}

// The stations with one more.
fn station(network: Network, value: &Value, system: System) -> Result<Network, Refusal>
    requires stations { length network.stations ≤ 7 }
    requires cells { length network.cells ≤ 28 }
    ensures value { result ≡ station_from system network (view value.now) }
    ensures one_more { IfOk result (λ next. length next.stations ≡ length network.stations + 1) }
    ensures few { IfOk result (λ next. length next.cells ≤ length network.cells + 4) }
{
    match value.as_table() {
        Some(table) => with_station(network, table, system),
        None => Err(Refusal::Wrong(Field::Station)),
    }
}

#[tactic(auto, unfolding(crate::specs::Setup::with_station))]
fn with_station(network: Network, table: &Table, system: System) -> Result<Network, Refusal>
    requires stations { length network.stations ≤ 7 }
    requires cells { length network.cells ≤ 28 }
    ensures value { result ≡ with_station system network (table_view table.now) }
    ensures one_more { IfOk result (λ next. length next.stations ≡ length network.stations + 1) }
    ensures few { IfOk result (λ next. length next.cells ≤ length network.cells + 4) }
{
    let Network {
        mut stations,
        cells,
        mut core_of,
    } = network;
    only(
        table,
        &[Field::Id, Field::Priority, Field::First, Field::Cells],
        system.more_of_station(),
    )?;
    let id = id_in(table, stations.as_slice())?;
    let numbers = shared_in(table)?;
    let cells = cells_in(table, cells, id)?;
    core_of[id as usize] = core_number_in(table)?;
    stations.push(StationSetup {
        id,
        priority: numbers.priority,
        first: numbers.first,
    });
    Ok(Network {
        stations,
        cells,
        core_of,
    })
}

// The core of a station.
fn core_number_in(table: &Table) -> Result<u8, Refusal>
    ensures { result ≡ core_number_in (table_view table.now) }
{
    match values::found(table, Field::Core) {
        None => Ok(0),
        Some(_) => Ok(values::number(table, Field::Core, 0, 1)? as u8),
    }
}

// The number of a station, which none before it has.
#[tactic(auto, unfolding(crate::specs::Setup::id_in))]
fn id_in(table: &Table, stations: &[StationSetup]) -> Result<u8, Refusal>
    ensures value { result ≡ id_in stations.now (table_view table.now) }
    ensures within { IfOk result (λ id. id ≤ 7) }
{
    let id = values::number(table, Field::Id, 0, 7)? as u8;
    if values::has_station(stations, id) {
        Err(Refusal::Wrong(Field::Id))
    } else {
        Ok(id)
    }
}

// The cells with those of a station.
#[tactic(auto, unfolding(crate::specs::Setup::cells_in))]
fn cells_in(table: &Table, cells: Cells, id: u8) -> Result<Cells, Refusal>
    requires id { id ≤ 7 }
    requires few { length cells ≤ 28 }
    ensures value { result ≡ cells_in cells id (table_view table.now) }
    ensures few { IfOk result (λ more. length more ≤ length cells + 4) }
{
    let values = values::array(table, Field::Cells)?;
    let more = match count(values) {
        1..=4 => sites_from(cells, id, values),
        _ => None,
    };
    more.ok_or(Refusal::Wrong(Field::Cells))
}

fn sites_from(mut cells: Cells, id: u8, values: &[Value]) -> Option<Cells>
    requires id { id ≤ 7 }
    requires few { length cells + length values.now ≤ 32 }
    ensures value { result ≡ sites_from cells id (items_view values.now) }
    ensures few { IfSome result (λ more. length more ≤ length cells + length values.now) }
{
    for value in values {
        let cell = values::cell_at(value)?;
        cells = with_site(cells, id, cell)?;
    }
    Some(cells)
}

// One cell more, which no station has.
fn with_site(mut cells: Cells, id: u8, cell: Cell) -> Option<Cells>
    requires id { id ≤ 7 }
    requires few { length cells ≤ 31 }
    ensures value { result ≡ with_site cells id cell }
    ensures one_more { IfSome result (λ more. length more ≡ length cells + 1) }
{
    match cells.add(id, cell) {
        Ok(()) => Some(cells),
        Err(_) => None,
    }
}
