// The acts that variants of a scenario run over.
ghost use Rattle.growth.specs.Growth.{WasRefused};
ghost use Rattle.std.specs.Prelude.{◌≡◌, ◌+◌, ◌≤◌, ◌++◌, length, None, All, IfOk, OnOk, OnErr};
ghost use Rattle.std.specs.List.{flat_map};
ghost use Rattle.rec_base.specs.Lengths.{longest_packet, longest_text};
ghost use Rattle.rec_base.specs.declared.bearers.Bearer.TheVariants.{Drb1};
ghost use Rattle.lte_events.specs.Ranges.{has_station, IsSetup};
ghost use Rattle.lte_events.specs.Scenario.{CanHappen};
ghost use Rattle.lte_events.specs.declared.acts.CoreAct.{CoreAct as ACoreAct};
ghost use Rattle.lte_events.specs.declared.acts.PhoneAct.{PhoneAct as APhoneAct};
ghost use Rattle.lte_events.specs.declared.acts.StationAct.{StationAct as AStationAct};
ghost use Rattle.lte_events.specs.declared.events.Event.{Event as AnEvent};
ghost use Rattle.item_probe.specs.Acts.{AreInPlace, acts_of, at_station, begins, connects, new_kasme, nothing, other_cell, own_cell, packets, phone_repeats, renewal, station_repeats, station_tries, texts, tries};
ghost use Rattle.item_probe.specs.Places.{more_acts};

use annex_a_keys::Cell;
use lte_events::{
    Cells, CoreAct, Event, Events, HoKind, PhoneAct, Setup, StationAct, StationSetup,
};
use rec_base::{Bearer, ShortText, UserText};
use std::alloc::AllocError;

static STATIONS: [u8; 8] = [0, 1, 2, 3, 4, 5, 6, 7];

// The KASME of the probe's authentication.
const NEW_KASME: [u8; 32] = *b"a KASME of the probe, 32 octets.";

/// The acts that variants of a scenario with this setup and these events run over.
pub fn acts_of(setup: &Setup, events: Events) -> Result<Events, AllocError>
    ensures acts { IfOk result (λ acts. acts.items ≡ acts_of setup.now events.items) }
    // Each can happen where the events can.
    ensures can_happen { IsSetup setup.now → All (CanHappen setup.now) events.items → IfOk result (λ acts. All (CanHappen setup.now) acts.items) }
    ensures as_many { IfOk result (λ acts. length acts.items ≡ length events.items + more_acts) }
    ensures in_place { IfOk result (λ acts. AreInPlace setup.now (length events.items) acts.items) }
    ensures refused { OnErr result WasRefused }
{
    list_acts(setup, events)
}

fn list_acts(setup: &Setup, events: Events) -> Result<Events, AllocError>
    ensures acts { IfOk result (λ acts. acts.items ≡ acts_of setup.now events.items) }
    ensures refused { OnErr result WasRefused }
{
    let mut acts = events;
    push_phone_repeats(&mut acts)?;
    push_station_repeats(&mut acts, setup, &STATIONS)?;
    push_tries(&mut acts)?;
    push_station_tries(&mut acts, setup, &STATIONS)?;
    push_renewal(&mut acts, setup)?;
    Ok(acts)
}

fn push_phone_repeats(acts: &mut Events) -> Result<(), AllocError>
    ensures acts { OnOk result (acts.new.items ≡ acts.old.items ++ phone_repeats) }
    ensures refused { OnErr result WasRefused }
{
    acts.push(&Event::Phone(PhoneAct::ResendComplete))?;
    acts.push(&Event::Phone(PhoneAct::ServiceRequest))
}

fn push_station_repeats(acts: &mut Events, setup: &Setup, stations: &[u8]) -> Result<(), AllocError>
    ensures acts { OnOk result (acts.new.items ≡ acts.old.items ++ flat_map (station_repeats setup.now) stations.now) }
    ensures refused { OnErr result WasRefused }
{
    for station in stations {
        push_repeats_of(acts, setup, *station)?;
    }
    Ok(())
}

fn push_repeats_of(acts: &mut Events, setup: &Setup, station: u8) -> Result<(), AllocError>
    ensures acts { OnOk result (acts.new.items ≡ acts.old.items ++ station_repeats setup.now station) }
    ensures refused { OnErr result WasRefused }
{
    acts.push(&at_station(setup, station, StationAct::Command))?;
    acts.push(&at_station(setup, station, StationAct::Ask))?;
    acts.push(&at_station(setup, station, StationAct::Cancel))
}

fn push_tries(acts: &mut Events) -> Result<(), AllocError>
    ensures acts { OnOk result (acts.new.items ≡ acts.old.items ++ tries) }
    ensures refused { OnErr result WasRefused }
{
    push_packets(acts)?;
    push_texts(acts)?;
    acts.push(&Event::Phone(PhoneAct::GoIdle))
}

fn push_packets(acts: &mut Events) -> Result<(), AllocError>
    ensures acts { OnOk result (acts.new.items ≡ acts.old.items ++ packets) }
    ensures refused { OnErr result WasRefused }
{
    acts.push(&phone_sends(b"up"))?;
    acts.push(&phone_sends(b"again"))
}

fn push_texts(acts: &mut Events) -> Result<(), AllocError>
    ensures acts { OnOk result (acts.new.items ≡ acts.old.items ++ texts) }
    ensures refused { OnErr result WasRefused }
{
    acts.push(&phone_sends_nas(b"nas up"))?;
    acts.push(&core_sends_nas(b"nas down"))
}

fn push_station_tries(acts: &mut Events, setup: &Setup, stations: &[u8]) -> Result<(), AllocError>
    ensures acts { OnOk result (acts.new.items ≡ acts.old.items ++ flat_map (station_tries setup.now) stations.now) }
    ensures refused { OnErr result WasRefused }
{
    for station in stations {
        push_tries_of(acts, setup, *station)?;
    }
    Ok(())
}

fn push_tries_of(acts: &mut Events, setup: &Setup, station: u8) -> Result<(), AllocError>
    ensures acts { OnOk result (acts.new.items ≡ acts.old.items ++ station_tries setup.now station) }
    ensures refused { OnErr result WasRefused }
{
    acts.push(&station_sends(setup, station, b"down"))?;
    acts.push(&begins(setup, station))?;
    acts.push(&connects(setup, station))
}

fn push_renewal(acts: &mut Events, setup: &Setup) -> Result<(), AllocError>
    ensures acts { OnOk result (acts.new.items ≡ acts.old.items ++ renewal setup.now) }
    ensures refused { OnErr result WasRefused }
{
    acts.push(&Event::Auth(0, NEW_KASME, setup.caps))?;
    acts.push(&Event::Core(CoreAct::StartSmc))?;
    acts.push(&phone_sends(b"anew"))
}

// The phone sends a user packet.
fn phone_sends(octets: &[u8]) -> Event
    requires { length octets.now ≤ longest_packet }
    ensures { result ≡ AnEvent.Phone (APhoneAct.SendUser Drb1 octets.now) }
{
    let mut packet = UserText::new();
    packet.append(octets);
    Event::Phone(PhoneAct::SendUser(Bearer::Drb1, packet))
}

// A station sends one, if the setup has it.
fn station_sends(setup: &Setup, id: u8, octets: &[u8]) -> Event
    requires { length octets.now ≤ longest_packet }
    ensures { result ≡ at_station setup.now id (AStationAct.SendUser Drb1 octets.now) }
{
    let mut packet = UserText::new();
    packet.append(octets);
    at_station(setup, id, StationAct::SendUser(Bearer::Drb1, packet))
}

// The phone sends a NAS text.
fn phone_sends_nas(octets: &[u8]) -> Event
    requires { length octets.now ≤ longest_text }
    ensures { result ≡ AnEvent.Phone (APhoneAct.SendNas octets.now) }
{
    let mut text = ShortText::new();
    text.append(octets);
    Event::Phone(PhoneAct::SendNas(text))
}

// The core sends one.
fn core_sends_nas(octets: &[u8]) -> Event
    requires { length octets.now ≤ longest_text }
    ensures { result ≡ AnEvent.Core (ACoreAct.SendNas octets.now) }
{
    let mut text = ShortText::new();
    text.append(octets);
    Event::Core(CoreAct::SendNas(text))
}

// Stands where there is nothing to do.
fn nothing() -> Event
    ensures { result ≡ nothing }
{
    Event::Phone(PhoneAct::Skip(None, 0))
}

// An act of a station, if the setup has it.
fn at_station(setup: &Setup, id: u8, act: StationAct) -> Event
    ensures { result ≡ at_station setup.now id act }
{
    if has_station(setup.stations.as_slice(), id) {
        Event::Station(id, act)
    } else {
        nothing()
    }
}

pub(crate) fn has_station(stations: &[StationSetup], id: u8) -> bool
    ensures { result ≡ has_station stations.now id }
{
    stations.iter().any(|station| station.id == id)
}

// The first cell of a station.
fn own_cell(cells: &Cells, id: u8) -> Option<Cell>
    ensures { result ≡ own_cell cells.now id }
{
    for number in 0..cells.len() {
        let (station, cell) = cells.at(number);
        if station == id {
            return Some(cell);
        }
    }
    None
}

// The first of another one.
pub(crate) fn other_cell(cells: &Cells, id: u8) -> Option<Cell>
    ensures { result ≡ other_cell cells.now id }
{
    for number in 0..cells.len() {
        let (station, cell) = cells.at(number);
        if station != id {
            return Some(cell);
        }
    }
    None
}

// A station begins a handover to another one, or within itself.
fn begins(setup: &Setup, id: u8) -> Event
    ensures { result ≡ begins setup.now id (own_cell setup.now.cells id) (other_cell setup.now.cells id) }
{
    match other_cell(&setup.cells, id) {
        Some(cell) => at_station(setup, id, StationAct::Start(HoKind::X2, cell)),
        None => begins_within(setup, id),
    }
}

fn begins_within(setup: &Setup, id: u8) -> Event
    ensures { result ≡ begins setup.now id (own_cell setup.now.cells id) None }
{
    match own_cell(&setup.cells, id) {
        Some(cell) => at_station(setup, id, StationAct::Start(HoKind::Intra, cell)),
        None => nothing(),
    }
}

// The core sets up the context of the phone at a station.
fn connects(setup: &Setup, id: u8) -> Event
    ensures { result ≡ connects (own_cell setup.now.cells id) }
{
    match own_cell(&setup.cells, id) {
        Some(cell) => Event::Core(CoreAct::Connect(cell)),
        None => nothing(),
    }
}
