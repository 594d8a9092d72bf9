// The turns of a generated scenario, and their steps.
ghost use Rattle.growth.specs.Growth.{WasRefused};
ghost use Rattle.std.specs.Prelude.{◌≡◌, OnErr, OnOk, IsOkUnless};
ghost use Rattle.std.specs.List.{range_with_len};
ghost use Rattle.scenario_file.specs.Draws.{handover, steps_of, opening};
ghost use Rattle.scenario_file.specs.FirstSteps.{with_steps};

use crate::ScenarioFault;
use crate::first_steps::FirstSteps;
use crate::generator::{cell_of, generated_caps};
use lte_events::{CoreAct, Event, HoKind, PhoneAct, StationAct};
use rec_base::{Bearer, UserText};

// The KASME of the authentication: octets 0 to 31.
static KASME: [u8; 32] = [
    0x00, 0x01, 0x02, 0x03, 0x04, 0x05, 0x06, 0x07, 0x08, 0x09, 0x0a, 0x0b, 0x0c, 0x0d, 0x0e, 0x0f,
    0x10, 0x11, 0x12, 0x13, 0x14, 0x15, 0x16, 0x17, 0x18, 0x19, 0x1a, 0x1b, 0x1c, 0x1d, 0x1e, 0x1f,
];

// A few steps that belong together.
#[derive(Clone, Copy)]
pub(crate) enum Turn {
    // A packet from the phone, with its text.
    Uplink([u8; 8]),
    // A packet from a station.
    Downlink(u8, [u8; 8]),
    // A handover over X2 to another station, and whether the answer to its path switch arrives.
    OverX2 { from: u8, to: u8, answered: bool },
    // A handover over S1 to another station.
    OverS1 { from: u8, to: u8 },
    // A handover within a station.
    Within(u8),
}

impl Turn {
    // Takes the steps of the turn.
    pub(crate) fn add_to(&self, first: &mut FirstSteps) -> Result<(), ScenarioFault>
        ensures steps { OnOk result (first.new ≡ with_steps first.old (steps_of self.now)) }
        ensures memory { IsOkUnless result ScenarioFault.Memory }
        ensures refused { OnErr result WasRefused }
    {
        match *self {
            Turn::Uplink(text) => uplink(first, &text),
            Turn::Downlink(s, text) => downlink(first, s, &text),
            Turn::OverX2 { from, to, answered } => {
                let behind = if answered { 5 } else { 3 };
                handover(first, HoKind::X2, from, to, 2, behind)
            }
            Turn::OverS1 { from, to } => handover(first, HoKind::S1, from, to, 4, 3),
            Turn::Within(s) => handover(first, HoKind::Intra, s, s, 0, 2),
        }
    }
}

// Authentication, the Security Mode of NAS, and a connection at station 0.
#[tactic(auto, unfolding(crate::specs::Draws::opening))]
pub(crate) fn add_opening(first: &mut FirstSteps) -> Result<(), ScenarioFault>
    ensures steps { OnOk result (first.new ≡ with_steps first.old opening) }
    ensures memory { IsOkUnless result ScenarioFault.Memory }
    ensures refused { OnErr result WasRefused }
{
    first.put(&Event::Auth(0, KASME, generated_caps()))?;
    first.put(&Event::Core(CoreAct::StartSmc))?;
    first.arrivals(2)?;
    first.put(&Event::Core(CoreAct::Connect(cell_of(0))))?;
    first.arrivals(3)?;
    Ok(())
}

fn uplink(first: &mut FirstSteps, octets: &[u8; 8]) -> Result<(), ScenarioFault>
    ensures steps { OnOk result (first.new ≡ with_steps first.old (steps_of (Turn.Uplink octets.now))) }
    ensures memory { IsOkUnless result ScenarioFault.Memory }
    ensures refused { OnErr result WasRefused }
{
    first.put(&Event::Phone(PhoneAct::SendUser(Bearer::Drb1, packet(octets))))?;
    first.arrivals(1)?;
    Ok(())
}

fn downlink(first: &mut FirstSteps, s: u8, octets: &[u8; 8]) -> Result<(), ScenarioFault>
    ensures steps { OnOk result (first.new ≡ with_steps first.old (steps_of (Turn.Downlink s octets.now))) }
    ensures memory { IsOkUnless result ScenarioFault.Memory }
    ensures refused { OnErr result WasRefused }
{
    first.put(&Event::Station(s, StationAct::SendUser(Bearer::Drb1, packet(octets))))?;
    first.arrivals(1)?;
    Ok(())
}

// A handover, with so many arrivals before its command and behind it.
fn handover(
    first: &mut FirstSteps,
    kind: HoKind,
    from: u8,
    to: u8,
    before: usize,
    behind: usize,
) -> Result<(), ScenarioFault>
    ensures steps { OnOk result (first.new ≡ with_steps first.old (handover kind from to before behind)) }
    ensures memory { IsOkUnless result ScenarioFault.Memory }
    ensures refused { OnErr result WasRefused }
{
    first.put(&Event::Station(from, StationAct::Start(kind, cell_of(to))))?;
    first.arrivals(before)?;
    first.put(&Event::Station(from, StationAct::Command))?;
    first.arrivals(behind)?;
    Ok(())
}

fn packet(octets: &[u8; 8]) -> UserText
    ensures { result ≡ octets.now }
{
    let mut text = UserText::new();
    text.append(octets);
    text
}
