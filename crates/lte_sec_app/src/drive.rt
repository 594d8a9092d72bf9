ghost use Rattle.growth.specs.Growth.{WasRefused};
ghost use Rattle.std.specs.Prelude.{◌≡◌, ◌≢◌, ◌≤◌, [], ℕ, List, Some, Ok, Err, length, IfOk, IfSome, IsTrue, OnErr};
ghost use Rattle.std.specs.String.{string_bytes};
ghost use Rattle.edge_io.specs.Cause.{NoFault};
ghost use Rattle.edge_io.specs.Used.{UsedAsSource};
ghost use Rattle.lte_events.specs.Scenario.{IsScenario};
ghost use Rattle.scenario_file.specs.Reading.{reading_of};
ghost use Rattle.lte_sec_app.specs.Drive.{AllGoes, DriveAt, DriveIsComplete, LineAt, ScenarioAt, TextAt, TextGoes, UsesPeers, difference_text, wanted_text};
ghost use Rattle.lte_sec_app.specs.Run.{UsesSink, WhereRun};
ghost use Rattle.lte_sec_app.specs.Scenario.{HasHeadline, run_output};
ghost use Rattle.lte_sec_app.specs.Text.{HoldsOf};
ghost use Rattle.lte_sec_app.specs.declared.command.TextCommand.{TextCommand};

use crate::reading::read_text;
use crate::scenario::unless_refused;
use crate::status::Status;
use edge_io::{Peers, Sink, Source, write_all};
use hub_drive::DriveFault;
use lte_events::{Events, Setup};
use role_wire::Frame;
use run_report::Ending;
use scenario_file::read;
use std::alloc::{AllocError, Global};

// The command `drive`.
pub(crate) fn drive<R: Source, P: Peers, W: Sink>(
    alloc: Global,
    input: &mut R,
    peers: &mut P,
    out: &mut W,
) -> Status
    requires input_ready { IsTrue (R.told input.old).ready }
    requires out_ready { IsTrue (W.told out.old).ready }
    requires none { IfSome (P.told peers.old) (λ t. t.roles ≡ []) }
    ensures at { DriveAt result (R.told input.old) (R.told input.new) (W.told out.old) (W.told out.new) (P.told peers.old) (P.told peers.new) }
    ensures complete { DriveIsComplete result (R.told input.old) (R.told input.new) (W.told out.old) (W.told out.new) (P.told peers.old) (P.faults peers.old) (P.faults peers.new) }
    ensures headline { HoldsOf TextCommand.Run result (R.told input.old) }
    ensures no_refusal { (octets : List ℕ) → (R.told input.old).left ≡ Some octets → result ≡ Status.Memory → (run_output octets).ends ≡ Status.Refused → out.new ≡ out.old }
    ensures peers { UsesPeers result (P.told peers.new) (P.faults peers.old) (P.faults peers.new) }
    ensures unread { result ≡ Status.ReadFault → out.new ≡ out.old }
    ensures too_long { result ≡ Status.TooLong → out.new ≡ out.old }
    ensures unread_peers { result ≡ Status.ReadFault → peers.new ≡ peers.old }
    ensures too_long_peers { result ≡ Status.TooLong → peers.new ≡ peers.old }
    ensures refused_peers { result ≡ Status.Refused → peers.new ≡ peers.old }
    ensures no_read_fault { result ≢ Status.ReadFault → NoFault (R.told input.old) (R.told input.new) }
    ensures input { UsedAsSource (R.told input.old) (R.told input.new) }
    ensures sink { UsesSink result (W.told out.old) (W.told out.new) }
{
    match read_text(alloc, input) {
        Ok(octets) => drive_text(alloc, &octets, peers, out),
        Err(status) => status,
    }
}

// Drives the scenario that a text says, or writes the refusal of a text that says none.
fn drive_text<P: Peers, W: Sink>(alloc: Global, octets: &[u8], peers: &mut P, out: &mut W) -> Status
    requires out_ready { IsTrue (W.told out.old).ready }
    requires none { IfSome (P.told peers.old) (λ t. t.roles ≡ []) }
    ensures at { TextAt (reading_of octets.now) result (W.told out.old) (W.told out.new) (P.told peers.old) (P.told peers.new) }
    ensures complete { TextGoes (reading_of octets.now) result (W.told out.old) (W.told out.new) (P.told peers.old) (P.faults peers.old) (P.faults peers.new) }
    ensures headline { WhereRun (HasHeadline octets.now) result }
    ensures no_refusal { result ≡ Status.Memory → (run_output octets.now).ends ≡ Status.Refused → out.new ≡ out.old }
    ensures peers { UsesPeers result (P.told peers.new) (P.faults peers.old) (P.faults peers.new) }
    ensures refused_peers { result ≡ Status.Refused → peers.new ≡ peers.old }
    ensures not_unread { result ≢ Status.ReadFault }
    ensures not_too_long { result ≢ Status.TooLong }
    ensures sink { UsesSink result (W.told out.old) (W.told out.new) }
{
    match unless_refused(read(alloc, octets), out) {
        Ok(scenario) => drive_scenario(alloc, &scenario.setup, &scenario.events, peers, out),
        Err(status) => status,
    }
}

// Drives a scenario.
fn drive_scenario<P: Peers, W: Sink>(
    alloc: Global,
    setup: &Setup,
    events: &Events,
    peers: &mut P,
    out: &mut W,
) -> Status
    requires out_ready { IsTrue (W.told out.old).ready }
    requires none { IfSome (P.told peers.old) (λ t. t.roles ≡ []) }
    requires is_scenario { IsScenario setup.now events.now.items }
    requires cells { 1 ≤ length setup.now.cells }
    ensures at { ScenarioAt setup.now events.now.items result (W.told out.old) (W.told out.new) (P.told peers.old) (P.told peers.new) }
    ensures complete { AllGoes setup.now events.now.items result (W.told out.old) (W.told out.new) (P.told peers.old) (P.faults peers.old) (P.faults peers.new) }
    ensures peers { UsesPeers result (P.told peers.new) (P.faults peers.old) (P.faults peers.new) }
    ensures sink { UsesSink result (W.told out.old) (W.told out.new) }
{
    match hub_drive::drive(alloc, setup, events, peers, out) {
        Ok(Ending::Done) => Status::Done,
        Ok(Ending::Chance) => Status::Coincidence,
        Err(DriveFault::Memory) => Status::Memory,
        Err(DriveFault::PeerFault) => Status::PeerFault,
        Err(DriveFault::WriteFault) => Status::WriteFault,
        Err(DriveFault::Differs { step, wanted, got }) => write_difference(
            alloc, step, &wanted, &got, out,
        ),
    }
}

// Writes the line for a reply that differs.
#[tactic(auto, using(crate::proofs::Ends::difference_is))]
fn write_difference<W: Sink>(
    alloc: Global,
    step: Option<u32>,
    wanted: &Frame,
    got: &Frame,
    out: &mut W,
) -> Status
    requires { IsTrue (W.told out.old).ready }
    ensures line { LineAt (difference_text step wanted.now got.now) result (W.told out.old) (W.told out.new) }
    ensures sink { UsesSink result (W.told out.old) (W.told out.new) }
{
    match difference_line(alloc, step, wanted, got) {
        Err(_) => Status::Memory,
        Ok(line) => match write_all(out, line.as_bytes()) {
            Ok(()) => Status::Differs,
            Err(_) => Status::WriteFault,
        },
    }
}

// That line.
#[tactic(auto, unfolding(crate::specs::Drive::difference_text))]
fn difference_line(
    alloc: Global,
    step: Option<u32>,
    wanted: &Frame,
    got: &Frame,
) -> Result<String, AllocError>
    ensures text { IfOk result (λ text. string_bytes text ≡ difference_text step wanted.now got.now) }
    ensures refused { OnErr result WasRefused }
{
    let place = wanted_text(alloc, step)?;
    let wanted = growth::encode(alloc, wanted.as_slice())?;
    let got = growth::encode(alloc, got.as_slice())?;
    growth::format(alloc, format_args!("{place} differs {wanted} {got}\n"))
}

// Where the reply was wanted.
fn wanted_text(alloc: Global, step: Option<u32>) -> Result<String, AllocError>
    ensures text { IfOk result (λ text. string_bytes text ≡ wanted_text step) }
    ensures refused { OnErr result WasRefused }
{
    match step {
        Some(step) => growth::format(alloc, format_args!("{step}")),
        None => growth::format(alloc, format_args!("setup")),
    }
}
