// What sends a message again.
ghost use Rattle.std.specs.Prelude.{◌≡◌, ◌≤◌};
ghost use Rattle.item_faults.specs.Entries.{most_steps};
ghost use Rattle.item_faults.specs.Steps.{again_by, again_of, anew, anew_at, answer_anew, answer_at, answer_to, answered, ask, by_ask, by_command, cancel, command};

use crate::steps::sender;
use crate::{Again, Does, Message, Step};

/// The place of the act by which a station sends its RRC Reconfiguration, behind so many acts of a scenario.
pub fn command(acts: u32, station: u8) -> u32
    requires { acts ≤ most_steps }
    ensures { result ≡ command acts station }
{
    acts + 2 + 3 * u32::from(station)
}

fn ask(acts: u32, station: u8) -> u32
    requires { acts ≤ most_steps }
    ensures { result ≡ ask acts station }
{
    acts + 3 + 3 * u32::from(station)
}

/// The place of the act by which a station gives a handover up, behind so many acts of a scenario.
pub fn cancel(acts: u32, station: u8) -> u32
    requires { acts ≤ most_steps }
    ensures { result ≡ cancel acts station }
{
    acts + 4 + 3 * u32::from(station)
}

fn by_command(acts: u32, station: Option<u8>) -> Again
    requires { acts ≤ most_steps }
    ensures { result ≡ by_command acts station }
{
    match station {
        Some(station) => Again::Act(command(acts, station)),
        None => Again::Never,
    }
}

fn by_ask(acts: u32, station: Option<u8>) -> Again
    requires { acts ≤ most_steps }
    ensures { result ≡ by_ask acts station }
{
    match station {
        Some(station) => Again::Act(ask(acts, station)),
        None => Again::Never,
    }
}

fn answer_at(acts: u32, station: Option<u8>) -> Again
    requires { acts ≤ most_steps }
    ensures { result ≡ answer_at acts station }
{
    match station {
        Some(station) => Again::Answer(ask(acts, station)),
        None => Again::Never,
    }
}

fn answer_to(acts: u32, asked: Option<Step>) -> Again
    requires { acts ≤ most_steps }
    ensures { result ≡ answer_to acts asked }
{
    match asked {
        Some(step) => answer_at(acts, step.station),
        None => Again::Never,
    }
}

fn anew_at(acts: u32, number: u32, station: Option<u8>) -> Again
    requires { acts ≤ most_steps }
    ensures { result ≡ anew_at acts number station }
{
    match station {
        Some(station) => Again::Anew(cancel(acts, station), number),
        None => Again::Never,
    }
}

fn anew(acts: u32, step: &Step) -> Again
    requires { acts ≤ most_steps }
    ensures { result ≡ anew acts step.now step.now.does }
{
    match step.does {
        Does::StartX2 => anew_at(acts, step.number, step.station),
        _ => Again::Never,
    }
}

fn answered(again: Again) -> Again
    ensures { result ≡ answered again }
{
    match again {
        Again::Anew(a, b) => Again::AnewAnswer(a, b),
        _ => Again::Never,
    }
}

fn answer_anew(acts: u32, opened: Option<Step>) -> Again
    requires { acts ≤ most_steps }
    ensures { result ≡ answer_anew acts opened }
{
    match opened {
        Some(step) => answered(anew(acts, &step)),
        None => Again::Never,
    }
}

// By the step that sent the message.
fn again_by(acts: u32, step: &Step, steps: &[Step]) -> Again
    requires { acts ≤ most_steps }
    ensures { result ≡ again_by acts steps.now step.now step.now.sends }
{
    match step.sends {
        Some(Message::RrcReconfiguration) => by_command(acts, step.station),
        Some(Message::RrcReconfigurationComplete) => Again::Act(acts),
        Some(Message::PathSwitchRequest) => by_ask(acts, step.station),
        Some(Message::ServiceRequest) => Again::Act(acts + 1),
        Some(Message::PathSwitchRequestAcknowledge) => answer_to(acts, sender(step.does, steps)),
        Some(Message::X2HandoverRequest) => anew(acts, step),
        Some(Message::X2HandoverRequestAcknowledge) => answer_anew(acts, sender(step.does, steps)),
        _ => Again::Never,
    }
}

/// By what the message that this step sent is sent again.
pub(crate) fn again_of(acts: u32, step: Option<Step>, steps: &[Step]) -> Again
    requires { acts ≤ most_steps }
    ensures { result ≡ again_of acts steps.now step }
{
    match step {
        Some(step) => again_by(acts, &step, steps),
        None => Again::Never,
    }
}
