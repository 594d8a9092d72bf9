// The message that an actor sends when one is delivered to it.
ghost use Rattle.std.specs.Prelude.{◌≡◌};
ghost use Rattle.item_steps.specs.Messages.{answers_with, completed, core_answers, judged, phone_answers, station_answers};

use item_faults::Message;
use lte_events::Who;

fn judged(done: bool) -> Message
    ensures { result ≡ judged done }
{
    if done {
        Message::NasSecurityModeComplete
    } else {
        Message::NasSecurityModeReject
    }
}

fn phone_answers(done: bool, came: Option<Message>) -> Message
    ensures { result ≡ phone_answers done came }
{
    match came {
        Some(Message::NasSecurityModeCommand) => judged(done),
        Some(Message::RrcSecurityModeCommand) => Message::RrcSecurityModeComplete,
        Some(Message::RrcReconfiguration) => Message::RrcReconfigurationComplete,
        _ => Message::Unnamed,
    }
}

fn completed(over_s1: bool) -> Message
    ensures { result ≡ completed over_s1 }
{
    if over_s1 {
        Message::HandoverNotify
    } else {
        Message::PathSwitchRequest
    }
}

fn station_answers(over_s1: bool, came: Option<Message>) -> Message
    ensures { result ≡ station_answers over_s1 came }
{
    match came {
        Some(Message::InitialContextSetupRequest) => Message::RrcSecurityModeCommand,
        Some(Message::UeContextModificationRequest) => Message::RrcReconfiguration,
        Some(Message::X2HandoverRequest) => Message::X2HandoverRequestAcknowledge,
        Some(Message::HandoverRequest) => Message::HandoverRequestAcknowledge,
        Some(Message::PathSwitchRequestAcknowledge) => Message::X2UeContextRelease,
        Some(Message::RrcReconfigurationComplete) => completed(over_s1),
        _ => Message::Unnamed,
    }
}

fn core_answers(came: Option<Message>) -> Message
    ensures { result ≡ core_answers came }
{
    match came {
        Some(Message::NasSecurityModeComplete) => Message::UeContextModificationRequest,
        Some(Message::PathSwitchRequest) => Message::PathSwitchRequestAcknowledge,
        Some(Message::HandoverRequired) => Message::HandoverRequest,
        Some(Message::HandoverRequestAcknowledge) => Message::HandoverCommand,
        Some(Message::HandoverNotify) => Message::UeContextReleaseCommand,
        Some(Message::HandoverCancel) => Message::HandoverCancel,
        _ => Message::Unnamed,
    }
}

pub(crate) fn answers_with(who: Who, done: bool, over_s1: bool, came: Option<Message>) -> Message
    ensures { result ≡ answers_with who done over_s1 came }
{
    match who {
        Who::Phone => phone_answers(done, came),
        Who::Core => core_answers(came),
        Who::Station(_) => station_answers(over_s1, came),
        _ => Message::Unnamed,
    }
}
