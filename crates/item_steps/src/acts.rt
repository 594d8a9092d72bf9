// The message that an act sends.
ghost use Rattle.std.specs.Prelude.{◌≡◌};
ghost use Rattle.item_steps.specs.Messages.{begins_with, cancel_on, core_sends, phone_sends, station_sends};

use item_faults::Message;
use lte_events::{Class, CoreAct, HoKind, PhoneAct, StationAct};

pub(crate) fn phone_sends(act: &PhoneAct) -> Message
    ensures { result ≡ phone_sends act.now }
{
    match act {
        PhoneAct::ServiceRequest => Message::ServiceRequest,
        PhoneAct::ResendComplete => Message::RrcReconfigurationComplete,
        PhoneAct::SendUser(..) => Message::UserPacket,
        PhoneAct::SendRrc(..) => Message::RrcText,
        PhoneAct::SendNas(_) => Message::NasText,
        _ => Message::Unnamed,
    }
}

fn begins_with(kind: HoKind) -> Message
    ensures { result ≡ begins_with kind }
{
    match kind {
        HoKind::X2 => Message::X2HandoverRequest,
        HoKind::S1 => Message::HandoverRequired,
        HoKind::Intra => Message::Unnamed,
    }
}

fn cancel_on(class: Class) -> Message
    ensures { result ≡ cancel_on class }
{
    match class {
        Class::X2 => Message::X2HandoverCancel,
        _ => Message::HandoverCancel,
    }
}

pub(crate) fn station_sends(class: Class, act: &StationAct) -> Message
    ensures { result ≡ station_sends class act.now }
{
    match act {
        StationAct::Start(kind, _) => begins_with(*kind),
        StationAct::Command => Message::RrcReconfiguration,
        StationAct::Cancel => cancel_on(class),
        StationAct::Ask => Message::PathSwitchRequest,
        StationAct::SendUser(..) => Message::UserPacket,
        StationAct::SendRrc(..) => Message::RrcText,
        _ => Message::Unnamed,
    }
}

pub(crate) fn core_sends(act: &CoreAct) -> Message
    ensures { result ≡ core_sends act.now }
{
    match act {
        CoreAct::StartSmc => Message::NasSecurityModeCommand,
        CoreAct::Connect(_) => Message::InitialContextSetupRequest,
        CoreAct::Release => Message::UeContextReleaseCommand,
        CoreAct::SendNas(_) => Message::NasText,
        _ => Message::Unnamed,
    }
}
