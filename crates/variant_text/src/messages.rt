ghost use Rattle.std.specs.Prelude.{◌≡◌};
ghost use Rattle.variant_text.specs.Messages.{message_name};

use item_faults::Message;

/// The name of a message.
pub(crate) fn message_name(message: Message) -> &'static str
    ensures { result.now ≡ message_name message }
{
    match message {
        Message::NasSecurityModeCommand => "NAS Security Mode Command",
        Message::NasSecurityModeComplete => "NAS Security Mode Complete",
        Message::NasSecurityModeReject => "NAS Security Mode Reject",
        Message::ServiceRequest => "Service Request",
        Message::NasText => "NAS text",
        Message::InitialContextSetupRequest => "Initial Context Setup Request",
        Message::UeContextModificationRequest => "UE Context Modification Request",
        Message::UeContextReleaseCommand => "UE Context Release Command",
        Message::RrcSecurityModeCommand => "RRC Security Mode Command",
        Message::RrcSecurityModeComplete => "RRC Security Mode Complete",
        Message::RrcReconfiguration => "RRC Reconfiguration",
        Message::RrcReconfigurationComplete => "RRC Reconfiguration Complete",
        Message::RrcText => "RRC text",
        Message::UserPacket => "user packet",
        Message::X2HandoverRequest => "X2 Handover Request",
        Message::X2HandoverRequestAcknowledge => "X2 Handover Request Acknowledge",
        Message::X2HandoverCancel => "X2 Handover Cancel",
        Message::X2UeContextRelease => "X2 UE Context Release",
        Message::PathSwitchRequest => "Path Switch Request",
        Message::PathSwitchRequestAcknowledge => "Path Switch Request Acknowledge",
        Message::HandoverRequired => "Handover Required",
        Message::HandoverRequest => "Handover Request",
        Message::HandoverRequestAcknowledge => "Handover Request Acknowledge",
        Message::HandoverCommand => "Handover Command",
        Message::HandoverNotify => "Handover Notify",
        Message::HandoverCancel => "Handover Cancel",
        Message::Unnamed => "record",
    }
}
