/// A message, named as in S1AP, X2AP, RRC and NAS.
#[derive(Clone, Copy)]
pub enum Message {
    /// NAS Security Mode Command.
    NasSecurityModeCommand,
    /// NAS Security Mode Complete.
    NasSecurityModeComplete,
    /// NAS Security Mode Reject.
    NasSecurityModeReject,
    /// Service Request.
    ServiceRequest,
    /// Another NAS text.
    NasText,
    /// Initial Context Setup Request.
    InitialContextSetupRequest,
    /// UE Context Modification Request.
    UeContextModificationRequest,
    /// UE Context Release Command.
    UeContextReleaseCommand,
    /// RRC Security Mode Command.
    RrcSecurityModeCommand,
    /// RRC Security Mode Complete.
    RrcSecurityModeComplete,
    /// RRC Reconfiguration.
    RrcReconfiguration,
    /// RRC Reconfiguration Complete.
    RrcReconfigurationComplete,
    /// Another RRC text.
    RrcText,
    /// A user packet.
    UserPacket,
    /// X2 Handover Request.
    X2HandoverRequest,
    /// X2 Handover Request Acknowledge.
    X2HandoverRequestAcknowledge,
    /// X2 Handover Cancel.
    X2HandoverCancel,
    /// X2 UE Context Release.
    X2UeContextRelease,
    /// Path Switch Request.
    PathSwitchRequest,
    /// Path Switch Request Acknowledge.
    PathSwitchRequestAcknowledge,
    /// Handover Required.
    HandoverRequired,
    /// Handover Request.
    HandoverRequest,
    /// Handover Request Acknowledge.
    HandoverRequestAcknowledge,
    /// Handover Command.
    HandoverCommand,
    /// Handover Notify.
    HandoverNotify,
    /// Handover Cancel.
    HandoverCancel,
    /// Another one.
    Unnamed,
}
