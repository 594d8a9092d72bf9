// The lines of the messages that an actor sends where one comes.
ghost use Rattle.std.specs.Prelude.{◌≡◌};
ghost use Rattle.lte_tables.specs.Sends.{sends_lines};

/// The lines of what the receiver of each message answers it with.
pub fn sends_lines() -> &'static str
    ensures { result.now ≡ sends_lines }
{
    "\
sends phone, NAS Security Mode Command, NAS Security Mode Complete
sends phone, RRC Security Mode Command, RRC Security Mode Complete
sends phone, RRC Reconfiguration, RRC Reconfiguration Complete
sends station, Initial Context Setup Request, RRC Security Mode Command
sends station, UE Context Modification Request, RRC Reconfiguration
sends station, RRC Reconfiguration Complete, Path Switch Request
sends station, X2 Handover Request, X2 Handover Request Acknowledge
sends station, Path Switch Request Acknowledge, X2 UE Context Release
sends station, Handover Request, Handover Request Acknowledge
sends core, NAS Security Mode Complete, UE Context Modification Request
sends core, Path Switch Request, Path Switch Request Acknowledge
sends core, Handover Required, Handover Request
sends core, Handover Request Acknowledge, Handover Command
sends core, Handover Notify, UE Context Release Command
sends core, Handover Cancel, Handover Cancel
"
}
