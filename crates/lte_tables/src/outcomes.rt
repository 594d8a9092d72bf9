// The lines of the words of variants.
ghost use Rattle.std.specs.Prelude.{◌≡◌};
ghost use Rattle.item_faults.specs.declared.changes.Kind.{Kind};
ghost use Rattle.item_faults.specs.declared.messages.Message.{Message};
ghost use Rattle.item_outcomes.specs.declared.heals.Heals.{Heals};
ghost use Rattle.item_outcomes.specs.{Outcomes.word_of, declared.judging.Outcome.Outcome};
ghost use Rattle.variant_text.specs.{Faults.kind_name, Healing.heals_name, Messages.message_name};
ghost use Rattle.lte_tables.specs.Outcomes.{IsAmong, fault_lines, faults, heals_lines, healers, message_lines, messages, outcome_lines, outcomes};

/// The lines of the outcomes, from the best to the worst; each has one.
pub fn outcome_lines() -> &'static str
    ensures lines { result.now ≡ outcome_lines }
    ensures all { (outcome : Outcome) → IsAmong word_of outcomes outcome }
{
    "\
outcome same
outcome better
outcome goes on
outcome context left
outcome packet lost
outcome weaker key
outcome not made
outcome no handover
outcome misrouted
outcome NAS apart
outcome COUNTs apart
outcome cut off
outcome stuck
outcome keys differ
outcome coincidence
"
}

/// The lines of the kinds of faults; each has one.
pub fn fault_lines() -> &'static str
    ensures lines { result.now ≡ fault_lines }
    ensures all { (kind : Kind) → IsAmong kind_name faults kind }
{
    "\
fault lost
fault late
fault twice
fault again
"
}

/// The lines of what heals a phone; each has one.
pub fn heals_lines() -> &'static str
    ensures lines { result.now ≡ heals_lines }
    ensures all { (heals : Heals) → IsAmong heals_name healers heals }
{
    "\
heals reconnection
heals authentication
heals nothing
"
}

/// The lines of the names of messages; each has one.
pub fn message_lines() -> &'static str
    ensures lines { result.now ≡ message_lines }
    ensures all { (message : Message) → IsAmong message_name messages message }
{
    "\
message NAS Security Mode Command
message NAS Security Mode Complete
message NAS Security Mode Reject
message Service Request
message NAS text
message Initial Context Setup Request
message UE Context Modification Request
message UE Context Release Command
message RRC Security Mode Command
message RRC Security Mode Complete
message RRC Reconfiguration
message RRC Reconfiguration Complete
message RRC text
message user packet
message X2 Handover Request
message X2 Handover Request Acknowledge
message X2 Handover Cancel
message X2 UE Context Release
message Path Switch Request
message Path Switch Request Acknowledge
message Handover Required
message Handover Request
message Handover Request Acknowledge
message Handover Command
message Handover Notify
message Handover Cancel
message record
"
}
