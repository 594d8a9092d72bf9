// The lines of the records.
ghost use Rattle.std.specs.Prelude.{◌≡◌};
ghost use Rattle.lte_tables.specs.Records.{AreRead, record_lines};

/// The lines of the records of NAS, RRC, S1 and X2; each kind that is read has one.
#[tactic(auto, unfolding(crate::specs::Records::record_lines))]
pub fn record_lines() -> &'static str
    ensures lines { result.now ≡ record_lines }
    ensures all { AreRead }
{
    "\
record nas 1 Security Mode Command, KSI 1, algorithms 1, capabilities 2
record nas 2 Security Mode Complete
record nas 3 Security Mode Reject, cause 1
record nas 4 Service Request
record nas 5 data, text 0
record rrc 1 Security Mode Command, algorithms 1, station 1, air 4
record rrc 2 Security Mode Complete
record rrc 3 Reconfiguration, cell 6, NCC 1, algorithms 1, station 1, air 4
record rrc 4 Reconfiguration Complete
record rrc 5 data, text 0
record rrc 6 key change, cell 6, algorithms 1, station 1, air 4
record s1 32 Initial Context Setup Request, connection 4, cell 6, capabilities 2, KeNB 32
record s1 33 UE Context Release Command, connection 4
record s1 34 Path Switch Request, connection 4, station 1, number 4, cell 6, capabilities 2
record s1 35 Path Switch Request Acknowledge, connection 4, number 4, NCC 1, NH 32
record s1 36 Handover Required, connection 4, station 1, attempt 4, cell 6
record s1 37 Handover Request, connection 4, source 1, attempt 4, cell 6, capabilities 2, NCC 1, NH 32
record s1 38 Handover Request Acknowledge, connection 4, source 1, attempt 4, cell 6, NCC 1, algorithms 1, air 4
record s1 39 Handover Command, connection 4, attempt 4, cell 6, NCC 1, algorithms 1, air 4
record s1 40 Handover Notify, connection 4, station 1, cell 6
record s1 41 Handover Cancel, connection 4, source 1, attempt 4, cell 6
record x2 48 X2 Handover Request, connection 4, source 1, attempt 4, cell 6, capabilities 2, NCC 1, KeNB* 32
record x2 49 X2 Handover Request Acknowledge, connection 4, attempt 4, cell 6, algorithms 1, air 4
record x2 50 X2 Handover Cancel, connection 4, source 1, attempt 4
record x2 51 X2 UE Context Release, connection 4, attempt 4
record s1 52 UE Context Modification Request, connection 4, next connection 4, KeNB 32
"
}
