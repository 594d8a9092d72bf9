// What an actor tells of a PDU of a radio bearer.
ghost use Rattle.std.specs.Prelude.{◌≡◌, ◌≤◌, length, take};
ghost use Rattle.rec_base.specs.Lengths.{longest_packet};
ghost use Rattle.rec_base.specs.Bearer.{IsSrb};
ghost use Rattle.rec_base.specs.Lengths.{longest_record};
ghost use Rattle.lte_machine.specs.Wire.{srb_use};
ghost use Rattle.lte_machine.specs.Calls.{use_out};
ghost use Rattle.lte_machine.specs.Refusals.{of_pdcp};
ghost use Rattle.radio_bearers.specs.Bearers.{srb_of};

use annex_a_keys::AlgType;
use lte_events::Answer;
use pdcp_guard::{AsKeys, PdcpFault};
use rec_base::{Bearer, Dir, Use, UserText};

/// The answer of an actor where a PDU was refused.
pub fn answer_of(fault: PdcpFault) -> Answer
    ensures { result ≡ of_pdcp fault }
{
    match fault {
        PdcpFault::Short => Answer::Short,
        PdcpFault::BadHeader(octet) => Answer::BadHeader(octet),
        PdcpFault::CountSpent => Answer::CountSpent,
        PdcpFault::MacFails { count, wanted, got } => Answer::MacFails(count, wanted, got),
    }
}

/// The key, COUNT, bearer and direction under which the MAC of a PDU of an SRB was verified.
pub fn verified_use(keys: &AsKeys, bearer: Bearer, count: u32, dir: Dir) -> Use
    requires { IsSrb bearer }
    ensures { result ≡ use_out (srb_use dir keys.now.rrc_int (srb_of bearer) count) }
{
    Use {
        key: keys.key(AlgType::RrcInt),
        count,
        bearer: bearer.bearer5(),
        dir,
    }
}

/// The first 1,500 octets of a packet of at most 1,536, which is what is handed on.
pub fn packet_text(octets: &[u8]) -> UserText
    requires { length octets.now ≤ longest_record }
    ensures { result ≡ take longest_packet octets.now }
{
    let mut text = UserText::new();
    text.append(&octets[..octets.len().min(1500)]);
    text
}
