// What is sent on a radio bearer, and what the sender tells of it.
ghost use Rattle.std.specs.Prelude.{◌≡◌, ◌≤◌, true, false, length};
ghost use Rattle.std.specs.Bool.{OnTrue, OnFalse};
ghost use Rattle.rec_base.specs.Bearer.{IsDrb, IsSrb};
ghost use Rattle.lte_machine.specs.Bearers.{srb_counts, drb_counts, srb_sent, drb_sent, is_spent};
ghost use Rattle.lte_machine.specs.Wire.{SealedRrc, UserPacket, air_address, ciphering_if, srb_use, srb_ciphering, drb_ciphering};
ghost use Rattle.lte_machine.specs.Calls.{sending};
ghost use Rattle.radio_bearers.specs.Bearers.{srb_of, drb_of};

use crate::Bearers;
use annex_a_keys::AlgType;
use lte_events::{ActorOut, Address, Answer, Record};
use pdcp_guard::AsKeys;
use rec_base::{Bearer, Dir, Use, UserText};

impl Bearers {
    /// Sends an RRC text on an SRB, ciphered or not, between a station and the phone of an air address (TS 36.323
    /// 5.6 and 5.7).
    ///
    /// False where no COUNT is left: nothing is sent then, and nothing changes.
    pub fn signal(
        &mut self,
        keys: &AsKeys,
        dir: Dir,
        station: u8,
        air: u32,
        bearer: Bearer,
        cipher: bool,
        text: &[u8],
        out: &mut ActorOut,
    ) -> bool
        requires srb { IsSrb bearer }
        requires text { length text.now ≤ 201 }
        ensures spent { OnFalse result (is_spent (srb_counts (srb_of bearer) self.old) ≡ true) }
        ensures same { OnFalse result (self.new ≡ self.old) }
        ensures left { OnTrue result (is_spent (srb_counts (srb_of bearer) self.old) ≡ false) }
        ensures new { OnTrue result (self.new ≡ srb_sent (srb_of bearer) self.old) }
        ensures value { OnTrue result (out.new ≡ sending
            (SealedRrc dir station air (srb_of bearer)
            (srb_use dir keys.now.rrc_int (srb_of bearer) (srb_counts (srb_of bearer) self.old).send)
            (ciphering_if cipher (srb_ciphering dir keys.now (srb_of bearer) (srb_counts (srb_of bearer) self.old).send))
            text.now)) }
    {
        let sent = match self.send_srb(bearer, keys, dir, cipher, text) {
            Ok(sent) => sent,
            Err(_) => return false,
        };
        let protection = Use {
            key: keys.key(AlgType::RrcInt),
            count: sent.count,
            bearer: bearer.bearer5(),
            dir,
        };
        out.only(Answer::Done);
        out.sent = Some(Record {
            to: address(dir, station, air, bearer),
            octets: sent.pdu,
        });
        out.tuple = Some(protection);
        if cipher {
            out.used.push(Use {
                key: keys.key(AlgType::RrcEnc),
                ..protection
            });
        }
        out.used.push(protection);
        true
    }

    /// Sends a user packet on a DRB, in the same way (TS 36.323 5.6).
    pub fn packet(
        &mut self,
        keys: &AsKeys,
        dir: Dir,
        station: u8,
        air: u32,
        bearer: Bearer,
        text: &UserText,
        out: &mut ActorOut,
    ) -> bool
        requires { IsDrb bearer }
        ensures spent { OnFalse result (is_spent (drb_counts (drb_of bearer) self.old) ≡ true) }
        ensures same { OnFalse result (self.new ≡ self.old) }
        ensures left { OnTrue result (is_spent (drb_counts (drb_of bearer) self.old) ≡ false) }
        ensures new { OnTrue result (self.new ≡ drb_sent (drb_of bearer) self.old) }
        ensures value { OnTrue result (out.new ≡ sending
            (UserPacket dir station air (drb_of bearer)
            (drb_ciphering dir keys.now (drb_of bearer) (drb_counts (drb_of bearer) self.old).send) text.now)) }
    {
        let sent = match self.send_drb(bearer, keys, dir, text) {
            Ok(sent) => sent,
            Err(_) => return false,
        };
        let ciphering = Use {
            key: keys.key(AlgType::UpEnc),
            count: sent.count,
            bearer: bearer.bearer5(),
            dir,
        };
        out.only(Answer::Done);
        out.sent = Some(Record {
            to: address(dir, station, air, bearer),
            octets: sent.pdu,
        });
        out.used.push(ciphering);
        true
    }
}

// Where a PDU of this direction goes.
fn address(dir: Dir, station: u8, air: u32, bearer: Bearer) -> Address
    ensures { result ≡ air_address dir station air bearer }
{
    match dir {
        Dir::Up => Address::StationAir(station, air, bearer),
        Dir::Down => Address::Phone(station, air, bearer),
    }
}
