ghost use Rattle.std.specs.Prelude.{◌≡◌, ◌≤◌, true, false, length, IfErr, IfOk, OnOk, OnErr};
ghost use Rattle.std.specs.Bool.{OnTrue, OnFalse};
ghost use Rattle.rec_base.specs.Bearer.{IsDrb, IsSrb};
ghost use Rattle.rec_base.specs.Lengths.{longest_record};
ghost use Rattle.pdcp_guard.specs.Srb.{srb_opened};
ghost use Rattle.pdcp_guard.specs.Drb.{drb_opened};
ghost use Rattle.lte_machine.specs.Bearers.{OnSrb, OnDrb, which, of_srb, of_drb, new_bearers, srb_counts, drb_counts, srb_sent, drb_sent, srb_taken, drb_taken, skipped_on, is_spent};
ghost use Rattle.lte_machine.specs.Ciphers.{annex_b, srb_octets, drb_octets};
ghost use Rattle.lte_machine.specs.Wire.{ciphering_if, srb_use, srb_ciphering, drb_ciphering};
ghost use Rattle.radio_bearers.specs.Bearers.{srb_of, drb_of, is_first};

use pdcp_guard::{AsKeys, Drb, PdcpFault, PdcpOpened, PdcpSent, Srb};
use rec_base::{Bearer, Dir, UserText};
use std::marker::Model;

/// The six radio bearers of a connection: SRB1, SRB2 and DRB1 to DRB4 (TS 36.323 7.1). A contract sees them
/// as the COUNTs of each.
///
/// It is neither `Copy` nor `Clone`, so that no COUNT is sent twice.
#[derive(Drop)]
pub struct Bearers {
    srb1: Srb,
    srb2: Srb,
    drb1: Drb,
    drb2: Drb,
    drb3: Drb,
    drb4: Drb,
}

impl Model for Bearers {
    ghost use Rattle.std.specs.Prelude.{◌≡◌};
    ghost use Rattle.rec_base.specs.declared.bearers.Bearer.TheVariants.{Srb1, Srb2, Drb1, Drb2, Drb3, Drb4};
    ghost use Rattle.lte_machine.specs.Bearers.{Bearers as Counts};

    ghost Value = { Counts };

    ghost view = { λ b. record {
      srb1 = b.srb1.counts;
      srb2 = b.srb2.counts;
      drb1 = b.drb1.counts;
      drb2 = b.drb2.counts;
      drb3 = b.drb3.counts;
      drb4 = b.drb4.counts;
    } };

    ghost invariant = { λ b.
        (b.srb1.bearer ≡ Srb1)
        × (b.srb2.bearer ≡ Srb2)
        × (b.drb1.bearer ≡ Drb1)
        × (b.drb2.bearer ≡ Drb2)
        × (b.drb3.bearer ≡ Drb3)
        × (b.drb4.bearer ≡ Drb4) };
}

impl Bearers {
    /// New bearers: all COUNTs start at 0 (TS 36.323 7.1).
    pub fn new() -> Bearers
        ensures { result ≡ new_bearers }
    {
        Bearers {
            srb1: Srb::new(Bearer::Srb1),
            srb2: Srb::new(Bearer::Srb2),
            drb1: Drb::new(Bearer::Drb1),
            drb2: Drb::new(Bearer::Drb2),
            drb3: Drb::new(Bearer::Drb3),
            drb4: Drb::new(Bearer::Drb4),
        }
    }

    /// Makes the PDU of a text of at most 201 octets on an SRB under its next COUNT, which it takes. `cipher`
    /// says whether the bearer is ciphered (TS 36.323 5.6 and 5.7).
    ///
    /// The only error is `CountSpent`: the next COUNT would be 2^32. Nothing changes then.
    #[tactic(auto, using(crate::proofs::Sealing::srb_sealed_is))]
    pub fn send_srb(
        &mut self,
        bearer: Bearer,
        keys: &AsKeys,
        dir: Dir,
        cipher: bool,
        text: &[u8],
    ) -> Result<PdcpSent, PdcpFault>
        requires srb { IsSrb bearer }
        requires text { length text.now ≤ 201 }
        ensures spent { OnErr result (is_spent (srb_counts (srb_of bearer) self.old) ≡ true) }
        ensures cause { IfErr result (λ fault. fault ≡ PdcpFault.CountSpent) }
        ensures err { OnErr result (self.new ≡ self.old) }
        ensures left { OnOk result (is_spent (srb_counts (srb_of bearer) self.old) ≡ false) }
        ensures new { OnOk result (self.new ≡ srb_sent (srb_of bearer) self.old) }
        ensures count { IfOk result (λ sent. sent.count ≡ (srb_counts (srb_of bearer) self.old).send) }
        ensures pdu { IfOk result (λ sent. sent.pdu ≡ srb_octets annex_b (srb_use dir keys.now.rrc_int (srb_of bearer) sent.count)
            (ciphering_if cipher (srb_ciphering dir keys.now (srb_of bearer) sent.count)) text.now) }
    {
        match bearer {
            Bearer::Srb2 => self.srb2.send(keys, dir, cipher, text),
            _ => self.srb1.send(keys, dir, cipher, text),
        }
    }

    /// Makes the PDU of a packet on a DRB under its next COUNT, which it takes (TS 36.323 5.6).
    ///
    /// The only error is `CountSpent`: the next COUNT would be 2^32. Nothing changes then.
    #[tactic(auto, using(crate::proofs::Sealing::drb_sealed_is))]
    pub fn send_drb(
        &mut self,
        bearer: Bearer,
        keys: &AsKeys,
        dir: Dir,
        text: &UserText,
    ) -> Result<PdcpSent, PdcpFault>
        requires { IsDrb bearer }
        ensures spent { OnErr result (is_spent (drb_counts (drb_of bearer) self.old) ≡ true) }
        ensures cause { IfErr result (λ fault. fault ≡ PdcpFault.CountSpent) }
        ensures err { OnErr result (self.new ≡ self.old) }
        ensures left { OnOk result (is_spent (drb_counts (drb_of bearer) self.old) ≡ false) }
        ensures new { OnOk result (self.new ≡ drb_sent (drb_of bearer) self.old) }
        ensures count { IfOk result (λ sent. sent.count ≡ (drb_counts (drb_of bearer) self.old).send) }
        ensures pdu { IfOk result (λ sent. sent.pdu ≡ drb_octets annex_b (drb_ciphering dir keys.now (drb_of bearer) sent.count) text.now) }
    {
        match bearer {
            Bearer::Drb2 => self.drb2.send(keys, dir, text),
            Bearer::Drb3 => self.drb3.send(keys, dir, text),
            Bearer::Drb4 => self.drb4.send(keys, dir, text),
            _ => self.drb1.send(keys, dir, text),
        }
    }

    /// Whether no COUNT is left to send with on SRB1.
    pub fn is_spent(&self) -> bool
        ensures spent { OnTrue result (is_spent self.now.srb1 ≡ true) }
        ensures left { OnFalse result (is_spent self.now.srb1 ≡ false) }
    {
        self.srb1.spent()
    }

    /// Opens a PDU of at most 1,536 octets of an SRB under the least COUNT at or above the next expected one
    /// with its sequence number (TS 36.323 5.1.2.2). The bearers stay as they are.
    ///
    /// The first of `Short` below five octets, `BadHeader` with a reserved bit set, `CountSpent` where that
    /// COUNT is 2^32 or more, and `MacFails` is the answer.
    pub fn open_srb(
        &self,
        bearer: Bearer,
        keys: &AsKeys,
        dir: Dir,
        cipher: bool,
        pdu: &[u8],
    ) -> Result<PdcpOpened, PdcpFault>
        requires srb { IsSrb bearer }
        requires pdu { length pdu.now ≤ longest_record }
        ensures value { result ≡ srb_opened keys.now cipher bearer (srb_counts (srb_of bearer) self.now).receive dir pdu.now }
        ensures at_or_above { IfOk result (λ o. (srb_counts (srb_of bearer) self.now).receive ≤ o.count) }
    {
        match bearer {
            Bearer::Srb2 => self.srb2.open(keys, dir, cipher, pdu),
            _ => self.srb1.open(keys, dir, cipher, pdu),
        }
    }

    /// Takes the COUNT of a PDU of an SRB that opened: the next one is then expected. It is at or above the
    /// one expected, as `open_srb` ensures.
    pub fn accept_srb(&mut self, bearer: Bearer, count: u32)
        requires srb { IsSrb bearer }
        requires count { (srb_counts (srb_of bearer) self.old).receive ≤ count }
        ensures { self.new ≡ srb_taken (srb_of bearer) count self.old }
    {
        match bearer {
            Bearer::Srb2 => self.srb2.accept(count),
            _ => self.srb1.accept(count),
        }
    }

    /// Opens a PDU of at most 1,536 octets of a DRB under the least COUNT at or above the next expected one
    /// with its sequence number, and takes that COUNT. Nothing is verified (TS 36.323 5.1.2.1.3).
    ///
    /// The first of `Short` below two octets, `BadHeader` with D/C 0 or a reserved bit set, and `CountSpent`
    /// where that COUNT is 2^32 or more is the answer; nothing changes then.
    pub fn receive_drb(
        &mut self,
        bearer: Bearer,
        keys: &AsKeys,
        dir: Dir,
        pdu: &[u8],
    ) -> Result<PdcpOpened, PdcpFault>
        requires drb { IsDrb bearer }
        requires pdu { length pdu.now ≤ longest_record }
        ensures value { result ≡ drb_opened keys.now bearer (drb_counts (drb_of bearer) self.old).receive dir pdu.now }
        ensures err { OnErr result (self.new ≡ self.old) }
        ensures new { IfOk result (λ o. self.new ≡ drb_taken (drb_of bearer) o.count self.old) }
    {
        match bearer {
            Bearer::Drb2 => self.drb2.receive(keys, dir, pdu),
            Bearer::Drb3 => self.drb3.receive(keys, dir, pdu),
            Bearer::Drb4 => self.drb4.receive(keys, dir, pdu),
            _ => self.drb1.receive(keys, dir, pdu),
        }
    }

    /// Leaves out so many sending COUNTs of a bearer, to 2^32 at the most.
    pub fn skip(&mut self, bearer: Bearer, n: u32)
        ensures { self.new ≡ skipped_on (which bearer) n self.old }
    {
        match bearer {
            Bearer::Srb1 => self.srb1.skip(n),
            Bearer::Srb2 => self.srb2.skip(n),
            Bearer::Drb1 => self.drb1.skip(n),
            Bearer::Drb2 => self.drb2.skip(n),
            Bearer::Drb3 => self.drb3.skip(n),
            Bearer::Drb4 => self.drb4.skip(n),
        }
    }
}

/// Whether a bearer is an SRB, and else it is a DRB.
pub fn is_srb(bearer: Bearer) -> bool
    ensures srb { OnTrue result (IsSrb bearer × (which bearer ≡ OnSrb (srb_of bearer)) × (bearer ≡ of_srb (srb_of bearer))) }
    ensures drb { OnFalse result (IsDrb bearer × (which bearer ≡ OnDrb (drb_of bearer)) × (bearer ≡ of_drb (drb_of bearer))) }
{
    match bearer {
        Bearer::Srb1 | Bearer::Srb2 => true,
        Bearer::Drb1 | Bearer::Drb2 | Bearer::Drb3 | Bearer::Drb4 => false,
    }
}

/// Whether a bearer is SRB1.
pub fn is_srb1(bearer: Bearer) -> bool
    ensures { result ≡ is_first (which bearer) }
{
    match bearer {
        Bearer::Srb1 => true,
        Bearer::Srb2 | Bearer::Drb1 | Bearer::Drb2 | Bearer::Drb3 | Bearer::Drb4 => false,
    }
}
