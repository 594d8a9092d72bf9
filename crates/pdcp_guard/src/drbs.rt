ghost use Rattle.std.specs.Prelude.{◌≡◌, ℕ, ◌+◌, ◌-◌, ◌/◌, ◌%◌, ◌<◌, ◌≤◌, ◌↔◌, drop, IfErr, IfOk, IsErr, List, OnErr, length};
ghost use Rattle.nas_guard.specs.Open.{first_in};
ghost use Rattle.pdcp_guard.specs.Counts.{after_receive, after_send, expects_next, new_bearer, send_count, sends_next, skipped};
ghost use Rattle.key_model.specs.Least.{least};
ghost use Rattle.rec_base.specs.Bearer.{IsDrb};
ghost use Rattle.rec_base.specs.Lengths.{longest_record};
ghost use Rattle.pdcp_guard.specs.Drb.{DrbOpens, DrbRefuses, drb_ciphered, drb_count, drb_opened, drb_opened_at, drb_sealed, drb_sent_by, drb_sn};
ghost use Rattle.pdcp_guard.specs.Counts.{count_limit};

use crate::counting::Counts;
use crate::{AsKeys, PdcpFault, PdcpOpened, PdcpSent};
use rec_base::{Bearer, Dir, Octets, UserText};
use std::marker::Model;

/// A data radio bearer of RLC UM with sequence numbers of 12 bits: ciphered, and with no integrity
/// protection (TS 36.323 5.6). A contract sees it as the bearer and its COUNTs.
///
/// It is neither `Copy` nor `Clone`, so that no COUNT is sent twice.
#[derive(Drop)]
pub struct Drb {
    bearer: Bearer,
    counts: Counts,
}

impl Model for Drb {
    ghost use Rattle.pdcp_guard.specs.Counts.{BearerState};

    ghost Value = { BearerState };

    ghost use Rattle.rec_base.specs.Bearer.{IsDrb};

    ghost view = { λ b. record { bearer = b.bearer; counts = b.counts } };

    ghost invariant = { λ b. IsDrb b.bearer };

    ghost inverse = { λ b. record { bearer = b.bearer; counts = b.counts } };
}

impl Drb {
    /// A new bearer, DRB1 to DRB4: both COUNTs start at 0 (TS 36.323 7.1).
    pub fn new(bearer: Bearer) -> Drb
        requires { IsDrb bearer }
        ensures { result ≡ new_bearer bearer }
    {
        Drb {
            bearer,
            counts: Counts::new(),
        }
    }

    /// Makes the PDU of a text under the next COUNT, which it takes (TS 36.323 5.6).
    ///
    /// Where the next COUNT would be 2^32, the answer is `CountSpent` and the bearer stays as it is.
    pub fn send(&mut self, keys: &AsKeys, dir: Dir, text: &UserText) -> Result<PdcpSent, PdcpFault>
        ensures value { result ≡ drb_sent_by keys.now self.old.bearer dir text.now (send_count self.old) }
        ensures new { self.new ≡ after_send self.old (send_count self.old) }
        ensures pdu { IfOk result (λ sent. sent.pdu ≡ drb_sealed keys.now self.old.bearer sent.count dir text.now) }
        ensures count { IfOk result (λ sent. sent.count ≡ self.old.counts.send) }
        ensures moves { IfOk result (λ sent. self.new ≡ sends_next self.old (sent.count + 1)) }

        // A receiver whose next expected COUNT is no more than 4,095 below opens it to the text.
        ensures opens { IfOk result (λ sent. (next : ℕ) → next ≤ sent.count → sent.count - next < 4096
            → drb_opened keys.now self.old.bearer next dir sent.pdu ≡ Ok (record { count = sent.count; text = text.now })) }

        ensures spent { IsErr result ↔ (self.old.counts.send ≡ count_limit) }
        ensures cause { IfErr result (λ fault. fault ≡ PdcpFault.CountSpent) }
        ensures err { OnErr result (self.new ≡ self.old) }
    {
        let count = self.counts.next()?;
        self.counts.sent(count);
        let pdu = sealed(keys, self.bearer, count, dir, text.as_slice());
        Ok(PdcpSent { pdu, count })
    }

    /// Opens a PDU under the least COUNT at or above the next expected one with its sequence number, and
    /// takes that COUNT (TS 36.323 5.1.2.1.3).
    ///
    /// Nothing is verified on a DRB: any PDU of two octets or more with a good header and a COUNT below 2^32
    /// opens to some text and moves the expected COUNT, whoever made it (TS 36.323 5.1.2.1).
    ///
    /// The PDU has at most 1,536 octets. Where causes of refusal stand together, the first of `Short`,
    /// `BadHeader` and `CountSpent` is the answer, and the bearer stays as it is.
    pub fn receive(&mut self, keys: &AsKeys, dir: Dir, pdu: &[u8]) -> Result<PdcpOpened, PdcpFault>
        requires { length pdu.now ≤ longest_record }
        ensures value { result ≡ drb_opened keys.now self.old.bearer self.old.counts.receive dir pdu.now }
        ensures new { self.new ≡ after_receive self.old (drb_count self.old.counts.receive pdu.now) }
        ensures opens { IfOk result (DrbOpens keys.now self.old.bearer self.old.counts.receive dir pdu.now) }
        ensures moves { IfOk result (λ o. self.new ≡ expects_next self.old (o.count + 1)) }
        ensures was_sealed { IfOk result (λ o. pdu.now ≡ drb_sealed keys.now self.old.bearer o.count dir o.text) }

        // A PDU that was made under these keys and this bearer and direction opens to its text where its
        // COUNT is the one expected: the least with its sequence number.
        ensures intact { (count : ℕ) (text : List ℕ) → pdu.now ≡ drb_sealed keys.now self.old.bearer count dir text
            → count < count_limit → least self.old.counts.receive (count % 4096) 4096 ≡ count
            → result ≡ Ok (record { count = count; text = text }) }

        ensures refused { IfErr result (DrbRefuses self.old.counts.receive pdu.now) }
        ensures err { OnErr result (self.new ≡ self.old) }
    {
        let count = self.count_of(pdu)?;
        self.counts.received(count);
        Ok(opened_at(keys, self.bearer, count, dir, pdu))
    }

    /// Leaves out so many COUNTs to send with, to 2^32 at the most.
    pub fn skip(&mut self, n: u32)
        ensures next { self.new ≡ sends_next self.old (skipped self.old.counts.send n) }
        ensures in_range { self.old.counts.send ≤ count_limit }
    {
        self.counts.skip(n);
    }

    // The COUNT of a PDU.
    #[tactic(auto, unfolding(crate::specs::Drb::drb_count))]
    fn count_of(&self, pdu: &[u8]) -> Result<u32, PdcpFault>
        ensures value { result ≡ drb_count self.now.counts.receive pdu.now }
        ensures long { IfOk result (λ _. 2 ≤ length pdu.now) }
        ensures first { IfOk result (λ _. first_in pdu.now / 16 ≡ 8) }
        ensures count { IfOk result (λ count. count ≡ least self.now.counts.receive (drb_sn pdu.now) 4096) }
        ensures refused { IfErr result (DrbRefuses self.now.counts.receive pdu.now) }
    {
        if pdu.len() < 2 {
            return Err(PdcpFault::Short);
        }
        let first = pdu[0];
        if first / 16 != 8 {
            return Err(PdcpFault::BadHeader(first));
        }
        let sn = 256 * u32::from(first % 16) + u32::from(pdu[1]);
        self.counts.estimate(sn, 4096)
    }
}

// The PDU of a text under a COUNT.
#[tactic(auto, unfolding(crate::specs::Drb::drb_sealed))]
fn sealed(keys: &AsKeys, bearer: Bearer, count: u32, dir: Dir, text: &[u8]) -> Octets
    requires { length text.now ≤ 1500 }
    ensures { result ≡ drb_sealed keys.now bearer count dir text.now }
{
    let sent = keys.drb_ciphered(bearer, count, dir, text);
    let mut pdu = Octets::new();
    pdu.append(&[128 + (count / 256 % 16) as u8, (count % 256) as u8]);
    pdu.append(sent.as_slice());
    pdu
}

// The text of a PDU at a COUNT.
#[tactic(auto, unfolding(crate::specs::Drb::drb_opened_at))]
fn opened_at(keys: &AsKeys, bearer: Bearer, count: u32, dir: Dir, pdu: &[u8]) -> PdcpOpened
    requires long { 2 ≤ length pdu.now }
    requires length { length pdu.now ≤ longest_record }
    ensures value { result ≡ drb_opened_at keys.now bearer count dir pdu.now }
    ensures count { result.count ≡ count }
    ensures text { result.text ≡ drb_ciphered keys.now bearer count dir (drop 2 pdu.now) }
{
    let text = keys.drb_ciphered(bearer, count, dir, &pdu[2..]);
    PdcpOpened { count, text }
}
