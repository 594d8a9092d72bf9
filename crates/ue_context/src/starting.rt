// PDUs of radio bearers while the phone waits for the security of its connection (TS 36.331 5.3.4, TS 33.401
// 7.2.4.5).
ghost use Rattle.std.specs.Prelude.{◌≡◌, ◌≤◌, ◌<◌, IfOk, Ok, None, Some, [], length};
ghost use Rattle.lte_events.specs.declared.inputs.PhoneIn.TheVariants.{Air};
ghost use Rattle.key_model.specs.Reading.{octet_reading};
ghost use Rattle.key_model.specs.Derivation.{derived_of};
ghost use Rattle.pdcp_guard.specs.AsKeys.{as_keys_of, as_derivations};
ghost use Rattle.rec_base.specs.declared.bearers.Bearer.TheVariants.{Srb1};
ghost use Rattle.rec_base.specs.Lengths.{longest_record};
ghost use Rattle.pdcp_guard.specs.Srb.{srb_count};
ghost use Rattle.lte_machine.specs.Bearers.{OnSrb, Signalling1};
ghost use Rattle.lte_machine.specs.Calls.{phone_call};
ghost use Rattle.lte_machine.specs.Opening.{Opened};
ghost use Rattle.lte_machine.specs.PhoneChoice.{start_row, waiting_front};
ghost use Rattle.lte_machine.specs.PhoneRows.{LinkSecured};
ghost use Rattle.nas_smc.specs.PhoneNas.{NasPart};
ghost use Rattle.ue_context.specs.Parts.{linked, started, waiting};
ghost use Rattle.ue_context.specs.Step.{by_air, counted, start_front, to_phone};

use crate::link::Link;
use crate::waiting::Waiting;
use alg_choice::{Algs, Caps, supports};
use lte_events::{ActorOut, Answer, KeyNote};
use nas_smc::PhoneNas;
use nh_chain::PhoneChain;
use pdcp_guard::{AsKeys, Srb};
use radio_bearers::{Bearers, answer_of, verified_use};
use rec_base::{Bearer, Dir, Way};
use rrc_rec::RrcRecord;

// What is read of the record that starts security before its MAC is looked at: its COUNT, its algorithms,
// and whether it names the station and air address by which it came.
#[derive(Clone, Copy)]
pub(crate) struct Start {
    count: u32,
    algs: Algs,
    named: bool,
}

impl Waiting {
    // A PDU of a station and an air address there: the RRC SecurityModeCommand, on SRB1 and not ciphered. The
    // connection, if its security started, and the reply.
    pub(crate) fn start(
        &self,
        nas: &PhoneNas,
        station: u8,
        air: u32,
        bearer: Bearer,
        pdu: &[u8],
        out: &mut ActorOut,
    ) -> Option<Link>
        requires { length pdu.now ≤ longest_record }
        ensures { (started nas.now self.now result, out.new) ≡ phone_call (waiting nas.now self.now) (Air station air bearer pdu.now) }
    {
        match bearer {
            Bearer::Srb1 => {}
            Bearer::Srb2 | Bearer::Drb1 | Bearer::Drb2 | Bearer::Drb3 | Bearer::Drb4 => {
                out.only(Answer::NotConnected);
                return None;
            }
        }
        let start = match read_start(&nas.caps(), station, air, pdu) {
            Ok(start) => start,
            Err(answer) => {
                out.only(answer);
                return None;
            }
        };
        let (keys, _) = AsKeys::derive(&self.kenb, start.algs);
        match Srb::new(Bearer::Srb1).open(&keys, Dir::Down, false, pdu) {
            Ok(_) => self.take_start(&start, station, air, out),
            Err(fault) => {
                out.only(answer_of(fault));
                None
            }
        }
    }

    // The record was verified: it must name its station and air address.
    fn take_start(&self, start: &Start, station: u8, air: u32, out: &mut ActorOut) -> Option<Link>
        ensures { (n : NasPart) → (started n self.now result, out.new)
            ≡ by_air (waiting n self.now) (Some (to_phone (as_keys_of octet_reading self.now.kenb start.now.algs) Srb1 start.now.count))
            (start_row start.now.count start.now.algs start.now.named station air (Opened [])) }
    {
        let (keys, _) = AsKeys::derive(&self.kenb, start.algs);
        let accepted = Some(verified_use(&keys, Bearer::Srb1, start.count, Dir::Down));
        if !start.named {
            out.only(Answer::NotAddressed);
            out.accepted = accepted;
            return None;
        }
        let link = self.secure(start, station, air, out);
        out.accepted = accepted;
        Some(link)
    }

    // The connection begins: its chain with KeNB, SecurityModeComplete goes unciphered, and all that follows
    // is ciphered (TS 33.401 7.2.8.1.1, TS 36.331 5.3.4.3).
    fn secure(&self, start: &Start, station: u8, air: u32, out: &mut ActorOut) -> Link
        ensures { (n : NasPart) → (linked n result, out.new)
            ≡ by_air (waiting n self.now) None (LinkSecured station air start.now.algs start.now.count) }
    {
        let (keys, made) = AsKeys::derive(&self.kenb, start.algs);
        let mut bearers = Bearers::new();
        bearers.accept_srb(Bearer::Srb1, start.count);
        let mut link = Link {
            station,
            air,
            chain: PhoneChain::begin(&self.root, &self.kenb),
            kenb: self.kenb,
            keys,
            bearers,
            by_handover: false,
        };
        let complete = RrcRecord::SecurityModeComplete.write();
        if !link.bearers.signal(
            &link.keys,
            Dir::Up,
            station,
            air,
            Bearer::Srb1,
            false,
            complete.as_slice(),
            out,
        ) {
            unreachable!()
        }
        out.derived.append(made.as_slice());
        out.note = Some(KeyNote {
            ncc: 0,
            way: Way::Initial,
            key: self.kenb.octets(),
        });
        link
    }
}

// Reads the record that starts security, before its MAC is looked at: KRRCint is of the algorithms that it
// names (TS 36.331 5.3.4.3).
fn read_start(caps: &Caps, station: u8, air: u32, pdu: &[u8]) -> Result<Start, Answer>
    ensures front { waiting_front caps.now station air pdu.now (OnSrb Signalling1) ≡ start_front station air result }
    ensures count { IfOk result (λ start. srb_count 0 pdu.now ≡ Ok start.count) }
{
    let count = first_count(pdu)?;
    let (text, _) = pdu[1..].split_at(pdu.len() - 5);
    match RrcRecord::read(text) {
        Err(fault) => Err(Answer::BadRecord(fault)),
        Ok(
            RrcRecord::SecurityModeCommand {
                algs,
                station: named_station,
                air: named_air,
            },
        ) => {
            if !supports(caps, &algs) {
                return Err(Answer::AlgUnsupported(algs));
            }
            let named = named_station == station && named_air == air;
            Ok(Start { count, algs, named })
        }
        Ok(other) => Err(Answer::WrongKind(other.kind())),
    }
}

// The COUNT of the first PDU on SRB1, or why it has none: below 5 octets, or reserved bits of the first that
// are set (TS 36.323 5.1.2.2 and 6.2.2).
#[tactic(auto, unfolding(pdcp_guard::specs::Srb::srb_count), using(crate::proofs::StartSteps::first_count_is))]
fn first_count(pdu: &[u8]) -> Result<u32, Answer>
    ensures value { counted (srb_count 0 pdu.now) ≡ result }
    ensures long { IfOk result (λ count. 5 ≤ length pdu.now) }
    ensures count { IfOk result (λ count. srb_count 0 pdu.now ≡ Ok count) }
{
    if pdu.len() < 5 {
        return Err(Answer::Short);
    }
    let first = pdu[0];
    if first >= 32 {
        return Err(Answer::BadHeader(first));
    }
    Ok(u32::from(first))
}
