// PDUs at the air address of a preparation, and a preparation that becomes the context.
ghost use Rattle.std.specs.Prelude.{◌≡◌, ◌≤◌, ◌==◌, Some, None, ℕ, List, [], length, option_map, IfSome};
ghost use Rattle.rec_base.specs.declared.bearers.Bearer.TheVariants.{Srb1};
ghost use Rattle.rrc_rec.specs.Reading.{read_rrc};
ghost use Rattle.rec_base.specs.declared.ways.Way.TheVariants.{Completed};
ghost use Rattle.rec_base.specs.Lengths.{longest_record};
ghost use Rattle.ho_prep.specs.declared.origins.By.TheVariants.{Intra};
ghost use Rattle.ho_prep.specs.Origin.{IsOrigin};
ghost use Rattle.ho_prep.specs.Prep.{Prep as PrepOf, at_air};
ghost use Rattle.lte_machine.specs.StationRows.{CompletedByX2, CompletedByS1, CompletedWithin};
ghost use Rattle.lte_machine.specs.StationKeys.{arrived};
ghost use Rattle.lte_machine.specs.StationState.{AirPdu};
ghost use Rattle.lte_machine.specs.StationChoice.{prepared_row, completed_row};
ghost use Rattle.enb_context.specs.Preps.{IsElsewhere, IsFound};
ghost use Rattle.enb_context.specs.Step.{answered, by_air, from_phone};

use crate::Station;
use crate::context::Context;
use crate::origin::Origin;
use crate::sends::sends;
use ho_prep::{By, Prep};
use lte_events::{ActorOut, Address, Answer, KeyNote};
use nh_chain::StationKey;
use pdcp_guard::{PdcpOpened, Srb};
use radio_bearers::{Bearers, answer_of, is_srb1, verified_use};
use rec_base::{Bearer, Dir, Way};
use rrc_rec::RrcRecord;
use s1x2_rec::CoreRecord;

impl Station {
    // A PDU at an air address that is not the context's. A preparation expects COUNT 0 on SRB1, and nothing
    // else (TS 36.331 5.3.5.4).
    pub(crate) fn prep_air(&mut self, air: u32, bearer: Bearer, pdu: &[u8], out: &mut ActorOut)
        requires elsewhere { IsElsewhere air self.old.context }
        requires pdu { length pdu.now ≤ longest_record }
        ensures { (self.new, out.new) ≡ answered self.old (AirPdu air bearer pdu.now) }
    {
        let Some(prep) = self.preps.at_air(air) else {
            return out.only(Answer::NotAddressed);
        };
        if !is_srb1(bearer) {
            return out.only(Answer::NotActive);
        }
        let opened = match Srb::new(Bearer::Srb1).open(&prep.keys, Dir::Up, true, pdu) {
            Ok(opened) => opened,
            Err(fault) => return out.only(answer_of(fault)),
        };
        self.take_prepared(air, &opened, out)
    }

    // What was opened at a preparation: the Reconfiguration Complete.
    fn take_prepared(&mut self, air: u32, opened: &PdcpOpened, out: &mut ActorOut)
        ensures { (p : PrepOf (List ℕ) ℕ) → at_air air self.old.preps ≡ Some p → (self.new, out.new)
            ≡ by_air self.old (Some (from_phone p.keys Srb1 opened.now.count)) (prepared_row self.old.next air opened.now.count p.by (read_rrc opened.now.text)) }
    {
        let Some(prep) = self.preps.at_air(air) else {
            return out.only(Answer::NotAddressed);
        };
        let accepted = Some(verified_use(&prep.keys, Bearer::Srb1, opened.count, Dir::Up));
        match RrcRecord::read(opened.text.as_slice()) {
            Err(fault) => out.only(Answer::BadRecord(fault)),
            Ok(RrcRecord::ReconfigurationComplete) => self.complete(air, opened.count, out),
            Ok(_) => out.only(Answer::NotActive),
        }
        out.accepted = accepted;
    }

    // A preparation becomes the context, and all others are dropped. After X2 the core is asked for a pair under
    // a number that is drawn (TS 36.413 8.4.4), after S1 it is notified (8.4.3).
    fn complete(&mut self, air: u32, count: u32, out: &mut ActorOut)
        ensures { (p : PrepOf (List ℕ) ℕ) → at_air air self.old.preps ≡ Some p → (self.new, out.new)
            ≡ by_air self.old None (completed_row self.old.next air count p.by) }
    {
        let drawn = self.number(1);
        let Some(prep) = self.preps.at_air(air) else {
            return out.only(Answer::NotAddressed);
        };
        match prep.by {
            By::X2 => match drawn {
                Some(number) => self.complete_x2(air, count, number, out),
                None => out.only(Answer::NumberSpent),
            },
            By::S1 => self.complete_s1(air, count, out),
            By::Intra(came) => self.complete_within(air, count, origin_of(came), out),
        }
    }

    fn complete_x2(&mut self, air: u32, count: u32, number: u32, out: &mut ActorOut)
        requires number { 1 ≤ number }
        requires context { IsFound air self.old.preps }
        ensures { (self.new, out.new) ≡ by_air self.old None (CompletedByX2 air count number) }
    {
        let Some(prep) = self.take_only(air) else {
            return out.only(Answer::NotAddressed);
        };
        let origin = Origin {
            source: prep.source,
            attempt: prep.attempt,
        };
        let request = CoreRecord::PathSwitchRequest {
            conn: prep.conn,
            station: self.id,
            number,
            cell: prep.cell,
            caps: prep.caps,
        };
        let note = arrival(&prep.key);
        self.next = u64::from(number) + 1;
        self.context = Some(arrived(prep, count, Some(number), Some(origin)));
        sends(Address::CoreS1, &request, out);
        out.note = Some(note);
    }

    fn complete_s1(&mut self, air: u32, count: u32, out: &mut ActorOut)
        requires { IsFound air self.old.preps }
        ensures { (self.new, out.new) ≡ by_air self.old None (CompletedByS1 air count) }
    {
        let Some(prep) = self.take_only(air) else {
            return out.only(Answer::NotAddressed);
        };
        let notify = CoreRecord::HandoverNotify {
            conn: prep.conn,
            station: self.id,
            cell: prep.cell,
        };
        let note = arrival(&prep.key);
        self.context = Some(arrived(prep, count, None, None));
        sends(Address::CoreS1, &notify, out);
        out.note = Some(note);
    }

    fn complete_within(&mut self, air: u32, count: u32, origin: Option<Origin>, out: &mut ActorOut)
        requires { IsFound air self.old.preps }
        ensures { (self.new, out.new) ≡ by_air self.old None (CompletedWithin air count origin) }
    {
        let Some(prep) = self.take_only(air) else {
            return out.only(Answer::NotAddressed);
        };
        let note = arrival(&prep.key);
        self.context = Some(arrived(prep, count, None, origin));
        out.only(Answer::Done);
        out.note = Some(note);
    }

    // Takes the preparation at an air address, and drops all others.
    #[tactic(auto, using(crate::proofs::PrepFacts::none_above_nil))]
    fn take_only(&mut self, air: u32) -> Option<Prep>
        ensures value { result ≡ at_air air self.old.preps }
        ensures within { IfSome result (λ p. p.conn ≤ self.old.last) }
        ensures others { self.new ≡ record self.old { preps = [] } }
    {
        let prep = self.preps.take_air(air);
        self.preps.clear();
        prep
    }
}

// The X2 handover by which the context of a handover within the station had come.
fn origin_of(came: Option<(u8, u32)>) -> Option<Origin>
    requires { IsOrigin (Intra came) }
    ensures { result ≡ option_map (λ o. record { source = o.0; attempt = o.1 }) came }
{
    match came {
        Some((source, attempt)) => Some(Origin { source, attempt }),
        None => None,
    }
}

// What is told of the key of a preparation that was completed.
fn arrival(key: &StationKey) -> KeyNote
    ensures { result ≡ record { ncc = key.now.number; way = Completed; key = key.now.kenb } }
{
    KeyNote {
        ncc: key.ncc(),
        way: Way::Completed,
        key: key.kenb().octets(),
    }
}

// The context that a preparation becomes: all COUNTs start at 0 (TS 33.401 7.2.8.4, TS 36.323 5.2), and the
// Reconfiguration Complete had this one on SRB1.
fn arrived(prep: Prep, count: u32, outstanding: Option<u32>, origin: Option<Origin>) -> Context
    ensures { result ≡ arrived count outstanding origin prep }
{
    let mut bearers = Bearers::new();
    bearers.accept_srb(Bearer::Srb1, count);
    Context {
        conn: prep.conn,
        cell: prep.cell,
        air: prep.air,
        key: prep.key,
        algs: prep.algs,
        keys: prep.keys,
        caps: prep.caps,
        starting: false,
        bearers,
        attempt: None,
        outstanding,
        origin,
    }
}
