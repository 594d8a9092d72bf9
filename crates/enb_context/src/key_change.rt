// The change of the context's key (TS 36.413 8.3.4, TS 33.401 7.2.9.2).
ghost use Rattle.std.specs.Prelude.{◌≡◌, ◌≤◌, ◌+◌, ◌∷◌, [], Some, true, false, ℕ};
ghost use Rattle.std.specs.Bool.{OnTrue, OnFalse};
ghost use Rattle.s1x2_rec.specs.Fields.{ContextModification as Modified};
ghost use Rattle.lte_machine.specs.Bearers.{Signalling1, srb_sent, is_spent};
ghost use Rattle.lte_machine.specs.StationState.{Renewing};
ghost use Rattle.lte_machine.specs.StationRecords.{signalling_sent, order_text, change_order, renewing};
ghost use Rattle.lte_machine.specs.Calls.{sending};
ghost use Rattle.enb_context.specs.Step.{on_s1};

use crate::Station;
use crate::attempt::Attempt;
use crate::context::Context;
use crate::renewal::Renewal;
use crate::sends::heard;
use annex_a_keys::Kenb;
use ho_prep::Prep;
use lte_events::{ActorOut, Answer, KeyNote};
use rec_base::{Bearer, Dir, Way};
use x2_handover::Order;

impl Station {
    // UE Context Modification Request (TS 36.413 8.3.4): KeNB* of the new KeNB for the same cell, a preparation
    // for it in place of all others, and the order under the present keys.
    pub(crate) fn context_modification(
        &mut self,
        conn: u32,
        next: u32,
        kenb: Kenb,
        out: &mut ActorOut,
    )
        requires { 1 ≤ next }
        ensures { (self.new, out.new) ≡ on_s1 self.old (Modified conn next) (Some (record { key = kenb; number = 0 })) }
    {
        let key = kenb.octets();
        let id = self.id;
        let last = self.last;
        let drawn = self.number(2);
        let Some(context) = &mut self.context else {
            return heard(Answer::NoUe, key, out);
        };
        if context.conn != conn {
            return heard(Answer::OldConnection(context.conn, conn), key, out);
        }
        if next <= last {
            return heard(Answer::OldConnection(last, next), key, out);
        }
        if context.starting {
            return heard(Answer::NotActive, key, out);
        }
        if let Some(attempt) = &context.attempt {
            return heard(Answer::AttemptOpen(attempt.number()), key, out);
        }
        let Some(number) = drawn else {
            return heard(Answer::NumberSpent, key, out);
        };
        let air = number + 1;
        let cell = context.cell;
        if !context.renew(id, number, air, out) {
            return heard(Answer::CountSpent, key, out);
        }
        let (star, first) = kenb.star(&cell);
        let (prep, rest) = context.own_prep(next, id, number, air, &cell, star, 0);
        self.renewed(prep);
        out.received = Some(key);
        out.derived.push(first);
        out.derived.append(rest.as_slice());
        out.note = Some(KeyNote {
            ncc: 0,
            way: Way::Given,
            key: star.octets(),
        });
    }

    // A preparation within the station takes the place of all others, for the connection that is the last now.
    fn renewed(&mut self, prep: Prep)
        requires conn { self.old.last ≤ prep.conn }
        ensures { self.new ≡ record self.old { next = prep.air + 1; last = prep.conn; preps = prep ∷ [] } }
    {
        self.next = u64::from(prep.air) + 1;
        self.last = prep.conn;
        self.preps.clear();
        let _ = self.preps.add(prep);
    }
}

impl Context {
    // Orders the change, and keeps it as the attempt, or nothing where no COUNT is left.
    fn renew(&mut self, id: u8, number: u32, air: u32, out: &mut ActorOut) -> bool
        requires id { id ≤ 7 }
        requires number { 1 ≤ number }
        requires air { 1 ≤ air }
        ensures spent { OnFalse result (is_spent self.old.bearers.srb1 ≡ true) }
        ensures same { OnFalse result (self.new ≡ self.old) }
        ensures left { OnTrue result (is_spent self.old.bearers.srb1 ≡ false) }
        ensures new { OnTrue result (self.new ≡ record self.old {
          bearers = srb_sent Signalling1 self.old.bearers;
          attempt = Some (renewing number (change_order 0 id air self.old));
        }) }
        ensures value { OnTrue result (out.new ≡ sending (signalling_sent id self.old.air self.old.keys Signalling1 self.old.bearers.srb1.send
            (order_text Renewing (change_order 0 id air self.old)))) }
    {
        let order = Order {
            cell: self.cell,
            ncc: 0,
            algs: self.algs,
            station: id,
            air,
        };
        let renewal = Renewal { number, order };
        let text = renewal.text().write();
        if !self.bearers.signal(
            &self.keys,
            Dir::Down,
            id,
            self.air,
            Bearer::Srb1,
            true,
            text.as_slice(),
            out,
        ) {
            return false;
        }
        self.begin(Attempt::Renewing(renewal));
        true
    }
}
