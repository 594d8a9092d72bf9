// Records on X2 (TS 36.423).
ghost use Rattle.std.specs.Prelude.{◌≡◌, ◌≤◌, Some, None, ℕ, List, ◌==◌, if◌then◌else◌};
ghost use Rattle.s1x2_rec.specs.Fields.{X2Request as Requested, X2Ack as Acked, X2Release as Released, X2Cancel as Cancelled};
ghost use Rattle.lte_machine.specs.StationState.{Station as State};
ghost use Rattle.enb_context.specs.Step.{on_x2, serving};

use crate::Station;
use crate::attempt::{Attempt, X2State};
use crate::context::Context;
use crate::s1_records::acked_before;
use crate::sends::{heard, sends};
use alg_choice::{Algs, Caps};
use annex_a_keys::{Cell, Star};
use ho_prep::{By, Prep};
use lte_events::{ActorOut, Address, Answer, KeyNote};
use nh_chain::StationKey;
use pdcp_guard::AsKeys;
use rec_base::Way;
use s1x2_rec::CoreRecord;

impl Station {
    // Handover Request (TS 36.423 8.2.1): KeNB* is the one received (TS 33.401 7.2.8.4.2).
    pub(crate) fn x2_request(
        &mut self,
        conn: u32,
        source: u8,
        attempt: u32,
        cell: Cell,
        caps: Caps,
        star: Star,
        ncc: u8,
        out: &mut ActorOut,
    )
        requires conn { 1 ≤ conn }
        requires source { source ≤ 7 }
        requires attempt { 1 ≤ attempt }
        requires ncc { ncc ≤ 7 }
        ensures { (self.new, out.new) ≡ on_x2 self.old (Requested conn source attempt cell caps) (Some (record { key = star; number = ncc })) }
    {
        let key = star.octets();
        let (algs, air) = match self.admit(conn, source, attempt, &cell, &caps) {
            Ok(taken) => taken,
            Err(answer) => return heard(answer, key, out),
        };
        let (keys, made) = AsKeys::derive(&star.install(), algs);
        let answer = CoreRecord::X2Ack {
            conn,
            attempt,
            cell,
            algs,
            air,
        };
        self.prepare(Prep {
            conn,
            source,
            attempt,
            by: By::X2,
            cell,
            air,
            key: StationKey::given(star, ncc),
            algs,
            keys,
            caps,
        });
        sends(Address::StationX2(source), &answer, out);
        out.received = Some(key);
        out.derived.append(made.as_slice());
        out.note = Some(KeyNote {
            ncc,
            way: Way::Given,
            key,
        });
    }

    // Handover Request Acknowledge (TS 36.423 8.2.1).
    pub(crate) fn x2_ack(
        &mut self,
        conn: u32,
        attempt: u32,
        cell: Cell,
        algs: Algs,
        air: u32,
        out: &mut ActorOut,
    )
        requires { 1 ≤ air }
        ensures { (self.new, out.new) ≡ on_x2 self.old (Acked conn attempt cell algs air) None }
    {
        let Some(context) = &mut self.context else {
            return out.only(Answer::NoUe);
        };
        context.x2_ack(conn, attempt, cell, algs, air, out)
    }

    // Handover Cancel (TS 36.423 8.2.4).
    #[tactic(auto, using(crate::proofs::PrepFacts::has_attempt_map_preps, crate::proofs::PrepFacts::none_without))]
    pub(crate) fn x2_cancel(&mut self, conn: u32, source: u8, attempt: u32, out: &mut ActorOut)
        ensures { (self.new, out.new) ≡ on_x2 self.old (Cancelled conn source attempt) None }
    {
        if !self.remove_prep(source, attempt) {
            return out.only(Answer::NoAttempt);
        }
        out.only(Answer::Done)
    }

    // UE Context Release (TS 36.423 8.2.3), which is taken only after the command was sent.
    pub(crate) fn x2_release(&mut self, conn: u32, attempt: u32, out: &mut ActorOut)
        ensures { (self.new, out.new) ≡ on_x2 self.old (Released conn attempt) None }
    {
        let Some(context) = &self.context else {
            return out.only(Answer::NoUe);
        };
        match &context.attempt {
            Some(Attempt::OverX2(X2State::Commanded(commanded))) => {
                if commanded.number() != attempt {
                    return out.only(Answer::NoAttempt);
                }
            }
            None
            | Some(Attempt::OverX2(X2State::Open(_)))
            | Some(Attempt::OverX2(X2State::Ready(_)))
            | Some(Attempt::OverS1(_))
            | Some(Attempt::Within(_))
            | Some(Attempt::Renewing(_)) => {
                return out.only(Answer::NoAttempt);
            }
        }
        self.context = None;
        out.only(Answer::Done)
    }
}

impl Context {
    // The attempt over X2 that is open becomes ready.
    fn x2_ack(
        &mut self,
        conn: u32,
        attempt: u32,
        cell: Cell,
        algs: Algs,
        air: u32,
        out: &mut ActorOut,
    )
        requires { 1 ≤ air }
        ensures step { (s : State (List ℕ) ℕ) →
            (serving s self.new, out.new) ≡ on_x2 (serving s self.old) (Acked conn attempt cell algs air) None }
        ensures conn { self.new.conn ≡ self.old.conn }
    {
        match self.attempt.take() {
            Some(Attempt::OverX2(X2State::Open(open))) => {
                if open.number() != attempt {
                    self.begin(Attempt::OverX2(X2State::Open(open)));
                    return out.only(Answer::NoAttempt);
                }
                self.begin(Attempt::OverX2(X2State::Ready(open.acked(algs, air))));
                out.only(Answer::Done)
            }
            Some(Attempt::OverX2(state)) => {
                let own = state.number();
                self.begin(Attempt::OverX2(state));
                acked_before(own, attempt, out)
            }
            other => {
                self.attempt = other;
                out.only(Answer::NoAttempt)
            }
        }
    }
}
