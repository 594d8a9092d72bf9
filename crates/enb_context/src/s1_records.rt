// Records on S1 (TS 36.413).
ghost use Rattle.std.specs.Prelude.{◌≡◌, ◌≤◌, Some, None, ℕ, List, ◌==◌, if◌then◌else◌};
ghost use Rattle.lte_events.specs.Reply.{reply_of};
ghost use Rattle.lte_events.specs.declared.answers.Answer.TheVariants.{Done, Repeated, NoAttempt};
ghost use Rattle.s1x2_rec.specs.Fields.{InitialContext as Given, ContextRelease as Released, PathSwitchAnswer as Answered, HandoverRequest as Requested, HandoverCommand as Commanded, HandoverCancel as Cancelled};
ghost use Rattle.lte_machine.specs.StationState.{Station as State};
ghost use Rattle.lte_machine.specs.Calls.{actor_out};
ghost use Rattle.lte_machine.specs.Reply.{only, finished};
ghost use Rattle.lte_machine.specs.StationRecords.{source_release};
ghost use Rattle.enb_context.specs.Step.{on_s1, serving};

use crate::Station;
use crate::attempt::{Attempt, S1State};
use crate::context::Context;
use crate::sends::{heard, sends};
use alg_choice::{Algs, Caps};
use annex_a_keys::{Cell, Kenb};
use ho_prep::{By, Prep};
use lte_events::{ActorOut, Address, Answer, KeyNote};
use nh_chain::{NhPair, StationKey};
use pdcp_guard::AsKeys;
use radio_bearers::Bearers;
use rec_base::{Bearer, Dir, Way};
use rrc_rec::RrcRecord;
use s1x2_rec::CoreRecord;

impl Station {
    // Initial Context Setup Request (TS 36.413 8.3.1, TS 33.401 7.2.4.2.1).
    #[tactic(auto, using(crate::proofs::PrepFacts::none_above_nil))]
    pub(crate) fn initial_context(
        &mut self,
        conn: u32,
        cell: Cell,
        caps: Caps,
        kenb: Kenb,
        out: &mut ActorOut,
    )
        requires { 1 ≤ conn }
        ensures { (self.new, out.new) ≡ on_s1 self.old (Given conn cell caps) (Some (record { key = kenb; number = 0 })) }
    {
        let key = kenb.octets();
        let (algs, air) = match self.admit_context(conn, &cell, &caps) {
            Ok(taken) => taken,
            Err(answer) => return heard(answer, key, out),
        };
        let (keys, made) = AsKeys::derive(&kenb, algs);
        let mut context = Context {
            conn,
            cell,
            air,
            key: StationKey::initial(kenb),
            algs,
            keys,
            caps,
            starting: true,
            bearers: Bearers::new(),
            attempt: None,
            outstanding: None,
            origin: None,
        };
        let command = RrcRecord::SecurityModeCommand {
            algs,
            station: self.id,
            air,
        };
        let text = command.write();
        if !context.bearers.signal(
            &context.keys,
            Dir::Down,
            self.id,
            air,
            Bearer::Srb1,
            false,
            text.as_slice(),
            out,
        ) {
            unreachable!()
        }
        out.received = Some(key);
        out.derived.append(made.as_slice());
        out.note = Some(KeyNote {
            ncc: 0,
            way: Way::Given,
            key,
        });
        self.next = u64::from(air) + 1;
        self.last = conn;
        self.context = Some(context);
        self.preps.clear();
    }

    // UE Context Release Command (TS 36.413 8.3.3).
    #[tactic(auto, using(crate::proofs::PrepFacts::none_above_nil))]
    pub(crate) fn context_release(&mut self, conn: u32, out: &mut ActorOut)
        ensures { (self.new, out.new) ≡ on_s1 self.old (Released conn) None }
    {
        match self.context.as_ref() {
            None => return out.only(Answer::NoUe),
            Some(context) => {
                if context.conn != conn {
                    return out.only(Answer::OldConnection(context.conn, conn));
                }
            }
        }
        self.context = None;
        self.preps.clear();
        out.only(Answer::Done)
    }

    // Path Switch Request Acknowledge (TS 36.413 8.4.4).
    pub(crate) fn path_switch_answer(
        &mut self,
        conn: u32,
        number: u32,
        pair: NhPair,
        out: &mut ActorOut,
    )
        ensures { (self.new, out.new) ≡ on_s1 self.old (Answered conn number) (Some pair) }
    {
        let Some(context) = &mut self.context else {
            return heard(Answer::NoUe, pair.nh().octets(), out);
        };
        context.path_switch_answer(conn, number, pair, out)
    }

    // Handover Request (TS 36.413 8.4.2): KeNB* is derived of the NH (TS 33.401 7.2.8.4.3).
    pub(crate) fn handover_request(
        &mut self,
        conn: u32,
        source: u8,
        attempt: u32,
        cell: Cell,
        caps: Caps,
        pair: NhPair,
        out: &mut ActorOut,
    )
        requires conn { 1 ≤ conn }
        requires source { source ≤ 7 }
        requires attempt { 1 ≤ attempt }
        ensures { (self.new, out.new) ≡ on_s1 self.old (Requested conn source attempt cell caps) (Some pair) }
    {
        let key = pair.nh().octets();
        let (algs, air) = match self.admit(conn, source, attempt, &cell, &caps) {
            Ok(taken) => taken,
            Err(answer) => return heard(answer, key, out),
        };
        let ncc = pair.ncc();
        let (star, _, first) = pair.into_star(&cell);
        let (keys, made) = AsKeys::derive(&star.install(), algs);
        let answer = CoreRecord::HandoverRequestAck {
            conn,
            source,
            attempt,
            cell,
            ncc,
            algs,
            air,
        };
        self.prepare(Prep {
            conn,
            source,
            attempt,
            by: By::S1,
            cell,
            air,
            key: StationKey::given(star, ncc),
            algs,
            keys,
            caps,
        });
        sends(Address::CoreS1, &answer, out);
        out.received = Some(key);
        out.derived.push(first);
        out.derived.append(made.as_slice());
        out.note = Some(KeyNote {
            ncc,
            way: Way::Vertical,
            key: star.octets(),
        });
    }

    // Handover Command (TS 36.413 8.4.1).
    pub(crate) fn handover_command(
        &mut self,
        conn: u32,
        attempt: u32,
        cell: Cell,
        ncc: u8,
        algs: Algs,
        air: u32,
        out: &mut ActorOut,
    )
        requires ncc { ncc ≤ 7 }
        requires air { 1 ≤ air }
        ensures { (self.new, out.new) ≡ on_s1 self.old (Commanded conn attempt cell ncc algs air) None }
    {
        let Some(context) = &mut self.context else {
            return out.only(Answer::NoUe);
        };
        context.handover_command(conn, attempt, cell, ncc, algs, air, out)
    }

    // Handover Cancel (TS 36.413 8.4.5), which the core passes on.
    #[tactic(auto, using(crate::proofs::PrepFacts::has_attempt_map_preps, crate::proofs::PrepFacts::none_without))]
    pub(crate) fn handover_cancel(
        &mut self,
        conn: u32,
        source: u8,
        attempt: u32,
        cell: Cell,
        out: &mut ActorOut,
    )
        ensures { (self.new, out.new) ≡ on_s1 self.old (Cancelled conn source attempt cell) None }
    {
        if !self.remove_prep(source, attempt) {
            return out.only(Answer::NoAttempt);
        }
        out.only(Answer::Done)
    }
}

impl Context {
    // Only the answer to the newest request is taken, once.
    fn path_switch_answer(&mut self, conn: u32, number: u32, pair: NhPair, out: &mut ActorOut)
        ensures step { (s : State (List ℕ) ℕ) →
            (serving s self.new, out.new) ≡ on_s1 (serving s self.old) (Answered conn number) (Some pair) }
        ensures conn { self.new.conn ≡ self.old.conn }
    {
        let key = pair.nh().octets();
        let outstanding = self.outstanding.unwrap_or(0);
        if self.outstanding != Some(number) {
            return heard(Answer::Stale(outstanding, number), key, out);
        }
        self.key.store(pair);
        self.outstanding = None;
        self.release_source(key, out)
    }

    // The X2 source is told to release its context (TS 36.423 8.2.3).
    fn release_source(&self, key: [u8; 32], out: &mut ActorOut)
        ensures { out.new ≡ actor_out (finished (Some key) None (record (only Done) { sent = source_release self.now.conn self.now.origin })) }
    {
        let Some(origin) = self.origin else {
            return heard(Answer::Done, key, out);
        };
        let message = CoreRecord::X2Release {
            conn: self.conn,
            attempt: origin.attempt,
        };
        sends(Address::StationX2(origin.source), &message, out);
        out.received = Some(key);
    }

    // The attempt over S1 that is open becomes ready.
    fn handover_command(
        &mut self,
        conn: u32,
        attempt: u32,
        cell: Cell,
        ncc: u8,
        algs: Algs,
        air: u32,
        out: &mut ActorOut,
    )
        requires ncc { ncc ≤ 7 }
        requires air { 1 ≤ air }
        ensures step { (s : State (List ℕ) ℕ) →
            (serving s self.new, out.new) ≡ on_s1 (serving s self.old) (Commanded conn attempt cell ncc algs air) None }
        ensures conn { self.new.conn ≡ self.old.conn }
    {
        match self.attempt.take() {
            Some(Attempt::OverS1(S1State::Open(open))) => {
                if open.number() != attempt {
                    self.begin(Attempt::OverS1(S1State::Open(open)));
                    return out.only(Answer::NoAttempt);
                }
                self.begin(Attempt::OverS1(S1State::Ready(open.acked(ncc, algs, air))));
                out.only(Answer::Done)
            }
            Some(Attempt::OverS1(state)) => {
                let own = state.number();
                self.begin(Attempt::OverS1(state));
                acked_before(own, attempt, out)
            }
            other => {
                self.attempt = other;
                out.only(Answer::NoAttempt)
            }
        }
    }
}

// The answer to an acknowledgement of an attempt of this number that was acknowledged before.
pub(crate) fn acked_before(own: u32, attempt: u32, out: &mut ActorOut)
    ensures { out.new ≡ reply_of (if own == attempt then Repeated attempt attempt else NoAttempt) }
{
    if own == attempt {
        out.only(Answer::Repeated(attempt, attempt))
    } else {
        out.only(Answer::NoAttempt)
    }
}
