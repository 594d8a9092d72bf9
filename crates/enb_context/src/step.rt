// One step of the station, by what comes.
ghost use Rattle.std.specs.Prelude.{◌≡◌, ◌≤◌, Ok, length, option_map};
ghost use Rattle.std.specs.Bool.{OnTrue, OnFalse};
ghost use Rattle.rec_base.specs.Lengths.{longest_record};
ghost use Rattle.lte_events.specs.Reply.{reply_of};
ghost use Rattle.lte_events.specs.declared.answers.Answer.TheVariants.{WrongKind};
ghost use Rattle.s1x2_rec.specs.Content.{content_of};
ghost use Rattle.s1x2_rec.specs.Fields.{kind_of};
ghost use Rattle.s1x2_rec.specs.Spelling.{InRange};
ghost use Rattle.enb_context.specs.Preps.{IsElsewhere, IsServed};
ghost use Rattle.lte_machine.specs.StationState.{StationRecord, OnS1, OnX2};
ghost use Rattle.s1x2_rec.specs.Reading.{read_core};
ghost use Rattle.lte_machine.specs.StationState.{AirPdu, StationActs};
ghost use Rattle.lte_events.specs.Ranges.{StationDoes};
ghost use Rattle.enb_context.specs.Step.{answered};

use crate::Station;
use lte_events::{ActorOut, Answer, StationAct};
use nh_chain::NhPair;
use rec_base::Bearer;
use s1x2_rec::CoreRecord;

impl Station {
    // An act of its own.
    pub(crate) fn act(&mut self, act: &StationAct, out: &mut ActorOut)
        requires { StationDoes act.now }
        ensures { (self.new, out.new) ≡ answered self.old (StationActs act.now) }
    {
        match act {
            StationAct::Start(kind, cell) => self.start(*kind, cell, out),
            StationAct::Command => self.command(out),
            StationAct::Cancel => self.cancel(out),
            StationAct::Ask => self.ask(out),
            StationAct::SendUser(bearer, text) => self.send_user(*bearer, text, out),
            StationAct::SendRrc(bearer, text) => self.send_rrc(*bearer, text, out),
            StationAct::Skip(bearer, n) => self.skip(*bearer, *n, out),
        }
    }

    // A PDU at an air address.
    pub(crate) fn air(&mut self, air: u32, bearer: Bearer, pdu: &[u8], out: &mut ActorOut)
        requires { length pdu.now ≤ longest_record }
        ensures { (self.new, out.new) ≡ answered self.old (AirPdu air bearer pdu.now) }
    {
        if !self.serves(air) {
            return self.prep_air(air, bearer, pdu, out);
        }
        let Some(context) = &mut self.context else {
            return self.prep_air(air, bearer, pdu, out);
        };
        context.air(air, bearer, pdu, out)
    }

    // Whether the context has this air address.
    fn serves(&self, air: u32) -> bool
        ensures elsewhere { OnFalse result (IsElsewhere air self.now.context) }
        ensures here { OnTrue result (IsServed air self.now.context) }
    {
        match &self.context {
            Some(context) => context.air == air,
            None => false,
        }
    }

    // A record on S1.
    pub(crate) fn s1(&mut self, octets: &[u8], out: &mut ActorOut)
        ensures { (self.new, out.new) ≡ answered self.old (StationRecord OnS1 (read_core octets.now)) }
    {
        let message = match CoreRecord::read(octets) {
            Ok(message) => message,
            Err(fault) => return out.only(Answer::BadRecord(fault)),
        };
        self.s1_message(&message, out)
    }

    // A record on X2.
    pub(crate) fn x2(&mut self, octets: &[u8], out: &mut ActorOut)
        ensures { (self.new, out.new) ≡ answered self.old (StationRecord OnX2 (read_core octets.now)) }
    {
        let message = match CoreRecord::read(octets) {
            Ok(message) => message,
            Err(fault) => return out.only(Answer::BadRecord(fault)),
        };
        self.x2_message(&message, out)
    }

    // By the kinds that a station takes on S1.
    fn s1_message(&mut self, message: &CoreRecord, out: &mut ActorOut)
        requires { InRange (content_of message.now) }
        ensures { (self.new, out.new) ≡ answered self.old (StationRecord OnS1 (Ok (content_of message.now))) }
    {
        match *message {
            CoreRecord::InitialContext {
                conn,
                cell,
                caps,
                kenb,
            } => self.initial_context(conn, cell, caps, kenb, out),
            CoreRecord::ContextRelease { conn } => self.context_release(conn, out),
            CoreRecord::PathSwitchAnswer {
                conn,
                number,
                ncc,
                nh,
            } => self.path_switch_answer(conn, number, NhPair::new(nh, ncc), out),
            CoreRecord::HandoverRequest {
                conn,
                source,
                attempt,
                cell,
                caps,
                ncc,
                nh,
            } => self.handover_request(
                conn,
                source,
                attempt,
                cell,
                caps,
                NhPair::new(nh, ncc),
                out,
            ),
            CoreRecord::HandoverCommand {
                conn,
                attempt,
                cell,
                ncc,
                algs,
                air,
            } => self.handover_command(conn, attempt, cell, ncc, algs, air, out),
            CoreRecord::HandoverCancel {
                conn,
                source,
                attempt,
                cell,
            } => self.handover_cancel(conn, source, attempt, cell, out),
            CoreRecord::ContextModification { conn, next, kenb } => {
                self.context_modification(conn, next, kenb, out)
            }
            _ => wrong(message, out),
        }
    }

    // By the kinds that a station takes on X2.
    fn x2_message(&mut self, message: &CoreRecord, out: &mut ActorOut)
        requires { InRange (content_of message.now) }
        ensures { (self.new, out.new) ≡ answered self.old (StationRecord OnX2 (Ok (content_of message.now))) }
    {
        match *message {
            CoreRecord::X2Request {
                conn,
                source,
                attempt,
                cell,
                caps,
                ncc,
                star,
            } => self.x2_request(conn, source, attempt, cell, caps, star, ncc, out),
            CoreRecord::X2Ack {
                conn,
                attempt,
                cell,
                algs,
                air,
            } => self.x2_ack(conn, attempt, cell, algs, air, out),
            CoreRecord::X2Cancel {
                conn,
                source,
                attempt,
            } => self.x2_cancel(conn, source, attempt, out),
            CoreRecord::X2Release { conn, attempt } => self.x2_release(conn, attempt, out),
            _ => wrong(message, out),
        }
    }
}

// A kind that is not taken there.
fn wrong(message: &CoreRecord, out: &mut ActorOut)
    ensures { out.new ≡ record (reply_of (WrongKind (kind_of (content_of message.now).fields)))
        { received = option_map (λ k. k.key) (content_of message.now).key } }
{
    out.only(Answer::WrongKind(message.kind()));
    out.received = message.key();
}
