// Records on S1 (TS 36.413).
ghost use Rattle.std.specs.Prelude.{◌≡◌, ◌≤◌, None, Ok, Some, option_map};
ghost use Rattle.lte_events.specs.Reply.{reply_of};
ghost use Rattle.lte_events.specs.declared.answers.Answer.TheVariants.{WrongKind};
ghost use Rattle.lte_machine.specs.CoreState.{CoreRecord as OnS1};
ghost use Rattle.lte_machine.specs.PhoneChoice.{same_caps};
ghost use Rattle.rec_base.specs.declared.ways.Way.TheVariants.{Chained};
ghost use Rattle.s1x2_rec.specs.Content.{content_of};
ghost use Rattle.s1x2_rec.specs.Fields.{PathSwitchRequest as Switching, HandoverRequired as Required, HandoverRequestAck as Acknowledged, HandoverNotify as Notified, HandoverCancel as Cancelled, kind_of};
ghost use Rattle.s1x2_rec.specs.Reading.{read_core};
ghost use Rattle.s1x2_rec.specs.Spelling.{InRange};
ghost use Rattle.mme_context.specs.Step.{answered, caps_of, on_s1};

use crate::Core;
use crate::sends::{sends, sends_key};
use alg_choice::{Algs, Caps};
use annex_a_keys::Cell;
use lte_events::{ActorOut, Answer, KeyNote};
use rec_base::Way;
use s1x2_rec::CoreRecord;

impl Core {
    // A record on S1.
    pub(crate) fn s1(&mut self, octets: &[u8], out: &mut ActorOut)
        ensures { (self.new, out.new) ≡ answered self.old (OnS1 (read_core octets.now)) }
    {
        let message = match CoreRecord::read(octets) {
            Ok(message) => message,
            Err(fault) => return out.only(Answer::BadRecord(fault)),
        };
        self.message(&message, out)
    }

    // By the kinds that a core takes.
    fn message(&mut self, message: &CoreRecord, out: &mut ActorOut)
        requires { InRange (content_of message.now) }
        ensures { (self.new, out.new) ≡ answered self.old (OnS1 (Ok (content_of message.now))) }
    {
        match *message {
            CoreRecord::PathSwitchRequest {
                conn,
                station,
                number,
                cell,
                caps,
            } => self.path_switch_request(conn, station, number, cell, caps, out),
            CoreRecord::HandoverRequired {
                conn,
                station,
                attempt,
                cell,
            } => self.handover_required(conn, station, attempt, cell, out),
            CoreRecord::HandoverRequestAck {
                conn,
                source,
                attempt,
                cell,
                ncc,
                algs,
                air,
            } => self.handover_request_ack(conn, source, attempt, cell, ncc, algs, air, out),
            CoreRecord::HandoverNotify {
                conn,
                station,
                cell,
            } => self.handover_notify(conn, station, cell, out),
            CoreRecord::HandoverCancel {
                conn,
                source,
                attempt,
                cell,
            } => self.handover_cancel(conn, source, attempt, cell, out),
            _ => wrong(message, out),
        }
    }

    // Path Switch Request (TS 36.413 8.4.4): the station gets the next pair. Capabilities that differ from
    // those of the latest authentication raise an alarm (TS 33.401 7.2.4.2.2 and 7.2.8.4.2).
    fn path_switch_request(
        &mut self,
        conn: u32,
        station: u8,
        number: u32,
        cell: Cell,
        caps: Caps,
        out: &mut ActorOut,
    )
        requires conn { 1 ≤ conn }
        requires station { station ≤ 7 }
        requires number { 1 ≤ number }
        ensures { (self.new, out.new) ≡ on_s1 self.old (Switching conn station number cell caps) None }
    {
        let alarm = !same(&caps, &self.latest);
        let seen = self.requests[usize::from(station)];
        let Some(link) = self.link.as_mut() else {
            return out.only(Answer::OldConnection(0, conn));
        };
        if link.conn != conn {
            return out.only(Answer::OldConnection(link.conn, conn));
        }
        if number <= seen {
            return out.only(Answer::Repeated(seen, number));
        }
        let (pair, made) = link.step();
        link.move_to(station);
        self.requests[usize::from(station)] = number;
        let (ncc, nh) = (pair.ncc(), pair.nh());
        let message = CoreRecord::PathSwitchAnswer {
            conn,
            number,
            ncc,
            nh,
        };
        sends_key(station, &message, made, chained(ncc, nh.octets()), out);
        out.alarm = alarm;
    }

    // Handover Required (TS 36.413 8.4.1): the target gets the next pair (TS 33.401 7.2.8.4.3).
    fn handover_required(
        &mut self,
        conn: u32,
        source: u8,
        attempt: u32,
        cell: Cell,
        out: &mut ActorOut,
    )
        requires conn { 1 ≤ conn }
        requires source { source ≤ 7 }
        requires attempt { 1 ≤ attempt }
        ensures { (self.new, out.new) ≡ on_s1 self.old (Required conn source attempt cell) None }
    {
        let caps = self.caps_in_use();
        let seen = self.attempts[usize::from(source)];
        let target = self.cells.station_of(&cell);
        let Some(link) = self.link.as_mut() else {
            return out.only(Answer::OldConnection(0, conn));
        };
        if link.conn != conn {
            return out.only(Answer::OldConnection(link.conn, conn));
        }
        if attempt <= seen {
            return out.only(Answer::Repeated(seen, attempt));
        }
        let Some(target) = target else {
            return out.only(Answer::UnknownCell);
        };
        let (pair, made) = link.step();
        self.attempts[usize::from(source)] = attempt;
        let (ncc, nh) = (pair.ncc(), pair.nh());
        let message = CoreRecord::HandoverRequest {
            conn,
            source,
            attempt,
            cell,
            caps,
            ncc,
            nh,
        };
        sends_key(target, &message, made, chained(ncc, nh.octets()), out)
    }

    // Handover Request Acknowledge (TS 36.413 8.4.2): the source gets the Handover Command.
    fn handover_request_ack(
        &mut self,
        conn: u32,
        source: u8,
        attempt: u32,
        cell: Cell,
        ncc: u8,
        algs: Algs,
        air: u32,
        out: &mut ActorOut,
    )
        requires conn { 1 ≤ conn }
        requires source { source ≤ 7 }
        requires attempt { 1 ≤ attempt }
        requires ncc { ncc ≤ 7 }
        requires air { 1 ≤ air }
        ensures { (self.new, out.new) ≡ on_s1 self.old (Acknowledged conn source attempt cell ncc algs air) None }
    {
        let Some(link) = &self.link else {
            return out.only(Answer::OldConnection(0, conn));
        };
        if link.conn != conn {
            return out.only(Answer::OldConnection(link.conn, conn));
        }
        let message = CoreRecord::HandoverCommand {
            conn,
            attempt,
            cell,
            ncc,
            algs,
            air,
        };
        sends(source, &message, out)
    }

    // Handover Notify (TS 36.413 8.4.3): the phone is at this station.
    fn handover_notify(&mut self, conn: u32, station: u8, cell: Cell, out: &mut ActorOut)
        requires { station ≤ 7 }
        ensures { (self.new, out.new) ≡ on_s1 self.old (Notified conn station cell) None }
    {
        let Some(link) = self.link.as_mut() else {
            return out.only(Answer::OldConnection(0, conn));
        };
        if link.conn != conn {
            return out.only(Answer::OldConnection(link.conn, conn));
        }
        link.move_to(station);
        out.only(Answer::Done)
    }

    // Handover Cancel (TS 36.413 8.4.5), which goes on to the target.
    fn handover_cancel(
        &mut self,
        conn: u32,
        source: u8,
        attempt: u32,
        cell: Cell,
        out: &mut ActorOut,
    )
        requires conn { 1 ≤ conn }
        requires source { source ≤ 7 }
        requires attempt { 1 ≤ attempt }
        ensures { (self.new, out.new) ≡ on_s1 self.old (Cancelled conn source attempt cell) None }
    {
        let Some(link) = &self.link else {
            return out.only(Answer::OldConnection(0, conn));
        };
        if link.conn != conn {
            return out.only(Answer::OldConnection(link.conn, conn));
        }
        let Some(target) = self.cells.station_of(&cell) else {
            return out.only(Answer::UnknownCell);
        };
        let message = CoreRecord::HandoverCancel {
            conn,
            source,
            attempt,
            cell,
        };
        sends(target, &message, out)
    }

    // The capabilities of the context in use; a connection never stands without one.
    pub(crate) fn caps_in_use(&self) -> Caps
        ensures { result ≡ caps_of self.now.context }
    {
        match self.nas.caps() {
            Some(caps) => caps,
            None => Caps { eea: 0, eia: 0 },
        }
    }
}

// The note of a step of the chain.
fn chained(ncc: u8, key: [u8; 32]) -> KeyNote
    ensures { result ≡ record { ncc = ncc; way = Chained; key = key } }
{
    KeyNote {
        ncc,
        way: Way::Chained,
        key,
    }
}

// Whether capabilities are the same.
fn same(caps: &Caps, latest: &Caps) -> bool
    ensures { result ≡ same_caps caps.now latest.now }
{
    caps.eea == latest.eea && caps.eia == latest.eia
}

// A kind that is not taken there.
fn wrong(message: &CoreRecord, out: &mut ActorOut)
    ensures { out.new ≡ record (reply_of (WrongKind (kind_of (content_of message.now).fields)))
        { received = option_map (λ k. k.key) (content_of message.now).key } }
{
    out.only(Answer::WrongKind(message.kind()));
    out.received = message.key();
}
