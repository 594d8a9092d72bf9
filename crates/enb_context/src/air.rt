// PDUs of radio bearers at the air address of the context (TS 36.323 5.6 and 5.7, TS 36.331 5.3).
ghost use Rattle.std.specs.Prelude.{◌≡◌, ◌≤◌, ◌==◌, Some, Ok, true, false, ℕ, List, length};
ghost use Rattle.rec_base.specs.declared.bearers.Bearer.TheVariants.{Srb1};
ghost use Rattle.rec_base.specs.Bearer.{IsDrb, IsSrb};
ghost use Rattle.rec_base.specs.Lengths.{longest_record};
ghost use Rattle.rrc_rec.specs.Reading.{read_rrc};
ghost use Rattle.lte_machine.specs.Bearers.{which, OnSrb, OnDrb, srb_counts};
ghost use Rattle.lte_machine.specs.StationState.{Station as State, AirPdu};
ghost use Rattle.lte_machine.specs.StationChoice.{rrc_row, starting_row};
ghost use Rattle.radio_bearers.specs.Bearers.{srb_of, drb_of};
ghost use Rattle.enb_context.specs.Step.{answered, serving, by_air, from_phone};

use crate::context::Context;
use lte_events::{ActorOut, Answer};
use pdcp_guard::PdcpOpened;
use radio_bearers::{answer_of, is_srb, packet_text, verified_use};
use rec_base::{Bearer, Dir, UserText};
use rrc_rec::RrcRecord;

impl Context {
    // A PDU at the context's air address.
    pub(crate) fn air(&mut self, air: u32, bearer: Bearer, pdu: &[u8], out: &mut ActorOut)
        requires here { (self.old.air == air) ≡ true }
        requires pdu { length pdu.now ≤ longest_record }
        ensures step { (s : State (List ℕ) ℕ) → (serving s self.new, out.new) ≡ answered (serving s self.old) (AirPdu air bearer pdu.now) }
        ensures conn { self.new.conn ≡ self.old.conn }
    {
        if self.starting {
            return self.air_starting(air, bearer, pdu, out);
        }
        if is_srb(bearer) {
            return self.air_srb(air, bearer, pdu, out);
        }
        self.air_drb(air, bearer, pdu, out)
    }

    // While security starts: SRB1, not ciphered yet (TS 36.331 5.3.4.3).
    fn air_starting(&mut self, air: u32, bearer: Bearer, pdu: &[u8], out: &mut ActorOut)
        requires here { (self.old.air == air) ≡ true }
        requires starting { self.old.starting ≡ true }
        requires pdu { length pdu.now ≤ longest_record }
        ensures step { (s : State (List ℕ) ℕ) → (serving s self.new, out.new) ≡ answered (serving s self.old) (AirPdu air bearer pdu.now) }
        ensures conn { self.new.conn ≡ self.old.conn }
    {
        match bearer {
            Bearer::Srb1 => {}
            Bearer::Srb2 | Bearer::Drb1 | Bearer::Drb2 | Bearer::Drb3 | Bearer::Drb4 => {
                return out.only(Answer::NotActive);
            }
        }
        let opened = match self
            .bearers
            .open_srb(Bearer::Srb1, &self.keys, Dir::Up, false, pdu)
        {
            Ok(opened) => opened,
            Err(fault) => return out.only(answer_of(fault)),
        };
        self.take_starting(&opened, out)
    }

    // What was opened while security starts: the Security Mode Complete.
    fn take_starting(&mut self, opened: &PdcpOpened, out: &mut ActorOut)
        requires { self.old.bearers.srb1.receive ≤ opened.now.count }
        ensures step { (s : State (List ℕ) ℕ) → (serving s self.new, out.new)
            ≡ by_air (serving s self.old) (Some (from_phone self.old.keys Srb1 opened.now.count)) (starting_row opened.now.count (read_rrc opened.now.text)) }
        ensures conn { self.new.conn ≡ self.old.conn }
    {
        let accepted = Some(verified_use(&self.keys, Bearer::Srb1, opened.count, Dir::Up));
        let answer = match RrcRecord::read(opened.text.as_slice()) {
            Err(fault) => Answer::BadRecord(fault),
            Ok(RrcRecord::SecurityModeComplete) => {
                self.starting = false;
                self.bearers.accept_srb(Bearer::Srb1, opened.count);
                Answer::Done
            }
            Ok(other) => Answer::WrongKind(other.kind()),
        };
        out.only(answer);
        out.accepted = accepted;
    }

    // On an SRB of an active context.
    fn air_srb(&mut self, air: u32, bearer: Bearer, pdu: &[u8], out: &mut ActorOut)
        requires here { (self.old.air == air) ≡ true }
        requires active { self.old.starting ≡ false }
        requires on { which bearer ≡ OnSrb (srb_of bearer) }
        requires srb { IsSrb bearer }
        requires pdu { length pdu.now ≤ longest_record }
        ensures step { (s : State (List ℕ) ℕ) → (serving s self.new, out.new) ≡ answered (serving s self.old) (AirPdu air bearer pdu.now) }
        ensures conn { self.new.conn ≡ self.old.conn }
    {
        let opened = match self
            .bearers
            .open_srb(bearer, &self.keys, Dir::Up, true, pdu)
        {
            Ok(opened) => opened,
            Err(fault) => return out.only(answer_of(fault)),
        };
        self.take_rrc(bearer, &opened, out)
    }

    // What was opened on an SRB: data, or a Reconfiguration Complete that the phone sent again.
    fn take_rrc(&mut self, bearer: Bearer, opened: &PdcpOpened, out: &mut ActorOut)
        requires srb { IsSrb bearer }
        requires count { (srb_counts (srb_of bearer) self.old.bearers).receive ≤ opened.now.count }
        ensures step { (s : State (List ℕ) ℕ) → (serving s self.new, out.new)
            ≡ by_air (serving s self.old) (Some (from_phone self.old.keys bearer opened.now.count)) (rrc_row (srb_of bearer) opened.now.count (read_rrc opened.now.text)) }
        ensures conn { self.new.conn ≡ self.old.conn }
    {
        let accepted = Some(verified_use(&self.keys, bearer, opened.count, Dir::Up));
        match RrcRecord::read(opened.text.as_slice()) {
            Err(fault) => {
                out.only(Answer::BadRecord(fault));
                out.accepted = accepted;
            }
            Ok(RrcRecord::RrcData(data)) => {
                self.bearers.accept_srb(bearer, opened.count);
                let mut text = UserText::new();
                text.append(data.as_slice());
                out.only(Answer::Done);
                out.accepted = accepted;
                out.opened = Some(text);
            }
            Ok(RrcRecord::ReconfigurationComplete) => {
                self.bearers.accept_srb(bearer, opened.count);
                out.only(Answer::Done);
                out.accepted = accepted;
            }
            Ok(other) => {
                out.only(Answer::WrongKind(other.kind()));
                out.accepted = accepted;
            }
        }
    }

    // On a DRB of an active context: nothing is verified, and a text is cut to its first 1,500 octets.
    fn air_drb(&mut self, air: u32, bearer: Bearer, pdu: &[u8], out: &mut ActorOut)
        requires here { (self.old.air == air) ≡ true }
        requires active { self.old.starting ≡ false }
        requires on { which bearer ≡ OnDrb (drb_of bearer) }
        requires drb { IsDrb bearer }
        requires pdu { length pdu.now ≤ longest_record }
        ensures step { (s : State (List ℕ) ℕ) → (serving s self.new, out.new) ≡ answered (serving s self.old) (AirPdu air bearer pdu.now) }
        ensures conn { self.new.conn ≡ self.old.conn }
    {
        let opened = match self.bearers.receive_drb(bearer, &self.keys, Dir::Up, pdu) {
            Ok(opened) => opened,
            Err(fault) => return out.only(answer_of(fault)),
        };
        out.only(Answer::Done);
        out.opened = Some(packet_text(opened.text.as_slice()));
    }
}
