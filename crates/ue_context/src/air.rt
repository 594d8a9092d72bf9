// PDUs of radio bearers while the phone is connected (TS 36.323 5.6 and 5.7, TS 36.331 5.3).
ghost use Rattle.std.specs.Prelude.{◌≡◌, ◌≤◌, ◌==◌, ◌&&◌, None, Ok, Some, true, length};
ghost use Rattle.std.specs.Bool.{OnTrue, OnFalse};
ghost use Rattle.rec_base.specs.Bearer.{IsDrb, IsSrb};
ghost use Rattle.rec_base.specs.Lengths.{longest_record};
ghost use Rattle.lte_events.specs.declared.inputs.PhoneIn.TheVariants.{Air};
ghost use Rattle.lte_events.specs.declared.answers.Answer.TheVariants.{Done};
ghost use Rattle.lte_events.specs.Reply.{reply_of};
ghost use Rattle.rrc_rec.specs.Reading.{read_rrc};
ghost use Rattle.rrc_rec.specs.Spelling.{InRange};
ghost use Rattle.lte_machine.specs.Bearers.{which, OnSrb, OnDrb, Signalling1, Signalling2, srb_counts, srb_taken};
ghost use Rattle.lte_machine.specs.Calls.{phone_call};
ghost use Rattle.lte_machine.specs.PhoneChoice.{signalling_read};
ghost use Rattle.radio_bearers.specs.Bearers.{srb_of, drb_of};
ghost use Rattle.ue_context.specs.Parts.{linked};
ghost use Rattle.ue_context.specs.Step.{by_air, to_phone};

use crate::link::Link;
use lte_events::{ActorOut, Answer};
use nas_smc::PhoneNas;
use pdcp_guard::PdcpOpened;
use radio_bearers::{answer_of, is_srb, packet_text, verified_use};
use rec_base::{Bearer, Dir, ShortText, UserText};
use rrc_rec::RrcRecord;

impl Link {
    // A PDU of a station and an air address there; others than its own are not for this connection.
    pub(crate) fn air(
        &mut self,
        nas: &PhoneNas,
        station: u8,
        air: u32,
        bearer: Bearer,
        pdu: &[u8],
        out: &mut ActorOut,
    )
        requires { length pdu.now ≤ longest_record }
        ensures { (linked nas.now self.new, out.new) ≡ phone_call (linked nas.now self.old) (Air station air bearer pdu.now) }
    {
        if !self.is_at(station, air) {
            return out.only(Answer::NotAddressed);
        }
        if is_srb(bearer) {
            return self.air_srb(nas, station, air, bearer, pdu, out);
        }
        self.air_drb(nas, station, air, bearer, pdu, out)
    }

    // Whether the connection is at this station and air address.
    fn is_at(&self, station: u8, air: u32) -> bool
        ensures { result ≡ ((self.now.station == station) && (self.now.air == air)) }
    {
        self.station == station && self.air == air
    }

    // On an SRB: integrity protected and ciphered.
    fn air_srb(
        &mut self,
        nas: &PhoneNas,
        station: u8,
        air: u32,
        bearer: Bearer,
        pdu: &[u8],
        out: &mut ActorOut,
    )
        requires here { ((self.old.station == station) && (self.old.air == air)) ≡ true }
        requires on { which bearer ≡ OnSrb (srb_of bearer) }
        requires srb { IsSrb bearer }
        requires pdu { length pdu.now ≤ longest_record }
        ensures { (linked nas.now self.new, out.new) ≡ phone_call (linked nas.now self.old) (Air station air bearer pdu.now) }
    {
        let opened = match self
            .bearers
            .open_srb(bearer, &self.keys, Dir::Down, true, pdu)
        {
            Ok(opened) => opened,
            Err(fault) => return out.only(answer_of(fault)),
        };
        self.take_rrc(nas, bearer, &opened, out)
    }

    // What was opened on an SRB: data, a handover command or a key change.
    fn take_rrc(&mut self, nas: &PhoneNas, bearer: Bearer, opened: &PdcpOpened, out: &mut ActorOut)
        requires srb { IsSrb bearer }
        requires count { (srb_counts (srb_of bearer) self.old.bearers).receive ≤ opened.now.count }
        ensures { (linked nas.now self.new, out.new) ≡ by_air (linked nas.now self.old) (Some (to_phone self.old.keys bearer opened.now.count))
            (signalling_read nas.now.caps (srb_of bearer) opened.now.count self.old.chain.number (read_rrc opened.now.text)) }
    {
        let accepted = Some(verified_use(&self.keys, bearer, opened.count, Dir::Down));
        let message = match RrcRecord::read(opened.text.as_slice()) {
            Ok(message) => message,
            Err(fault) => {
                out.only(Answer::BadRecord(fault));
                out.accepted = accepted;
                return;
            }
        };
        self.take_message(nas, bearer, opened.count, &message, out);
        out.accepted = accepted;
    }

    // By the kinds that a phone takes on a connection; what hands it over or changes its key on SRB1 alone (TS 36.331 4.2.2).
    fn take_message(
        &mut self,
        nas: &PhoneNas,
        bearer: Bearer,
        count: u32,
        message: &RrcRecord,
        out: &mut ActorOut,
    )
        requires srb { IsSrb bearer }
        requires count { (srb_counts (srb_of bearer) self.old.bearers).receive ≤ count }
        requires in_range { InRange message.now }
        ensures { (linked nas.now self.new, out.new) ≡ by_air (linked nas.now self.old) None
            (signalling_read nas.now.caps (srb_of bearer) count self.old.chain.number (Ok message.now)) }
    {
        let first = is_srb1(bearer);
        match message {
            RrcRecord::RrcData(text) => self.take_data(bearer, count, text, out),
            RrcRecord::Reconfiguration {
                cell,
                ncc,
                algs,
                station,
                air,
            } if first => self.hand_over(nas, cell, *ncc, *algs, *station, *air, out),
            RrcRecord::KeyChange {
                cell,
                algs,
                station,
                air,
            } if first => self.change_key(nas, cell, *algs, *station, *air, out),
            _ => out.only(Answer::WrongKind(message.kind())),
        }
    }

    // An RRC text that is data.
    fn take_data(&mut self, bearer: Bearer, count: u32, text: &ShortText, out: &mut ActorOut)
        requires srb { IsSrb bearer }
        requires count { (srb_counts (srb_of bearer) self.old.bearers).receive ≤ count }
        ensures link { self.new ≡ record self.old { bearers = srb_taken (srb_of bearer) count self.old.bearers } }
        ensures value { out.new ≡ record (reply_of Done) { opened = Some text.now } }
    {
        self.bearers.accept_srb(bearer, count);
        let mut opened = UserText::new();
        opened.append(text.as_slice());
        out.only(Answer::Done);
        out.opened = Some(opened);
    }

    // On a DRB: nothing is verified, and a text is cut to its first 1,500 octets.
    fn air_drb(
        &mut self,
        nas: &PhoneNas,
        station: u8,
        air: u32,
        bearer: Bearer,
        pdu: &[u8],
        out: &mut ActorOut,
    )
        requires here { ((self.old.station == station) && (self.old.air == air)) ≡ true }
        requires on { which bearer ≡ OnDrb (drb_of bearer) }
        requires drb { IsDrb bearer }
        requires pdu { length pdu.now ≤ longest_record }
        ensures { (linked nas.now self.new, out.new) ≡ phone_call (linked nas.now self.old) (Air station air bearer pdu.now) }
    {
        let opened = match self.bearers.receive_drb(bearer, &self.keys, Dir::Down, pdu) {
            Ok(opened) => opened,
            Err(fault) => return out.only(answer_of(fault)),
        };
        out.only(Answer::Done);
        out.opened = Some(packet_text(opened.text.as_slice()));
    }
}

// Whether a bearer is SRB1.
fn is_srb1(bearer: Bearer) -> bool
    requires { IsSrb bearer }
    ensures first { OnTrue result (srb_of bearer ≡ Signalling1) }
    ensures second { OnFalse result (srb_of bearer ≡ Signalling2) }
{
    bearer == Bearer::Srb1
}
