// Acts of the phone on its connection.
ghost use Rattle.std.specs.Prelude.{◌≡◌, Some};
ghost use Rattle.lte_events.specs.declared.inputs.PhoneIn.TheVariants.{Act};
ghost use Rattle.lte_events.specs.declared.acts.PhoneAct.TheVariants.{GoIdle, ResendComplete, SendRrc, SendUser, Skip};
ghost use Rattle.rec_base.specs.Bearer.{IsDrb, IsSrb};
ghost use Rattle.lte_machine.specs.Bearers.{which, skipped_on};
ghost use Rattle.lte_machine.specs.Calls.{phone_call};
ghost use Rattle.nas_smc.specs.PhoneNas.{NasPart};
ghost use Rattle.ue_context.specs.Parts.{linked};

use crate::Phone;
use crate::link::Link;
use crate::radio::Radio;
use lte_events::{ActorOut, Answer};
use rec_base::{Bearer, Dir, ShortText, UserText};
use rrc_rec::RrcRecord;

impl Phone {
    // The completion of the last handover or key change once more.
    pub(crate) fn resend_complete(&mut self, out: &mut ActorOut)
        ensures { (self.new, out.new) ≡ phone_call self.old (Act ResendComplete) }
    {
        let Radio::Connected(link) = &mut self.radio else {
            return out.only(Answer::NotConnected);
        };
        link.resend_complete(out)
    }

    // Leaves the connection, or stops to wait for one. An idle phone keeps no key of its connection (TS
    // 33.401 7.2.6.3).
    pub(crate) fn go_idle(&mut self, out: &mut ActorOut)
        ensures { (self.new, out.new) ≡ phone_call self.old (Act GoIdle) }
    {
        match &self.radio {
            Radio::Idle => out.only(Answer::NotConnected),
            Radio::Connecting(_) | Radio::Connected(_) => {
                self.radio = Radio::Idle;
                out.only(Answer::Done);
            }
        }
    }

    // A user packet on a DRB (TS 36.323 5.1.1).
    pub(crate) fn send_user(&mut self, bearer: Bearer, text: &UserText, out: &mut ActorOut)
        requires { IsDrb bearer }
        ensures { (self.new, out.new) ≡ phone_call self.old (Act (SendUser bearer text.now)) }
    {
        let Radio::Connected(link) = &mut self.radio else {
            return out.only(Answer::NotConnected);
        };
        link.send_user(bearer, text, out)
    }

    // An RRC text on an SRB.
    pub(crate) fn send_rrc(&mut self, bearer: Bearer, text: &ShortText, out: &mut ActorOut)
        requires { IsSrb bearer }
        ensures { (self.new, out.new) ≡ phone_call self.old (Act (SendRrc bearer text.now)) }
    {
        let Radio::Connected(link) = &mut self.radio else {
            return out.only(Answer::NotConnected);
        };
        link.send_rrc(bearer, text, out)
    }

    // Leaves out so many sending COUNTs of a bearer.
    pub(crate) fn skip_bearer(&mut self, bearer: Bearer, n: u32, out: &mut ActorOut)
        ensures { (self.new, out.new) ≡ phone_call self.old (Act (Skip (Some bearer) n)) }
    {
        let Radio::Connected(link) = &mut self.radio else {
            return out.only(Answer::NotConnected);
        };
        link.skip(bearer, n);
        out.only(Answer::Done)
    }
}

impl Link {
    fn resend_complete(&mut self, out: &mut ActorOut)
        ensures { (n : NasPart) → (linked n self.new, out.new) ≡ phone_call (linked n self.old) (Act ResendComplete) }
    {
        if !self.by_handover {
            return out.only(Answer::NothingToResend);
        }
        let complete = RrcRecord::ReconfigurationComplete.write();
        if !self.bearers.signal(
            &self.keys,
            Dir::Up,
            self.station,
            self.air,
            Bearer::Srb1,
            true,
            complete.as_slice(),
            out,
        ) {
            out.only(Answer::CountSpent);
        }
    }

    #[tactic(auto, using(radio_bearers::proofs::Which::which_drb))]
    fn send_user(&mut self, bearer: Bearer, text: &UserText, out: &mut ActorOut)
        requires { IsDrb bearer }
        ensures { (n : NasPart) → (linked n self.new, out.new) ≡ phone_call (linked n self.old) (Act (SendUser bearer text.now)) }
    {
        if !self.bearers.packet(
            &self.keys,
            Dir::Up,
            self.station,
            self.air,
            bearer,
            text,
            out,
        ) {
            out.only(Answer::CountSpent);
        }
    }

    #[tactic(auto, using(radio_bearers::proofs::Which::which_srb))]
    fn send_rrc(&mut self, bearer: Bearer, text: &ShortText, out: &mut ActorOut)
        requires { IsSrb bearer }
        ensures { (n : NasPart) → (linked n self.new, out.new) ≡ phone_call (linked n self.old) (Act (SendRrc bearer text.now)) }
    {
        let message = RrcRecord::RrcData(text.clone().unwrap()).write();
        if !self.bearers.signal(
            &self.keys,
            Dir::Up,
            self.station,
            self.air,
            bearer,
            true,
            message.as_slice(),
            out,
        ) {
            out.only(Answer::CountSpent);
        }
    }

    fn skip(&mut self, bearer: Bearer, n: u32)
        ensures { self.new ≡ record self.old { bearers = skipped_on (which bearer) n self.old.bearers } }
    {
        self.bearers.skip(bearer, n);
    }
}
