// Acts of the station.
ghost use Rattle.std.specs.Prelude.{◌≡◌, ◌≤◌, Some, ℕ, List};
ghost use Rattle.lte_events.specs.declared.acts.StationAct.TheVariants.{Ask, SendUser, SendRrc, Skip};
ghost use Rattle.lte_machine.specs.Bearers.{which};
ghost use Rattle.lte_machine.specs.StationState.{Station as State, StationActs};
ghost use Rattle.lte_machine.specs.StationKeys.{with_skipped};
ghost use Rattle.rec_base.specs.Bearer.{IsDrb, IsSrb};
ghost use Rattle.enb_context.specs.Step.{answered, serving_at};

use crate::Station;
use crate::context::Context;
use crate::sends::sends;
use lte_events::{ActorOut, Address, Answer};
use rec_base::{Bearer, Dir, ShortText, UserText};
use rrc_rec::RrcRecord;
use s1x2_rec::CoreRecord;

impl Station {
    // Path Switch Request again (TS 36.413 8.4.4), under a new number, whose answer alone is taken now.
    pub(crate) fn ask(&mut self, out: &mut ActorOut)
        ensures { (self.new, out.new) ≡ answered self.old (StationActs Ask) }
    {
        let drawn = self.number(1);
        let Some(context) = &mut self.context else {
            return out.only(Answer::NoUe);
        };
        if context.starting {
            return out.only(Answer::NotActive);
        }
        if context.origin.is_none() {
            return out.only(Answer::NoPathSwitch);
        }
        let Some(number) = drawn else {
            return out.only(Answer::NumberSpent);
        };
        let request = CoreRecord::PathSwitchRequest {
            conn: context.conn,
            station: self.id,
            number,
            cell: context.cell,
            caps: context.caps,
        };
        context.await_answer(number);
        self.next = u64::from(number) + 1;
        sends(Address::CoreS1, &request, out)
    }

    // A user packet on a DRB (TS 36.323 5.1.1).
    pub(crate) fn send_user(&mut self, bearer: Bearer, text: &UserText, out: &mut ActorOut)
        requires { IsDrb bearer }
        ensures { (self.new, out.new) ≡ answered self.old (StationActs (SendUser bearer text.now)) }
    {
        let id = self.id;
        let Some(context) = &mut self.context else {
            return out.only(Answer::NoUe);
        };
        context.send_user(id, bearer, text, out)
    }

    // An RRC text on an SRB.
    pub(crate) fn send_rrc(&mut self, bearer: Bearer, text: &ShortText, out: &mut ActorOut)
        requires { IsSrb bearer }
        ensures { (self.new, out.new) ≡ answered self.old (StationActs (SendRrc bearer text.now)) }
    {
        let id = self.id;
        let Some(context) = &mut self.context else {
            return out.only(Answer::NoUe);
        };
        context.send_rrc(id, bearer, text, out)
    }

    // Leaves out so many sending COUNTs of a bearer.
    pub(crate) fn skip(&mut self, bearer: Bearer, n: u32, out: &mut ActorOut)
        ensures { (self.new, out.new) ≡ answered self.old (StationActs (Skip bearer n)) }
    {
        let Some(context) = &mut self.context else {
            return out.only(Answer::NoUe);
        };
        if context.starting {
            return out.only(Answer::NotActive);
        }
        context.skip(bearer, n);
        out.only(Answer::Done)
    }
}

impl Context {
    // The answer to the request of this number is outstanding.
    fn await_answer(&mut self, number: u32)
        ensures { self.new ≡ record self.old { outstanding = Some number } }
    {
        self.outstanding = Some(number);
    }

    fn skip(&mut self, bearer: Bearer, n: u32)
        ensures { self.new ≡ with_skipped (which bearer) n self.old }
    {
        self.bearers.skip(bearer, n);
    }

    #[tactic(auto, using(radio_bearers::proofs::Which::which_drb))]
    fn send_user(&mut self, id: u8, bearer: Bearer, text: &UserText, out: &mut ActorOut)
        requires drb { IsDrb bearer }
        ensures step { (s : State (List ℕ) ℕ) → (serving_at s id self.new, out.new) ≡ answered (serving_at s id self.old) (StationActs (SendUser bearer text.now)) }
        ensures conn { self.new.conn ≡ self.old.conn }
    {
        if self.starting {
            return out.only(Answer::NotActive);
        }
        if !self
            .bearers
            .packet(&self.keys, Dir::Down, id, self.air, bearer, text, out)
        {
            out.only(Answer::CountSpent);
        }
    }

    #[tactic(auto, using(radio_bearers::proofs::Which::which_srb))]
    fn send_rrc(&mut self, id: u8, bearer: Bearer, text: &ShortText, out: &mut ActorOut)
        requires srb { IsSrb bearer }
        ensures step { (s : State (List ℕ) ℕ) → (serving_at s id self.new, out.new) ≡ answered (serving_at s id self.old) (StationActs (SendRrc bearer text.now)) }
        ensures conn { self.new.conn ≡ self.old.conn }
    {
        if self.starting {
            return out.only(Answer::NotActive);
        }
        let message = RrcRecord::RrcData(text.clone().unwrap()).write();
        if !self.bearers.signal(
            &self.keys,
            Dir::Down,
            id,
            self.air,
            bearer,
            true,
            message.as_slice(),
            out,
        ) {
            out.only(Answer::CountSpent);
        }
    }
}
