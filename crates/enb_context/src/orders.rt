// Commanding the phone, and giving an attempt up.
ghost use Rattle.std.specs.Prelude.{◌≡◌, ◌≤◌, Some, false, ℕ, List};
ghost use Rattle.lte_events.specs.declared.acts.StationAct.TheVariants.{Command, Cancel as CancelAct};
ghost use Rattle.lte_machine.specs.Bearers.{is_spent};
ghost use Rattle.lte_machine.specs.StationState.{Station as State, Attempt as Tried, StationActs};
ghost use Rattle.lte_machine.specs.StationKeys.{given_up};
ghost use Rattle.enb_context.specs.Orders.{commanded_by, ordered};
ghost use Rattle.enb_context.specs.Step.{answered, serving_at};

use crate::Station;
use crate::attempt::Cancel;
use crate::context::Context;
use crate::sends::sends;
use lte_events::{ActorOut, Address, Answer};
use rec_base::{Bearer, Dir};
use s1x2_rec::CoreRecord;

impl Station {
    // The command, which may be sent again (TS 36.331 5.3.5.4).
    pub(crate) fn command(&mut self, out: &mut ActorOut)
        ensures { (self.new, out.new) ≡ answered self.old (StationActs Command) }
    {
        let id = self.id;
        let Some(context) = &mut self.context else {
            return out.only(Answer::NoUe);
        };
        context.command(id, out)
    }

    // Giving an attempt up, until its command was sent (TS 36.413 8.4.5, TS 36.423 8.2.4).
    #[tactic(auto, using(crate::proofs::OrderSteps::cancel_is))]
    pub(crate) fn cancel(&mut self, out: &mut ActorOut)
        ensures { (self.new, out.new) ≡ answered self.old (StationActs CancelAct) }
    {
        let id = self.id;
        let Some(context) = &mut self.context else {
            return out.only(Answer::NoUe);
        };
        let Some(attempt) = &context.attempt else {
            return out.only(Answer::NoAttempt);
        };
        let Some(cancel) = attempt.cancels() else {
            return out.only(Answer::CommandSent);
        };
        let conn = context.conn;
        context.give_up();
        match cancel {
            Cancel::OverX2(attempt, station) => sends(
                Address::StationX2(station),
                &CoreRecord::X2Cancel {
                    conn,
                    source: id,
                    attempt,
                },
                out,
            ),
            Cancel::OverS1(attempt, cell) => sends(
                Address::CoreS1,
                &CoreRecord::HandoverCancel {
                    conn,
                    source: id,
                    attempt,
                    cell,
                },
                out,
            ),
            Cancel::Within(attempt) => {
                let _ = self.remove_prep(id, attempt);
                out.only(Answer::Done);
            }
        }
    }
}

impl Context {
    #[tactic(auto, using(crate::proofs::OrderSteps::command_is))]
    fn command(&mut self, id: u8, out: &mut ActorOut)
        requires { id ≤ 7 }
        ensures step { (s : State (List ℕ) ℕ) → (serving_at s id self.new, out.new) ≡ answered (serving_at s id self.old) (StationActs Command) }
        ensures conn { self.new.conn ≡ self.old.conn }
    {
        let Some(attempt) = &self.attempt else {
            return out.only(Answer::NoAttempt);
        };
        if attempt.is_open() {
            return out.only(Answer::NotReady);
        }
        if self.bearers.is_spent() {
            return out.only(Answer::CountSpent);
        }
        self.order(id, out)
    }

    // Sends the order of an attempt, for which a COUNT is left.
    fn order(&mut self, id: u8, out: &mut ActorOut)
        requires id { id ≤ 7 }
        requires left { is_spent self.old.bearers.srb1 ≡ false }
        ensures step { (s : State (List ℕ) ℕ) (a : Tried (List ℕ) ℕ) → self.old.attempt ≡ Some a →
            (serving_at s id self.new, out.new) ≡ commanded_by s id self.old false (ordered a) }
        ensures conn { self.new.conn ≡ self.old.conn }
    {
        let Some(attempt) = self.attempt.take() else {
            return out.only(Answer::NoAttempt);
        };
        match attempt.command() {
            Ok((attempt, order)) => {
                self.begin(attempt);
                if !self.bearers.signal(
                    &self.keys,
                    Dir::Down,
                    id,
                    self.air,
                    Bearer::Srb1,
                    true,
                    order.write().as_slice(),
                    out,
                ) {
                    unreachable!()
                }
            }
            Err(attempt) => {
                self.begin(attempt);
                out.only(Answer::NotReady);
            }
        }
    }

    // The attempt is given up, and its pair goes back unless another is stored by now.
    fn give_up(&mut self)
        ensures { self.new ≡ given_up self.old }
    {
        let Some(attempt) = self.attempt.take() else {
            return;
        };
        if let Some(spent) = attempt.give_up() {
            self.key.restore(spent);
        }
    }
}
