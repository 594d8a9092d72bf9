// The attempt of a context.
ghost use Rattle.std.specs.Prelude.{◌≡◌, ◌≤◌, ◌<◌, ◌^◌, IfErr, IfOk, Some, None, ℕ};
ghost use Rattle.std.specs.Prelude.{IfSome};
ghost use Rattle.x2_handover.specs.InRange.{InRange as IsOrder};
ghost use Rattle.rrc_rec.specs.Spelling.{InRange};
ghost use Rattle.lte_machine.specs.StationState.{Via, OverX2, OverS1};
ghost use Rattle.lte_machine.specs.StationKeys.{spent_of, spent_in};
ghost use Rattle.lte_machine.specs.StationRecords.{order_record};
ghost use Rattle.enb_context.specs.Attempt.{attempt_of, x2_attempt, s1_attempt};
ghost use Rattle.enb_context.specs.Orders.{is_open, ordered, cancels_of, IsCancel};

use crate::renewal::Renewal;
use annex_a_keys::Cell;
use nh_chain::Spent;
use rrc_rec::RrcRecord;
use s1_handover::{S1Commanded, S1Open, S1Ready};
use x2_handover::{Order, X2Commanded, X2Open, X2Ready};

// An attempt at a handover over X2, or within the station, by how far it is.
#[derive(Drop)]
pub(crate) enum X2State {
    Open(X2Open),
    Ready(X2Ready),
    Commanded(X2Commanded),
}

// An attempt at a handover over S1, by how far it is.
#[derive(Drop)]
pub(crate) enum S1State {
    Open(S1Open),
    Ready(S1Ready),
    Commanded(S1Commanded),
}

// The attempt of a context. The kinds are apart.
#[derive(Drop)]
pub(crate) enum Attempt {
    OverX2(X2State),
    OverS1(S1State),
    Within(X2State),
    Renewing(Renewal),
}

// What is told of an attempt that is given up: its number, and the target station over X2 or the target
// cell over S1.
#[derive(Clone, Copy)]
pub(crate) enum Cancel {
    OverX2(u32, u8),
    OverS1(u32, Cell),
    Within(u32),
}

impl X2State {
    // The attempt after its command and the order, which may be given again; the attempt itself where it is
    // open.
    fn command(self) -> Result<(X2State, Order), X2State>
        ensures ok { IfOk result (λ d. (via : Via) → ordered (x2_attempt via self) ≡ Some (x2_attempt via d.0, order_record via d.1)) }
        ensures open { IfErr result (λ back. (via : Via) → ordered (x2_attempt via self) ≡ None) }
        ensures same { IfErr result (λ back. back ≡ self) }
        ensures in_range { IfOk result (λ d. IsOrder d.1) }
    {
        match self {
            X2State::Open(open) => Err(X2State::Open(open)),
            X2State::Ready(ready) => {
                let (commanded, order) = ready.command();
                Ok((X2State::Commanded(commanded), order))
            }
            X2State::Commanded(commanded) => {
                let order = commanded.again();
                Ok((X2State::Commanded(commanded), order))
            }
        }
    }

    // Ends the attempt: the pair that was used, if one was and it has not commanded.
    fn cancel(self) -> Option<Spent>
        ensures { (via : Via) → result ≡ spent_of (x2_attempt via self).keys }
    {
        match self {
            X2State::Open(open) => open.cancel(),
            X2State::Ready(ready) => ready.cancel(),
            X2State::Commanded(_) => None,
        }
    }
}

impl S1State {
    // The same over S1.
    fn command(self) -> Result<(S1State, Order), S1State>
        ensures ok { IfOk result (λ d. ordered (s1_attempt self) ≡ Some (s1_attempt d.0, order_record OverS1 d.1)) }
        ensures open { IfErr result (λ back. ordered (s1_attempt self) ≡ None) }
        ensures same { IfErr result (λ back. back ≡ self) }
        ensures in_range { IfOk result (λ d. IsOrder d.1) }
    {
        match self {
            S1State::Open(open) => Err(S1State::Open(open)),
            S1State::Ready(ready) => {
                let (commanded, order) = ready.command();
                Ok((S1State::Commanded(commanded), order))
            }
            S1State::Commanded(commanded) => {
                let order = commanded.again();
                Ok((S1State::Commanded(commanded), order))
            }
        }
    }
}

// The text of an order (TS 36.331 5.3.5.4).
fn text_of(order: &Order) -> RrcRecord
    requires { IsOrder order.now }
    ensures text { result ≡ order_record OverX2 order.now }
    ensures in_range { InRange result }
{
    RrcRecord::Reconfiguration {
        cell: order.cell,
        ncc: order.ncc,
        algs: order.algs,
        station: order.station,
        air: order.air,
    }
}

impl Attempt {
    // The attempt after its command and the text of the order; the attempt itself where it is open.
    pub(crate) fn command(self) -> Result<(Attempt, RrcRecord), Attempt>
        ensures ok { IfOk result (λ d. ordered (attempt_of self) ≡ Some (attempt_of d.0, d.1)) }
        ensures open { IfErr result (λ back. ordered (attempt_of self) ≡ None) }
        ensures same { IfErr result (λ back. back ≡ self) }
        ensures in_range { IfOk result (λ d. InRange d.1) }
    {
        match self {
            Attempt::OverX2(state) => match state.command() {
                Ok((state, order)) => Ok((Attempt::OverX2(state), text_of(&order))),
                Err(state) => Err(Attempt::OverX2(state)),
            },
            Attempt::OverS1(state) => match state.command() {
                Ok((state, order)) => Ok((Attempt::OverS1(state), text_of(&order))),
                Err(state) => Err(Attempt::OverS1(state)),
            },
            Attempt::Within(state) => match state.command() {
                Ok((state, order)) => Ok((Attempt::Within(state), text_of(&order))),
                Err(state) => Err(Attempt::Within(state)),
            },
            Attempt::Renewing(renewal) => {
                let text = renewal.text();
                Ok((Attempt::Renewing(renewal), text))
            }
        }
    }

    // Whether it is open, so that it cannot command.
    pub(crate) fn is_open(&self) -> bool
        ensures { result ≡ is_open (attempt_of self.now).progress }
    {
        matches!(
            self,
            Attempt::OverX2(X2State::Open(_))
                | Attempt::OverS1(S1State::Open(_))
                | Attempt::Within(X2State::Open(_))
        )
    }

    // What is told where it is given up; nothing where its command was sent.
    pub(crate) fn cancels(&self) -> Option<Cancel>
        ensures told { result ≡ cancels_of (attempt_of self.now) }
        ensures in_range { IfSome result IsCancel }
    {
        match self {
            Attempt::OverX2(X2State::Open(open)) => {
                Some(Cancel::OverX2(open.number(), open.station()))
            }
            Attempt::OverX2(X2State::Ready(ready)) => {
                Some(Cancel::OverX2(ready.number(), ready.station()))
            }
            Attempt::OverS1(S1State::Open(open)) => Some(Cancel::OverS1(
                open.number(),
                open.cell(),
            )),
            Attempt::OverS1(S1State::Ready(ready)) => {
                Some(Cancel::OverS1(ready.number(), ready.cell()))
            }
            Attempt::Within(X2State::Open(open)) => Some(Cancel::Within(open.number())),
            Attempt::Within(X2State::Ready(ready)) => Some(Cancel::Within(ready.number())),
            Attempt::OverX2(X2State::Commanded(_)) => None,
            Attempt::OverS1(S1State::Commanded(_)) => None,
            Attempt::Within(X2State::Commanded(_)) => None,
            Attempt::Renewing(_) => None,
        }
    }

    // Ends the attempt: the pair that was used, if one was and it has not commanded.
    pub(crate) fn give_up(self) -> Option<Spent>
        ensures { result ≡ spent_in (Some (attempt_of self)) }
    {
        match self {
            Attempt::OverX2(state) => state.cancel(),
            Attempt::OverS1(_) => None,
            Attempt::Within(state) => state.cancel(),
            Attempt::Renewing(_) => None,
        }
    }
}
