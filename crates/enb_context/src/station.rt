ghost use Rattle.std.specs.Prelude.{◌≡◌, ◌≢◌, ◌≤◌, option_map};
ghost use Rattle.lte_events.specs.declared.answers.Answer.TheVariants.{Done};
ghost use Rattle.lte_machine.specs.Calls.{station_call};
ghost use Rattle.lte_events.specs.Ranges.{StationTakes};
ghost use Rattle.lte_machine.specs.StationState.{first_station};
ghost use Rattle.enb_context.specs.Drawn.{last_drawn};

use crate::context::Context;
use alg_choice::Priority;
use ho_prep::Preps;
use lte_events::{ActorOut, Answer, Cells, StationIn};
use std::marker::Model;

/// A base station of LTE with what it keeps of the phone (TS 33.401 7.2.8, TS 36.331 5.3). A contract
/// sees it as the station of the written machine, with keys in octets and chain numbers as NCCs.
#[derive(Drop)]
pub struct Station {
    pub(crate) id: u8,
    pub(crate) cells: Cells,
    pub(crate) priority: Priority,
    pub(crate) next: u64,
    pub(crate) last: u32,
    pub(crate) seen: [u32; 8],
    pub(crate) context: Option<Context>,
    pub(crate) preps: Preps,
}

impl Model for Station {
    ghost use Rattle.std.specs.Prelude.{List, ℕ, ◌≤◌};
    ghost use Rattle.lte_machine.specs.StationState.{Station as State};
    ghost use Rattle.enb_context.specs.Preps.{NoneAbove, IsWithin};

    ghost Value = { State (List ℕ) ℕ };

    ghost view = { λ s. record {
      id = s.id;
      cells = s.cells;
      priority = s.priority;
      next = s.next;
      last = s.last;
      seen = s.seen;
      context = s.context;
      preps = s.preps;
    } };

    ghost invariant = { λ s. (s.id ≤ 7) × (1 ≤ s.next) × (s.next ≤ 4294967296)
        × NoneAbove s.last s.preps × IsWithin s.last s.context };
}

impl Station {
    /// A station that has served nobody: its number, 0 to 7, the cells of all stations, its algorithms by
    /// priority, and the first number that it draws, at least 1.
    #[tactic(auto, using(crate::proofs::PrepFacts::none_above_nil))]
    pub fn new(id: u8, cells: &Cells, priority: Priority, first: u32) -> Station
        requires id { id ≤ 7 }
        requires first { 1 ≤ first }
        ensures { result ≡ first_station id cells.now priority first }
    {
        Station {
            id,
            cells: cells.clone().unwrap(),
            priority,
            next: u64::from(first),
            last: 0,
            seen: [0; 8],
            context: None,
            preps: Preps::new(),
        }
    }

    /// One step: what comes, and the reply. A user packet goes on a DRB, and an RRC text on an SRB.
    ///
    /// The step is that of the written machine, and it takes no memory. Each answer stands with its cause, in the order
    /// in which they are tried, in `StationChoice` of `lte_machine`. A refused step leaves the station as it was.
    pub fn step(&mut self, input: &StationIn) -> ActorOut
        requires { StationTakes input.now }
        ensures step { (self.new, result) ≡ station_call self.old input.now }
        ensures refused { result.answer ≢ Done → self.new ≡ self.old }
    {
        let mut out = ActorOut::of(Answer::Done);
        self.reply(input, &mut out);
        out
    }

    /// The same step, whose reply is written in place of another.
    pub fn reply(&mut self, input: &StationIn, out: &mut ActorOut)
        requires { StationTakes input.now }
        ensures { (self.new, out.new) ≡ station_call self.old input.now }
    {
        match input {
            StationIn::Act(act) => self.act(act, out),
            StationIn::Air(air, bearer, pdu) => self.air(*air, *bearer, pdu.as_slice(), out),
            StationIn::S1(octets) => self.s1(octets.as_slice(), out),
            StationIn::X2(octets) => self.x2(octets.as_slice(), out),
        }
    }

    /// The KeNB of the context, 32 octets. `None` where there is no context.
    pub fn kenb(&self) -> Option<[u8; 32]>
        ensures { result ≡ option_map (λ c. c.key.kenb) self.now.context }
    {
        match &self.context {
            Some(context) => Some(context.key.kenb().octets()),
            None => None,
        }
    }

    /// Its number, and the number that it drew last, which is the air address of a key that it made in its last step. `None` where it drew none.
    pub fn drawn(&self) -> Option<(u8, u32)>
        ensures { result ≡ last_drawn self.now.id self.now.next }
    {
        match self.next {
            0 => None,
            next => Some((self.id, (next - 1) as u32)),
        }
    }
}
