ghost use Rattle.std.specs.Prelude.{◌≡◌, ◌≢◌, ◌≤◌, option_map};
ghost use Rattle.lte_events.specs.declared.answers.Answer.TheVariants.{Done};
ghost use Rattle.lte_events.specs.declared.setups.FirstNcc.TheVariants.{One};
ghost use Rattle.lte_machine.specs.Calls.{core_call, core_input};
ghost use Rattle.lte_machine.specs.CoreState.{first_core};
ghost use Rattle.mme_context.specs.Numbers.{Tells};
ghost use Rattle.lte_events.specs.Ranges.{CoreTakes};

use crate::link::Link;
use alg_choice::{Caps, Priority};
use lte_events::{ActorOut, Answer, Cells, CoreIn, FirstNcc};
use nas_smc::CoreNas;
use std::marker::Model;

/// The core of LTE with what it keeps of the phone (TS 24.301 4.4, TS 33.401 7.2.8). A contract sees it as
/// the core of the written machine, with keys in octets and chain numbers as NCCs.
#[derive(Drop)]
pub struct Core {
    pub(crate) nas: CoreNas,
    pub(crate) cells: Cells,
    pub(crate) first_ncc: FirstNcc,
    pub(crate) latest: Caps,
    pub(crate) trigger: Option<u32>,
    pub(crate) next: u64,
    pub(crate) link: Option<Link>,
    pub(crate) attempts: [u32; 8],
    pub(crate) requests: [u32; 8],
}

impl Model for Core {
    ghost use Rattle.std.specs.Prelude.{List, ℕ, ◌≤◌};
    ghost use Rattle.lte_machine.specs.CoreState.{Core as State};
    ghost use Rattle.nas_smc.specs.CoreNas.{core_of};

    ghost Value = { State (List ℕ) ℕ };

    ghost view = { λ c. core_of c.nas (record {
      cells = c.cells;
      first_ncc = c.first_ncc;
      latest = c.latest;
      trigger = c.trigger;
      next = c.next;
      link = c.link;
      attempts = c.attempts;
      requests = c.requests;
    }) };

    ghost invariant = { λ c. (1 ≤ c.next) × (c.next ≤ 4294967296) };
}

impl Core {
    /// A core that has authenticated nobody: the cells of all stations, its algorithms by priority, and the
    /// number of its first connection, at least 1. The first pair of NH and NCC that it sends has NCC 1.
    pub fn new(cells: &Cells, priority: Priority, first: u32) -> Core
        requires { 1 ≤ first }
        ensures { result ≡ first_core cells.now priority first One }
    {
        Core::with_first_ncc(cells, priority, first, FirstNcc::One)
    }

    /// The same, and the NCC of the first pair that it sends for a chain, 1 or 2 (TS 33.401 7.2.8.1.1).
    pub fn with_first_ncc(
        cells: &Cells,
        priority: Priority,
        first: u32,
        first_ncc: FirstNcc,
    ) -> Core
        requires { 1 ≤ first }
        ensures { result ≡ first_core cells.now priority first first_ncc }
    {
        Core {
            nas: CoreNas::new(priority),
            cells: copied(cells),
            first_ncc,
            latest: Caps { eea: 0, eia: 0 },
            trigger: None,
            next: u64::from(first),
            link: None,
            attempts: [0; 8],
            requests: [0; 8],
        }
    }

    /// One step: what comes, and the reply. The KSI of an authentication is 0 to 6.
    ///
    /// The step is that of the written machine, and it takes no memory. Each answer stands with its cause, in the
    /// order in which they are tried, in `CoreChoice` of `lte_machine`. A refused step leaves the core as it was.
    pub fn step(&mut self, input: &CoreIn) -> ActorOut
        requires { CoreTakes input.now }
        ensures step { (self.new, result) ≡ core_call self.old input.now }
        ensures refused { result.answer ≢ Done → self.new ≡ self.old }
        // Of another connection: its number, 0 with none, and that of the record. Seen before: the greatest request or
        // attempt seen of the station, and that of the record.
        ensures numbers { Tells self.old (core_input input.now) result.answer }
    {
        let mut out = ActorOut::of(Answer::Done);
        self.reply(input, &mut out);
        out
    }

    /// The same step, whose reply is written in place of another.
    pub fn reply(&mut self, input: &CoreIn, out: &mut ActorOut)
        requires { CoreTakes input.now }
        ensures { (self.new, out.new) ≡ core_call self.old input.now }
    {
        match input {
            CoreIn::Auth(ksi, root, caps) => self.authenticate(*ksi, *root, *caps, out),
            CoreIn::Act(act) => self.act(act, out),
            CoreIn::Nas(pdu) => self.nas(pdu.as_slice(), out),
            CoreIn::S1(octets) => self.s1(octets.as_slice(), out),
        }
    }

    /// The station at which it has the phone. `None` where it has no connection.
    pub fn station(&self) -> Option<u8>
        ensures { result ≡ option_map (λ l. l.station) self.now.link }
    {
        match &self.link {
            Some(link) => Some(link.station),
            None => None,
        }
    }
}

// The same cells.
fn copied(cells: &Cells) -> Cells
    ensures { result ≡ cells.now }
{
    cells.clone().unwrap()
}
