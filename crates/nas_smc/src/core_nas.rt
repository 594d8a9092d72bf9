ghost use Rattle.std.specs.Prelude.{◌≡◌, ◌≤◌, List, ℕ, false, length, option_map};
ghost use Rattle.rec_base.specs.Lengths.{longest_record};
ghost use Rattle.lte_events.specs.Reply.{reply_of};
ghost use Rattle.lte_events.specs.Site.{Site};
ghost use Rattle.lte_events.specs.declared.acts.CoreAct.TheVariants.{SendNas, Skip, StartSmc};
ghost use Rattle.lte_events.specs.declared.answers.Answer.TheVariants.{Done};
ghost use Rattle.lte_events.specs.declared.inputs.CoreIn.TheVariants.{Act, Auth, Nas};
ghost use Rattle.lte_events.specs.declared.setups.FirstNcc.{FirstNcc};
ghost use Rattle.lte_machine.specs.Calls.{core_call};
ghost use Rattle.lte_machine.specs.CoreState.{first_core};
ghost use Rattle.nas_smc.specs.CoreNas.{CoreRest, core_after, core_of, first_rest, is_for_new_context};

use crate::NasOut;
use crate::core_context::CoreContext;
use crate::core_partial::CorePartial;
use alg_choice::{Caps, Priority, choose};
use annex_a_keys::Kasme;
use lte_events::Answer;
use nas_count::TxCount;
use rec_base::ShortText;
use std::marker::Model;

/// The NAS part of a core (TS 24.301 4.4): its algorithms by priority, what the latest authentication
/// left, the Security Mode procedure that is open for it, and the context in use. A contract sees it as
/// these parts of the core of the written machine, with keys in octets.
///
/// No call takes memory.
#[derive(Drop)]
pub struct CoreNas {
    pub(crate) priority: Priority,
    pub(crate) left: Option<CorePartial>,
    pub(crate) context: Option<CoreContext>,
}

impl Model for CoreNas {
    ghost use Rattle.nas_smc.specs.CoreNas.{CorePart};

    ghost Value = { CorePart };

    ghost view = { λ n. record { priority = n.priority; left = n.left; context = n.context } };
}

impl CoreNas {
    /// The NAS part of a core that has authenticated nobody.
    pub fn new(priority: Priority) -> CoreNas
        ensures { (cells : List Site) (first : ℕ) (first_ncc : FirstNcc) →
            core_of result (first_rest cells first first_ncc) ≡ first_core cells priority first first_ncc }
    {
        CoreNas {
            priority,
            left: None,
            context: None,
        }
    }

    /// Takes the KSI, 0 to 6, the KASME and the capabilities of an authentication, in place of those that
    /// were not used yet. It closes a procedure that is open (TS 24.301 4.4.2 and 5.4.2.4).
    pub fn authenticate(&mut self, ksi: u8, root: Kasme, caps: Caps)
        requires { ksi ≤ 6 }
        ensures { (rest : CoreRest) →
            core_call (core_of self.old rest) (Auth ksi root caps) ≡ (core_of self.new (record rest { latest = caps }), reply_of Done) }
    {
        self.left = Some(CorePartial {
            ksi,
            root,
            caps,
            send: TxCount::new(),
            procedure: None,
        });
    }

    /// Opens a procedure with a SECURITY MODE COMMAND, under the first algorithms of the core's list that
    /// the phone supports (TS 24.301 5.4.3.2, TS 33.401 7.2.4.3.1).
    ///
    /// `NoContext` where no authentication left anything, then `SmcOpen` where a procedure is open, then
    /// `NoAlgorithm` where the phone supports none, then `CountSpent` where no downlink COUNT is left.
    /// Each leaves everything as it was.
    pub fn start_smc(&mut self) -> NasOut
        ensures { (rest : CoreRest) →
            core_call (core_of self.old rest) (Act StartSmc) ≡ core_after (core_of self.new rest) result false }
    {
        let priority = self.priority;
        let Some(left) = self.left.as_mut() else {
            return NasOut::of(Answer::NoContext);
        };
        if left.procedure.is_some() {
            return NasOut::of(Answer::SmcOpen);
        }
        let Ok(algs) = choose(&priority, &left.caps) else {
            return NasOut::of(Answer::NoAlgorithm);
        };
        let Some(out) = left.command(algs) else {
            return NasOut::of(Answer::CountSpent);
        };
        out
    }

    /// Takes a NAS message, of at most 1,536 octets.
    ///
    /// Header type 4 is a SECURITY MODE COMPLETE under the keys of the open procedure, which it ends: what
    /// the authentication left is the context in use. Header types 1 and 2 are messages under the context in
    /// use: a SERVICE REQUEST, a NAS text, or a SECURITY MODE REJECT, which ends the procedure. With no
    /// context in use that may come as it is, with header type 0 (TS 24.301 4.4.4.3 and 5.4.3).
    ///
    /// The COUNT of a SERVICE REQUEST or of a SECURITY MODE COMPLETE is the trigger of a connection; by the
    /// second one that stands changes its key (TS 33.401 7.2.6.2 and 7.2.9.2).
    ///
    /// The first of these is the answer of a refusal, which changes nothing. `Short` with no octet;
    /// `BadHeader` with no protocol discriminator 7 or no header type 0, 1, 2 or 4 in the first. Of header
    /// type 0: `NoSmc` with no procedure open, `BadHeader` with a context in use, `BadRecord` and
    /// `WrongKind` of the text. Of the others `Short` below six octets; of header type 4 `NoSmc` with no
    /// procedure open, and of 1 and 2 `NoContext` with no context in use; `CountSpent` where the least COUNT
    /// with the sequence number is 2^24 or more; `MacFails`; `BadRecord` and `WrongKind` of the text, and
    /// `NoSmc` where it is a SECURITY MODE REJECT with no procedure open.
    pub fn on_pdu(&mut self, pdu: &[u8]) -> NasOut
        requires { length pdu.now ≤ longest_record }
        ensures { (rest : CoreRest) →
            core_call (core_of self.old rest) (Nas pdu.now) ≡ core_after (core_of self.new rest) result (is_for_new_context pdu.now) }
    {
        let judged = self.judge(pdu);
        self.act(judged)
    }

    /// Sends a NAS text under the context in use, ciphered (TS 24.301 4.4.5).
    ///
    /// `NoContext` where no context is in use, and then `CountSpent` where no downlink COUNT is left; both
    /// leave everything as it was.
    pub fn send(&mut self, text: &ShortText) -> NasOut
        ensures { (rest : CoreRest) →
            core_call (core_of self.old rest) (Act (SendNas text.now)) ≡ core_after (core_of self.new rest) result false }
    {
        let Some(context) = self.context.as_mut() else {
            return NasOut::of(Answer::NoContext);
        };
        let Some(out) = context.send(text) else {
            return NasOut::of(Answer::CountSpent);
        };
        out
    }

    /// Leaves out so many downlink COUNTs of the context in use, to 2^24 at the most.
    ///
    /// `NoContext` where no context is in use.
    pub fn skip(&mut self, n: u32) -> NasOut
        ensures { (rest : CoreRest) →
            core_call (core_of self.old rest) (Act (Skip n)) ≡ core_after (core_of self.new rest) result false }
    {
        let Some(context) = self.context.as_mut() else {
            return NasOut::of(Answer::NoContext);
        };
        context.skip(n);
        NasOut::of(Answer::Done)
    }

    /// The KASME of the context in use. `None` where none is.
    pub fn root(&self) -> Option<Kasme>
        ensures { result ≡ option_map (λ c. c.nas.root) self.now.context }
    {
        match &self.context {
            Some(context) => Some(context.nas.root),
            None => None,
        }
    }

    /// The capabilities that the context in use was made with. `None` where none is.
    pub fn caps(&self) -> Option<Caps>
        ensures { result ≡ option_map (λ c. c.caps) self.now.context }
    {
        match &self.context {
            Some(context) => Some(context.caps),
            None => None,
        }
    }
}
