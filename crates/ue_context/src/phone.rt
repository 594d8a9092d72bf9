ghost use Rattle.std.specs.Prelude.{◌≡◌, ◌≢◌, is_some};
ghost use Rattle.lte_events.specs.declared.answers.Answer.TheVariants.{Done};
ghost use Rattle.lte_machine.specs.Calls.{phone_call};
ghost use Rattle.lte_machine.specs.PhoneState.{first_phone};
ghost use Rattle.lte_events.specs.Ranges.{PhoneTakes};
ghost use Rattle.ue_context.specs.Refusing.{after_refusal, refusal_of, sends_reject, accepted_in};
ghost use Rattle.ue_context.specs.Step.{air_of, kenb_of};

use crate::radio::Radio;
use alg_choice::Caps;
use lte_events::{ActorOut, Answer, PhoneIn};
use nas_smc::PhoneNas;
use std::marker::Model;

/// A phone of LTE with its security contexts (TS 33.401 7.2, TS 24.301 4.4, TS 36.331 5.3). A contract
/// sees it as the phone of the written machine, with keys in octets and chain numbers as NCCs.
#[derive(Drop)]
pub struct Phone {
    pub(crate) nas: PhoneNas,
    pub(crate) radio: Radio,
}

impl Model for Phone {
    ghost use Rattle.std.specs.Prelude.{List, ℕ};
    ghost use Rattle.lte_machine.specs.PhoneState.{Phone as State};
    ghost use Rattle.ue_context.specs.Parts.{radio_of};

    ghost Value = { State (List ℕ) ℕ };

    ghost view = { λ p. record {
      caps = p.nas.caps;
      partial = p.nas.partial;
      context = p.nas.context;
      radio = radio_of p.radio;
    } };
}

impl Phone {
    /// A phone that was never authenticated, with these security capabilities (TS 24.301 9.9.3.36).
    pub fn new(caps: Caps) -> Phone
        ensures { result ≡ first_phone caps }
    {
        Phone {
            nas: PhoneNas::new(caps),
            radio: Radio::Idle,
        }
    }

    /// One step: what comes, and the reply. The KSI of an authentication is 0 to 6, a user packet goes on a
    /// DRB, and an RRC text on an SRB.
    ///
    /// The step is that of the written machine, and it takes no memory. `PhoneChoice` of `lte_machine` has each
    /// answer with its cause, in the order in which they are tried, and `PhoneKeys` has `NoTrigger` of a key
    /// change. A refused step leaves the phone as it was, except for the uplink NAS COUNT of a SECURITY
    /// MODE REJECT (TS 24.301 5.4.3.5).
    pub fn step(&mut self, input: &PhoneIn) -> ActorOut
        requires { PhoneTakes input.now }
        ensures step { (self.new, result) ≡ phone_call self.old input.now }
        // A refused step leaves the phone as it was, but for the uplink NAS COUNT of a SECURITY MODE REJECT
        // under the context in use,
        ensures refused { result.answer ≢ Done → self.new ≡ after_refusal result.tuple self.old }
        // and gives out nothing but the answer, that record, and the use of what was accepted.
        ensures alone { result.answer ≢ Done → result ≡ refusal_of result }
        // It sends one exactly where the answer to a command for the partial context is WrongKsi,
        // CapsMismatch, AlgUnsupported or MacFails, and no context is in use or a COUNT of it is left.
        ensures told { result.answer ≢ Done → is_some result.sent ≡ sends_reject self.old input.now result.answer }
        // The use by which what came was protected stands wherever its MAC was right, whatever the answer.
        ensures accepted { result.accepted ≡ accepted_in self.old input.now }
    {
        let mut out = ActorOut::of(Answer::Done);
        self.reply(input, &mut out);
        out
    }

    /// The KeNB of the connection, 32 octets, which is KeNB* since a handover. `None` where there is no
    /// connection.
    pub fn kenb(&self) -> Option<[u8; 32]>
        ensures { result ≡ kenb_of self.now.radio }
    {
        match &self.radio {
            Radio::Connected(link) => Some(link.kenb.octets()),
            Radio::Idle | Radio::Connecting(_) => None,
        }
    }

    /// Where it is connected: the station, and the air address there. `None` where there is no connection.
    pub fn place(&self) -> Option<(u8, u32)>
        ensures { result ≡ air_of self.now.radio }
    {
        match &self.radio {
            Radio::Connected(link) => Some((link.station, link.air)),
            Radio::Idle | Radio::Connecting(_) => None,
        }
    }
}
