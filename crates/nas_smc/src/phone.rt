ghost use Rattle.std.specs.Prelude.{◌≡◌, ◌≤◌, List, ℕ, None, Some, length, option_map};
ghost use Rattle.rec_base.specs.declared.uses.Dir.TheVariants.{Up};
ghost use Rattle.rec_base.specs.Lengths.{longest_record};
ghost use Rattle.lte_events.specs.declared.inputs.PhoneIn.TheVariants.{Act, Auth, Nas};
ghost use Rattle.lte_events.specs.declared.acts.PhoneAct.TheVariants.{SendNas, ServiceRequest, Skip};
ghost use Rattle.lte_events.specs.declared.answers.Answer.TheVariants.{Done};
ghost use Rattle.lte_events.specs.Reply.{reply_of};
ghost use Rattle.nas_rec.specs.declared.records.NasRecord.TheVariants.{NasData};
ghost use Rattle.lte_machine.specs.Calls.{phone_call};
ghost use Rattle.lte_machine.specs.PhoneState.{Waiting, Radio, Idle, Connecting, first_phone};
ghost use Rattle.nas_smc.specs.PhoneNas.{phone_of, phone_after};

use crate::NasOut;
use crate::context::Context;
use crate::partial::Partial;
use alg_choice::Caps;
use annex_a_keys::Kasme;
use lte_events::Answer;
use nas_rec::NasRecord;
use rec_base::ShortText;
use std::marker::Model;

/// The NAS part of a phone (TS 24.301 4.4): its capabilities, the partial context that an
/// authentication left, and the context in use. A contract sees it as these parts of the phone of the
/// written machine, with keys in octets.
///
/// No call takes memory.
#[derive(Drop)]
pub struct PhoneNas {
    pub(crate) caps: Caps,
    pub(crate) partial: Option<Partial>,
    pub(crate) context: Option<Context>,
}

impl Model for PhoneNas {
    ghost use Rattle.nas_smc.specs.PhoneNas.{NasPart};

    ghost Value = { NasPart };

    ghost view = { λ n. record { caps = n.caps; partial = n.partial; context = n.context } };
}

impl PhoneNas {
    /// The NAS part of a phone that was never authenticated.
    pub fn new(caps: Caps) -> PhoneNas
        ensures { phone_of result Idle ≡ first_phone caps }
    {
        PhoneNas {
            caps,
            partial: None,
            context: None,
        }
    }

    /// Takes the KSI, 0 to 6, and KASME of an authentication, in place of those that were not used yet
    /// (TS 24.301 4.4.2).
    pub fn authenticate(&mut self, ksi: u8, root: Kasme)
        requires { ksi ≤ 6 }
        ensures { (radio : Radio (List ℕ) ℕ) →
            phone_call (phone_of self.old radio) (Auth ksi root) ≡ (phone_of self.new radio, reply_of Done) }
    {
        self.partial = Some(Partial { ksi, root });
    }

    /// Takes a NAS message, of at most 1,536 octets.
    ///
    /// Header type 3 is a SECURITY MODE COMMAND for the partial context, which then is the context in use;
    /// SECURITY MODE COMPLETE is sent under it, and its COUNT is the trigger of a connection where the
    /// phone has none (TS 24.301 5.4.3.3). Header types 1 and 2 are a NAS text under the context in use.
    ///
    /// The first of these is the answer of a refusal. `Short` with no octet; `BadHeader` with no protocol
    /// discriminator 7 or no header type 1 to 3 in the first; `Short` below six octets; `NoContext` with no
    /// such context; of a command `BadRecord` and `WrongKind` of its text, `WrongKsi` and `AlgUnsupported`;
    /// `CountSpent` where the least COUNT with the sequence number is 2^24 or more; `MacFails`; of a
    /// command `CapsMismatch`, and else `BadRecord` and `WrongKind` of the text.
    ///
    /// For `WrongKsi`, `AlgUnsupported`, `MacFails` and `CapsMismatch` of a command a SECURITY MODE REJECT
    /// is sent: as it is with no context in use, and else under that one, whose uplink COUNT it takes, or
    /// nothing where none is left (TS 24.301 5.4.3.5). A refusal changes nothing else.
    pub fn on_pdu(&mut self, pdu: &[u8]) -> NasOut
        requires { length pdu.now ≤ longest_record }
        ensures { (radio : Radio (List ℕ) ℕ) →
            phone_call (phone_of self.old radio) (Nas pdu.now) ≡ phone_after self.new result radio }
    {
        let judged = self.judge(pdu);
        self.act(judged)
    }

    /// Sends a SERVICE REQUEST under the context in use, for a phone that has no connection (TS 24.301
    /// 5.6.1.2). Its COUNT is the trigger of the connection.
    ///
    /// `NoContext` where no context is in use, and then `CountSpent` where no uplink COUNT is left; both
    /// leave everything as it was.
    pub fn service_request(&mut self) -> NasOut
        ensures idle { phone_call (phone_of self.old Idle) (Act ServiceRequest) ≡ phone_after self.new result Idle }
        ensures waiting { (w : Waiting (List ℕ)) →
            phone_call (phone_of self.old (Connecting w)) (Act ServiceRequest) ≡ phone_after self.new result (Connecting w) }
    {
        let Some(context) = self.context.as_mut() else {
            return NasOut::of(Answer::NoContext);
        };
        let Some((out, count)) = context.seal(1, &NasRecord::ServiceRequest) else {
            return NasOut::of(Answer::CountSpent);
        };
        NasOut {
            trigger: Some(count),
            ..out
        }
    }

    /// Sends a NAS text under the context in use, ciphered (TS 24.301 4.4.5).
    ///
    /// `NoContext` where no context is in use, and then `CountSpent` where no uplink COUNT is left; both
    /// leave everything as it was.
    pub fn send(&mut self, text: &ShortText) -> NasOut
        ensures { (radio : Radio (List ℕ) ℕ) →
            phone_call (phone_of self.old radio) (Act (SendNas text.now)) ≡ phone_after self.new result radio }
    {
        let Some(context) = self.context.as_mut() else {
            return NasOut::of(Answer::NoContext);
        };
        let Some((out, _)) = context.seal(2, &data(text)) else {
            return NasOut::of(Answer::CountSpent);
        };
        out
    }

    /// Leaves out so many uplink COUNTs of the context in use, to 2^24 at the most.
    ///
    /// `NoContext` where no context is in use.
    pub fn skip(&mut self, n: u32) -> NasOut
        ensures { (radio : Radio (List ℕ) ℕ) →
            phone_call (phone_of self.old radio) (Act (Skip None n)) ≡ phone_after self.new result radio }
    {
        let Some(context) = self.context.as_mut() else {
            return NasOut::of(Answer::NoContext);
        };
        context.skip(n);
        NasOut::of(Answer::Done)
    }

    /// The phone's security capabilities (TS 24.301 9.9.3.36).
    pub fn caps(&self) -> Caps
        ensures { result ≡ self.now.caps }
    {
        self.caps
    }

    /// The KASME of the context in use. `None` where none is.
    pub fn root(&self) -> Option<Kasme>
        ensures { result ≡ option_map (λ c. c.root) self.now.context }
    {
        match &self.context {
            Some(context) => Some(context.root),
            None => None,
        }
    }
}

// A NAS text as a record.
fn data(text: &ShortText) -> NasRecord
    ensures { result ≡ NasData text.now }
{
    let mut copy = ShortText::new();
    copy.append(text.as_slice());
    NasRecord::NasData(copy)
}
