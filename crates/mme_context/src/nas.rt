// NAS: authentication, messages of the phone, and what is sent to it (TS 24.301 4.4, 5.4.2 and 5.4.3).
ghost use Rattle.std.specs.Prelude.{◌≡◌, ◌≤◌, Bool, length};
ghost use Rattle.rec_base.specs.Lengths.{longest_record};
ghost use Rattle.lte_events.specs.declared.acts.CoreAct.TheVariants.{SendNas, Skip, StartSmc};
ghost use Rattle.lte_machine.specs.CoreState.{CoreActs, CoreAuth, CoreNasPdu};
ghost use Rattle.nas_smc.specs.CoreNas.{core_after, is_for_new_context, triggers};
ghost use Rattle.mme_context.specs.Step.{answered};

use crate::Core;
use alg_choice::Caps;
use annex_a_keys::Kasme;
use lte_events::{ActorOut, Address, Answer};
use nas_smc::NasOut;
use rec_base::ShortText;

impl Core {
    // An authentication (TS 24.301 5.4.2.4).
    pub(crate) fn authenticate(&mut self, ksi: u8, root: Kasme, caps: Caps, out: &mut ActorOut)
        requires { ksi ≤ 6 }
        ensures { (self.new, out.new) ≡ answered self.old (CoreAuth ksi root caps) }
    {
        self.nas.authenticate(ksi, root, caps);
        self.latest = caps;
        out.only(Answer::Done)
    }

    // SECURITY MODE COMMAND (TS 24.301 5.4.3.2).
    pub(crate) fn start_smc(&mut self, out: &mut ActorOut)
        ensures { (self.new, out.new) ≡ answered self.old (CoreActs StartSmc) }
    {
        let said = self.nas.start_smc();
        self.answer(said, false, out)
    }

    // A NAS text.
    pub(crate) fn send_nas(&mut self, text: &ShortText, out: &mut ActorOut)
        ensures { (self.new, out.new) ≡ answered self.old (CoreActs (SendNas text.now)) }
    {
        let said = self.nas.send(text);
        self.answer(said, false, out)
    }

    // Leaves out so many downlink COUNTs.
    pub(crate) fn skip(&mut self, n: u32, out: &mut ActorOut)
        ensures { (self.new, out.new) ≡ answered self.old (CoreActs (Skip n)) }
    {
        let said = self.nas.skip(n);
        self.answer(said, false, out)
    }

    // A NAS message.
    pub(crate) fn nas(&mut self, pdu: &[u8], out: &mut ActorOut)
        requires { length pdu.now ≤ longest_record }
        ensures { (self.new, out.new) ≡ answered self.old (CoreNasPdu pdu.now) }
    {
        let said = self.nas.on_pdu(pdu);
        self.answer(said, has_new_context(pdu), out)
    }

    // The reply to a call of the NAS part. The COUNT of a SERVICE REQUEST is the trigger of a connection,
    // and so is that of a SECURITY MODE COMPLETE, unless a connection changes its key by it (TS 33.401
    // 7.2.6.2 and 7.2.9.2).
    fn answer(&mut self, said: NasOut, new_context: bool, out: &mut ActorOut)
        ensures { (self.new, out.new) ≡ core_after self.old said new_context }
    {
        let Some(count) = said.trigger else {
            return said.tell(Address::PhoneNas, None, out);
        };
        if new_context {
            return self.complete(said, count, out);
        }
        self.trigger_by(said, count, out)
    }

    // This COUNT is the trigger of a connection.
    pub(crate) fn trigger_by(&mut self, said: NasOut, count: u32, out: &mut ActorOut)
        ensures { (self.new, out.new) ≡ triggers self.old said count }
    {
        self.trigger = Some(count);
        said.tell(Address::PhoneNas, None, out)
    }
}

// Whether a message comes with a new context, by its header type (TS 24.301 9.3.1).
fn has_new_context(pdu: &[u8]) -> bool
    ensures { result ≡ is_for_new_context pdu.now }
{
    !pdu.is_empty() && pdu[0] / 16 == 4
}
