// NAS rows: an authentication, NAS messages, and what is sent to the core (TS 24.301 4.4 and 5.4.3).
ghost use Rattle.std.specs.Prelude.{◌≡◌, ◌≤◌, ◌++◌, None, Some, length};
ghost use Rattle.rec_base.specs.Lengths.{longest_record};
ghost use Rattle.lte_events.specs.declared.inputs.PhoneIn.TheVariants.{Act, Auth, Nas};
ghost use Rattle.lte_events.specs.declared.acts.PhoneAct.TheVariants.{SendNas, ServiceRequest, Skip};
ghost use Rattle.key_model.specs.Derivation.{derived_of, kenb_made};
ghost use Rattle.key_model.specs.Reading.{octet_reading};
ghost use Rattle.lte_machine.specs.Calls.{phone_call};
ghost use Rattle.nas_smc.specs.NasOut.{phone_reply, listed};
ghost use Rattle.nas_smc.specs.PhoneNas.{phone_after};
ghost use Rattle.ue_context.specs.Parts.{nas_of, waiting};

use crate::Phone;
use crate::radio::Radio;
use crate::waiting::Waiting;
use annex_a_keys::Kasme;
use lte_events::{ActorOut, Address, Answer};
use nas_smc::NasOut;
use rec_base::ShortText;

impl Phone {
    // An authentication left a KSI and a KASME (TS 33.401 6.1.1).
    pub(crate) fn authenticate(&mut self, ksi: u8, root: Kasme, out: &mut ActorOut)
        requires { ksi ≤ 6 }
        ensures { (self.new, out.new) ≡ phone_call self.old (Auth ksi root) }
    {
        self.nas.authenticate(ksi, root);
        out.only(Answer::Done)
    }

    // A NAS message.
    pub(crate) fn nas_message(&mut self, pdu: &[u8], out: &mut ActorOut)
        requires { length pdu.now ≤ longest_record }
        ensures { (self.new, out.new) ≡ phone_call self.old (Nas pdu.now) }
    {
        let said = self.nas.on_pdu(pdu);
        self.follow(said, out)
    }

    // SERVICE REQUEST, of a phone with no connection (TS 24.301 5.6.1.1).
    pub(crate) fn service_request(&mut self, out: &mut ActorOut)
        ensures { (self.new, out.new) ≡ phone_call self.old (Act ServiceRequest) }
    {
        match &self.radio {
            Radio::Connected(_) => out.only(Answer::AlreadyConnected),
            Radio::Idle | Radio::Connecting(_) => {
                let said = self.nas.service_request();
                self.follow(said, out)
            }
        }
    }

    // A NAS text.
    pub(crate) fn send_nas(&mut self, text: &ShortText, out: &mut ActorOut)
        ensures { (self.new, out.new) ≡ phone_call self.old (Act (SendNas text.now)) }
    {
        let said = self.nas.send(text);
        self.follow(said, out)
    }

    // Leaves out so many uplink NAS COUNTs.
    pub(crate) fn skip_nas(&mut self, n: u32, out: &mut ActorOut)
        ensures { (self.new, out.new) ≡ phone_call self.old (Act (Skip None n)) }
    {
        let said = self.nas.skip(n);
        self.follow(said, out)
    }

    // What a call of the NAS part leads to: where a message asked for a connection and the phone has none, it
    // waits for one (TS 33.401 7.2.8.1.1).
    fn follow(&mut self, said: NasOut, out: &mut ActorOut)
        ensures { (self.new, out.new) ≡ phone_after (nas_of self.old) said self.old.radio }
    {
        let Some(count) = said.trigger else {
            return said.tell(Address::CoreNas, None, out);
        };
        let Some(root) = self.nas.root() else {
            return said.tell(Address::CoreNas, None, out);
        };
        match &self.radio {
            Radio::Connected(_) => said.tell(Address::CoreNas, None, out),
            Radio::Idle | Radio::Connecting(_) => self.wait(root, count, said, out),
        }
    }

    // The phone waits with KeNB of this COUNT (TS 33.401 A.3).
    fn wait(&mut self, root: Kasme, count: u32, said: NasOut, out: &mut ActorOut)
        ensures new { self.new ≡ waiting (nas_of self.old) (record { root = root; kenb = octet_reading.kenb root count }) }
        ensures value { out.new ≡ phone_reply said (listed (Some (derived_of (kenb_made octet_reading root count))) ++ said.derived) }
    {
        let (kenb, made) = root.kenb(count);
        self.radio = Radio::Connecting(Waiting { root, kenb });
        said.tell(Address::CoreNas, Some(made), out)
    }
}
