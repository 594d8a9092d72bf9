// One step of the phone, by what comes.
ghost use Rattle.std.specs.Prelude.{◌≡◌, ◌≤◌, length};
ghost use Rattle.rec_base.specs.Lengths.{longest_record};
ghost use Rattle.lte_events.specs.declared.inputs.PhoneIn.TheVariants.{Act, Air};
ghost use Rattle.lte_machine.specs.Calls.{phone_call};
ghost use Rattle.lte_events.specs.Ranges.{PhoneDoes, PhoneTakes};

use crate::Phone;
use crate::radio::Radio;
use lte_events::{ActorOut, Answer, PhoneAct, PhoneIn};
use rec_base::Bearer;

impl Phone {
    /// The step of `step`, whose reply is written in place of another.
    pub fn reply(&mut self, input: &PhoneIn, out: &mut ActorOut)
        requires { PhoneTakes input.now }
        ensures { (self.new, out.new) ≡ phone_call self.old input.now }
    {
        match input {
            PhoneIn::Auth(ksi, root) => self.authenticate(*ksi, *root, out),
            PhoneIn::Act(act) => self.act(act, out),
            PhoneIn::Nas(pdu) => self.nas_message(pdu.as_slice(), out),
            PhoneIn::Air(station, air, bearer, pdu) => {
                self.air(*station, *air, *bearer, pdu.as_slice(), out)
            }
        }
    }

    // An act of its own.
    fn act(&mut self, act: &PhoneAct, out: &mut ActorOut)
        requires { PhoneDoes act.now }
        ensures { (self.new, out.new) ≡ phone_call self.old (Act act.now) }
    {
        match act {
            PhoneAct::ServiceRequest => self.service_request(out),
            PhoneAct::ResendComplete => self.resend_complete(out),
            PhoneAct::GoIdle => self.go_idle(out),
            PhoneAct::SendUser(bearer, text) => self.send_user(*bearer, text, out),
            PhoneAct::SendRrc(bearer, text) => self.send_rrc(*bearer, text, out),
            PhoneAct::SendNas(text) => self.send_nas(text, out),
            PhoneAct::Skip(None, n) => self.skip_nas(*n, out),
            PhoneAct::Skip(Some(bearer), n) => self.skip_bearer(*bearer, *n, out),
        }
    }

    // A PDU of a station and an air address there.
    fn air(&mut self, station: u8, air: u32, bearer: Bearer, pdu: &[u8], out: &mut ActorOut)
        requires { length pdu.now ≤ longest_record }
        ensures { (self.new, out.new) ≡ phone_call self.old (Air station air bearer pdu.now) }
    {
        match &mut self.radio {
            Radio::Idle => out.only(Answer::NotConnected),
            Radio::Connecting(waiting) => {
                match waiting.start(&self.nas, station, air, bearer, pdu, out) {
                    None => {}
                    Some(link) => self.radio = Radio::Connected(link),
                }
            }
            Radio::Connected(link) => link.air(&self.nas, station, air, bearer, pdu, out),
        }
    }
}
