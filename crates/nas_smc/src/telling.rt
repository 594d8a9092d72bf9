// What an actor replies by the answer of its NAS part.
ghost use Rattle.std.specs.Prelude.{◌≡◌, ◌++◌, option_map};
ghost use Rattle.nas_smc.specs.NasOut.{listed, reply_to, tuple_in};

use crate::NasOut;
use annex_a_keys::Derived;
use lte_events::{ActorOut, Address, Record};
use nas_guard::NasPdu;
use rec_base::{Octets, ShortText, Use, UserText};

impl NasOut {
    /// The reply of the actor: the message goes to this address, and a derivation may come before those of the
    /// NAS part.
    pub fn tell(self, to: Address, first: Option<Derived>, out: &mut ActorOut)
        ensures { out.new ≡ reply_to to self (listed first ++ self.derived) }
    {
        out.only(self.answer);
        out.sent = sent(to, &self.pdu);
        out.tuple = tuple(self.used.as_slice());
        out.opened = opened(&self.opened);
        if let Some(made) = first {
            out.derived.push(made);
        }
        out.derived.append(self.derived.as_slice());
        out.used = self.used;
        out.accepted = self.accepted;
    }
}

// A NAS message goes to this address.
fn sent(to: Address, pdu: &Option<NasPdu>) -> Option<Record>
    ensures { result ≡ option_map (λ octets. record { to = to; octets = octets }) pdu.now }
{
    let Some(pdu) = pdu else {
        return None;
    };
    let mut octets = Octets::new();
    octets.append(pdu.as_slice());
    Some(Record { to, octets })
}

// The integrity use of a message is the last of its uses.
fn tuple(used: &[Use]) -> Option<Use>
    ensures { result ≡ tuple_in used.now }
{
    match used {
        [] => None,
        [integrity] => Some(*integrity),
        [_, integrity, ..] => Some(*integrity),
    }
}

// A NAS text as the actor hands it on.
fn opened(text: &Option<ShortText>) -> Option<UserText>
    ensures { result ≡ text.now }
{
    let Some(text) = text else {
        return None;
    };
    let mut copy = UserText::new();
    copy.append(text.as_slice());
    Some(copy)
}
