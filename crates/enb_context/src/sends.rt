ghost use Rattle.std.specs.Prelude.{◌≡◌, ◌+◌, ◌≤◌, ◌∷◌, ◌++◌, Some, ℕ};
ghost use Rattle.lte_events.specs.Reply.{reply_of};
ghost use Rattle.lte_machine.specs.Wire.{Between};
ghost use Rattle.lte_machine.specs.Calls.{sending};
ghost use Rattle.s1x2_rec.specs.Content.{content_of};
ghost use Rattle.s1x2_rec.specs.Spelling.{InRange};

use lte_events::{ActorOut, Address, Answer, Record};
use s1x2_rec::CoreRecord;

// An answer to a record that held this key.
pub(crate) fn heard(answer: Answer, key: [u8; 32], out: &mut ActorOut)
    ensures { out.new ≡ record (reply_of answer) { received = Some key } }
{
    out.only(answer);
    out.received = Some(key);
}

// What sends a record on S1 or X2.
pub(crate) fn sends(to: Address, message: &CoreRecord, out: &mut ActorOut)
    requires { InRange (content_of message.now) }
    ensures { out.new ≡ sending (Between to (content_of message.now).fields (content_of message.now).key) }
{
    out.only(Answer::Done);
    out.sent = Some(Record {
        to,
        octets: message.write(),
    });
}
