ghost use Rattle.std.specs.Prelude.{◌≡◌, ◌∷◌, [], Some};
ghost use Rattle.lte_events.specs.declared.addresses.Address.TheVariants.{StationS1};
ghost use Rattle.lte_machine.specs.Wire.{Between};
ghost use Rattle.lte_machine.specs.Calls.{sending};
ghost use Rattle.s1x2_rec.specs.Content.{content_of};
ghost use Rattle.s1x2_rec.specs.Spelling.{InRange};

use annex_a_keys::Derived;
use lte_events::{ActorOut, Address, Answer, KeyNote, Record};
use s1x2_rec::CoreRecord;

// What sends a record on S1 to a station.
pub(crate) fn sends(station: u8, message: &CoreRecord, out: &mut ActorOut)
    requires { InRange (content_of message.now) }
    ensures { out.new ≡ sending (Between (StationS1 station) (content_of message.now).fields (content_of message.now).key) }
{
    out.only(Answer::Done);
    out.sent = Some(Record {
        to: Address::StationS1(station),
        octets: message.write(),
    });
}

// The same, where a key was made for it.
pub(crate) fn sends_key(
    station: u8,
    message: &CoreRecord,
    made: Derived,
    note: KeyNote,
    out: &mut ActorOut,
)
    requires { InRange (content_of message.now) }
    ensures { out.new ≡ record (sending (Between (StationS1 station) (content_of message.now).fields (content_of message.now).key))
        { derived = made ∷ []; note = Some note } }
{
    sends(station, message, out);
    out.derived.push(made);
    out.note = Some(note);
}
