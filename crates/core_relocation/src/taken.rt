// What comes to a core.
ghost use Rattle.std.specs.Prelude.{◌≡◌, option_map};
ghost use Rattle.core_relocation.specs.Holder.{fields_from, fields_of, fields_given};

use lte_events::{ActorIn, ActorOut, CoreIn};
use s1x2_rec::CoreRecord;

// The record on S1 that came to a core in an event with these replies, if one did.
pub(crate) fn taken(replies: &[(ActorIn, ActorOut)]) -> Option<CoreRecord>
    ensures { option_map fields_of result ≡ fields_given replies.now }
{
    match replies.first() {
        Some(reply) => record_in(&reply.0),
        None => None,
    }
}

// The record that an input is, if it is one of a core on S1.
fn record_in(input: &ActorIn) -> Option<CoreRecord>
    ensures { option_map fields_of result ≡ fields_from input.now }
{
    match input {
        ActorIn::Core(CoreIn::S1(octets)) => CoreRecord::read(octets.as_slice()).ok(),
        _ => None,
    }
}
