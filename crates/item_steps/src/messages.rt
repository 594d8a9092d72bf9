// The message of a step.
ghost use Rattle.std.specs.Prelude.{◌≡◌};
ghost use Rattle.item_steps.specs.Messages.{message_of};

use crate::acts::{core_sends, phone_sends, station_sends};
use crate::answers::answers_with;
use crate::keys::came_over_s1;
use item_faults::{Does, Message, Step, delivered};
use item_lines::{Told, is_done};
use lte_events::{Class, Event};

/// The message that a step sends, behind these steps and their lines.
pub(crate) fn message_of(
    steps: &[Step],
    before: &[Told],
    event: &Event,
    does: Does,
    told: &Told,
    class: Class,
) -> Message
    ensures { result ≡ message_of steps.now before.now event.now does told.now.line class }
{
    match event {
        Event::Phone(act) => phone_sends(act),
        Event::Station(_, act) => station_sends(class, act),
        Event::Core(act) => core_sends(act),
        Event::Deliver(_) => {
            let over_s1 = came_over_s1(steps, before, &told.line);
            answers_with(
                told.line.who,
                is_done(Some(told)),
                over_s1,
                delivered(does, steps),
            )
        }
        _ => Message::Unnamed,
    }
}
