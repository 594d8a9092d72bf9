// At what message a station came by a key.
ghost use Rattle.std.specs.Prelude.{◌≡◌, position};
ghost use Rattle.item_steps.specs.Messages.{came_by, came_over_s1, is_handover_request, takes_request, tells_key};
ghost use Rattle.std.specs.Option.{option_map};

use item_faults::{Message, Step, delivered};
use item_lines::{Told, is_key};
use lte_events::{Line, Who};

fn tells_key(who: &Who, key: &[u8; 32], t: &Told) -> bool
    ensures { result ≡ tells_key who.now key.now t.now }
{
    t.line.who == *who && is_key(key, &t.line.note)
}

fn first_told(before: &[Told], who: &Who, key: &[u8; 32]) -> Option<usize>
    ensures { result ≡ position (tells_key who.now key.now) before.now }
{
    before.iter().position(|t| tells_key(who, key, t))
}

// The step at which the actor of a line came by its key.
fn came_by(before: &[Told], line: &Line) -> Option<usize>
    ensures { result ≡ came_by before.now line.now.who line.now.note }
{
    match &line.note {
        Some(note) => first_told(before, &line.who, &note.key),
        None => None,
    }
}

fn is_handover_request(message: Option<Message>) -> bool
    ensures { result ≡ is_handover_request message }
{
    match message {
        Some(Message::HandoverRequest) => true,
        _ => false,
    }
}

fn takes_request(steps: &[Step], step: Option<&Step>) -> bool
    ensures { result ≡ takes_request steps.now (option_map (λ s. s.now) step.entry) }
{
    match step {
        Some(step) => is_handover_request(delivered(step.does, steps)),
        None => false,
    }
}

/// Whether a station came over S1 by the key of its line.
pub(crate) fn came_over_s1(steps: &[Step], before: &[Told], line: &Line) -> bool
    ensures { result ≡ came_over_s1 steps.now before.now line.now }
{
    match came_by(before, line) {
        Some(place) => takes_request(steps, steps.get(place)),
        None => false,
    }
}
