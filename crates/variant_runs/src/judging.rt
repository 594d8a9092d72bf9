// Whether what is sent again was sent.
ghost use Rattle.std.specs.Prelude.{◌≡◌};
ghost use Rattle.std.specs.List.{list_all};
ghost use Rattle.std.specs.Option.{option_map};
ghost use Rattle.variant_runs.specs.Judged.{can_be_by, is_sent, is_sent_by, is_sent_in, sender_at, sender_of};

use item_faults::{Does, Fault, Kind, Step};
use item_lines::{Told, line_of};
use lte_events::Line;

fn is_sent_by(usual: &Line, here: &Line) -> bool
    ensures { result ≡ is_sent_by usual.now here.now }
{
    here.sent.is_some() && usual.who == here.who
}

fn is_sent_in(usual: Option<&Told>, here: Option<&Told>) -> bool
    ensures { result ≡ is_sent_in (option_map (λ t. t.now) usual.entry) (option_map (λ t. t.now) here.entry) }
{
    match (usual, here) {
        (Some(usual), Some(here)) => is_sent_by(&usual.line, &here.line),
        _ => false,
    }
}

fn is_sent(usual: &[Told], here: &[Told], sender: Option<u32>) -> bool
    ensures { result ≡ is_sent usual.now here.now sender }
{
    match sender {
        Some(name) => is_sent_in(line_of(name, usual), line_of(name, here)),
        None => false,
    }
}

fn sender_at(step: Option<&Step>) -> Option<u32>
    ensures { result ≡ sender_at (option_map (λ s. s.now) step.entry) }
{
    match step {
        Some(step) => match step.does {
            Does::Delivers(of) => Some(of),
            _ => None,
        },
        None => None,
    }
}

// The step that sends the message that this step delivers.
fn sender_of(steps: &[Step], message: u32) -> Option<u32>
    ensures { result ≡ sender_of steps.now message }
{
    sender_at(steps.get(message as usize))
}

fn can_be(usual: &[Told], here: &[Told], steps: &[Step], kind: Kind, message: u32) -> bool
    ensures { result ≡ can_be_by usual.now here.now steps.now kind message }
{
    match kind {
        Kind::Again => is_sent(usual, here, sender_of(steps, message)),
        _ => true,
    }
}

/// Whether what these faults have sent again was sent, by the actor that sends it in the scenario.
pub(crate) fn can_all_be(usual: &[Told], here: &[Told], steps: &[Step], faults: &[Fault]) -> bool
    ensures { result ≡ list_all (λ f. can_be_by usual.now here.now steps.now f.kind f.message) faults.now }
{
    faults.iter().all(|fault| can_be(usual, here, steps, fault.kind, fault.message))
}
