// How far a capture has a lawful history.
ghost use Rattle.std.specs.Prelude.{◌≡◌, ◌↔◌, ◌<◌, ◌&&◌, ℕ, Bool, true, IsTrue, List, flat_map, filter, length, IfOk, OnOk, Err};
ghost use Rattle.growth.specs.Growth.{WasRefused};
ghost use Rattle.key_model.specs.Reading.{octet_reading};
ghost use Rattle.trace_keys.specs.Net.{Net as ANet, Sight as ASight};
ghost use Rattle.trace_keys.specs.Moved.{moved as moved_by};
ghost use Rattle.trace_keys.specs.Same.{same_net as same_net_by};
ghost use Rattle.trace_keys.specs.declared.moves.Move.{Move as AMove};
ghost use Rattle.trace_keys.specs.declared.moves.Where.{Where as AWhere};
ghost use Rattle.trace_rules.specs.Closed.{IsFull};
ghost use Rattle.trace_rules.specs.History.{History};
ghost use Rattle.trace_rules.specs.Search.{shown_from, widened as widened_by};
ghost use Rattle.trace_rules.proofs.Members.{Agree};
ghost use Rattle.trace_plain.specs.Explained.{ExplainedTo};
ghost use Rattle.trace_plain.specs.Kept.{led_once, most_nets, shown_once, TooManyNets};
ghost use Rattle.trace_plain.specs.Sights.{fits, has_tap, is_covered, leads};

use crate::ahead::led_to;
use crate::nets::Nets;
use crate::unsearched::Unsearched;
use crate::widening::shown;
use annex_a_keys::Kasme;
use std::alloc::Global;
use trace_keys::{Move, Net, Sight, Where};

/// How far a capture is explained.
#[derive(Clone, Copy)]
pub struct Found {
    /// How many sightings, from the first on, have a lawful history together.
    pub count: usize,
    /// Whether no number of unseen moves explains one more.
    pub closed: bool,
}

// Goes on from nets by unseen moves and one that shows this. Answers whether more unseen moves would give no other.
fn advance(
    alloc: Global,
    kasmes: &[Kasme],
    covered: &[Where],
    family: &[Move],
    bound: u32,
    sight: &Sight,
    nets: &mut Nets,
) -> Result<bool, Unsearched>
    ensures agree { OnOk result (Agree nets.new (flat_map (shown_from (moved_by octet_reading kasmes.now) fits (is_covered covered.now) family.now sight.now) (widened_by (moved_by octet_reading kasmes.now) (is_covered covered.now) family.now bound nets.old))) }
    ensures items { OnOk result (nets.new ≡ shown_once (moved_by octet_reading kasmes.now) fits (is_covered covered.now) family.now bound same_net_by leads sight.now nets.old) }
    ensures many { result ≡ Err Unsearched.TooMany → most_nets < length (led_once (moved_by octet_reading kasmes.now) (is_covered covered.now) family.now same_net_by (leads sight.now) bound nets.old) }
    ensures full { IfOk result (λ full. full ≡ true → IsFull (moved_by octet_reading kasmes.now) (is_covered covered.now) family.now (widened_by (moved_by octet_reading kasmes.now) (is_covered covered.now) family.now bound nets.old)) }
    ensures memory { result ≡ Err Unsearched.Memory → WasRefused }
{
    let full = led_to(alloc, kasmes, covered, family, bound, sight, nets)?;
    let next = shown(alloc, kasmes, covered, family, sight, nets.as_slice())?;
    nets.clear();
    nets.add_all(next.as_slice())?;
    Ok(full)
}

// Whether there is a net.
fn has_some(nets: &[Net]) -> bool
    ensures { IsTrue result ↔ (0 < length nets.now) }
{
    !nets.is_empty()
}

// Whether both are so.
fn both(one: bool, other: bool) -> bool
    ensures { result ≡ (one && other) }
{
    one && other
}

/// How many sightings of a capture, from the first on, have a lawful history of these moves together.
pub fn explained(
    alloc: Global,
    kasmes: &[Kasme],
    covered: &[Where],
    family: &[Move],
    bound: u32,
    start: &Net,
    capture: &[Sight],
) -> Result<Found, Unsearched>
    ensures found { IfOk result (λ e. ExplainedTo (moved_by octet_reading kasmes.now) fits (is_covered covered.now) family.now bound start.now capture.now e.count e.closed) }
    ensures many { result ≡ Err Unsearched.TooMany → TooManyNets (moved_by octet_reading kasmes.now) fits (is_covered covered.now) family.now bound same_net_by leads start.now capture.now }
    ensures memory { result ≡ Err Unsearched.Memory → WasRefused }
{
    let mut nets = Nets::one(alloc, start)?;
    let mut count = 0;
    let mut closed = true;
    for sight in capture {
        let full = advance(alloc, kasmes, covered, family, bound, sight, &mut nets)?;
        closed = both(closed, full);
        let some = has_some(nets.as_slice());
        if !some {
            return Ok(Found { count, closed });
        }
        count += 1;
    }
    Ok(Found { count, closed })
}

/// What a lawful history explains, the same moves explain where taps are fewer, whichever.
pub fn fewer_links_explain_too()
    ensures { (kasmes : List (List ℕ)) (more fewer : List AWhere) (bound : ℕ) (start : ANet (List ℕ) ℕ) (moves : List AMove) (capture : List (ASight (List ℕ))) →
        ((at : AWhere) → IsTrue (has_tap fewer at) → IsTrue (has_tap more at)) →
        History (moved_by octet_reading kasmes) fits (is_covered more) bound bound start moves capture →
        History (moved_by octet_reading kasmes) fits (is_covered fewer) (length moves) (length moves) start moves (filter (is_covered fewer) capture) }
{}
