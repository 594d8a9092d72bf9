// Nets behind the last unseen move before a sighting.
ghost use Rattle.std.specs.Prelude.{◌≡◌, ◌++◌, ◌≤◌, ◌<◌, true, drop, flat_map, length, IfOk, OnErr, OnOk, Err};
ghost use Rattle.growth.specs.Growth.{WasRefused};
ghost use Rattle.key_model.specs.Reading.{octet_reading};
ghost use Rattle.trace_keys.specs.Moved.{moved as moved_by};
ghost use Rattle.trace_keys.specs.Same.{same_net as same_net_by};
ghost use Rattle.trace_rules.specs.Closed.{IsFull};
ghost use Rattle.trace_rules.specs.Search.{hidden_from, shown_from, widened as widened_by};
ghost use Rattle.trace_rules.proofs.Members.{Agree, Sub};
ghost use Rattle.trace_plain.specs.Kept.{if_leading, leading_from, led_after, led_once, most_nets};
ghost use Rattle.trace_plain.specs.Once.{once_from};
ghost use Rattle.trace_plain.specs.Sights.{fits, is_covered, leads};

use crate::nets::Nets;
use crate::taps::is_dark;
use crate::unsearched::Unsearched;
use crate::widening::{MOST_NETS, behind_first, hidden, push_unseen, widened};
use annex_a_keys::Kasme;
use std::alloc::{AllocError, Global};
use trace_keys::{Move, Net, Sight, Where, behind, may_show, moved, place_of};

// The net that an unseen move leaves, if it may show this. No key is made for another.
fn try_leading(
    out: &mut Vec<Net>,
    kasmes: &[Kasme],
    covered: &[Where],
    sight: &Sight,
    net: &Net,
    by_move: &Move,
) -> Result<(), AllocError>
    ensures items { OnOk result (out.new.items ≡ out.old.items ++ if_leading (leads sight.now) (is_covered covered.now) (moved_by octet_reading kasmes.now net.now by_move.now)) }
    ensures refused { OnErr result WasRefused }
{
    let dark = is_dark(covered, &place_of(net, by_move));
    if dark {
        let may = may_show(&behind(net, by_move), sight);
        if may {
            push_unseen(out, covered, &moved(kasmes, net, by_move))?;
        }
    }
    Ok(())
}

// The nets behind one unseen move that may show this.
fn leading(
    alloc: Global,
    kasmes: &[Kasme],
    covered: &[Where],
    family: &[Move],
    sight: &Sight,
    net: &Net,
) -> Result<Vec<Net>, AllocError>
    ensures items { IfOk result (λ out. out.items ≡ leading_from (moved_by octet_reading kasmes.now) (is_covered covered.now) family.now (leads sight.now) net.now) }
    ensures refused { OnErr result WasRefused }
{
    let mut out = Vec::new(alloc);
    for by_move in family {
        try_leading(&mut out, kasmes, covered, sight, net, by_move)?;
    }
    Ok(out)
}

// Adds those behind these nets.
fn add_leading(
    alloc: Global,
    kasmes: &[Kasme],
    covered: &[Where],
    family: &[Move],
    sight: &Sight,
    nets: &[Net],
    all: &mut Nets,
) -> Result<(), Unsearched>
    ensures items { OnOk result (all.new ≡ once_from same_net_by all.old (flat_map (leading_from (moved_by octet_reading kasmes.now) (is_covered covered.now) family.now (leads sight.now)) nets.now)) }
    ensures many { result ≡ Err Unsearched.TooMany → most_nets < length (once_from same_net_by all.old (flat_map (leading_from (moved_by octet_reading kasmes.now) (is_covered covered.now) family.now (leads sight.now)) nets.now)) }
    ensures memory { result ≡ Err Unsearched.Memory → WasRefused }
{
    for net in nets {
        let more = leading(alloc, kasmes, covered, family, sight, net)?;
        all.add_all(more.as_slice())?;
        if all.len() > MOST_NETS {
            return Err(Unsearched::TooMany);
        }
    }
    Ok(())
}

// Whether each unseen move from these nets leads to one of those.
fn is_full(
    alloc: Global,
    kasmes: &[Kasme],
    covered: &[Where],
    family: &[Move],
    nets: &[Net],
    all: &Nets,
) -> Result<bool, AllocError>
    ensures full { IfOk result (λ full. full ≡ true → Sub (flat_map (hidden_from (moved_by octet_reading kasmes.now) (is_covered covered.now) family.now) nets.now) all.now) }
    ensures refused { OnErr result WasRefused }
{
    for net in nets {
        let more = hidden(alloc, kasmes, covered, family, net)?;
        let there = all.has_all(more.as_slice());
        if !there {
            return Ok(false);
        }
    }
    Ok(true)
}

// Adds the nets behind one unseen move more that may show this, and answers whether such a move gives no other net at all.
fn led(
    alloc: Global,
    kasmes: &[Kasme],
    covered: &[Where],
    family: &[Move],
    sight: &Sight,
    begun: usize,
    all: &mut Nets,
) -> Result<bool, Unsearched>
    requires { begun ≤ length all.old }
    ensures items { OnOk result (all.new ≡ led_after (moved_by octet_reading kasmes.now) (is_covered covered.now) family.now same_net_by (leads sight.now) 0 begun all.old) }
    ensures many { result ≡ Err Unsearched.TooMany → most_nets < length (led_after (moved_by octet_reading kasmes.now) (is_covered covered.now) family.now same_net_by (leads sight.now) 0 begun all.old) }
    ensures full { IfOk result (λ full. full ≡ true → Sub (flat_map (hidden_from (moved_by octet_reading kasmes.now) (is_covered covered.now) family.now) (drop begun all.old)) all.old) }
    ensures memory { result ≡ Err Unsearched.Memory → WasRefused }
{
    let fresh = behind_first(alloc, begun, all)?;
    let full = is_full(alloc, kasmes, covered, family, fresh.as_slice(), all)?;
    add_leading(alloc, kasmes, covered, family, sight, fresh.as_slice(), all)?;
    Ok(full)
}

/// Adds the nets behind at most so many unseen moves, of those behind the last only the ones that may show this. Answers whether one
/// more would give no other.
pub(crate) fn led_to(
    alloc: Global,
    kasmes: &[Kasme],
    covered: &[Where],
    family: &[Move],
    bound: u32,
    sight: &Sight,
    all: &mut Nets,
) -> Result<bool, Unsearched>
    ensures agree { OnOk result (Agree (flat_map (shown_from (moved_by octet_reading kasmes.now) fits (is_covered covered.now) family.now sight.now) all.new) (flat_map (shown_from (moved_by octet_reading kasmes.now) fits (is_covered covered.now) family.now sight.now) (widened_by (moved_by octet_reading kasmes.now) (is_covered covered.now) family.now bound all.old))) }
    ensures items { OnOk result (all.new ≡ led_once (moved_by octet_reading kasmes.now) (is_covered covered.now) family.now same_net_by (leads sight.now) bound all.old) }
    ensures many { result ≡ Err Unsearched.TooMany → most_nets < length (led_once (moved_by octet_reading kasmes.now) (is_covered covered.now) family.now same_net_by (leads sight.now) bound all.old) }
    ensures full { IfOk result (λ full. full ≡ true → IsFull (moved_by octet_reading kasmes.now) (is_covered covered.now) family.now (widened_by (moved_by octet_reading kasmes.now) (is_covered covered.now) family.now bound all.old)) }
    ensures memory { result ≡ Err Unsearched.Memory → WasRefused }
{
    if bound == 0 {
        return Ok(false);
    }
    let begun = widened(alloc, kasmes, covered, family, bound - 1, all)?;
    let full = led(alloc, kasmes, covered, family, sight, begun, all)?;
    Ok(full)
}
