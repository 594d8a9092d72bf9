// Nets behind one move, and behind unseen moves.
ghost use Rattle.std.specs.Prelude.{◌≡◌, ◌∷◌, ◌++◌, ◌≤◌, ◌<◌, ℕ, Bool, List, [], drop, flat_map, length, IfOk, OnErr, OnOk, Err};
ghost use Rattle.growth.specs.Growth.{WasRefused};
ghost use Rattle.key_model.specs.Reading.{octet_reading};
ghost use Rattle.trace_keys.specs.Moved.{moved as moved_by};
ghost use Rattle.trace_keys.specs.Net.{Net as ANet};
ghost use Rattle.trace_keys.specs.Same.{same_net as same_net_by};
ghost use Rattle.trace_rules.specs.Search.{if_unseen, if_shown, hidden_from, shown_from};
ghost use Rattle.trace_rules.proofs.Widening.{Known};
ghost use Rattle.trace_plain.specs.Once.{once_from};
ghost use Rattle.trace_plain.specs.Kept.{led_after, most_nets};
ghost use Rattle.trace_plain.specs.Sights.{fits, is_covered};

use crate::nets::Nets;
use crate::taps::{is_dark, is_there, is_unseen, shows};
use crate::unsearched::Unsearched;
use annex_a_keys::Kasme;
use std::alloc::{AllocError, Global};
use trace_keys::{Done, Move, Net, Sight, Where, moved, place_of};

/// The nets that are kept between two sightings at the most.
pub const MOST_NETS: usize = 8192;

// Puts a copy of a net at the end.
fn push(out: &mut Vec<Net>, net: &Net) -> Result<(), AllocError>
    ensures items { OnOk result (out.new.items ≡ out.old.items ++ net.now ∷ []) }
    ensures refused { OnErr result WasRefused }
{
    growth::push(out, *net)?;
    Ok(())
}

// The net that an unseen move leaves.
pub(crate) fn push_unseen(
    out: &mut Vec<Net>,
    covered: &[Where],
    done: &Option<Done>,
) -> Result<(), AllocError>
    ensures items { OnOk result (out.new.items ≡ out.old.items ++ if_unseen (is_covered covered.now) done.now) }
    ensures refused { OnErr result WasRefused }
{
    if let Some(done) = done {
        if is_unseen(covered, done.sent()) {
            push(out, done.net())?;
        }
    }
    Ok(())
}

// The net that a move leaves which shows this.
fn push_shown(
    out: &mut Vec<Net>,
    covered: &[Where],
    sight: &Sight,
    done: &Option<Done>,
) -> Result<(), AllocError>
    ensures items { OnOk result (out.new.items ≡ out.old.items ++ if_shown fits (is_covered covered.now) sight.now done.now) }
    ensures refused { OnErr result WasRefused }
{
    if let Some(done) = done {
        if let Some(sent) = done.sent() {
            if shows(covered, sight, sent) {
                push(out, done.net())?;
            }
        }
    }
    Ok(())
}

// The same of a move. No key is made where it would go to a tap.
fn try_unseen(
    out: &mut Vec<Net>,
    kasmes: &[Kasme],
    covered: &[Where],
    net: &Net,
    by_move: &Move,
) -> Result<(), AllocError>
    ensures items { OnOk result (out.new.items ≡ out.old.items ++ if_unseen (is_covered covered.now) (moved_by octet_reading kasmes.now net.now by_move.now)) }
    ensures refused { OnErr result WasRefused }
{
    let dark = is_dark(covered, &place_of(net, by_move));
    if dark {
        push_unseen(out, covered, &moved(kasmes, net, by_move))?;
    }
    Ok(())
}

// The same of a move. No key is made where it would go elsewhere.
fn try_shown(
    out: &mut Vec<Net>,
    kasmes: &[Kasme],
    covered: &[Where],
    sight: &Sight,
    net: &Net,
    by_move: &Move,
) -> Result<(), AllocError>
    ensures items { OnOk result (out.new.items ≡ out.old.items ++ if_shown fits (is_covered covered.now) sight.now (moved_by octet_reading kasmes.now net.now by_move.now)) }
    ensures refused { OnErr result WasRefused }
{
    let there = is_there(sight, &place_of(net, by_move));
    if there {
        push_shown(out, covered, sight, &moved(kasmes, net, by_move))?;
    }
    Ok(())
}

// The nets behind one unseen move.
pub(crate) fn hidden(
    alloc: Global,
    kasmes: &[Kasme],
    covered: &[Where],
    family: &[Move],
    net: &Net,
) -> Result<Vec<Net>, AllocError>
    ensures items { IfOk result (λ out. out.items ≡ hidden_from (moved_by octet_reading kasmes.now) (is_covered covered.now) family.now net.now) }
    ensures refused { OnErr result WasRefused }
{
    let mut out = Vec::new(alloc);
    for by_move in family {
        try_unseen(&mut out, kasmes, covered, net, by_move)?;
    }
    Ok(out)
}

// The nets behind one move that shows this.
fn push_shown_from(
    out: &mut Vec<Net>,
    kasmes: &[Kasme],
    covered: &[Where],
    family: &[Move],
    sight: &Sight,
    net: &Net,
) -> Result<(), AllocError>
    ensures items { OnOk result (out.new.items ≡ out.old.items ++ shown_from (moved_by octet_reading kasmes.now) fits (is_covered covered.now) family.now sight.now net.now) }
    ensures refused { OnErr result WasRefused }
{
    for by_move in family {
        try_shown(out, kasmes, covered, sight, net, by_move)?;
    }
    Ok(())
}

// The nets behind one move of any of these that shows this.
pub(crate) fn shown(
    alloc: Global,
    kasmes: &[Kasme],
    covered: &[Where],
    family: &[Move],
    sight: &Sight,
    nets: &[Net],
) -> Result<Vec<Net>, AllocError>
    ensures items { IfOk result (λ out. out.items ≡ flat_map (shown_from (moved_by octet_reading kasmes.now) fits (is_covered covered.now) family.now sight.now) nets.now) }
    ensures refused { OnErr result WasRefused }
{
    let mut out = Vec::new(alloc);
    for net in nets {
        push_shown_from(&mut out, kasmes, covered, family, sight, net)?;
    }
    Ok(out)
}

// Adds the nets behind one unseen move of these.
fn add_hidden(
    alloc: Global,
    kasmes: &[Kasme],
    covered: &[Where],
    family: &[Move],
    nets: &[Net],
    all: &mut Nets,
) -> Result<(), Unsearched>
    ensures items { OnOk result (all.new ≡ once_from same_net_by all.old (flat_map (hidden_from (moved_by octet_reading kasmes.now) (is_covered covered.now) family.now) nets.now)) }
    ensures many { result ≡ Err Unsearched.TooMany → most_nets < length (once_from same_net_by all.old (flat_map (hidden_from (moved_by octet_reading kasmes.now) (is_covered covered.now) family.now) nets.now)) }
    ensures memory { result ≡ Err Unsearched.Memory → WasRefused }
{
    for net in nets {
        let more = hidden(alloc, kasmes, covered, family, net)?;
        all.add_all(more.as_slice())?;
        if all.len() > MOST_NETS {
            return Err(Unsearched::TooMany);
        }
    }
    Ok(())
}

// The nets behind the first `begun`.
pub(crate) fn behind_first(alloc: Global, begun: usize, all: &Nets) -> Result<Vec<Net>, AllocError>
    requires { begun ≤ length all.now }
    ensures items { IfOk result (λ fresh. fresh.items ≡ drop begun all.now) }
    ensures refused { OnErr result WasRefused }
{
    growth::from_slice(alloc, &all.as_slice()[begun..])
}

// Goes on from the nets behind the first `begun` by one unseen move.
fn widen(
    alloc: Global,
    kasmes: &[Kasme],
    covered: &[Where],
    family: &[Move],
    begun: usize,
    all: &mut Nets,
) -> Result<(), Unsearched>
    requires { begun ≤ length all.old }
    ensures items { OnOk result (all.new ≡ once_from same_net_by all.old (flat_map (hidden_from (moved_by octet_reading kasmes.now) (is_covered covered.now) family.now) (drop begun all.old))) }
    ensures many { result ≡ Err Unsearched.TooMany → most_nets < length (once_from same_net_by all.old (flat_map (hidden_from (moved_by octet_reading kasmes.now) (is_covered covered.now) family.now) (drop begun all.old))) }
    ensures memory { result ≡ Err Unsearched.Memory → WasRefused }
{
    let fresh = behind_first(alloc, begun, all)?;
    add_hidden(alloc, kasmes, covered, family, fresh.as_slice(), all)
}

// Adds the nets behind so many unseen moves, and answers of how many the successors are there already.
pub(crate) fn widened(
    alloc: Global,
    kasmes: &[Kasme],
    covered: &[Where],
    family: &[Move],
    turns: u32,
    all: &mut Nets,
) -> Result<usize, Unsearched>
    ensures within { IfOk result (λ begun. begun ≤ length all.new) }
    ensures known { IfOk result (λ begun. Known (moved_by octet_reading kasmes.now) fits (is_covered covered.now) family.now turns all.old all.new begun) }
    ensures items { IfOk result (λ begun. (may : ANet (List ℕ) ℕ → Bool) → led_after (moved_by octet_reading kasmes.now) (is_covered covered.now) family.now same_net_by may 0 begun all.new ≡ led_after (moved_by octet_reading kasmes.now) (is_covered covered.now) family.now same_net_by may turns 0 all.old) }
    ensures many { result ≡ Err Unsearched.TooMany → (may : ANet (List ℕ) ℕ → Bool) → most_nets < length (led_after (moved_by octet_reading kasmes.now) (is_covered covered.now) family.now same_net_by may turns 0 all.old) }
    ensures memory { result ≡ Err Unsearched.Memory → WasRefused }
{
    let mut begun = 0;
    for _turn in 0..turns {
        let count = all.len();
        widen(alloc, kasmes, covered, family, begun, all)?;
        begun = count;
    }
    Ok(begun)
}
