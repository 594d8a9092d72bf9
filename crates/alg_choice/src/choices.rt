ghost use Rattle.std.specs.Prelude.{◌≡◌, ◌↔◌, IfOk, IsOk, IsTrue, find};
ghost use Rattle.std.specs.List.{list_any};
ghost use Rattle.alg_choice.specs.Caps.{holds_eea, holds_eia2};
ghost use Rattle.alg_choice.specs.Choice.{choice_of, are_supported};

use crate::{Algs, Caps, Priority};

/// The phone supports no integrity algorithm, or no encryption algorithm, that may be used.
#[derive(Clone, Copy, Debug, PartialEq, Eq)]
pub struct NoAlgorithm;

/// The algorithm of highest priority that the phone supports (TS 33.401 7.2.4.2.1 and 7.2.4.3.1). `NoAlgorithm` where
/// it supports none of the list, or not 128-EIA2.
#[tactic(auto, unfolding(crate::specs::Choice::choice_of, crate::specs::Choice::are_supported))]
pub fn choose(priority: &Priority, caps: &Caps) -> Result<Algs, NoAlgorithm>
    ensures value { result ≡ choice_of priority.now caps.now }
    ensures supported { IfOk result (λ algs. IsTrue (are_supported caps.now algs)) }
    ensures first_of_list { IfOk result (λ algs. find (holds_eea caps.now) priority.now ≡ Some algs.eea) }
    ensures ok { IsOk result ↔ (IsTrue (holds_eia2 caps.now) × IsTrue (list_any (holds_eea caps.now) priority.now)) }
{
    if !caps.holds_eia2() {
        return Err(NoAlgorithm);
    }
    match priority.first_held(caps) {
        Some(eea) => Ok(Algs { eea }),
        None => Err(NoAlgorithm),
    }
}

/// Whether a phone with these capabilities supports the algorithms.
#[tactic(auto, unfolding(crate::specs::Choice::are_supported))]
pub fn supports(caps: &Caps, algs: &Algs) -> bool
    ensures { result ≡ are_supported caps.now algs.now }
{
    caps.holds_eea(algs.eea) && caps.holds_eia2()
}
