ghost use Rattle.std.specs.Prelude.{◌≡◌, ◌≢◌, ◌≤◌, find, length, slice_get};
ghost use Rattle.alg_choice.specs.Caps.{holds_eea};
ghost use Rattle.alg_choice.specs.Priority.{order_of};

use crate::{Caps, Eea};
use std::marker::Model;

/// The encryption algorithms that a core or a base station may use, in the operator's order of
/// priority (TS 33.401 7.2.4.2.1 and 7.2.4.3.1). A contract sees it as the list of them.
#[derive(Clone, Copy, PartialEq, Eq)]
pub struct Priority {
    first: Eea,
    second: Option<Eea>,
}

impl Model for Priority {
    ghost use Rattle.std.specs.Prelude.{◌≢◌, List, Option, Some, refl};
    ghost use Rattle.alg_choice.specs.declared.algs.Eea.{Eea};
    ghost use Rattle.alg_choice.specs.Priority.{order_of, first_of, second_of, first_of-order_of, second_of-order_of};

    ghost Value = { List Eea };

    ghost view = { λ p. order_of p.first p.second };

    ghost invariant = { λ p. p.second ≢ Some p.first };

    ghost inverse = { λ order. record { first = first_of order; second = second_of order } };

    ghost inverse_ok = { λ p h. Prim.rw (first_of-order_of p.first p.second, second_of-order_of p.first p.second) refl };
}

impl Priority {
    /// The list of one algorithm or of two different ones.
    pub fn new(first: Eea, second: Option<Eea>) -> Priority
        requires { second ≢ Some first }
        ensures { result ≡ order_of first second }
    {
        Priority { first, second }
    }

    /// The algorithm that is preferred.
    pub fn first(&self) -> Eea
        ensures { slice_get self.now 0 ≡ Some result }
    {
        self.first
    }

    /// The other algorithm. `None` if the list has only one.
    pub fn second(&self) -> Option<Eea>
        ensures value { result ≡ slice_get self.now 1 }
        ensures no_third { length self.now ≤ 2 }
    {
        self.second
    }

    // The first algorithm of the list that the capabilities hold.
    pub(crate) fn first_held(&self, caps: &Caps) -> Option<Eea>
        ensures { result ≡ find (holds_eea caps.now) self.now }
    {
        if caps.holds_eea(self.first) {
            return Some(self.first);
        }
        let second = self.second?;
        if caps.holds_eea(second) {
            Some(second)
        } else {
            None
        }
    }
}
