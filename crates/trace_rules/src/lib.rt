//! Lawful histories and what they show, over any machine, and the search for them.
#![tactic(auto)]

ghost use Rattle.std.specs.Prelude.{◌≡◌, ℕ, Bool, true, IsTrue, Option, List, [], ◌∷◌, filter, length};
ghost use Rattle.trace_rules.specs.Rules.{Done, AreIn, IsIn};
ghost use Rattle.trace_rules.specs.History.{History};
ghost use Rattle.trace_rules.specs.Search.{possible};
ghost use Rattle.trace_rules.specs.Closed.{IsClosed};
ghost use Rattle.trace_rules.specs.Told.{Told, moves_told, tells};

/// What a history shows where fewer links are covered is what it shows, without what went over the others. So a capture that a
/// lawful history explains is explained where links are missing, by the same moves, whichever links.
pub fn coverage_is_monotone<N, M, S>()
    ensures { (moved : N → M → Option (Done N S)) (fits : S → S → Bool) (more fewer : S → Bool) (bound : ℕ) (start : N) (moves : List M) (capture : List S) →
        ((x : S) → IsTrue (fewer x) → IsTrue (more x)) →
        ((x y : S) → IsTrue (fits x y) → fewer x ≡ fewer y) →
        History moved fits more bound bound start moves capture →
        History moved fits fewer (length moves) (length moves) start moves (filter fewer capture) }
{}

/// Where the search comes to no net, no lawful history of these moves, with at most so many unseen ones between two sightings,
/// shows the capture.
pub fn no_net_no_history<N, M, S>()
    ensures { (moved : N → M → Option (Done N S)) (fits : S → S → Bool) (covers : S → Bool) (family : List M) (bound : ℕ) (start : N) (capture : List S) →
        possible moved fits covers family bound (start ∷ []) capture ≡ [] →
        (moves : List M) → AreIn moves family → ¬ History moved fits covers bound bound start moves capture }
{}

/// Where it comes to one, a lawful history of these moves does.
pub fn a_net_is_a_witness<N, M, S>()
    ensures { (moved : N → M → Option (Done N S)) (fits : S → S → Bool) (covers : S → Bool) (family : List M) (bound : ℕ) (start : N) (capture : List S) →
        (end : N) → IsIn end (possible moved fits covers family bound (start ∷ []) capture) →
        (moves : List M) × AreIn moves family × History moved fits covers bound bound start moves capture }
{}

/// Where the search is closed and comes to no net, no lawful history of these moves shows the capture, however many of them go
/// unseen.
pub fn closed_needs_no_bound<N, M, S>()
    ensures { (moved : N → M → Option (Done N S)) (fits : S → S → Bool) (covers : S → Bool) (family : List M) (bound : ℕ) (start : N) (capture : List S) →
        IsClosed moved fits covers family bound (start ∷ []) capture →
        possible moved fits covers family bound (start ∷ []) capture ≡ [] →
        (any : ℕ) (moves : List M) → AreIn moves family → ¬ History moved fits covers any any start moves capture }
{}

/// Moves that are told, and pass the test, are a lawful history that shows the capture.
pub fn what_is_told_is_a_history<N, M, S>()
    ensures { (moved : N → M → Option (Done N S)) (fits : S → S → Bool) (covers : S → Bool) (bound : ℕ) (start : N) (capture : List S) (told : List (Told M)) →
        tells moved fits covers bound start capture told ≡ true →
        History moved fits covers bound bound start (moves_told told) capture }
{}
