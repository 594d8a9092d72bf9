//! Lawful histories of keys in octets are those in terms.
#![tactic(auto)]

ghost use Rattle.std.specs.Prelude.{◌≡◌, ◌↔◌, ℕ, Bool, List, map};
ghost use Rattle.key_model.specs.Reading.{Reading, Carries};
ghost use Rattle.trace_keys.specs.Net.{Net, Sight};
ghost use Rattle.trace_keys.specs.Moved.{moved};
ghost use Rattle.trace_keys.specs.declared.moves.Move.{Move};
ghost use Rattle.trace_terms.specs.Carried.{map_done, map_net, valued};
ghost use Rattle.trace_rules.specs.History.{History};

/// A move in octets, with NCCs, does what it does in terms, with whole numbers: it is lawful where it is lawful there, and what it
/// leaves and sends is the values of the terms.
pub fn moves_are_carried<K, C, L, D>()
    ensures { (r : Reading K C) (q : Reading L D) (f : K → L) (g : C → D) → Carries r q f g →
        (kasmes : List K) (net : Net K C) (move : Move) →
        map_done f g (moved r kasmes net move) ≡ moved q (map f kasmes) (map_net f g net) move }
{}

/// A capture in octets has a lawful history exactly if one of terms, by the same moves, sends keys of these values.
pub fn histories_are_carried<K, C, L, D>()
    ensures { (r : Reading K C) (q : Reading L D) (f : K → L) (g : C → D) → Carries r q f g →
        (kasmes : List K) (fits : Sight L → Sight L → Bool) (covers : Sight L → Bool) (bound left : ℕ) (net : Net K C) (moves : List Move) (capture : List (Sight L)) →
        History (valued r f kasmes) fits covers bound left net moves capture
        ↔ History (moved q (map f kasmes)) fits covers bound left (map_net f g net) moves capture }
{}
