//! The keys of one phone come in order and of one chain, however many moves go unseen.
#![tactic(auto)]

mod clues;
mod kinds;
mod known;
mod never;
mod own;
mod reach;

ghost use Rattle.std.specs.Prelude.{◌≡◌, ℕ, Bool, List, [], ◌∷◌, ◌++◌, map, None, Some};
ghost use Rattle.key_model.specs.Reading.{octet_reading};
ghost use Rattle.key_model.specs.Term.{Term};
ghost use Rattle.key_model.specs.Value.{value_of};
ghost use Rattle.key_model.specs.HandoverTable.{NumberedKey};
ghost use Rattle.trace_rules.specs.Rules.{AreIn};
ghost use Rattle.trace_rules.specs.History.{History};
ghost use Rattle.trace_keys.specs.Net.{Net, Sight};
ghost use Rattle.trace_keys.specs.Moved.{moved};
ghost use Rattle.trace_keys.specs.declared.moves.Move.{Move};
ghost use Rattle.trace_order.specs.Order.{IsExact, AllBeginsSeen, InOrder, Follows, Coincidence, last_nh, nh_of};
ghost use Rattle.trace_order.specs.Base.{AllMadeOf};
ghost use Rattle.trace_order.specs.Kinds.{AllCarry};
ghost use Rattle.trace_order.specs.Reach.{AllStepsSeen, InReach};

pub use clues::{Clue, Shape};
pub use kinds::is_misplaced;
pub use known::{Known, MOST_NUMBER};
pub use never::is_never;
pub use own::is_foreign;
pub use reach::is_beyond;

/// What a lawful history shows of NHs is in order, of whatever of these moves and however many of them go unseen, over the air too: if
/// the KeNBs that begin a connection and the key changes that are taken are covered, each NH is of the chain of the one before, and
/// further on.
pub fn nhs_come_in_order()
    ensures { (kasmes : List Term) (fits : Sight (List ℕ) → Sight (List ℕ) → Bool) (covers : Sight (List ℕ) → Bool) (family : List Move) (bound left kasme count : ℕ) (moves : List Move) (capture : List (Sight (List ℕ))) →
        IsExact fits → AllBeginsSeen covers family → AreIn moves family →
        History (moved octet_reading (map value_of kasmes)) fits covers bound left (record { kasme = kasme; count = count; serving = None }) moves capture →
        InOrder None capture }
{}

/// So an NH of a known term, behind the last one of a known term that it does not follow, has no such history, of however many moves,
/// but where two terms have one value.
pub fn known_nhs_follow()
    ensures { (kasmes : List Term) (fits : Sight (List ℕ) → Sight (List ℕ) → Bool) (covers : Sight (List ℕ) → Bool) (family : List Move) (bound left kasme count : ℕ) (moves : List Move)
        (capture : List (Sight (List ℕ))) (sight : Sight (List ℕ)) (last next : NumberedKey (List ℕ) ℕ) (before after : Term) →
        IsExact fits → AllBeginsSeen covers family → AreIn moves family →
        last_nh None capture ≡ Some last → nh_of sight.at sight.pair ≡ Some next →
        value_of before ≡ last.key → value_of after ≡ next.key → ¬ Follows before after →
        History (moved octet_reading (map value_of kasmes)) fits covers bound left (record { kasme = kasme; count = count; serving = None }) moves (capture ++ sight ∷ []) →
        Coincidence }
{}

/// If these are covered, each NH and each KeNB* of a connection is made of the KeNB with which it began, until a key change is taken.
pub fn keys_are_made_of_the_kenb()
    ensures { (kasmes : List Term) (fits : Sight (List ℕ) → Sight (List ℕ) → Bool) (covers : Sight (List ℕ) → Bool) (family : List Move) (bound left kasme count : ℕ) (moves : List Move) (capture : List (Sight (List ℕ))) →
        IsExact fits → AllBeginsSeen covers family → AreIn moves family →
        History (moved octet_reading (map value_of kasmes)) fits covers bound left (record { kasme = kasme; count = count; serving = None }) moves capture →
        AllMadeOf None capture }
{}

/// Each key that a lawful history shows is one that its message may carry, with its NCC: of the kind of its place, and for a cell of its
/// target. This holds whichever taps there are.
pub fn each_key_may_be_carried()
    ensures { (kasmes : List Term) (fits : Sight (List ℕ) → Sight (List ℕ) → Bool) (covers : Sight (List ℕ) → Bool) (family : List Move) (bound left kasme count : ℕ) (moves : List Move) (capture : List (Sight (List ℕ))) →
        IsExact fits → AreIn moves family →
        History (moved octet_reading (map value_of kasmes)) fits covers bound left (record { kasme = kasme; count = count; serving = None }) moves capture →
        AllCarry family capture }
{}

/// If each step of the chain is covered, each NH is at most so many steps further on than the one before as the core was asked for.
pub fn nhs_stay_in_reach()
    ensures { (kasmes : List Term) (fits : Sight (List ℕ) → Sight (List ℕ) → Bool) (covers : Sight (List ℕ) → Bool) (family : List Move) (bound left kasme count : ℕ) (moves : List Move) (capture : List (Sight (List ℕ))) →
        IsExact fits → AllStepsSeen covers family → AreIn moves family →
        History (moved octet_reading (map value_of kasmes)) fits covers bound left (record { kasme = kasme; count = count; serving = None }) moves capture →
        InReach 1 capture }
{}
