// What can be derived from a set of keys that has no KASME in it.

ghost use Rattle.std.specs.Prelude.{ℕ, ◌↔◌, ◌⊎◌, List};
ghost use Rattle.key_model.specs.Term.{Term, Root, Kenb, Nh, Star, IsWellFormed};
ghost use Rattle.key_model.specs.Chain.{nh};
ghost use Rattle.key_model.specs.Derivable.{Derivable, HasNoRoot, ComesFrom};

/// A type whose values stand for sets of keys, as the keys that some stations have held.
pub trait KeySet {
    /// The keys that are in the set.
    ghost contains: { Self → Term → Type 0 };
}

/// From a set with no KASME a well-formed key can be derived exactly where it comes from a key of the
/// set by KeNB* steps, followed, for an algorithm key, by one derivation of TS 33.401 A.7.
pub fn derivable_keys_come_from_the_set<S: KeySet>()
    ensures { (set : S) (t : Term) → HasNoRoot (S.contains set) → IsWellFormed t →
        Derivable (S.contains set) t ↔ ComesFrom (S.contains set) t }
{}

/// From a set with no KASME no KASME can be derived, and no KeNB or NH of a KASME but those of the set.
pub fn no_key_above_is_derivable<S: KeySet>()
    ensures root { (set : S) (r : ℕ) (octets : List ℕ) → HasNoRoot (S.contains set) →
        ¬ Derivable (S.contains set) (Root r octets) }
    ensures kenb { (set : S) (r n : ℕ) (octets : List ℕ) → HasNoRoot (S.contains set) →
        Derivable (S.contains set) (Kenb (Root r octets) n) ↔ S.contains set (Kenb (Root r octets) n) }
    ensures nh { (set : S) (r : ℕ) (octets : List ℕ) (t : Term) → HasNoRoot (S.contains set) →
        Derivable (S.contains set) (Nh (Root r octets) t) ↔ S.contains set (Nh (Root r octets) t) }
{}

/// From a set with no KASME the KeNB* of a key of a chain can be derived exactly if the set has it
/// or has that key: so a vertical key, of a chain number above 0, only from its NH.
pub fn star_is_derivable_from_its_nh<S: KeySet>()
    ensures { (set : S) (r n i pci earfcn : ℕ) (octets : List ℕ) → HasNoRoot (S.contains set) →
        Derivable (S.contains set) (Star (nh (Root r octets) n i) pci earfcn)
        ↔ (S.contains set (Star (nh (Root r octets) n i) pci earfcn) ⊎ S.contains set (nh (Root r octets) n i)) }
{}
