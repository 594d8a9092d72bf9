// Keys in octets, and how the reading in terms and the reading in octets hang together.

ghost use Rattle.std.specs.Prelude.{◌≡◌, ℕ, ◌↔◌, Bool, length, IsTrue};
ghost use Rattle.key_model.specs.Term.{Term, IsRoot, same_term};
ghost use Rattle.key_model.specs.Chain.{ncc_of};
ghost use Rattle.key_model.specs.Value.{value_of, same_value};
ghost use Rattle.key_model.specs.Use.{Use, map_use, same_use};
ghost use Rattle.key_model.specs.Reading.{Reading, Carries, octet_reading, term_reading};
ghost use Rattle.key_model.specs.HandoverLines.{CarriesLines};

/// Each key that is derived has 32 octets (TS 33.401 Annex A).
pub fn values_have_32_octets()
    ensures { (t : Term) → ¬ IsRoot t → length (value_of t) ≡ 32 }
{}

/// Two keys are tested as terms to be the same exactly where they are equal, and as values exactly
/// where their octets are equal.
pub fn same_is_equality()
    ensures term { (a b : Term) → IsTrue (same_term a b) ↔ (a ≡ b) }
    ensures value { (a b : Term) → IsTrue (same_value a b) ↔ (value_of a ≡ value_of b) }
{}

/// The values of keys and the NCCs of chain numbers carry the reading in terms to the reading in
/// octets.
pub fn term_reading_is_carried()
    ensures { Carries term_reading octet_reading value_of ncc_of }
{}

/// Where f and g carry one reading to another, they carry each line of the handover table.
pub fn lines_are_carried<K, C, L, D>()
    ensures { (r : Reading K C) (q : Reading L D) (f : K → L) (g : C → D) →
        Carries r q f g → CarriesLines r q f g }
{}

/// Where f carries the keys of one reading to another, two uses are the same in both or in neither.
pub fn uses_are_carried<K, C, L, D, Dir>()
    ensures { (r : Reading K C) (q : Reading L D) (f : K → L) (g : C → D) →
        Carries r q f g → (same_dir : Dir → Dir → Bool) (u v : Use K Dir) →
        same_use q.same same_dir (map_use f u) (map_use f v) ≡ same_use r.same same_dir u v }
{}
