// The handover table: where phone and target agree, and the table as one reading of its lines.

ghost use Rattle.std.specs.Prelude.{◌≡◌, ℕ, ◌-◌, ◌<◌, ◌↔◌, Bool};
ghost use Rattle.key_model.specs.Term.{Term};
ghost use Rattle.key_model.specs.Chain.{ncc_of};
ghost use Rattle.key_model.specs.Number.{chain_number};
ghost use Rattle.key_model.specs.Reading.{term_reading_by};
ghost use Rattle.key_model.specs.HandoverTable.{chain_key, active_key, initial_key, next_pair, key_from_pair, key_from_active, changed_key, changed_at_phone, key_at_phone};
ghost use Rattle.key_model.specs.HandoverLines.{initial_line, pair_line, star_line, change_line, phone_keys, phone_line};

/// On a command of a number i above its own, a phone takes the vertical key of number i exactly where
/// i is fewer than eight above. On a command of its own number it takes the horizontal key of its
/// active KeNB (TS 33.401 7.2.8.4.4).
pub fn phone_shares_the_key()
    ensures vertical { (r t : Term) (n p i pci earfcn : ℕ) → chain_number t ≡ p → p < i →
        ((key_at_phone r n t p i pci earfcn).key ≡ (key_from_pair r n i pci earfcn).key) ↔ (i - p < 8) }
    ensures horizontal { (r t : Term) (n p pci earfcn : ℕ) → chain_number t ≡ p →
        key_at_phone r n t p p pci earfcn ≡ key_from_active t pci earfcn }
{}

/// Read in terms, the lines are those of the handover table, however keys are compared.
pub fn term_lines_are_the_table()
    ensures initial { (same : Term → Term → Bool) (r : Term) (n : ℕ) →
        initial_line (term_reading_by same) r n ≡ initial_key r n }
    ensures pair { (same : Term → Term → Bool) (r : Term) (n c : ℕ) →
        pair_line (term_reading_by same) r (chain_key r n c) ≡ next_pair r n c }
    ensures vertical { (same : Term → Term → Bool) (r : Term) (n i pci earfcn : ℕ) →
        star_line (term_reading_by same) (chain_key r n i) pci earfcn ≡ key_from_pair r n i pci earfcn }
    ensures horizontal { (same : Term → Term → Bool) (t : Term) (pci earfcn : ℕ) →
        star_line (term_reading_by same) (active_key t) pci earfcn ≡ key_from_active t pci earfcn }
    ensures change { (same : Term → Term → Bool) (t : Term) (pci earfcn : ℕ) →
        change_line (term_reading_by same) t pci earfcn ≡ changed_key t pci earfcn }
    ensures phone_change { (same : Term → Term → Bool) (r : Term) (pci earfcn : ℕ) →
        change_line (term_reading_by same) (initial_line (term_reading_by same) r 0).key pci earfcn
        ≡ changed_at_phone r pci earfcn }
    ensures phone { (same : Term → Term → Bool) (r t : Term) (n p i pci earfcn : ℕ) →
        phone_line (term_reading_by same) (phone_keys r n t p) (ncc_of i) pci earfcn
        ≡ key_at_phone r n t p i pci earfcn }
{}
