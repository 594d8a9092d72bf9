// What shows a coincidence.
ghost use Rattle.std.specs.Prelude.{◌≡◌, ℕ, List};
ghost use Rattle.key_terms.specs.declared.proof.Proof.{Proof};
ghost use Rattle.lte_machine.specs.Tuples.{Coincidence};
ghost use Rattle.store_laws.specs.Proofs.{proof_of, coincidence_of};

/// What shows a coincidence tells which one it is, and each is shown by one value.
pub fn coincidences_are_shown()
    ensures coincidence { (c : Coincidence (List ℕ)) → coincidence_of (proof_of c) ≡ c }
    ensures shown { (p : Proof) → proof_of (coincidence_of p) ≡ p }
{}
