// Chain numbers and NCCs.

ghost use Rattle.std.specs.Prelude.{◌≡◌, ℕ, ◌<◌, ◌%◌};
ghost use Rattle.key_model.specs.Term.{Term, Star};
ghost use Rattle.key_model.specs.Chain.{nh, ncc_of};
ghost use Rattle.key_model.specs.Number.{chain_number};

/// The NCC of chain number i is i modulo 8 (TS 33.401 7.2.8.1.1).
pub fn ncc_is_number_modulo_eight()
    ensures value { (i : ℕ) → ncc_of i ≡ i % 8 }
    ensures bound { (i : ℕ) → ncc_of i < 8 }
{}

/// The key of number i of a chain has the number i, so no two keys of a chain are one, and a KeNB* has
/// the number of the key that it comes from (TS 33.401 7.2.8.1.1).
pub fn chain_numbers()
    ensures chain { (r : Term) (n i : ℕ) → chain_number (nh r n i) ≡ i }
    ensures apart { (r : Term) (n i j : ℕ) → nh r n i ≡ nh r n j → i ≡ j }
    ensures star { (t : Term) (pci earfcn : ℕ) → chain_number (Star t pci earfcn) ≡ chain_number t }
{}
