// Laws of sealing and opening.
ghost use Rattle.std.specs.Prelude.{◌≡◌, ℕ, ◌%◌, ◌<◌, ◌≤◌, List};
ghost use Rattle.key_model.specs.Least.{least};
ghost use Rattle.nas_count.specs.Estimate.{nas_count_limit};
ghost use Rattle.rec_base.specs.declared.uses.Dir.{Dir};
ghost use Rattle.alg_choice.specs.declared.algs.Eea.{Eea};
ghost use Rattle.nas_guard.specs.Cipher.{ciphered};
ghost use Rattle.nas_guard.specs.Keys.{Keys};
ghost use Rattle.nas_guard.specs.Seal.{sealed};
ghost use Rattle.nas_guard.specs.Open.{opened};

/// A message that was sealed opens to its header type, COUNT and text under the same keys and
/// algorithms and in the same direction, where its COUNT is the one that the receiver expects: the
/// least with its sequence number.
pub fn sealed_opens()
    ensures { (keys : Keys (List ℕ)) (header count next : ℕ) (dir : Dir) (text : List ℕ)
        → 1 ≤ header → header ≤ 4 → count < nas_count_limit → least next (count % 256) 256 ≡ count
        → opened keys next dir (sealed keys header count dir text) ≡ Ok (record { header = header; count = count; text = text }) }
{}

/// To cipher twice under one algorithm, key, COUNT, BEARER and DIRECTION gives the text back.
pub fn ciphered_twice_is_the_text()
    ensures { (eea : Eea) (key : List ℕ) (count bearer : ℕ) (dir : Dir) (text : List ℕ)
        → ciphered eea key count bearer dir (ciphered eea key count bearer dir text) ≡ text }
{}
